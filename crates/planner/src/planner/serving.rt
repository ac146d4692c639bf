ghost use Rattle.std.specs.Prelude.{◌≡◌};
ghost use Rattle.orders.specs.Calls.{said, answers_in, after};
ghost use Rattle.floor.specs.Plans.{reported};
ghost use Rattle.planner.specs.Law.{Served};
ghost use Rattle.planner.specs.Seen.{seen};

use super::Planner;
use floor::report::Report;
use floor::reporting::report;
use network::cost::Cost;
use orders::call::{Answer, Call, Slot};
use plant::Plant;

impl<P: Plant, C: Cost> Planner<P, C> {
    // Makes one call.
    pub fn call(&mut self, call: Call) -> Answer
        ensures answer { said result ≡ answers_in (seen P.meaning C.kind self.old) call }
        ensures state { seen P.meaning C.kind self.new ≡ after (seen P.meaning C.kind self.old) call }
    {
        match call {
            Call::Book(request) => self.book(request),
            Call::Place(request, channel, route) => self.place(request, channel, route),
            Call::Cancel(number) => self.cancel(number),
            Call::Shift(number, hour) => self.shift(number, hour),
        }
    }

    // What the orders that stand come to.
    pub fn report(&self) -> Report
        ensures { result ≡ reported self.now.net (seen P.meaning C.kind self.now).standing }
    {
        report(&self.net, &self.book)
    }

    // Makes each call on what the last one left, puts the answer beside it, and reports on what stands then. This is
    // the call that the programs make, and it bears the law over every list of calls.
    pub fn serve(&mut self, slots: &mut [Slot]) -> Report
        ensures { Served (seen P.meaning C.kind self.old) slots.old (seen P.meaning C.kind self.new) slots.new result }
    {
        for slot in slots.iter_mut() {
            let answer = self.call(slot.call);
            slot.answer = Some(answer);
        }
        self.report()
    }
}
