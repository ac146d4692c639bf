ghost use Rattle.std.specs.Prelude.{◌≡◌, MatchResult};
ghost use Rattle.orders.specs.Calls.{said, answers_in, after};
ghost use Rattle.orders.specs.Standing.{stood};
ghost use Rattle.orders.specs.declared.call.Accepted.TheVariants.{Stands};
ghost use Rattle.orders.specs.declared.call.Call.TheVariants.{Book as BookOf, Place as PlaceOf};
ghost use Rattle.planner.specs.Seen.{seen};
ghost use Rattle.planner.specs.Taking.{Takes, Refuses, joined};

use super::Planner;
use crate::runs::{each_run, first_fault};
use network::cost::Cost;
use network::usable::Usable;
use orders::call::{Accepted, Answer};
use orders::refusal::Refusal;
use orders::request::Request;
use orders::row::Row;
use plant::Plant;
use ways::find::find_way;
use ways::route::{Route, named_path};
use ways::way::Way;

impl<P: Plant, C: Cost> Planner<P, C> {
    // The order with the way that the search finds for it, if book has nothing to refuse.
    fn found_row(&mut self, request: Request) -> Result<Row, Refusal>
        ensures row { MatchResult result
            (λ row. Takes (seen P.meaning C.kind self.old) (BookOf request) (stood row))
            (λ why. Refuses (seen P.meaning C.kind self.old) (BookOf request) why) }
        ensures same { seen P.meaning C.kind self.new ≡ seen P.meaning C.kind self.old }
    {
        let order = self.checked_order(request)?;
        let all = Usable::all();
        let way = find_way(
            &self.plant,
            &self.net,
            &all,
            &mut self.space,
            order,
            self.fit,
        )
        .ok_or(Refusal::NoWay)?;
        let row = Row { order, way };
        if self.plant.room() < row.runs_needed() {
            return Err(Refusal::NoRoom);
        }
        Ok(row)
    }

    // The order with the way that is given, if place has nothing to refuse.
    fn given_row(&self, request: Request, channel: u32, route: Route) -> Result<Row, Refusal>
        ensures { MatchResult result
            (λ row. Takes (seen P.meaning C.kind self.now) (PlaceOf request channel route) (stood row))
            (λ why. Refuses (seen P.meaning C.kind self.now) (PlaceOf request channel route) why) }
    {
        let order = self.checked_order(request)?;
        let path = named_path(&self.net, order.from, order.to, route).ok_or(Refusal::NotAPath)?;
        let channel = self
            .checked_block(channel, order.width)
            .ok_or(Refusal::BadBlock)?;
        let way = Way { channel, path };
        let row = Row { order, way };
        // A fault is what is looked for, so it is no error until here.
        if let Some(why) = first_fault(&self.plant, None, &row) {
            return Err(why);
        }
        if self.plant.room() < row.runs_needed() {
            return Err(Refusal::NoRoom);
        }
        Ok(row)
    }

    // Puts the order into the plant, and at the end of the book.
    fn take(&mut self, row: &Row) -> Accepted
        ensures answer { result ≡ Stands row.now }
        ensures state { seen P.meaning C.kind self.new ≡ joined (seen P.meaning C.kind self.old) (stood row.now) }
    {
        each_run(&mut self.plant, row, P::hold);
        self.book.push(*row);
        Accepted::Stands(*row)
    }

    // Finds the order a way, and takes it.
    pub fn book(&mut self, request: Request) -> Answer
        ensures answer { said result ≡ answers_in (seen P.meaning C.kind self.old) (BookOf request) }
        ensures state { seen P.meaning C.kind self.new ≡ after (seen P.meaning C.kind self.old) (BookOf request) }
    {
        let row = self.found_row(request)?;
        Ok(self.take(&row))
    }

    // Takes the way that is given: a first channel and a path.
    pub fn place(&mut self, request: Request, channel: u32, route: Route) -> Answer
        ensures answer { said result ≡ answers_in (seen P.meaning C.kind self.old) (PlaceOf request channel route) }
        ensures state { seen P.meaning C.kind self.new ≡ after (seen P.meaning C.kind self.old) (PlaceOf request channel route) }
    {
        let row = self.given_row(request, channel, route)?;
        Ok(self.take(&row))
    }
}
