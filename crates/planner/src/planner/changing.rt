ghost use Rattle.std.specs.Prelude.{◌≡◌};
ghost use Rattle.orders.specs.Calls.{said, answers_in, after};
ghost use Rattle.orders.specs.declared.call.Call.TheVariants.{Cancel as CancelOf, Shift as ShiftOf};
ghost use Rattle.planner.specs.Seen.{seen};

use super::Planner;
use crate::runs::{each_run, first_fault};
use network::cost::Cost;
use orders::call::{Accepted, Answer};
use orders::refusal::Refusal;
use plant::Plant;

impl<P: Plant, C: Cost> Planner<P, C> {
    // Gives back every run of the order of this number, and closes up the book.
    pub fn cancel(&mut self, number: u32) -> Answer
        ensures answer { said result ≡ answers_in (seen P.meaning C.kind self.old) (CancelOf number) }
        ensures state { seen P.meaning C.kind self.new ≡ after (seen P.meaning C.kind self.old) (CancelOf number) }
    {
        let i = self.book.find(number).ok_or(Refusal::NotStanding)?;
        let row = self.book.rows[i];
        each_run(&mut self.plant, &row, P::release);
        self.book.remove(i);
        Ok(Accepted::Cancelled(row.order.number))
    }

    // Gives the order of this number a new first hour with the same way. Its own old cells count as free.
    pub fn shift(&mut self, number: u32, hour: u32) -> Answer
        ensures answer { said result ≡ answers_in (seen P.meaning C.kind self.old) (ShiftOf number hour) }
        ensures state { seen P.meaning C.kind self.new ≡ after (seen P.meaning C.kind self.old) (ShiftOf number hour) }
    {
        let i = self.book.find(number).ok_or(Refusal::NotStanding)?;
        if hour >= 168 {
            return Err(Refusal::BadHours);
        }
        let old = self.book.rows[i];
        let mut new = old;
        new.order.first = hour as u8;
        // A fault is what is looked for, so it is no error until here: no method of Option says this more plainly.
        if let Some(why) = first_fault(&self.plant, Some(&old), &new) {
            return Err(why);
        }
        each_run(&mut self.plant, &old, P::release);
        each_run(&mut self.plant, &new, P::hold);
        self.book.set_hour(i, hour as u8);
        Ok(Accepted::Stands(new))
    }
}
