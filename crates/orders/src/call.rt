ghost use Rattle.std.specs.Prelude.{◌≡◌, None};

use crate::refusal::Refusal;
use crate::request::Request;
use crate::row::Row;
use ways::route::Route;

// What a dispatcher asks of a planner, in numbers of any value.
#[derive(Clone, Copy, Debug, PartialEq)]
pub enum Call {
    // Find the order a way, and take it.
    Book(Request),
    // Take the way given: a first channel and a path.
    Place(Request, u32, Route),
    // Give back every run of the order of this number.
    Cancel(u32),
    // Give the order of this number a new first hour, with the same way.
    Shift(u32, u32),
}

// What an accepted call leaves of its order.
#[derive(Clone, Copy, Debug, PartialEq)]
pub enum Accepted {
    // It stands in this row.
    Stands(Row),
    // The order of this number stands no more.
    Cancelled(u16),
}

pub type Answer = Result<Accepted, Refusal>;

// A call, and beside it room for its answer.
#[derive(Clone, Copy, Debug, PartialEq)]
pub struct Slot {
    pub call: Call,
    pub answer: Option<Answer>,
}

// A call that has no answer yet.
impl From<Call> for Slot {
    ghost from_gives = { λ c s. s ≡ record { call = c; answer = None } };

    fn from(call: Call) -> Slot {
        Slot { call, answer: None }
    }
}
