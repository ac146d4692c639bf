ghost use Rattle.std.specs.Prelude.{◌≤◌, vec_len};
ghost use Rattle.calendar.specs.Rows.{Kept};

use calendar::refusal::Refused;
use calendar::run::Run;

pub mod calls;
pub mod rows;

// A plant that has a row for each live run. A row of no hours is empty, and is used again.
#[derive(Debug, PartialEq, Eq, Drop)]
pub struct Timetable {
    rows: Vec<Run>,
    links: u8,
    channels: u8,
    ghost few: { vec_len rows ≤ 4096 },
    ghost kept: { ∥ Kept rows.items links channels ∥₁ },
}

// A refusal to make a timetable, with the rows that were handed in.
pub type RefusedRows = Refused<Run>;
