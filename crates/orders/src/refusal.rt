ghost use Rattle.std.specs.Prelude.{◌≡◌};
ghost use Rattle.orders.specs.Numbers.{refusal_number, refusal_place};

use std::error::Error;
use std::fmt;

// A cell: one channel of one link in one hour.
#[derive(Clone, Copy, Debug, Default, PartialEq, Eq)]
pub struct Cell {
    pub link: u8,
    pub channel: u8,
    pub hour: u8,
}

// Why a planner refuses a call, in the order of the checks.
#[derive(Clone, Copy, Debug, PartialEq, Eq)]
pub enum Refusal {
    FewerLinks,
    BadNumber,
    BadEnds,
    BadWidth,
    BadHours,
    StandsAlready,
    BookFull,
    NoWay,
    NotAPath,
    BadBlock,
    CellClosed(Cell),
    CellHeld(Cell),
    NoRoom,
    NotStanding,
}

impl Refusal {
    // Two refusals carry a cell, so the numbers cannot stand at the variants.
    pub fn number(self) -> u8
        ensures { result ≡ refusal_number self }
    {
        match self {
            Refusal::FewerLinks => 31,
            Refusal::BadNumber => 32,
            Refusal::BadEnds => 33,
            Refusal::BadWidth => 34,
            Refusal::BadHours => 35,
            Refusal::StandsAlready => 36,
            Refusal::BookFull => 37,
            Refusal::NoWay => 38,
            Refusal::NotAPath => 41,
            Refusal::BadBlock => 42,
            Refusal::CellClosed(_) => 43,
            Refusal::CellHeld(_) => 44,
            Refusal::NoRoom => 39,
            Refusal::NotStanding => 45,
        }
    }

    // The cell that is not free; zeros where no cell is named.
    pub fn place(self) -> Cell
        ensures { result ≡ refusal_place self }
    {
        match self {
            Refusal::CellClosed(cell) => cell,
            Refusal::CellHeld(cell) => cell,
            _ => Cell::default(),
        }
    }
}

impl fmt::Display for Refusal {
    fn fmt<W: fmt::Write>(&self, f: &mut fmt::Formatter<W>) -> fmt::Result {
        f.write_str(match self {
            Refusal::FewerLinks => "the plant has fewer links than the network",
            Refusal::BadNumber => "no order may have the number",
            Refusal::BadEnds => "the ends are not two places",
            Refusal::BadWidth => "no order may be so wide",
            Refusal::BadHours => "the hours are not hours of the week",
            Refusal::StandsAlready => "an order of the number stands already",
            Refusal::BookFull => "the book is full",
            Refusal::NoWay => "no way",
            Refusal::NotAPath => "the links are not a path",
            Refusal::BadBlock => "the block is not within the channels",
            Refusal::CellClosed(_) => "a cell is closed",
            Refusal::CellHeld(_) => "a cell is held",
            Refusal::NoRoom => "no room",
            Refusal::NotStanding => "no order of the number stands",
        })
    }
}

impl Error for Refusal {}
