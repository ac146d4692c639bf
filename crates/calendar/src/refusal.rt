ghost use Rattle.std.specs.Prelude.{◌≡◌};
ghost use Rattle.calendar.specs.Numbers.{refusal_number, answer_number, making_number};

use std::error::Error;
use std::fmt;

// Why a plant refuses to hold or release a run. A refusal is the number that it is listed by.
#[derive(Clone, Copy, Debug, PartialEq, Eq)]
pub enum PlantRefusal {
    OutOfRange = 21,
    CellClosed = 22,
    CellHeld = 23,
    NoRoom = 24,
    NoSuchRun = 25,
}

impl PlantRefusal {
    pub fn number(self) -> u8
        ensures { result ≡ refusal_number self }
    {
        self as u8
    }
}

impl fmt::Display for PlantRefusal {
    fn fmt<W: fmt::Write>(&self, f: &mut fmt::Formatter<W>) -> fmt::Result {
        f.write_str(match self {
            PlantRefusal::OutOfRange => "out of range",
            PlantRefusal::CellClosed => "a cell is closed",
            PlantRefusal::CellHeld => "a cell is held",
            PlantRefusal::NoRoom => "no room",
            PlantRefusal::NoSuchRun => "no such live run",
        })
    }
}

impl Error for PlantRefusal {}

// Why a plant, or the table of a layer, is not made.
#[derive(Clone, Copy, Debug, PartialEq, Eq)]
pub enum MakingRefusal {
    BadSizes = 11,
    BadMemory = 12,
    BadTable = 13,
}

impl MakingRefusal {
    pub fn number(self) -> u8
        ensures { result ≡ making_number self }
    {
        self as u8
    }
}

impl fmt::Display for MakingRefusal {
    fn fmt<W: fmt::Write>(&self, f: &mut fmt::Formatter<W>) -> fmt::Result {
        f.write_str(match self {
            MakingRefusal::BadSizes => "the sizes are outside the limits",
            MakingRefusal::BadMemory => "the memory does not fit",
            MakingRefusal::BadTable => "the table is not one",
        })
    }
}

impl Error for MakingRefusal {}

// The number of an answer: 0 where the call was done.
pub fn answer_number(answer: Result<(), PlantRefusal>) -> u8
    ensures { result ≡ answer_number answer }
{
    match answer {
        Ok(()) => 0,
        Err(why) => why.number(),
    }
}

// A refusal to make a plant, with the memory that was handed in.
#[derive(Debug, Drop)]
pub struct Refused<T> {
    pub why: MakingRefusal,
    pub memory: Vec<T>,
}

impl<T: fmt::Debug + Drop> fmt::Display for Refused<T> {
    fn fmt<W: fmt::Write>(&self, f: &mut fmt::Formatter<W>) -> fmt::Result {
        self.why.fmt(f)
    }
}

impl<T: fmt::Debug + Drop> Error for Refused<T> {}
