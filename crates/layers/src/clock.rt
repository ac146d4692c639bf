ghost use Rattle.std.specs.Prelude.{◌≡◌, MatchOption};
ghost use Rattle.calendar.specs.Meaning.{size_of, first_taken};
ghost use Rattle.calendar.specs.Layers.{clocked};
ghost use Rattle.calendar.proofs.Clocked.{clocked_sound};
ghost use Rattle.layers.specs.Below.{Passed, HourStands, NoHour, RunStands, OutOfRange, unmoved};
ghost use Rattle.layers.specs.Means.{clock_means};

use super::offset::Offset;
use calendar::refusal::PlantRefusal;
use calendar::run::{Run, Size};
use plant::Plant;

// A plant in another time: hour h is hour (h + offset) mod 168 of the plant below.
#[derive(Drop)]
pub struct Clock<P> {
    below: P,
    table: Offset,
}

impl<P: Plant> Clock<P> {
    pub fn new(below: P, table: Offset) -> Clock<P>
        ensures { clock_means P.meaning result ≡ clocked table.hours (P.meaning below) }
    {
        Clock { below, table }
    }

    // Gives the plant below back.
    pub fn into_below(self) -> P
        ensures { result ≡ self.below }
    {
        let Clock { below, .. } = self;
        below
    }

    // The plant below: its sizes, room and numbers of held cells are the clock's too.
    fn plant_below(&self) -> &P
        ensures plant { result.now ≡ self.now.below }
        ensures size { size_of (clock_means P.meaning self.now) ≡ size_of (P.meaning result.now) }
        ensures passed { Passed (clocked self.now.table.hours) (P.meaning result.now) }
    {
        &self.below
    }

    // The hour that stands for it below. An hour outside the week has none: the turn would make an hour of it.
    fn hour_below(&self, hour: u8) -> Option<u8>
        ensures { MatchOption result (NoHour (clock_means P.meaning self.now) hour) (λ k. HourStands (clocked self.now.table.hours) (P.meaning self.now.below) hour k) }
    {
        (hour < 168).then(|| self.table.moved(hour))
    }

    // The run that stands for it below, if it begins in the week.
    fn run_below(&self, run: Run) -> Option<Run>
        ensures { MatchOption result (OutOfRange (clock_means P.meaning self.now) run) (λ s. RunStands (clocked self.now.table.hours) (P.meaning self.now.below) run s × (first_taken (clock_means P.meaning self.now) run ≡ unmoved self.now.table.hours (first_taken (P.meaning self.now.below) s))) }
    {
        (run.first < 168).then(|| Run {
            first: self.table.moved(run.first),
            ..run
        })
    }
}

impl<P: Plant> Plant for Clock<P> {
    ghost meaning = { clock_means P.meaning };

    ghost sound = { λ s. clocked_sound s.table.hours s.table.week (P.meaning s.below) (P.sound s.below) };

    fn size(&self) -> Size {
        self.plant_below().size()
    }

    fn room(&self) -> u32 {
        self.plant_below().room()
    }

    fn closed(&self, link: u8, channel: u8, hour: u8) -> bool {
        self.hour_below(hour)
            .is_none_or(|below| self.below.closed(link, channel, below))
    }

    fn held(&self, link: u8, channel: u8, hour: u8) -> bool {
        self.hour_below(hour)
            .is_some_and(|below| self.below.held(link, channel, below))
    }

    fn held_count(&self, link: u8) -> u32 {
        self.plant_below().held_count(link)
    }

    fn hold(&mut self, run: Run) -> Result<(), PlantRefusal> {
        let below = self.run_below(run).ok_or(PlantRefusal::OutOfRange)?;
        self.below.hold(below)
    }

    fn release(&mut self, run: Run) -> Result<(), PlantRefusal> {
        let below = self.run_below(run).ok_or(PlantRefusal::OutOfRange)?;
        self.below.release(below)
    }

    fn first_taken(&self, run: Run) -> Option<u8> {
        match self.run_below(run) {
            Some(below) => self.table.unmoved(self.below.first_taken(below)),
            None => Some(run.first),
        }
    }
}
