ghost use Rattle.std.specs.Prelude.{◌≡◌, ℕ, ◌||◌, if◌then◌else◌, Some, MatchOption};
ghost use Rattle.calendar.specs.Meaning.{size_of, is_held, hold_number, after_hold, first_taken};
ghost use Rattle.calendar.specs.Layers.{windowed, shut};
ghost use Rattle.calendar.proofs.Windowed.{windowed_sound};
ghost use Rattle.layers.specs.Below.{Passed, before_window};
ghost use Rattle.layers.specs.Means.{windows_means};

use super::window_table::WindowTable;
use calendar::refusal::PlantRefusal;
use calendar::run::{Run, Size};
use plant::Plant;

// A plant with windows: all channels of a window's link are closed too in its hours.
// A window on a link that the plant lacks closes nothing.
#[derive(Drop)]
pub struct Windows<P> {
    below: P,
    table: WindowTable,
}

// The hour found in the first part of the run; else the hour after that part, unless the run ends there.
fn before_window(run: Run, part: Run, found: Option<u8>) -> Option<u8>
    ensures { result ≡ before_window run part.hours found }
{
    found.or_else(|| run.hour_at(part.hours))
}

impl<P: Plant> Windows<P> {
    pub fn new(below: P, table: WindowTable) -> Windows<P>
        ensures { windows_means P.meaning result ≡ windowed table.windows table.count (P.meaning below) }
    {
        Windows { below, table }
    }

    // Gives the plant below back.
    pub fn into_below(self) -> P
        ensures { result ≡ self.below }
    {
        let Windows { below, .. } = self;
        below
    }

    // The plant below: its sizes, room and held cells are the layer's too, and its closed cells but for the windows.
    fn plant_below(&self) -> &P
        ensures plant { result.now ≡ self.now.below }
        ensures size { size_of (windows_means P.meaning self.now) ≡ size_of (P.meaning result.now) }
        ensures passed { Passed (windowed self.now.table.windows self.now.table.count) (P.meaning result.now) }
        ensures held { (l c h : ℕ) → is_held (windows_means P.meaning self.now) l c h ≡ is_held (P.meaning result.now) l c h }
        ensures closed { (l c h : ℕ) → (windows_means P.meaning self.now).closed l c h ≡ ((P.meaning result.now).closed l c h || shut self.now.table.windows self.now.table.count l h) }
    {
        &self.below
    }

    // Whether the plant below can have the run, and a window is in its way.
    fn bars(&self, run: Run) -> bool
        ensures held { hold_number (windows_means P.meaning self.now) run ≡ (if result then 22 else hold_number (P.meaning self.now.below) run) }
        ensures after { after_hold (windows_means P.meaning self.now) run ≡ windowed self.now.table.windows self.now.table.count (if result then P.meaning self.now.below else after_hold (P.meaning self.now.below) run) }
    {
        run.fits(self.below.size()) && self.table.open_hours(run) < run.hours
    }

    // The hours of the run before the first that a window shuts; none where it is not free from the start.
    fn open_part(&self, run: Run) -> Option<Run>
        ensures { MatchOption result (first_taken (windows_means P.meaning self.now) run ≡ Some run.first) (λ s. first_taken (windows_means P.meaning self.now) run ≡ before_window run s.hours (first_taken (P.meaning self.now.below) s)) }
    {
        if !run.fits(self.below.size()) {
            return None;
        }
        let open = self.table.open_hours(run);
        (open > 0).then_some(Run { hours: open, ..run })
    }
}

impl<P: Plant> Plant for Windows<P> {
    ghost meaning = { windows_means P.meaning };

    ghost sound = { λ s. windowed_sound s.table.windows s.table.count (P.meaning s.below) (P.sound s.below) };

    fn size(&self) -> Size {
        self.plant_below().size()
    }

    fn room(&self) -> u32 {
        self.plant_below().room()
    }

    fn closed(&self, link: u8, channel: u8, hour: u8) -> bool {
        self.plant_below().closed(link, channel, hour) || self.table.shuts(link, hour)
    }

    fn held(&self, link: u8, channel: u8, hour: u8) -> bool {
        self.plant_below().held(link, channel, hour)
    }

    fn held_count(&self, link: u8) -> u32 {
        self.plant_below().held_count(link)
    }

    fn hold(&mut self, run: Run) -> Result<(), PlantRefusal> {
        if self.bars(run) {
            Err(PlantRefusal::CellClosed)
        } else {
            self.below.hold(run)
        }
    }

    fn release(&mut self, run: Run) -> Result<(), PlantRefusal> {
        self.below.release(run)
    }

    fn first_taken(&self, run: Run) -> Option<u8> {
        match self.open_part(run) {
            Some(part) => before_window(run, part, self.below.first_taken(part)),
            None => Some(run.first),
        }
    }
}
