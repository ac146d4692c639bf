#![tactic(auto)]

pub mod timetable;

ghost use Rattle.std.specs.Prelude.{◌≡◌};
ghost use Rattle.calendar.specs.Numbers.{answer_number};
ghost use Rattle.calendar.specs.Meaning.{Meaning, Sound, size_of, room_of, is_held, held_count, hold_number, after_hold, release_number, after_release, taken, first_taken};

use calendar::hours::hour_after;
use calendar::refusal::PlantRefusal;
use calendar::run::{Run, Size};

// A plant: links and channels, closed cells, live runs, and a limit on the number of live runs.
// Everything above the plants rests on this trait alone. Questions and refusals leave the meaning as it was.
pub trait Plant {
    ghost meaning: { Self → Meaning };

    ghost sound: { (s : Self) → Sound (meaning s) };

    fn size(&self) -> Size
        ensures { result ≡ size_of (meaning self.now) };

    // How many more runs can be live.
    fn room(&self) -> u32
        ensures { result ≡ room_of (meaning self.now) };

    fn closed(&self, link: u8, channel: u8, hour: u8) -> bool
        ensures { result ≡ (meaning self.now).closed link channel hour };

    fn held(&self, link: u8, channel: u8, hour: u8) -> bool
        ensures { result ≡ is_held (meaning self.now) link channel hour };

    // The number of held cells of the link.
    fn held_count(&self, link: u8) -> u32
        ensures { result ≡ held_count (meaning self.now) link };

    // Adds exactly this run to the live ones, or refuses.
    fn hold(&mut self, run: Run) -> Result<(), PlantRefusal>
        ensures answer { answer_number result ≡ hold_number (meaning self.old) run }
        ensures after { meaning self.new ≡ after_hold (meaning self.old) run };

    // Removes exactly this run from the live ones, or refuses.
    fn release(&mut self, run: Run) -> Result<(), PlantRefusal>
        ensures answer { answer_number result ≡ release_number (meaning self.old) run }
        ensures after { meaning self.new ≡ after_release (meaning self.old) run };

    // Whether the cell is closed or held, so that no further run can have it.
    fn taken(&self, link: u8, channel: u8, hour: u8) -> bool
        ensures { result ≡ taken (meaning self.now) link channel hour }
    {
        self.closed(link, channel, hour) || self.held(link, channel, hour)
    }

    // The first hour of the run that is closed or held, if any; the run's first hour where the plant cannot have it.
    fn first_taken(&self, run: Run) -> Option<u8>
        ensures { result ≡ first_taken (meaning self.now) run }
    {
        if !run.fits(self.size()) {
            return Some(run.first);
        }
        // A loop, since the proof of a chain with `find` learns nothing of a test that the plant itself answers.
        for j in 0..run.hours {
            let hour = hour_after(run.first, j);
            if self.taken(run.link, run.channel, hour) {
                return Some(hour);
            }
        }
        None
    }
}
