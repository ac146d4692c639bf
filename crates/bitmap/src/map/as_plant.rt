ghost use Rattle.std.specs.Prelude.{◌≡◌, ℕ, ◌*◌, ◌≤◌, false, List, length, MatchResult, sum_by};
ghost use Rattle.calendar.specs.Meaning.{is_held, live_count, held_count, first_taken};
ghost use Rattle.hour_bits.specs.Bits.{row, bits, bit_count, first_set};
ghost use Rattle.hour_bits.proofs.Keeping.{words_sound};
ghost use Rattle.bitmap.specs.Means.{map_means};

use super::Map;
use calendar::refusal::PlantRefusal;
use calendar::run::{Run, Size};
use hour_bits::row::{LiveRuns, count_held, count_starts};
use plant::Plant;

// The cell as a run of one hour.
fn cell(link: u8, channel: u8, hour: u8) -> Run
    ensures { result ≡ record { link = link; channel = channel; first = hour; hours = 1 } }
{
    Run {
        link,
        channel,
        first: hour,
        hours: 1,
    }
}

// The words of a map as rows.
impl Map {
    // How many runs are live.
    fn live_count(&self) -> u32
        ensures few { result ≤ self.now.links * self.now.channels * 168 }
        ensures count { result ≡ live_count (map_means self.now) }
    {
        let needed = self.links as usize * self.channels as usize * 6;
        let (rows, _) = self.words[..needed].as_chunks::<6>();
        count_starts(rows)
    }

    // The rows of the link's channels; none where the map has no such link. The bounds of the part rest on what `place`
    // promises of the base, which a closure would not see.
    fn rows_of(&self, link: u8) -> &[[u64; 6]]
        ensures few { length result.now ≤ 640 }
        ensures held { sum_by (λ (r : List ℕ). bit_count (row r 0)) result.now ≡ held_count (map_means self.now) link }
    {
        let Ok(base) = self.place(cell(link, 1, 0)) else {
            return &[];
        };
        let (rows, _) = self.words[base..base + self.channels as usize * 6].as_chunks::<6>();
        rows
    }

    // The live runs of the run's link and channel, if the map can have the run.
    fn runs_at(&self, run: Run) -> Result<LiveRuns, PlantRefusal>
        ensures { MatchResult result
            (λ runs. (bits runs.held run.first ≡ is_held (map_means self.now) run.link run.channel run.first) × (first_set (bits runs.held) run.first run.hours ≡ first_taken (map_means self.now) run))
            (λ _. (Some run.first ≡ first_taken (map_means self.now) run) × (run.hours ≡ 1 → false ≡ is_held (map_means self.now) run.link run.channel run.first)) }
    {
        let base = self.place(run)?;
        Ok(LiveRuns::load(&self.words, base))
    }
}

// What a map answers by its bits. Holding and releasing promise what they leave alone too, so they are the map's own.
impl Plant for Map {
    ghost meaning = { map_means };

    ghost sound = { λ s. words_sound s.words.items s.links s.channels s.kept };

    #[tactic(auto, unfolding(hour_bits::specs::Tables::mapped))]
    fn size(&self) -> Size {
        Size {
            links: self.links,
            channels: self.channels,
        }
    }

    // One more run can be live for each cell in which none starts.
    #[tactic(auto, unfolding(hour_bits::specs::Tables::mapped, calendar::specs::Meaning::room_of))]
    fn room(&self) -> u32 {
        self.links as u32 * self.channels as u32 * 168 - self.live_count()
    }

    #[tactic(auto, unfolding(hour_bits::specs::Tables::mapped))]
    fn closed(&self, link: u8, channel: u8, hour: u8) -> bool {
        !self.size().has_cell(link, channel, hour)
    }

    fn held(&self, link: u8, channel: u8, hour: u8) -> bool {
        // `is_ok_and` leaves open what its closure answers.
        match self.runs_at(cell(link, channel, hour)) {
            Ok(runs) => runs.held.has(hour),
            Err(_) => false,
        }
    }

    fn held_count(&self, link: u8) -> u32 {
        count_held(self.rows_of(link))
    }

    fn hold(&mut self, run: Run) -> Result<(), PlantRefusal> {
        Map::hold(self, run)
    }

    fn release(&mut self, run: Run) -> Result<(), PlantRefusal> {
        Map::release(self, run)
    }

    fn first_taken(&self, run: Run) -> Option<u8> {
        match self.runs_at(run) {
            Ok(runs) => runs.first_held(run),
            Err(_) => Some(run.first),
        }
    }
}
