ghost use Rattle.std.specs.Prelude.{◌≡◌, ℕ, ◌*◌, ◌<◌, ◌≤◌, false, length, slice_index, vec_len, MatchResult};
ghost use Rattle.calendar.specs.Numbers.{refusal_number, answer_number, making_number};
ghost use Rattle.calendar.specs.Making.{open_plant, map_number};
ghost use Rattle.calendar.specs.Meaning.{fits, hold_number, after_hold, release_number, after_release};
ghost use Rattle.hour_bits.specs.Tables.{Placed, FreeAt, LiveAt, Spare};
ghost use Rattle.bitmap.specs.Means.{map_means, Spares};

use super::{Map, RefusedWords};
use calendar::refusal::{MakingRefusal, PlantRefusal, Refused};
use calendar::run::{Run, sizes_fit};
use hour_bits::row::LiveRuns;
use plant::Plant;

// Clears the first `count` words.
fn wipe(words: &mut [u64], count: usize)
    requires { count ≤ length words.old }
    ensures zero { (i : ℕ) → i < count → slice_index words.new i ≡ 0 }
    ensures spare { Spare words.old words.new count }
{
    words[..count].fill(0);
}

// How many of so many words a map of that size needs, six for each link and channel, or why none can be made.
fn words_needed(words: usize, links: u32, channels: u32) -> Result<usize, MakingRefusal>
    ensures { MatchResult result
        (λ needed. (map_number links channels words ≡ 0) × (needed ≡ links * channels * 6))
        (λ why. map_number links channels words ≡ making_number why) }
{
    if !sizes_fit(links, channels) {
        return Err(MakingRefusal::BadSizes);
    }
    let needed = links as usize * channels as usize * 6;
    if words < needed {
        return Err(MakingRefusal::BadMemory);
    }
    Ok(needed)
}

// A map with no live run.
fn make(words: Vec<u64>, needed: usize, links: u32, channels: u32) -> Map
    requires sized { map_number links channels (vec_len words) ≡ 0 }
    requires six { needed ≡ links * channels * 6 }
    ensures means { map_means result ≡ open_plant links channels (links * channels * 168) }
    ensures spare { Spare words.items result.words.items (links * channels * 6) }
{
    let mut words = words;
    wipe(&mut words, needed);
    Map {
        words,
        links: links as u8,
        channels: channels as u8,
    }
}

impl Map {
    // A map with no live run, or the words back. Only the words needed are cleared.
    pub fn new(words: Vec<u64>, links: u32, channels: u32) -> Result<Map, RefusedWords>
        ensures { MatchResult result
            (λ m. (map_number links channels (vec_len words) ≡ 0) × (map_means m ≡ open_plant links channels (links * channels * 168)) × Spare words.items m.words.items (links * channels * 6))
            (λ e. (map_number links channels (vec_len words) ≡ making_number e.why) × (e.memory ≡ words)) }
    {
        // Either arm takes the words, so it is no `map_err`.
        match words_needed(words.len(), links, channels) {
            Ok(needed) => Ok(make(words, needed, links, channels)),
            Err(why) => Err(Refused { why, memory: words }),
        }
    }

    // Gives the words back.
    pub fn into_words(self) -> Vec<u64>
        ensures { result ≡ self.words }
    {
        let Map {
            words,
            links: _,
            channels: _,
        } = self;
        words
    }

    // Where the six words of the run's link and channel begin, if the map can have the run.
    pub(crate) fn place(&self, run: Run) -> Result<usize, PlantRefusal>
        ensures { MatchResult result
            (λ base. Placed self.now.words.items self.now.links self.now.channels run base)
            (λ why. (why ≡ PlantRefusal.OutOfRange) × (fits self.now.links self.now.channels run ≡ false)) }
    {
        if !run.fits(self.size()) {
            return Err(PlantRefusal::OutOfRange);
        }
        Ok(((run.link as usize - 1) * self.channels as usize + (run.channel as usize - 1)) * 6)
    }

    // Where the run can be held, or why it cannot. A free run always has room: the limit is the number of cells.
    fn free_place(&self, run: Run) -> Result<usize, PlantRefusal>
        ensures { MatchResult result
            (λ base. FreeAt self.now.words.items self.now.links self.now.channels run base)
            (λ why. (hold_number (map_means self.now) run ≡ refusal_number why) × (after_hold (map_means self.now) run ≡ map_means self.now)) }
    {
        let base = self.place(run)?;
        if !LiveRuns::load(&self.words, base).is_free(run) {
            return Err(PlantRefusal::CellHeld);
        }
        Ok(base)
    }

    // Where the run is live, or why it is not.
    fn live_place(&self, run: Run) -> Result<usize, PlantRefusal>
        ensures { MatchResult result
            (λ base. LiveAt self.now.words.items self.now.links self.now.channels run base)
            (λ why. (release_number (map_means self.now) run ≡ refusal_number why) × (after_release (map_means self.now) run ≡ map_means self.now)) }
    {
        let base = self.place(run)?;
        if !LiveRuns::load(&self.words, base).is_live(run) {
            return Err(PlantRefusal::NoSuchRun);
        }
        Ok(base)
    }

    // Writes a free run into its words.
    fn put(&mut self, base: usize, run: Run)
        requires { FreeAt self.old.words.items self.old.links self.old.channels run base }
        ensures answer { 0 ≡ hold_number (map_means self.old) run }
        ensures after { map_means self.new ≡ after_hold (map_means self.old) run }
        ensures spare { Spares self.old self.new }
    {
        let more = LiveRuns::load(&self.words, base).hold(run);
        more.store(&mut self.words, base);
    }

    // Clears a live run out of its words.
    fn take_out(&mut self, base: usize, run: Run)
        requires { LiveAt self.old.words.items self.old.links self.old.channels run base }
        ensures answer { 0 ≡ release_number (map_means self.old) run }
        ensures after { map_means self.new ≡ after_release (map_means self.old) run }
        ensures spare { Spares self.old self.new }
    {
        let fewer = LiveRuns::load(&self.words, base).release(run);
        fewer.store(&mut self.words, base);
    }

    // Adds exactly this run to the live ones, or refuses. Words past those needed are left alone.
    pub fn hold(&mut self, run: Run) -> Result<(), PlantRefusal>
        ensures answer { answer_number result ≡ hold_number (map_means self.old) run }
        ensures after { map_means self.new ≡ after_hold (map_means self.old) run }
        ensures spare { Spares self.old self.new }
    {
        let base = self.free_place(run)?;
        self.put(base, run);
        Ok(())
    }

    // Removes exactly this run from the live ones, or refuses. Words past those needed are left alone.
    pub fn release(&mut self, run: Run) -> Result<(), PlantRefusal>
        ensures answer { answer_number result ≡ release_number (map_means self.old) run }
        ensures after { map_means self.new ≡ after_release (map_means self.old) run }
        ensures spare { Spares self.old self.new }
    {
        let base = self.live_place(run)?;
        self.take_out(base, run);
        Ok(())
    }
}
