ghost use Rattle.std.specs.Prelude.{◌≡◌, ℕ, ◌+◌, ◌<◌, ◌≤◌, not, ◌==◌, true, List, length, sum_by};
ghost use Rattle.calendar.specs.Week.{any, later};
ghost use Rattle.hour_bits.specs.Bits.{row, bits, bit_count, goes_on, lasts, has_run, first_set, Shown, Stored, Marked, Unmarked};

use crate::set::HourSet;
use calendar::hours::hour_after;
use calendar::run::Run;

// The live runs of one channel of one link: the hours they hold, and the hours in which one starts.
#[derive(Clone, Copy, Debug, PartialEq, Eq)]
pub struct LiveRuns {
    pub held: HourSet,
    pub starts: HourSet,
}

impl LiveRuns {
    // The live runs that the six words at `base` show: the held hours, then the starts.
    pub fn load(words: &[u64], base: usize) -> LiveRuns
        requires { base + 6 ≤ length words.now }
        ensures { Shown words.now base result }
    {
        LiveRuns {
            held: HourSet::load(words, base),
            starts: HourSet::load(words, base + 3),
        }
    }

    // Writes them into the six words at `base`.
    pub fn store(self, words: &mut [u64], base: usize)
        requires { base + 6 ≤ length words.old }
        ensures { Stored words.old words.new base (bits self.held) (bits self.starts) }
    {
        words[base..base + 3].copy_from_slice(&self.held.words);
        words[base + 3..base + 6].copy_from_slice(&self.starts.words);
    }

    // Whether no hour of the run is held.
    pub fn is_free(self, run: Run) -> bool
        ensures { result ≡ not (any run.hours (λ j. bits self.held (later run.first j))) }
    {
        !self.held.meets_run(run.first, run.hours)
    }

    // The first held hour of the run, if any. Only a run that is not free is walked through.
    pub fn first_held(self, run: Run) -> Option<u8>
        ensures { result ≡ first_set (bits self.held) run.first run.hours }
    {
        if self.is_free(run) {
            return None;
        }
        self.held.first_in(run.first, run.hours)
    }

    // Whether the hour is held and no run starts in it.
    fn goes_on(self, hour: u8) -> bool
        ensures { result ≡ goes_on (bits self.held) (bits self.starts) hour }
    {
        self.held.has(hour) && !self.starts.has(hour)
    }

    // Whether the run that starts where this one does has as many hours.
    fn lasts(self, run: Run) -> bool
        requires some { 1 ≤ run.hours }
        requires most { run.hours ≤ 168 }
        requires starts { bits self.starts run.first ≡ true }
        ensures { result ≡ (lasts (bits self.held) (bits self.starts) run.first == run.hours) }
    {
        let rest = HourSet::run(hour_after(run.first, 1), run.hours - 1);
        self.held.is_superset(rest)
            && !self.starts.meets(rest)
            && (run.hours == 168 || !self.goes_on(hour_after(run.first, run.hours)))
    }

    // Whether exactly this run is live.
    pub fn is_live(self, run: Run) -> bool
        ensures { result ≡ has_run (bits self.held) (bits self.starts) run.first run.hours }
    {
        (1..=168).contains(&run.hours) && self.starts.has(run.first) && self.lasts(run)
    }

    // The live runs with this one put in.
    pub fn hold(self, run: Run) -> LiveRuns
        ensures { Marked self result run.first run.hours }
    {
        LiveRuns {
            held: self.held.with(HourSet::run(run.first, run.hours)),
            starts: self.starts.with(HourSet::run(run.first, 1)),
        }
    }

    // The live runs with this one taken out.
    pub fn release(self, run: Run) -> LiveRuns
        ensures { Unmarked self result run.first run.hours }
    {
        LiveRuns {
            held: self.held.without(HourSet::run(run.first, run.hours)),
            starts: self.starts.without(HourSet::run(run.first, 1)),
        }
    }
}

// How many bits are set in the row of three words at `at`.
fn row_count(words: &[u64], at: usize) -> u32
    requires { at + 3 ≤ length words.now }
    ensures most { result ≤ 168 }
    ensures is { result ≡ bit_count (row words.now at) }
{
    HourSet::load(words, at).count()
}

// How many bits are set in the rows at `at`, one of each six words.
fn count_rows(rows: &[[u64; 6]], at: usize) -> u32
    requires few { length rows.now ≤ 640 }
    requires inside { at ≤ 3 }
    ensures { result ≡ sum_by (λ (r : List ℕ). bit_count (row r at)) rows.now }
{
    let mut count = 0;
    for row in rows {
        count += row_count(row, at);
    }
    count
}

// How many hours are held, over the six words of each of some channels.
pub fn count_held(rows: &[[u64; 6]]) -> u32
    requires { length rows.now ≤ 640 }
    ensures { result ≡ sum_by (λ (r : List ℕ). bit_count (row r 0)) rows.now }
{
    count_rows(rows, 0)
}

// How many runs are live, over the six words of each of some channels.
pub fn count_starts(rows: &[[u64; 6]]) -> u32
    requires { length rows.now ≤ 640 }
    ensures { result ≡ sum_by (λ (r : List ℕ). bit_count (row r 3)) rows.now }
{
    count_rows(rows, 3)
}
