ghost use Rattle.std.specs.Prelude.{◌≡◌, ℕ, ◌+◌, ◌<◌, ◌≤◌, not, ◌&&◌, ◌||◌, length};
ghost use Rattle.calendar.specs.Week.{any, later, covers};
ghost use Rattle.hour_bits.specs.Bits.{row, bits, bit_count, first_set};

use super::HourSet;
use crate::word::{bit_of, run_mask};
use calendar::hours::hour_after;

impl HourSet {
    // The hours whose bits are set in three words. The third has the last 40.
    pub(crate) fn of_words(words: [u64; 3]) -> HourSet
        ensures { (h : ℕ) → h < 168 → bits result h ≡ row words 0 h }
    {
        HourSet {
            words: [words[0], words[1], words[2] & 0xff_ffff_ffff],
        }
    }

    // The hours whose bits are set in the row of three words at `base`.
    pub(crate) fn load(words: &[u64], base: usize) -> HourSet
        requires { base + 3 ≤ length words.now }
        ensures { (h : ℕ) → h < 168 → bits result h ≡ row words.now base h }
    {
        HourSet::of_words([words[base], words[base + 1], words[base + 2]])
    }

    // The hours of a run. The week turns, and no run has an hour twice.
    pub(crate) fn run(first: u8, hours: u8) -> HourSet
        ensures { (h : ℕ) → h < 168 → bits result h ≡ covers first hours h }
    {
        let first = first as usize % 168;
        let hours = hours.min(168) as usize;
        HourSet::of_words([
            run_mask(0, first, hours),
            run_mask(1, first, hours),
            run_mask(2, first, hours),
        ])
    }

    // The hours in either set. Each of these three names its operator word by word: a closure for it would need a
    // contract that is longer than the body.
    pub(crate) fn with(self, other: HourSet) -> HourSet
        ensures { (h : ℕ) → h < 168 → bits result h ≡ (bits self h || bits other h) }
    {
        HourSet::of_words([
            self.words[0] | other.words[0],
            self.words[1] | other.words[1],
            self.words[2] | other.words[2],
        ])
    }

    // The hours in this set alone.
    pub(crate) fn without(self, other: HourSet) -> HourSet
        ensures { (h : ℕ) → h < 168 → bits result h ≡ (bits self h && not (bits other h)) }
    {
        HourSet::of_words([
            self.words[0] & !other.words[0],
            self.words[1] & !other.words[1],
            self.words[2] & !other.words[2],
        ])
    }

    // The hours in both sets.
    fn both(self, other: HourSet) -> HourSet
        ensures { (h : ℕ) → h < 168 → bits result h ≡ (bits self h && bits other h) }
    {
        HourSet::of_words([
            self.words[0] & other.words[0],
            self.words[1] & other.words[1],
            self.words[2] & other.words[2],
        ])
    }

    // Whether no hour is in the set.
    pub(crate) fn is_empty(self) -> bool
        ensures { result ≡ not (any 168 (bits self)) }
    {
        self.words.iter().all(|word| *word == 0)
    }

    // Whether some hour is in both sets.
    pub(crate) fn meets(self, other: HourSet) -> bool
        ensures { result ≡ any 168 (λ h. bits self h && bits other h) }
    {
        !self.both(other).is_empty()
    }

    // Whether some hour of a run is in the set.
    pub(crate) fn meets_run(self, first: u8, hours: u8) -> bool
        ensures { result ≡ any hours (λ j. bits self (later first j)) }
    {
        self.meets(HourSet::run(first, hours))
    }

    // Whether every hour of the other set is in this one.
    pub(crate) fn is_superset(self, other: HourSet) -> bool
        ensures { result ≡ not (any 168 (λ h. not (bits self h) && bits other h)) }
    {
        other.without(self).is_empty()
    }

    // Whether the hour is in the set.
    pub fn has(self, hour: u8) -> bool
        ensures { result ≡ bits self hour }
    {
        self.words
            .get(hour as usize / 64)
            .is_some_and(|word| bit_of(*word, hour as usize % 64))
    }

    // How many hours are in the set. Three terms: for the sum of a chain the bound of each count stays unproved.
    pub(crate) fn count(self) -> u32
        ensures { result ≡ bit_count (bits self) }
    {
        let [early, middle, late] = self.words;
        early.count_ones() + middle.count_ones() + late.count_ones()
    }

    // The first hour of a run that is in the set, if any.
    pub(crate) fn first_in(self, first: u8, hours: u8) -> Option<u8>
        ensures { result ≡ first_set (bits self) first hours }
    {
        (0..hours)
            .map(|j| hour_after(first, j))
            .find(|hour| self.has(*hour))
    }
}
