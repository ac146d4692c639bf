use crate::cases::Case;
use crate::finder::Finder;
use network::path::Path;

// How many paths were found, and the sum of what they are as numbers, so that every link found counts and two searches
// can be held against each other.
#[derive(Clone, Copy, Debug, Default, PartialEq, Eq)]
pub struct Tally {
    pub paths: u64,
    pub sum: u64,
}

// A path as one number: its link numbers, each at most 40, as digits.
fn digits(path: Path) -> u64 {
    path.numbers().iter().fold(
        0,
        |number: u64, link| number.wrapping_mul(41).wrapping_add(u64::from(*link)),
    )
}

impl Tally {
    fn with(self, found: Option<Path>) -> Tally {
        found.map_or(
            self,
            |path| Tally {
                paths: self.paths.saturating_add(1),
                sum: self.sum.wrapping_add(digits(path)),
            },
        )
    }

    // What so many rounds of the same come to.
    pub fn times(self, rounds: u64) -> Tally {
        Tally {
            paths: self.paths.wrapping_mul(rounds),
            sum: self.sum.wrapping_mul(rounds),
        }
    }
}

fn find_all<F: Finder>(finder: &mut F, case: &Case, before: Tally) -> Tally {
    let mut tally = before;
    for (from, to) in case.pairs.iter() {
        tally = tally.with(finder.find(&case.net, *from, *to));
    }
    tally
}

// Finds the path of each pair, so many times.
pub fn find_often<F: Finder>(finder: &mut F, case: &Case, rounds: u64) -> Tally {
    let mut tally = Tally::default();
    for _ in 0..rounds {
        tally = find_all(finder, case, tally);
    }
    tally
}
