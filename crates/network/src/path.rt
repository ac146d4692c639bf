ghost use Rattle.std.specs.Prelude.{◌≡◌, ◌<◌, ◌++◌, ◌∷◌, [], length, if◌then◌else◌, nat_lt, ◌≤◌, MatchResult};

use std::error::Error;
use std::fmt;
use std::marker::Model;

mod reads;

// A list of at most eight link numbers.
#[derive(Clone, Copy, Debug)]
pub struct Path {
    count: u8,
    links: [u8; 8],
}

impl Model for Path {
    ghost use Rattle.std.specs.Prelude.{ℕ, List};

    ghost Value = { List ℕ };

    ghost use Rattle.network.specs.Padded.{numbers, Formed, padded, padded_back};

    ghost view = { numbers };

    ghost invariant = { Formed };

    ghost inverse = { padded };

    ghost inverse_ok = { padded_back };
}

impl Path {
    // No links yet.
    pub fn new() -> Path
        ensures { result ≡ [] }
    {
        Path {
            links: [0; 8],
            count: 0,
        }
    }

    // One link more at the end; a path of eight stays as it is.
    pub fn push(&mut self, number: u8)
        ensures { self.new ≡ (if nat_lt (length self.old) 8 then self.old ++ number ∷ [] else self.old) }
    {
        if self.count < 8 {
            self.links[self.count as usize] = number;
            self.count += 1;
        }
    }
}

impl TryFrom<&[u8]> for Path {
    type Error = TooLong;

    ghost try_from_gives = { λ numbers answer. MatchResult answer
        (λ path. (length numbers.now ≤ 8) × (path ≡ numbers.now))
        (λ _. 8 < length numbers.now) };

    fn try_from(numbers: &[u8]) -> Result<Path, TooLong> {
        if numbers.len() > 8 {
            return Err(TooLong);
        }
        let mut path = Path::new();
        for number in numbers {
            path.push(*number);
        }
        Ok(path)
    }
}

// Derived, it would compare all eight places, and the proof of that stays open.
impl PartialEq for Path {
    ghost use Rattle.std.specs.Prelude.{nat_eq};
    ghost use Rattle.std.specs.Cmp.Lexicographic.{pointwise};
    ghost use Rattle.std.specs.Cmp.Rules.{comparing};
    ghost use Rattle.std.proofs.Common.{rules};

    ghost eq = { λ a b. pointwise nat_eq a b };

    ghost laws = { Prim.search (comparing, rules) };

    fn eq(&self, other: &Path) -> bool {
        self.links() == other.links()
    }
}

impl Eq for Path {
    ghost use Rattle.std.specs.Cmp.Rules.{comparing};
    ghost use Rattle.std.proofs.Common.{rules};

    ghost laws = { Prim.search (comparing, rules) };
}

// More numbers than a path can have.
#[derive(Clone, Copy, Debug, PartialEq, Eq)]
pub struct TooLong;

impl fmt::Display for TooLong {
    fn fmt<W: fmt::Write>(&self, f: &mut fmt::Formatter<W>) -> fmt::Result {
        f.write_str("a path has at most eight links")
    }
}

impl Error for TooLong {}
