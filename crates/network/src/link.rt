ghost use Rattle.std.specs.Prelude.{◌≡◌, ◌≤◌, true, false, MatchResult, ◌≢◌};
ghost use Rattle.network.specs.Limits.{link_fits};
ghost use Rattle.network.specs.declared.refusal.NetworkRefusal.TheVariants.{BadLink};

use crate::refusal::NetworkRefusal;

mod ends;

// A link joins two different places. Its loss is in hundredths of a decibel.
#[derive(Clone, Copy, Debug, PartialEq, Eq)]
pub struct Link {
    pub one: u8,
    pub two: u8,
    pub metres: u32,
    pub loss: u16,
    ghost apart: { one ≢ two },
    ghost ends: { (1 ≤ one) × (one ≤ 32) × (1 ≤ two) × (two ≤ 32) },
    ghost sizes: { (1 ≤ metres) × (metres ≤ 999999) × (loss ≤ 9999) },
}

impl Link {
    // The link of exactly these values.
    pub fn new(one: u32, two: u32, metres: u32, loss: u32) -> Result<Link, NetworkRefusal>
        ensures { MatchResult result
            (λ l. (link_fits one two metres loss ≡ true) × (l.one ≡ one) × (l.two ≡ two) × (l.metres ≡ metres) × (l.loss ≡ loss))
            (λ why. (link_fits one two metres loss ≡ false) × (why ≡ BadLink)) }
    {
        if !(1..=32).contains(&one) || !(1..=32).contains(&two) || one == two {
            return Err(NetworkRefusal::BadLink);
        }
        if !(1..=999_999).contains(&metres) || loss > 9_999 {
            return Err(NetworkRefusal::BadLink);
        }
        Ok(Link {
            one: one as u8,
            two: two as u8,
            metres,
            loss: loss as u16,
        })
    }
}
