ghost use Rattle.std.specs.Prelude.{◌≡◌, ◌-◌, ◌≤◌, true, false, not, ◌||◌, ◌==◌, MatchResult, slice_index};
ghost use Rattle.std.specs.List.{list_any};
ghost use Rattle.calendar.specs.Numbers.{making_number};
ghost use Rattle.calendar.specs.Layers.{disordered, named};

use calendar::refusal::MakingRefusal;

// The table of a card order: sixteen different numbers from 1 to 16.
#[derive(Clone, Copy, Debug, PartialEq, Eq)]
pub struct CardTable {
    entries: [u8; 16],
    ghost ordered: { disordered entries ≡ false },
}

// Whether the entry is no number from 1 to 16, or stands earlier too.
fn is_faulty(entry: u8, earlier: &[u8]) -> bool
    ensures { result ≡ (not (named entry) || list_any (λ other. other == entry) earlier.now) }
{
    !(1..=16).contains(&entry) || earlier.contains(&entry)
}

// Whether some entry is faulty.
fn is_disordered(order: &[u8; 16]) -> bool
    ensures { result ≡ disordered order.now }
{
    for (i, entry) in order.iter().enumerate() {
        if is_faulty(*entry, &order[..i]) {
            return true;
        }
    }
    false
}

impl CardTable {
    pub fn new(order: [u8; 16]) -> Result<CardTable, MakingRefusal>
        ensures { MatchResult result (λ t. (disordered order ≡ false) × (t.entries ≡ order)) (λ e. (disordered order ≡ true) × (making_number e ≡ 13)) }
    {
        if is_disordered(&order) {
            return Err(MakingRefusal::BadTable);
        }
        Ok(CardTable { entries: order })
    }

    // What the table says of a channel from 1 to 16.
    pub(crate) fn entry(&self, channel: u8) -> u8
        requires low { 1 ≤ channel }
        requires high { channel ≤ 16 }
        ensures { result ≡ slice_index self.now.entries (channel - 1) }
    {
        self.entries[channel as usize - 1]
    }
}
