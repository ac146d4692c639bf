ghost use Rattle.std.specs.Prelude.{◌≡◌, ◌<◌, true, if◌then◌else◌, MatchResult};
ghost use Rattle.calendar.specs.Numbers.{making_number};
ghost use Rattle.calendar.specs.Making.{offset_number};
ghost use Rattle.calendar.specs.Week.{later};
ghost use Rattle.layers.specs.Below.{unmoved};

use calendar::hours::hour_after;
use calendar::refusal::MakingRefusal;

// A clock's table: how many hours the plant below is ahead.
#[derive(Clone, Copy, Debug, PartialEq, Eq)]
pub struct Offset {
    hours: u8,
    ghost week: { hours < 168 },
}

impl Offset {
    #[tactic(auto, unfolding(calendar::specs::Making::offset_number))]
    pub fn new(hours: u32) -> Result<Offset, MakingRefusal>
        ensures { MatchResult result (λ o. (offset_number hours ≡ 0) × (o.hours ≡ hours)) (λ e. offset_number hours ≡ making_number e) }
    {
        if hours < 168 {
            Ok(Offset { hours: hours as u8 })
        } else {
            Err(MakingRefusal::BadTable)
        }
    }

    // The hour below.
    pub(crate) fn moved(self, hour: u8) -> u8
        ensures { result ≡ later hour self.hours }
    {
        hour_after(hour, self.hours)
    }

    // The hour above that the hour found below stands for.
    pub(crate) fn unmoved(self, found: Option<u8>) -> Option<u8>
        ensures { result ≡ unmoved self.hours found }
    {
        found.map(|hour| hour_after(hour, 168 - self.hours))
    }
}
