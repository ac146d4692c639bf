ghost use Rattle.std.specs.Prelude.{◌≡◌};
ghost use Rattle.network.specs.Numbers.{network_number};

use std::alloc::AllocError;
use std::error::Error;
use std::fmt;

// Why a network, or a link of one, is refused. A refusal is the number that it is listed by.
#[derive(Clone, Copy, Debug, PartialEq, Eq)]
pub enum NetworkRefusal {
    BadNetwork = 14,
    BadLink = 15,
}

impl NetworkRefusal {
    pub fn number(self) -> u8
        ensures { result ≡ network_number self }
    {
        self as u8
    }
}

impl fmt::Display for NetworkRefusal {
    fn fmt<W: fmt::Write>(&self, f: &mut fmt::Formatter<W>) -> fmt::Result {
        f.write_str(match self {
            NetworkRefusal::BadNetwork => "the places or the hop limit are outside the limits",
            NetworkRefusal::BadLink => "the link is outside the limits",
        })
    }
}

impl Error for NetworkRefusal {}

// Why a network is not made: outside its limits, or for want of memory.
#[derive(Clone, Copy, Debug, PartialEq, Eq)]
pub enum NotMade {
    Refused(NetworkRefusal),
    NoMemory,
}

impl fmt::Display for NotMade {
    fn fmt<W: fmt::Write>(&self, f: &mut fmt::Formatter<W>) -> fmt::Result {
        match self {
            NotMade::Refused(why) => write!(f, "{why}"),
            NotMade::NoMemory => f.write_str("out of memory"),
        }
    }
}

impl Error for NotMade {}

impl From<AllocError> for NotMade {
    ghost use Rattle.std.specs.Prelude.{◌≡◌};
    ghost use Rattle.network.specs.declared.refusal.NotMade.TheVariants.{NoMemory};

    ghost from_gives = { λ _ why. why ≡ NoMemory };

    fn from(_error: AllocError) -> NotMade {
        NotMade::NoMemory
    }
}
