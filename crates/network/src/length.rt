ghost use Rattle.std.specs.Prelude.{◌≡◌};
ghost use Rattle.network.specs.Kinds.{stopped, by_length, length_laws};

use crate::cost::Cost;
use crate::link::Link;
use crate::metres::Metres;

// That many metres, or the top where that is less.
fn metres(n: u64) -> Metres
    ensures { result ≡ stopped n }
{
    Metres {
        value: n.min(4_294_967_295) as u32,
    }
}

// Adds metres and stops at the top.
impl Cost for Metres {
    ghost kind = { by_length };

    ghost laws = { length_laws };

    fn zero() -> Metres {
        metres(0)
    }

    fn of_link(link: &Link) -> Metres {
        metres(link.metres as u64)
    }

    fn join(self, other: Metres) -> Metres {
        metres(self.value as u64 + other.value as u64)
    }

    fn at_most(self, other: Metres) -> bool {
        self <= other
    }
}
