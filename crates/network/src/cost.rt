ghost use Rattle.std.specs.Prelude.{◌≡◌};
ghost use Rattle.network.specs.Costs.{Kind, Laws};

use crate::link::Link;

// A cost kind: every link has a cost, and there are a zero, a joining and an order. The search rests on the laws alone.
pub trait Cost: Copy {
    ghost kind: { Kind Self };

    ghost laws: { Laws kind };

    fn zero() -> Self
        ensures { result ≡ kind.none };

    fn of_link(link: &Link) -> Self
        ensures { result ≡ kind.price link.now };

    fn join(self, other: Self) -> Self
        ensures { result ≡ kind.joined self other };

    fn at_most(self, other: Self) -> bool
        ensures { result ≡ kind.at_most self other };
}
