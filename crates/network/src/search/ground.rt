ghost use Rattle.std.specs.Prelude.{◌≡◌, vec_len};
ghost use Rattle.network.specs.Flags.{may_use};
ghost use Rattle.network.specs.Paths.{crossing, price_of};

use crate::cost::Cost;
use crate::network::Network;
use crate::usable::Usable;

// What a search goes over: a network, and which of its links may be used.
#[derive(Clone, Copy)]
pub struct Ground<'a> {
    pub net: &'a Network,
    pub usable: &'a Usable,
}

impl Ground<'_> {
    // Where the link of that number leads from v, if it may be used and has v as an end.
    pub fn next_place(self, v: u8, number: u8) -> Option<u8>
        ensures { result ≡ crossing self.entry.net.now (may_use self.entry.usable.now) v number }
    {
        if !self.usable.is_usable(number) {
            return None;
        }
        self.net.leads(v, number)
    }

    // The cost of the link of that number.
    pub fn price<C: Cost>(self, number: u8) -> C
        ensures { result ≡ price_of C.kind self.entry.net.now number }
    {
        price(self.net, number)
    }

    pub fn link_count(self) -> u8
        ensures { result ≡ vec_len self.entry.net.now.links }
    {
        self.net.link_count()
    }
}

// The cost of the link of that number.
pub fn price<C: Cost>(net: &Network, number: u8) -> C
    ensures { result ≡ price_of C.kind net.now number }
{
    net.link(number).map_or(C::zero(), |link| C::of_link(&link))
}
