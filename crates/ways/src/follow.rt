ghost use Rattle.std.specs.Prelude.{◌≡◌, false, ◌&&◌, length, nat_eq, nat_le, nat_lt};
ghost use Rattle.network.specs.Paths.{when_there, crossing, leads, touched, has, no_twice, is_path};
ghost use Rattle.ways.specs.Ways.{every_link};

use network::network::Network;

// Where the links lead from a place, each going on where the one before it arrived.
fn arrival(net: &Network, from: u8, links: &[u8]) -> Option<u8>
    ensures { result ≡ leads (crossing net.now every_link) from links.now }
{
    let mut v = from;
    for number in links {
        v = net.leads(v, *number)?;
    }
    Some(v)
}

// Whether the links touch the place on their way.
fn touches(net: &Network, from: u8, links: &[u8], place: u8) -> bool
    ensures { result ≡ has place (touched (crossing net.now every_link) from links.now) }
{
    let mut v = from;
    for number in links {
        if v == place {
            return true;
        }
        let Some(w) = net.leads(v, *number) else {
            return false;
        };
        v = w;
    }
    v == place
}

// Whether the links touch no place twice.
fn touches_once(net: &Network, from: u8, links: &[u8]) -> bool
    ensures { result ≡ no_twice (touched (crossing net.now every_link) from links.now) }
{
    let mut v = from;
    let mut rest = links;
    while let Some((number, others)) = rest.split_first() {
        let Some(w) = net.leads(v, *number) else {
            return true;
        };
        if touches(net, w, others, v) {
            return false;
        }
        v = w;
        rest = others;
    }
    true
}

// Whether the numbers are a path from one place to the other, whichever links are free.
pub(crate) fn is_path(net: &Network, from: u8, to: u8, links: &[u8]) -> bool
    ensures { result ≡ is_path (crossing net.now every_link) net.now.hops from to links.now }
{
    (1..=usize::from(net.hops())).contains(&links.len())
        && arrival(net, from, links) == Some(to)
        && touches_once(net, from, links)
}
