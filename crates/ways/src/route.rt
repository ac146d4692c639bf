ghost use Rattle.std.specs.Prelude.{◌≡◌, ℕ, false, if◌then◌else◌, Some, None, MatchOption};
ghost use Rattle.network.specs.declared.network.Network.{Network};
ghost use Rattle.ways.specs.Routes.{route_numbers, is_route, Copied};

use crate::follow::is_path;
use network::network::Network;
use network::path::Path;

// A path as a customer names it: the first `count` of eight link numbers, numbers of any value. It is plain data of a
// fixed size, since a call and its answer lie in memory that is handed in.
#[derive(Clone, Copy, Debug, PartialEq, Eq)]
pub struct Route {
    pub links: [u32; 8],
    pub count: u32,
}

// The route's numbers as a path. None where there are more than eight, or fewer than the route says, or where one is
// larger than any link's: then no network has the route as a path.
fn copied(route: Route) -> Option<Path>
    ensures { MatchOption result ((net : Network) (from to : ℕ) → is_route net from to route ≡ false) (Copied route) }
{
    let numbers = route.links.get(..route.count as usize)?;
    let mut path = Path::new();
    for number in numbers {
        path.push(u8::try_from(*number).ok()?);
    }
    Some(path)
}

// The path that a customer names, if its numbers are a path from one place to the other over links of the network.
pub fn named_path(net: &Network, from: u8, to: u8, route: Route) -> Option<Path>
    ensures { result ≡ (if is_route net.now from to route then Some (route_numbers route) else None) }
{
    let path = copied(route)?;
    is_path(net, from, to, path.links()).then_some(path)
}
