ghost use Rattle.std.specs.Prelude.{◌≡◌};
ghost use Rattle.ways.specs.Ways.{path_cost};

use network::cost::Cost;
use network::network::Network;
use network::search::price;

// The cost of a list of links: their costs joined.
pub(crate) fn path_cost<C: Cost>(net: &Network, links: &[u8]) -> C
    ensures { result ≡ path_cost C.kind net.now links.now }
{
    let mut cost = C::zero();
    for number in links {
        cost = cost.join(price(net, *number));
    }
    cost
}
