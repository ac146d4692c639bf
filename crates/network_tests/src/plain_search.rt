ghost use Rattle.std.specs.Prelude.{◌<◌};

use crate::list_network::{ListNetwork, ListedLink};
use network::cost::Cost;
use network::loss::Loss;
use network::metres::Metres;

// A cost kind, with what the plain search makes of it: it adds or compares on its own, on plain numbers.
pub trait PlainCost: Cost {
    // The cost of a list of links with one more.
    fn joined(cost: u32, link: ListedLink) -> u32;
}

impl PlainCost for Metres {
    fn joined(cost: u32, link: ListedLink) -> u32 {
        cost.saturating_add(link.metres)
    }
}

impl PlainCost for Loss {
    fn joined(cost: u32, link: ListedLink) -> u32 {
        cost.max(link.loss)
    }
}

// A list of link numbers with its cost, and zeros after the last. The order of the fields is the order of choice: the
// cheapest, then the fewest links, then the first in dictionary order.
#[derive(Clone, Copy, PartialEq, Eq, PartialOrd, Ord)]
pub struct PricedList {
    pub cost: u32,
    pub count: u8,
    pub links: [u8; 8],
}

// Links walked from a start, where they lead, and the places touched.
#[derive(Clone, Copy)]
struct Walk {
    list: PricedList,
    at: u8,
    touched: [bool; 33],
}

// A search over all paths to one place.
#[derive(Drop)]
struct Search<'a> {
    net: &'a ListNetwork,
    to: u8,
}

// The other end of a link, where v is one end.
fn far_end(link: ListedLink, v: u8) -> Option<u8> {
    if link.one == v {
        Some(link.two)
    } else {
        (link.two == v).then_some(link.one)
    }
}

impl PricedList {
    fn with(self, number: u8, cost: u32) -> PricedList {
        let mut links = self.links;
        if self.count < 8 {
            links[self.count as usize] = number;
        }
        PricedList {
            cost,
            count: self.count.saturating_add(1),
            links,
        }
    }
}

// A walk over the list's links that arrives at v, after the places touched before.
fn arrived(list: PricedList, before: [bool; 33], v: u8) -> Walk {
    let mut touched = before;
    if v < 33 {
        touched[v as usize] = true;
    }
    Walk {
        list,
        at: v,
        touched,
    }
}

impl Walk {
    fn starting(from: u8) -> Walk {
        let list = PricedList {
            cost: 0,
            count: 0,
            links: [0; 8],
        };
        let touched = [false; 33];
        arrived(list, touched, from)
    }

    fn has_touched(&self, v: u8) -> bool {
        self.touched.get(v as usize).copied().unwrap_or(true)
    }
}

impl Search<'_> {
    // The walk with one more link, where that may be used and leads on to a place not yet touched.
    fn further<C: PlainCost>(&self, walk: Walk, number: u8) -> Option<Walk> {
        let link = self.net.link(number)?;
        let v = far_end(link, walk.at)?;
        if !link.usable || walk.has_touched(v) {
            return None;
        }
        let cost = C::joined(walk.list.cost, link);
        let touched = walk.touched;
        Some(arrived(walk.list.with(number, cost), touched, v))
    }

    // The chosen one of all paths that begin with the walk and have at most `left` links more. A path is at an end where
    // it arrives, since it would touch that place twice otherwise.
    #[cycle(best_from)]
    fn best_from<C: PlainCost>(&self, walk: Walk, left: u8) -> Option<PricedList> {
        if walk.list.count > 0 && walk.at == self.to {
            return Some(walk.list);
        }
        if left == 0 {
            return None;
        }
        (1..41u8)
            .filter_map(|number| self.further::<C>(walk, number))
            .filter_map(
                |further|
                    requires { 0 < left }
                { self.best_from::<C>(further, left - 1) },
            )
            .min()
    }
}

// The chosen path, found by going through all paths.
pub fn plain_path<C: PlainCost>(net: &ListNetwork, from: u8, to: u8) -> Option<PricedList> {
    let search = Search { net, to };
    search.best_from::<C>(Walk::starting(from), net.hops)
}
