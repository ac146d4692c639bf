use crate::depth_first::plain_path;
use bitmap::map::Map;
use network::cost::Cost;
use network::network::Network;
use network::path::Path;
use network::search::{Scratch, chosen_path};
use network::usable::Usable;
use ways::find::find_way;
use ways::fit::Fit;
use ways::order::Order;
use ways::space::Space;

// What is measured: finds the chosen path over all links of a network.
pub trait Finder {
    fn find(&mut self, net: &Network, from: u8, to: u8) -> Option<Path>;
}

// The proved search, with its memory.
#[derive(Drop)]
pub struct Table<C> {
    pub scratch: Scratch<C>,
}

impl<C: Cost> Finder for Table<C> {
    fn find(&mut self, net: &Network, from: u8, to: u8) -> Option<Path> {
        chosen_path(net, &Usable::all(), &mut self.scratch, from, to)
    }
}

// The plain search, with the cost of no link.
#[derive(Clone, Copy)]
pub struct DepthFirst<C> {
    pub zero: C,
}

impl<C: Cost> Finder for DepthFirst<C> {
    fn find(&mut self, net: &Network, from: u8, to: u8) -> Option<Path> {
        plain_path(net, self.zero, from, to)
    }
}

// The proved search for a way of eight hours on an empty map, by best fit: all sixteen channels are searched.
#[derive(Drop)]
pub struct OnMap<C> {
    pub map: Map,
    pub space: Space<C>,
}

impl<C: Cost> Finder for OnMap<C> {
    fn find(&mut self, net: &Network, from: u8, to: u8) -> Option<Path> {
        let order = Order {
            number: 1,
            from,
            to,
            width: 1,
            first: 0,
            hours: 8,
        };
        find_way(
            &self.map,
            net,
            &Usable::all(),
            &mut self.space,
            order,
            Fit::Best,
        )
        .map(|way| way.path)
    }
}
