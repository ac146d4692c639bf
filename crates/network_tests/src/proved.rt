use crate::list_network::ListNetwork;
use crate::plain_search::{PlainCost, plain_path};
use network::cost::Cost;
use network::network::Network;
use network::search::{Scratch, chosen_path};
use network::usable::Usable;
use std::alloc::Global;
use std::test::Fail;

// How many links a path has, and their numbers with zeros after the last.
pub type Answer = Option<(u8, [u8; 8])>;

// A network as the proved search takes it, with its memory.
#[derive(Drop)]
pub struct Searched<C> {
    net: Network,
    usable: Usable,
    scratch: Scratch<C>,
}

impl<C: Cost> Searched<C> {
    pub fn new(heap: Global, listed: &ListNetwork) -> Result<Searched<C>, Fail> {
        Ok(Searched {
            net: listed.made(heap)?,
            usable: listed.usable(),
            scratch: Scratch::new(heap)?,
        })
    }

    pub fn answer(&mut self, from: u8, to: u8) -> Answer {
        chosen_path(&self.net, &self.usable, &mut self.scratch, from, to).map(|path| (
            path.count(),
            path.numbers(),
        ))
    }
}

pub fn plain_answer<C: PlainCost>(listed: &ListNetwork, from: u8, to: u8) -> Answer {
    let list = plain_path::<C>(listed, from, to)?;
    let links = list.links;
    Some((list.count, links))
}
