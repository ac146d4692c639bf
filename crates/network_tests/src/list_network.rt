use dice::Dice;
use network::link::Link;
use network::network::Network;
use network::usable::Usable;
use std::alloc::{AllocError, Global};
use std::test::Fail;

// A link between two places, and whether it may be used.
#[derive(Clone, Copy)]
pub struct ListedLink {
    pub one: u8,
    pub two: u8,
    pub metres: u32,
    pub loss: u32,
    pub usable: bool,
}

// A network as it is written down: link number n is entry n - 1 of the list.
#[derive(Drop)]
pub struct ListNetwork {
    pub places: u8,
    pub hops: u8,
    pub links: Vec<ListedLink>,
}

impl ListNetwork {
    pub fn link(&self, number: u8) -> Option<ListedLink> {
        let place = (number as usize).checked_sub(1)?;
        self.links.get(place).copied()
    }

    // The same network, as the proved search takes it.
    pub fn made(&self, heap: Global) -> Result<Network, Fail> {
        let mut net = Network::new(heap, self.places as u32, self.hops as u32)?;
        for l in self.links.iter() {
            net.add(Link::new(l.one as u32, l.two as u32, l.metres, l.loss)?)?;
        }
        Ok(net)
    }

    // Which of its links may be used, as the proved search takes it.
    pub fn usable(&self) -> Usable {
        let mut usable = Usable::none();
        for (number, link) in (1..=40u8).zip(self.links.iter()) {
            usable.set(number, link.usable);
        }
        usable
    }
}

// A link between two different places, with few lengths and losses, so that many paths tie. One in four is closed.
fn some_link(dice: &mut Dice, places: u8) -> ListedLink {
    let one = dice.small(places).saturating_add(1);
    let mut two = dice.small(places.saturating_sub(1)).saturating_add(1);
    if two >= one {
        two = two.saturating_add(1);
    }
    ListedLink {
        one,
        two,
        metres: dice.small(3) as u32 + 1,
        loss: dice.small(3) as u32,
        usable: dice.small(4) > 0,
    }
}

// 2 to 6 places, 0 to 9 links, and a hop limit of 1 to 4.
pub fn some_network(heap: Global, dice: &mut Dice) -> Result<ListNetwork, AllocError> {
    let places = dice.small(5).saturating_add(2);
    let hops = dice.small(4).saturating_add(1);
    let mut links = Vec::new(heap);
    for _ in 0..dice.small(10) {
        links.push(some_link(dice, places))?;
    }
    Ok(ListNetwork {
        places,
        hops,
        links,
    })
}
