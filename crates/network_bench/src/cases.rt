use anyhow::anyhow;
use network::link::Link;
use network::network::Network;
use std::alloc::{AllocError, Global};

// A network, the pair of places whose path is shown, and the pairs that are measured.
#[derive(Drop)]
pub struct Case {
    pub name: &'static str,
    pub net: Network,
    pub shown: (u8, u8),
    pub pairs: Vec<(u8, u8)>,
}

// A link's two places, its metres and its loss.
type Figures = (u32, u32, u32, u32);

fn with_links(heap: Global, places: u32, links: &[Figures]) -> anyhow::Result<Network> {
    let mut net = Network::new(heap, places, 8).map_err(|_| anyhow!("no network"))?;
    for (one, two, metres, loss) in links {
        net.add(Link::new(*one, *two, *metres, *loss)?)?;
    }
    Ok(net)
}

// Eight places in a ring, each joined to the next (links 1 to 8) and to the next but one (9 to 16), and three more places
// at each of these (17 to 40).
fn dense_link(i: u32) -> Figures {
    let place = i % 8 + 1;
    match i / 8 {
        0 => (place, place % 8 + 1, 1000, 30),
        1 => (place, (place + 1) % 8 + 1, 2500, 20),
        _ => (place, i.saturating_sub(7), 500, 10),
    }
}

// Each of 32 places with each other.
fn all_pairs(heap: Global) -> Result<Vec<(u8, u8)>, AllocError> {
    (0..1024u16)
        .map(|i| ((i / 32) as u8 + 1, (i % 32) as u8 + 1))
        .filter(|(from, to)| from != to)
        .collect(heap)
}

// As many places and links as a network can have.
pub fn dense(heap: Global) -> anyhow::Result<Case> {
    let links: Vec<Figures> = (0..40).map(dense_link).collect(heap)?;
    Ok(Case {
        name: "dense network",
        net: with_links(heap, 32, &links)?,
        shown: (9, 29),
        pairs: all_pairs(heap)?,
    })
}

// Nine places in a row with five links between neighbours, all alike: 390,625 paths from end to end, and only their
// numbers tell which is chosen.
pub fn row(heap: Global) -> anyhow::Result<Case> {
    let links: Vec<Figures> = (0..40u32)
        .map(|i| (i / 5 + 1, i / 5 + 2, 7, 7))
        .collect(heap)?;
    Ok(Case {
        name: "hostile row",
        net: with_links(heap, 9, &links)?,
        shown: (1, 9),
        pairs: vec![in heap; (1, 9)]?,
    })
}
