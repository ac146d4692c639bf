use network_tests::list_network::ListNetwork;
use network_tests::plain_search::{PlainCost, PricedList, plain_path};
use plant::Plant;
use ways::fit::Fit;
use ways::order::Order;

// A way as the plain search gives it.
#[derive(Clone, Copy)]
pub struct PlainWay {
    pub channel: u8,
    pub list: PricedList,
}

// Whether the channel of the link is open and not held in all hours of the order, asked hour by hour.
fn is_free<P: Plant>(plant: &P, order: Order, link: u8, channel: u8) -> bool {
    (0..order.hours)
        .map(|after| ((order.first as u16 + after as u16) % 168) as u8)
        .all(|hour| !plant.closed(link, channel, hour) && !plant.held(link, channel, hour))
}

fn block_is_free<P: Plant>(plant: &P, order: Order, link: u8, first: u8) -> bool {
    (0..order.width).all(|k| is_free(plant, order, link, first.saturating_add(k)))
}

// Marks the links that may be used and on which the block is free.
fn mark<P: Plant>(plant: &P, net: &mut ListNetwork, order: Order, first: u8, usable: &[bool]) {
    for ((number, may), link) in (1..41u8).zip(usable).zip(net.links.iter_mut()) {
        link.usable = *may && block_is_free(plant, order, number, first);
    }
}

// The first way stays, unless best fit is asked for and the next is cheaper.
fn better(fit: Fit, best: Option<PlainWay>, next: PlainWay) -> PlainWay {
    match (fit, best) {
        (Fit::First, Some(found)) => found,
        (Fit::Best, Some(found)) if found.list.cost <= next.list.cost => found,
        _ => next,
    }
}

// The way of the order, by going through all first channels and all paths.
pub fn plain_way<C: PlainCost, P: Plant>(
    plant: &P,
    net: &mut ListNetwork,
    usable: &[bool],
    fit: Fit,
    order: Order,
) -> Option<PlainWay> {
    let channels = plant.size().channels;
    let mut best = None;
    for channel in 1..17u8 {
        if channel as u16 + order.width as u16 <= channels as u16 + 1 {
            mark(plant, net, order, channel, usable);
            if let Some(list) = plain_path::<C>(net, order.from, order.to) {
                best = Some(better(fit, best, PlainWay { channel, list }));
            }
        }
    }
    best
}
