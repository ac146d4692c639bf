ghost use Rattle.std.specs.Prelude.{◌≤◌, vec_len, vec_capacity};
ghost use Rattle.network.specs.Ends.{AllInside};

use crate::link::Link;

pub mod calls;

// Places numbered from 1, links numbered from 1 in the order given, and how many links a path may have.
#[derive(Drop)]
pub struct Network {
    places: u8,
    hops: u8,
    links: Vec<Link>,
    ghost sizes: { (2 ≤ places) × (places ≤ 32) × (1 ≤ hops) × (hops ≤ 8) },
    ghost few: { vec_len links ≤ 40 },
    ghost room: { 40 ≤ vec_capacity links },
    ghost within: { AllInside places links.items },
}
