ghost use Rattle.std.specs.Prelude.{◌≡◌, true, [], vec_len, MatchResult};
ghost use Rattle.network.specs.Limits.{is_place, two_places, network_fits};
ghost use Rattle.network.specs.Making.{WhyNotMade, add_answer, links_after};
ghost use Rattle.network.specs.Paths.{crossing};
ghost use Rattle.network.specs.Places.{link_at};

use super::Network;
use crate::link::Link;
use crate::refusal::{NetworkRefusal, NotMade};
use std::alloc::Global;

impl Network {
    // A network with no links yet, with memory for all that it may get.
    pub fn new(heap: Global, places: u32, hops: u32) -> Result<Network, NotMade>
        ensures { MatchResult result
            (λ n. (network_fits places hops ≡ true) × (n.places ≡ places) × (n.hops ≡ hops) × (n.links.items ≡ []))
            (WhyNotMade (network_fits places hops)) }
    {
        if !(2..=32).contains(&places) || !(1..=8).contains(&hops) {
            return Err(NotMade::Refused(NetworkRefusal::BadNetwork));
        }
        Ok(Network {
            places: places as u8,
            hops: hops as u8,
            links: Vec::with_capacity(heap, 40)?,
        })
    }

    pub fn places(&self) -> u8
        ensures { result ≡ self.now.places }
    {
        self.places
    }

    pub fn hops(&self) -> u8
        ensures { result ≡ self.now.hops }
    {
        self.hops
    }

    pub fn link_count(&self) -> u8
        ensures { result ≡ vec_len self.now.links }
    {
        self.links.len() as u8
    }

    // Whether v is one of the network's places.
    pub fn has_place(&self, v: u8) -> bool
        ensures { result ≡ is_place self.now.places v }
    {
        (1..=self.places).contains(&v)
    }

    // Whether v and w are two different places of the network.
    pub fn two_places(&self, v: u8, w: u8) -> bool
        ensures { result ≡ two_places self.now.places v w }
    {
        self.has_place(v) && self.has_place(w) && v != w
    }

    // The link of that number, if there is one.
    pub fn link(&self, number: u8) -> Option<Link>
        ensures { result ≡ link_at self.now.links.items number }
    {
        self.links.get((number as usize).checked_sub(1)?).copied()
    }

    // Where the link of that number leads from v, if v is an end of it.
    pub fn leads(&self, v: u8, number: u8) -> Option<u8>
        ensures { result ≡ crossing self.now (λ _. true) v number }
    {
        self.link(number)?.far_end(v)
    }

    // One link more, by value, with the next number.
    pub fn add(&mut self, link: Link) -> Result<(), NetworkRefusal>
        ensures answer { result ≡ add_answer self.old link }
        ensures links { self.new.links.items ≡ links_after self.old link }
        ensures places { self.new.places ≡ self.old.places }
        ensures hops { self.new.hops ≡ self.old.hops }
    {
        if link.one > self.places || link.two > self.places || self.links.len() >= 40 {
            return Err(NetworkRefusal::BadLink);
        }
        self.links.push_reserved(link);
        Ok(())
    }
}
