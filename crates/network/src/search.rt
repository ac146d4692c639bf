ghost use Rattle.std.specs.Prelude.{◌≡◌, vec_len};
ghost use Rattle.network.specs.Choice.{chosen_path, Rightly, ChosenIsLeast};
ghost use Rattle.network.specs.Flags.{may_use};
ghost use Rattle.network.specs.Paths.{ground};

use self::ground::Ground;
use crate::cost::Cost;
use crate::network::Network;
use crate::path::Path;
use crate::usable::Usable;
use std::alloc::{AllocError, Global};

mod aim;
pub mod ground;
mod table;
mod walk;

pub use self::ground::price;

// Memory for the rows of one search: 9 rows, for 0 to 8 links, of 33 cells, for places 0 to 32.
// What it holds before a search does not matter.
#[derive(Drop)]
pub struct Scratch<C> {
    cells: Vec<Option<C>>,
    ghost full: { vec_len cells ≡ 297 },
}

impl<C: Copy> Scratch<C> {
    pub fn new(heap: Global) -> Result<Scratch<C>, AllocError> {
        Ok(Scratch {
            cells: vec![in heap; None; 297]?,
        })
    }
}

// The chosen path over the links that may be used: the cheapest; of these, the one with fewest links; of these, the one
// whose list of link numbers comes first in dictionary order. None where there is no path, as where from or to is no place.
//
// The table has, for each place, the least cost of exactly j links from there to the target. The best of its rows at the
// start gives the cost and the number of links; then each step forward takes the least link number from which the table
// still reaches that cost. Joining keeps the order only weakly, so the cheapest way to a midway place would not do.
pub fn chosen_path<C: Cost>(
    net: &Network,
    usable: &Usable,
    scratch: &mut Scratch<C>,
    from: u8,
    to: u8,
) -> Option<Path>
    ensures value { result ≡ chosen_path C.kind net.now (may_use usable.now) from to }
    ensures least { Rightly (ground C.kind net.now (may_use usable.now)) net.now.hops from to result }
{
    if !net.two_places(from, to) {
        return None;
    }
    let over = Ground { net, usable };
    scratch.fill(over, to);
    let best = scratch.aim(net, from)?;
    Some(scratch.walk_out(over, from, best.0, best.1))
}

// On every network, for every cost kind: what the definition names is a path, no path comes before it, and there is only
// one such; where it names nothing there is no path.
pub fn chosen_is_the_least<C: Cost>()
    ensures { ChosenIsLeast C.kind }
{}
