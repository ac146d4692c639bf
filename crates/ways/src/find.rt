ghost use Rattle.std.specs.Prelude.{◌≡◌};
ghost use Rattle.network.specs.Flags.{may_use};
ghost use Rattle.ways.specs.Sought.{sought};
ghost use Rattle.ways.specs.Ways.{wanted, by_fit, chosen_way};

use crate::fit::Fit;
use crate::free_channels::{FreeChannels, is_free};
use crate::order::Order;
use crate::search::Search;
use crate::space::Space;
use crate::way::Way;
use network::cost::Cost;
use network::network::Network;
use network::search::Scratch;
use network::usable::Usable;
use plant::Plant;
use std::alloc::{AllocError, Global};

impl<C: Copy> Space<C> {
    // Reserves all the memory that searches will need.
    pub fn new(heap: Global) -> Result<Space<C>, AllocError> {
        Ok(Space {
            rows: Scratch::new(heap)?,
            free: FreeChannels::new(heap)?,
        })
    }
}

// The way that the order gets by what was noted of the channels.
fn way_by<C: Cost>(search: &Search<'_>, rows: &mut Scratch<C>, fit: Fit) -> Option<Way>
    ensures { result ≡ by_fit fit (sought C.kind search.now) }
{
    match fit {
        Fit::First => search.first_fit(rows),
        Fit::Best => search.best_fit(rows),
    }
}

// The way that the order gets over the links that may be used, or none where it has no way. The plant is asked once
// for each link and channel whether the order's hours are free there.
pub fn find_way<P: Plant, C: Cost>(
    plant: &P,
    net: &Network,
    usable: &Usable,
    space: &mut Space<C>,
    order: Order,
    fit: Fit,
) -> Option<Way>
    ensures { result ≡ chosen_way fit (wanted C.kind net.now (may_use usable.now) (P.meaning plant.now) order) }
{
    if !order.hours_fit() {
        return None;
    }
    let channels = plant.size().channels;
    space.free.note(
        net.link_count(),
        channels,
        |link, channel| is_free(plant, order, link, channel),
    );
    let search = Search {
        net,
        usable,
        free: &space.free,
        order,
    };
    way_by(&search, &mut space.rows, fit)
}
