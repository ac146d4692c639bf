ghost use Rattle.std.specs.Prelude.{◌≡◌, ℕ, ◌≤◌, ◌&&◌, vec_len};
ghost use Rattle.network.specs.Flags.{may_use};
ghost use Rattle.ways.specs.Hours.{block_free, cell_at};
ghost use Rattle.ways.specs.Sought.{sought};
ghost use Rattle.ways.specs.Ways.{path_at, way_at, first_fit, best_fit, cheaper};

use crate::block::block_fits;
use crate::costs::path_cost;
use crate::free_channels::FreeChannels;
use crate::order::Order;
use crate::way::Way;
use network::cost::Cost;
use network::network::Network;
use network::path::Path;
use network::search::{Scratch, chosen_path};
use network::usable::Usable;

// What is searched: the order's way over these links, of which these channels were free.
#[derive(Clone, Copy)]
pub(crate) struct Search<'a> {
    pub(crate) net: &'a Network,
    pub(crate) usable: &'a Usable,
    pub(crate) free: &'a FreeChannels,
    pub(crate) order: Order,
}

// The first way, unless the second is cheaper.
fn cheaper_way<C: Cost>(net: &Network, best: Option<Way>, next: Option<Way>) -> Option<Way>
    ensures { result ≡ cheaper C.kind net.now best next }
{
    match (best, next) {
        (None, _) => next,
        (Some(_), None) => best,
        (Some(x), Some(y)) => {
            if path_cost::<C>(net, x.path.links()).at_most(path_cost::<C>(net, y.path.links())) {
                best
            } else {
                next
            }
        }
    }
}

impl Search<'_> {
    // The links that may be used and on which the order's block from channel a up is free.
    fn open_links(&self, a: u8) -> Usable
        ensures { (i : ℕ) → 1 ≤ i → i ≤ vec_len self.now.net.now.links → may_use result i ≡ (may_use self.now.usable.now i && block_free (cell_at self.now.free.now.cells.items) self.now.order a i) }
    {
        let mut open = Usable::none();
        for link in 1..self.net.link_count() + 1 {
            open.set(
                link,
                self.usable.is_usable(link) && self.free.has_block(self.order, a, link),
            );
        }
        open
    }

    // The chosen path of the order's block from channel a up, over the links on which it is free.
    fn path_at<C: Cost>(&self, rows: &mut Scratch<C>, a: u8) -> Option<Path>
        ensures { result ≡ path_at (sought C.kind self.now) a }
    {
        if !block_fits(self.free.channels, a, self.order.width) {
            return None;
        }
        let open = self.open_links(a);
        chosen_path(self.net, &open, rows, self.order.from, self.order.to)
    }

    // The way of the order's block from channel a up.
    fn way_at<C: Cost>(&self, rows: &mut Scratch<C>, a: u8) -> Option<Way>
        ensures { result ≡ way_at (sought C.kind self.now) a }
    {
        self.path_at(rows, a).map(|path| Way { channel: a, path })
    }

    // The way with the lowest first channel that has a path.
    pub(crate) fn first_fit<C: Cost>(&self, rows: &mut Scratch<C>) -> Option<Way>
        ensures { result ≡ first_fit (sought C.kind self.now) self.now.free.now.channels }
    {
        for k in 0..self.free.channels {
            if let Some(way) = self.way_at(rows, k + 1) {
                return Some(way);
            }
        }
        None
    }

    // The way with the cheapest chosen path; on a tie the one with the lowest first channel.
    pub(crate) fn best_fit<C: Cost>(&self, rows: &mut Scratch<C>) -> Option<Way>
        ensures { result ≡ best_fit (sought C.kind self.now) self.now.free.now.channels }
    {
        let mut best = None;
        for k in 0..self.free.channels {
            best = cheaper_way::<C>(self.net, best, self.way_at(rows, k + 1));
        }
        best
    }
}
