ghost use Rattle.std.specs.Prelude.{◌≡◌, ℕ, ◌+◌, ◌≤◌, true, vec_len};
ghost use Rattle.calendar.specs.Meaning.{taken};
ghost use Rattle.ways.specs.Hours.{hours_fit, run_free, block_free, cell_at, LinkTold, Told};

use crate::order::Order;
use calendar::run::Run;
use plant::Plant;
use std::alloc::{AllocError, Global};

// Which channels of each link are free in an order's hours, as the plant told: 17 places for each of the links 0 to 40, so
// that a channel's number is its place. Of the channels, the plant has the first so many.
#[derive(Drop)]
pub(crate) struct FreeChannels {
    pub(crate) cells: Vec<bool>,
    pub(crate) channels: u8,
    ghost full: { vec_len cells ≡ 697 },
    ghost few: { channels ≤ 16 },
}

// Asks the plant whether the channel of the link is free in all hours of the order.
pub(crate) fn is_free<P: Plant>(plant: &P, order: Order, link: u8, channel: u8) -> bool
    requires { hours_fit order ≡ true }
    ensures { result ≡ run_free (taken (P.meaning plant.now)) order link channel }
{
    let run = Run {
        link,
        channel,
        first: order.first,
        hours: order.hours,
    };
    plant.first_taken(run).is_none()
}

impl FreeChannels {
    // Memory for the answers of any plant.
    pub(crate) fn new(heap: Global) -> Result<FreeChannels, AllocError> {
        Ok(FreeChannels {
            cells: vec![in heap; false; 697]?,
            channels: 0,
        })
    }

    // Notes what is told of every channel of one link.
    fn note_link<F: Fn(u8, u8) -> bool>(&mut self, link: u8, is_free: &F)
        requires known { link ≤ 40 }
        requires callable { F.IsAlwaysCallable is_free.now }
        ensures told { LinkTold (F.post is_free.now) self.old.cells.items self.new.cells.items link (self.old.channels + 1) }
        ensures channels { self.new.channels ≡ self.old.channels }
    {
        for channel in 1..self.channels + 1 {
            self.cells[usize::from(link) * 17 + usize::from(channel)] = is_free(link, channel);
        }
    }

    // Notes what is told of so many channels of the first links, once for each.
    pub(crate) fn note<F: Fn(u8, u8) -> bool>(&mut self, links: u8, channels: u8, is_free: F)
        requires links { links ≤ 40 }
        requires channels { channels ≤ 16 }
        requires callable { F.IsAlwaysCallable is_free }
        ensures told { Told (F.post is_free) self.new.cells.items (links + 1) (channels + 1) }
        ensures channels { self.new.channels ≡ channels }
    {
        self.channels = channels;
        for link in 1..links + 1 {
            self.note_link(link, &is_free);
        }
    }

    // What was noted for the channel of the link.
    fn is_noted(&self, link: u8, channel: u16) -> bool
        ensures { result ≡ cell_at self.now.cells.items link channel }
    {
        let place = usize::from(link) * 17 + usize::from(channel);
        self.cells.get(place).copied().unwrap_or(false)
    }

    // Whether the order's block from channel a up is free on the link.
    pub(crate) fn has_block(&self, order: Order, a: u8, link: u8) -> bool
        ensures { result ≡ block_free (cell_at self.now.cells.items) order a link }
    {
        (0..order.width).all(|k| self.is_noted(link, u16::from(a) + u16::from(k)))
    }
}
