ghost use Rattle.std.specs.Prelude.{◌≡◌, ◌+◌};
ghost use Rattle.orders.specs.Calls.{runs_needed};
ghost use Rattle.orders.specs.Runs.{run_of, link_of};
ghost use Rattle.orders.specs.Standing.{stood, crosses, block_has, in_cell};

use super::Row;
use calendar::hours::covers_hour;
use calendar::run::Run;

impl Row {
    // Link i of the path, counted from 0; 0 where the path has no such link.
    pub fn link_at(&self, i: u8) -> u8
        ensures { result ≡ link_of (stood self.now) i }
    {
        self.way
            .path
            .links()
            .get(usize::from(i))
            .copied()
            .unwrap_or(0)
    }

    // Whether the path has the link.
    pub fn crosses(&self, link: u8) -> bool
        ensures { result ≡ crosses (stood self.now) link }
    {
        self.way.path.links().contains(&link)
    }

    // Whether the channel is one of the order's block.
    pub fn has_channel(&self, channel: u8) -> bool
        ensures { result ≡ block_has self.now.way.channel self.now.order.width channel }
    {
        (self.way.channel..self.way.channel + self.order.width).contains(&channel)
    }

    // Whether one of the order's runs covers the cell.
    pub fn is_in(&self, link: u8, channel: u8, hour: u8) -> bool
        ensures { result ≡ in_cell (stood self.now) link channel hour }
    {
        self.crosses(link)
            && self.has_channel(channel)
            && covers_hour(self.order.first, self.order.hours, hour)
    }

    // The order's run on that channel of that link.
    pub fn run_on(&self, link: u8, channel: u8) -> Run
        ensures { result ≡ run_of (stood self.now) link channel }
    {
        Run {
            link,
            channel,
            first: self.order.first,
            hours: self.order.hours,
        }
    }

    // How many runs the order has: its width on each link of its path.
    pub fn runs_needed(&self) -> u32
        ensures { result ≡ runs_needed (stood self.now) }
    {
        u32::from(self.way.path.count()) * u32::from(self.order.width)
    }
}
