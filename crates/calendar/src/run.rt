ghost use Rattle.std.specs.Prelude.{◌≡◌, min};
ghost use Rattle.calendar.specs.Week.{until};
ghost use Rattle.calendar.specs.Making.{sizes_fit};
ghost use Rattle.calendar.specs.Meaning.{within, fits, hour_at};

use crate::hours::{hour_after, hours_until};
use std::fmt;

// A run: one channel of one link, from a first hour on for some hours, around the week.
#[derive(Clone, Copy, Debug, Default, PartialEq, Eq)]
pub struct Run {
    pub link: u8,
    pub channel: u8,
    pub first: u8,
    pub hours: u8,
}

// How many links and channels a plant has.
#[derive(Clone, Copy, Debug, PartialEq, Eq)]
pub struct Size {
    pub links: u8,
    pub channels: u8,
}

// A window: all channels of the link are closed in these hours.
#[derive(Clone, Copy, Debug, Default, PartialEq, Eq)]
pub struct Window {
    pub link: u8,
    pub first: u8,
    pub hours: u8,
}

impl Size {
    // Whether a plant of this size has the cell.
    pub fn has_cell(self, link: u8, channel: u8, hour: u8) -> bool
        ensures { result ≡ within self.links self.channels link channel hour }
    {
        (1..=self.links).contains(&link) && (1..=self.channels).contains(&channel) && hour < 168
    }
}

impl Run {
    // Whether a plant of that size can have the run.
    pub fn fits(self, size: Size) -> bool
        ensures { result ≡ fits size.links size.channels self }
    {
        size.has_cell(self.link, self.channel, self.first) && (1..=168).contains(&self.hours)
    }

    // How many hours of the run come before the first that the hours from `first` on cover; all, where they cover none.
    pub fn hours_before(self, first: u8, hours: u8) -> u8
        ensures { result ≡ min self.hours (until first hours self.first) }
    {
        self.hours.min(hours_until(first, hours, self.first))
    }

    // The hour of the run that comes `after` hours after its first, if it has so many.
    pub fn hour_at(self, after: u8) -> Option<u8>
        ensures { result ≡ hour_at self after }
    {
        (after < self.hours).then(|| hour_after(self.first, after))
    }
}

impl fmt::Display for Run {
    fn fmt<W: fmt::Write>(&self, f: &mut fmt::Formatter<W>) -> fmt::Result {
        write!(
            f,
            "link {} channel {} from hour {} for {}",
            self.link, self.channel, self.first, self.hours
        )
    }
}

// Whether a plant may have so many links and channels.
pub fn sizes_fit(links: u32, channels: u32) -> bool
    ensures { result ≡ sizes_fit links channels }
{
    (1..=40).contains(&links) && (1..=16).contains(&channels)
}
