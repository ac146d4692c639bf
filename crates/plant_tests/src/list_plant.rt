use calendar::refusal::PlantRefusal;
use calendar::run::{Run, Size, Window};
use std::alloc::AllocError;

// A plant written the plain way, to compare the others with: a list of live runs, and every question answered
// hour by hour and run by run. It stands for a whole pile, as its user sees it: `windows` closes links, and
// `lacking` are the channels that no card below serves.
#[derive(Drop)]
pub struct ListPlant {
    pub links: u8,
    pub channels: u8,
    pub limit: u32,
    pub windows: Vec<Window>,
    pub lacking: Vec<u8>,
    pub runs: Vec<Run>,
}

// Its own reckoning of the week, its own limits and its own order of refusals: none of the code that it judges.
fn hour_of(first: u8, after: u8) -> u8 {
    ((first as u16 + after as u16) % 168) as u8
}

fn covered(first: u8, hours: u8, hour: u8) -> bool {
    (0..hours).any(|after| hour_of(first, after) == hour)
}

// The first hour of the run of which that is so.
fn first_hour<F: Fn(u8) -> bool>(run: Run, is_so: F) -> Option<u8>
    requires { F.IsAlwaysCallable is_so }
{
    (0..run.hours)
        .map(|after| hour_of(run.first, after))
        .find(|hour| is_so(*hour))
}

impl ListPlant {
    pub fn size(&self) -> Size {
        Size {
            links: self.links,
            channels: self.channels,
        }
    }

    fn inside(&self, link: u8, channel: u8, hour: u8) -> bool {
        (1..=self.links).contains(&link) && (1..=self.channels).contains(&channel) && hour <= 167
    }

    fn proper(&self, run: Run) -> bool {
        self.inside(run.link, run.channel, run.first) && (1..=168).contains(&run.hours)
    }

    pub fn closed(&self, link: u8, channel: u8, hour: u8) -> bool {
        !self.inside(link, channel, hour)
            || self.lacking.contains(&channel)
            || self.windows.iter().any(|window| window.link == link
                && covered(window.first, window.hours, hour))
    }

    pub fn held(&self, link: u8, channel: u8, hour: u8) -> bool {
        self.runs.iter().any(|run| {
            run.link == link && run.channel == channel && covered(run.first, run.hours, hour)
        })
    }

    pub fn room(&self) -> u32 {
        (self.limit as usize).saturating_sub(self.runs.len()) as u32
    }

    // The held hours of one channel.
    fn held_hours(&self, link: u8, channel: u8) -> u32 {
        (0..168u8)
            .filter(|hour| self.held(link, channel, *hour))
            .count() as u32
    }

    pub fn held_count(&self, link: u8) -> u32 {
        (1..=16u8)
            .map(|channel| self.held_hours(link, channel))
            .fold(0, u32::saturating_add)
    }

    fn may_hold(&self, run: Run) -> Result<(), PlantRefusal> {
        let closed = |hour| self.closed(run.link, run.channel, hour);
        let held = |hour| self.held(run.link, run.channel, hour);
        if !self.proper(run) {
            Err(PlantRefusal::OutOfRange)
        } else if first_hour(run, closed).is_some() {
            Err(PlantRefusal::CellClosed)
        } else if first_hour(run, held).is_some() {
            Err(PlantRefusal::CellHeld)
        } else if self.room() == 0 {
            Err(PlantRefusal::NoRoom)
        } else {
            Ok(())
        }
    }

    // The answer, where there is memory for the run.
    pub fn hold(&mut self, run: Run) -> Result<Result<(), PlantRefusal>, AllocError> {
        let answer = self.may_hold(run);
        if answer.is_ok() {
            self.runs.push(run)?;
        }
        Ok(answer)
    }

    pub fn release(&mut self, run: Run) -> Result<(), PlantRefusal> {
        if !self.proper(run) {
            return Err(PlantRefusal::OutOfRange);
        }
        let live = self.runs.iter().position(|live| *live == run);
        let _ = self.runs.remove(live.ok_or(PlantRefusal::NoSuchRun)?);
        Ok(())
    }

    pub fn first_taken(&self, run: Run) -> Option<u8> {
        if !self.proper(run) {
            return Some(run.first);
        }
        first_hour(run, |hour| {
            self.closed(run.link, run.channel, hour) || self.held(run.link, run.channel, hour)
        })
    }
}
