ghost use Rattle.std.specs.Prelude.{◌≡◌, ◌⊎◌, MatchOption, MatchResult};
ghost use Rattle.calendar.specs.Meaning.{size_of, first_taken};
ghost use Rattle.calendar.specs.Layers.{carded};
ghost use Rattle.calendar.proofs.Carded.{carded_sound, order_of};
ghost use Rattle.layers.specs.Below.{Passed, ChannelStands, NoChannel, RunStands, OutOfRange, AllClosed};
ghost use Rattle.layers.specs.Means.{order_means};

use super::card_table::CardTable;
use calendar::refusal::PlantRefusal;
use calendar::run::{Run, Size};
use plant::Plant;

// A plant with its channels in another order: channel w is the channel below that entry w names.
// All sixteen are shown; one that the plant below lacks is closed.
#[derive(Drop)]
pub struct CardOrder<P> {
    below: P,
    table: CardTable,
}

impl<P: Plant> CardOrder<P> {
    pub fn new(below: P, table: CardTable) -> CardOrder<P>
        ensures { order_means P.meaning result ≡ carded table.entries (P.meaning below) }
    {
        CardOrder { below, table }
    }

    // Gives the plant below back.
    pub fn into_below(self) -> P
        ensures { result ≡ self.below }
    {
        let CardOrder { below, .. } = self;
        below
    }

    // The plant below: its links, room and numbers of held cells are the layer's too.
    fn plant_below(&self) -> &P
        ensures plant { result.now ≡ self.now.below }
        ensures size { size_of (order_means P.meaning self.now) ≡ record { links = (P.meaning result.now).links; channels = 16 } }
        ensures passed { Passed (carded self.now.table.entries) (P.meaning result.now) }
    {
        &self.below
    }

    // The channel that stands for it below, if it is one of the sixteen.
    fn channel_below(&self, channel: u8) -> Option<u8>
        ensures { MatchOption result (NoChannel (order_means P.meaning self.now) channel) (λ k. ChannelStands (carded self.now.table.entries) (P.meaning self.now.below) channel k) }
    {
        (1..=16)
            .contains(&channel)
            .then(|| self.table.entry(channel))
    }

    // The run that stands for it below, or why there is none: `lacking` where the plant below lacks the channel.
    fn run_below(&self, run: Run, lacking: PlantRefusal) -> Result<Run, PlantRefusal>
        ensures { MatchResult result
            (λ s. RunStands (carded self.now.table.entries) (P.meaning self.now.below) run s × (first_taken (order_means P.meaning self.now) run ≡ first_taken (P.meaning self.now.below) s))
            (λ why. ((why ≡ PlantRefusal.OutOfRange) × OutOfRange (order_means P.meaning self.now) run) ⊎ ((why ≡ lacking) × AllClosed (order_means P.meaning self.now) run)) }
    {
        let size = self.below.size();
        let shown = Size {
            channels: 16,
            ..size
        };
        if !run.fits(shown) {
            return Err(PlantRefusal::OutOfRange);
        }
        let channel = self.table.entry(run.channel);
        if size.channels < channel {
            return Err(lacking);
        }
        Ok(Run { channel, ..run })
    }
}

impl<P: Plant> Plant for CardOrder<P> {
    ghost meaning = { order_means P.meaning };

    ghost sound = { λ s. carded_sound s.table.entries (order_of s.table.entries s.table.ordered) (P.meaning s.below) (P.sound s.below) };

    fn size(&self) -> Size {
        Size {
            channels: 16,
            ..self.plant_below().size()
        }
    }

    fn room(&self) -> u32 {
        self.plant_below().room()
    }

    fn closed(&self, link: u8, channel: u8, hour: u8) -> bool {
        self.channel_below(channel)
            .is_none_or(|below| self.below.closed(link, below, hour))
    }

    fn held(&self, link: u8, channel: u8, hour: u8) -> bool {
        self.channel_below(channel)
            .is_some_and(|below| self.below.held(link, below, hour))
    }

    fn held_count(&self, link: u8) -> u32 {
        self.plant_below().held_count(link)
    }

    fn hold(&mut self, run: Run) -> Result<(), PlantRefusal> {
        let below = self.run_below(run, PlantRefusal::CellClosed)?;
        self.below.hold(below)
    }

    fn release(&mut self, run: Run) -> Result<(), PlantRefusal> {
        let below = self.run_below(run, PlantRefusal::NoSuchRun)?;
        self.below.release(below)
    }

    fn first_taken(&self, run: Run) -> Option<u8> {
        match self.run_below(run, PlantRefusal::CellClosed) {
            Ok(below) => self.below.first_taken(below),
            Err(_) => Some(run.first),
        }
    }
}
