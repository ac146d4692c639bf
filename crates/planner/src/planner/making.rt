ghost use Rattle.std.specs.Prelude.{◌≡◌, []};
ghost use Rattle.orders.specs.Calls.{State};
ghost use Rattle.planner.specs.Seen.{seen};

use super::{Planner, Workspace};
use network::cost::Cost;
use network::network::Network;
use orders::book::Book;
use plant::Plant;
use std::alloc::{AllocError, Global};
use ways::fit::Fit;
use ways::space::Space;

impl<C: Copy> Workspace<C> {
    // Reserves all the memory that a planner will need; no later call can fail for want of it.
    pub fn new(heap: Global) -> Result<Workspace<C>, AllocError> {
        let book = Book::new(heap)?;
        let space = Space::new(heap)?;
        Ok(Workspace { book, space })
    }
}

impl<P: Plant, C: Cost> Planner<P, C> {
    // A planner on this network and this plant, whatever is held there, with an unused book.
    pub fn new(net: Network, plant: P, fit: Fit, workspace: Workspace<C>) -> Planner<P, C>
        ensures { seen P.meaning C.kind result ≡ record { rules = record { kind = C.kind; net = net; fit = fit }; plant = P.meaning plant; standing = [] } }
    {
        Planner {
            net,
            plant,
            fit,
            book: workspace.book,
            space: workspace.space,
        }
    }

    // The plant, as the calls have left it.
    pub fn plant(&self) -> &P
        ensures { result.now ≡ self.now.plant }
    {
        &self.plant
    }

    // Gives back the network and the plant.
    pub fn into_parts(self) -> (Network, P)
        ensures net { result.0 ≡ self.net }
        ensures plant { result.1 ≡ self.plant }
    {
        (self.net, self.plant)
    }
}
