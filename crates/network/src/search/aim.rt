ghost use Rattle.std.specs.Prelude.{◌≡◌};
ghost use Rattle.network.specs.Method.{cell_at, pick_more, picks};

use super::Scratch;
use crate::cost::Cost;
use crate::network::Network;

// The best so far, or j links where they cost less: on a tie the fewer links stay.
fn nearer<C: Cost>(best: Option<(u8, C)>, j: u8, here: Option<C>) -> Option<(u8, C)>
    ensures { result ≡ pick_more C.kind.at_most best j here }
{
    match (best, here) {
        (_, None) => best,
        (Some(b), Some(c)) if b.1.at_most(c) => best,
        (_, Some(c)) => Some((j, c)),
    }
}

impl<C: Cost> Scratch<C> {
    // The fewest links that reach the least cost from a place within the hop limit, and that cost.
    pub(super) fn aim(&self, net: &Network, from: u8) -> Option<(u8, C)>
        ensures { result ≡ picks C.kind.at_most (cell_at self.now.cells.items) from net.now.hops }
    {
        let mut best = None;
        for j in 0..net.hops() {
            best = nearer(best, j + 1, self.cell(j + 1, from));
        }
        best
    }
}
