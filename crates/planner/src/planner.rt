ghost use Rattle.std.specs.Prelude.{◌≡◌, vec_len};

use network::network::Network;
use orders::book::Book;
use ways::fit::Fit;
use ways::space::Space;

mod changing;
mod checks;
pub mod making;
mod serving;
mod taking;

// A planner: a network, a plant, how the first channel is chosen, and a book of standing orders. C is the cost kind.
#[derive(Drop)]
pub struct Planner<P, C> {
    net: Network,
    plant: P,
    fit: Fit,
    book: Book,
    space: Space<C>,
}

// Memory for a planner: an unused book, and the rows of a search.
#[derive(Drop)]
pub struct Workspace<C> {
    book: Book,
    space: Space<C>,
    ghost unused: { vec_len book.rows ≡ 0 },
}
