ghost use Rattle.std.specs.Prelude.{◌≡◌};
ghost use Rattle.network.specs.Paths.{has};
ghost use Rattle.orders.specs.Standing.{all_stood};
ghost use Rattle.floor.specs.Plans.{own_plan, channels_in, used as used_by};

use orders::book::Book;

// Whether an order of the book holds channel c.
fn holds(book: &Book, c: u8) -> bool
    ensures { result ≡ has c (channels_in (own_plan (all_stood book.now.rows.items))) }
{
    book.rows.iter().any(|row| row.has_channel(c))
}

// How many different channels the orders hold. A plant has channels 1 to 16 at most.
pub fn used(book: &Book) -> u32
    ensures { result ≡ used_by (all_stood book.now.rows.items) }
{
    (1..=16u8).filter(|c| holds(book, *c)).count() as u32
}
