ghost use Rattle.std.specs.Prelude.{◌≡◌, ◌≤◌, true, vec_len, vec_capacity};
ghost use Rattle.network.specs.Paths.{no_twice};
ghost use Rattle.orders.specs.Book.{numbers};

use crate::row::Row;

pub mod calls;

// The orders that stand, at most 64, in order of acceptance and with different numbers. Memory for all of them is
// reserved when a book is made.
#[derive(Drop)]
pub struct Book {
    pub rows: Vec<Row>,
    ghost few: { vec_len rows ≤ 64 },
    ghost space: { 64 ≤ vec_capacity rows },
    ghost apart: { no_twice (numbers rows.items) ≡ true },
}
