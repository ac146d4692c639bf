ghost use Rattle.std.specs.Prelude.{◌≡◌, ◌<◌, false, [], ◌∷◌, ◌++◌, length, IfOk, vec_len, MatchOption, nat_le, slice_index_or, slice_set};
ghost use Rattle.std.specs.List.{remove};
ghost use Rattle.orders.specs.Book.{nobody, stands, at_hour, pushed, Found};
ghost use Rattle.orders.specs.Standing.{stood, all_stood};

use super::Book;
use crate::row::Row;
use std::alloc::{AllocError, Global};

impl Book {
    // An unused book, with memory for all the orders that it may get.
    pub fn new(heap: Global) -> Result<Book, AllocError>
        ensures { IfOk result (λ b. b.rows.items ≡ []) }
    {
        let rows = Vec::with_capacity(heap, 64)?;
        Ok(Book { rows })
    }

    // The place of the order of this number, if it stands.
    pub fn find(&self, number: u32) -> Option<usize>
        ensures { MatchOption result
            (stands number (all_stood self.now.rows.items) ≡ false)
            (λ i. Found number self.now.rows.items i) }
    {
        self.rows
            .iter()
            .position(|row| u32::from(row.order.number) == number)
    }

    // Whether an order of this number stands.
    pub fn has(&self, number: u32) -> bool
        ensures { result ≡ stands number (all_stood self.now.rows.items) }
    {
        self.find(number).is_some()
    }

    // Whether no further order can stand.
    pub fn is_full(&self) -> bool
        ensures { result ≡ nat_le 64 (length (all_stood self.now.rows.items)) }
    {
        self.rows.len() >= 64
    }

    // One order more, at the end; a full book, and one with an order of that number, stay as they are.
    pub fn push(&mut self, row: Row)
        ensures { all_stood self.new.rows.items ≡ pushed (all_stood self.old.rows.items) (stood row) }
    {
        if self.is_full() || self.has(u32::from(row.order.number)) {
            return;
        }
        self.rows.push_reserved(row);
    }

    // Strikes out row i, and closes up the book.
    pub fn remove(&mut self, i: usize)
        ensures { all_stood self.new.rows.items ≡ remove (all_stood self.old.rows.items) i }
    {
        if i < self.rows.len() {
            let _ = self.rows.remove(i);
        }
    }

    // Gives the order of row i a new first hour.
    pub fn set_hour(&mut self, i: usize, hour: u8)
        ensures { all_stood self.new.rows.items ≡ slice_set (all_stood self.old.rows.items) i (at_hour hour (slice_index_or (all_stood self.old.rows.items) i nobody)) }
    {
        if let Some(row) = self.rows.get_mut(i) {
            row.order.first = hour;
        }
    }
}
