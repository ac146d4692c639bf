ghost use Rattle.std.specs.Prelude.{◌≡◌, ℕ, ◌+◌, ◌*◌, ◌<◌, if◌then◌else◌, Some, None, nat_eq, slice_set};
ghost use Rattle.network.specs.Grounds.{ground_of};
ghost use Rattle.network.specs.Method.{better, extended, cell_at, Relaxed, NextRow, Tabled};

use super::Scratch;
use super::ground::Ground;
use crate::cost::Cost;

// The lesser of two costs, where each may be absent.
fn cheaper<C: Cost>(x: Option<C>, y: Option<C>) -> Option<C>
    ensures { result ≡ better C.kind.at_most x y }
{
    // With `x.or(y)` in place of the first two arms a search takes a fifth more instructions.
    match (x, y) {
        (None, _) => y,
        (Some(_), None) => x,
        (Some(a), Some(b)) => { if a.at_most(b) { x } else { y } }
    }
}

impl<C: Copy> Scratch<C> {
    // The cell of the row of j links at place v.
    pub(super) fn cell(&self, j: u8, v: u8) -> Option<C>
        ensures { result ≡ cell_at self.now.cells.items j v }
    {
        *self.cells.get(j as usize * 33 + v as usize)?
    }

    fn put(&mut self, j: u8, v: u8, cost: Option<C>)
        ensures { self.new.cells.items ≡ slice_set self.old.cells.items (j * 33 + v) cost }
    {
        if let Some(cell) = self.cells.get_mut(j as usize * 33 + v as usize) {
            *cell = cost;
        }
    }

    fn clear_row(&mut self, j: u8)
        ensures here { (v : ℕ) → v < 33 → cell_at self.new.cells.items j v ≡ None }
        ensures below { (k v : ℕ) → k < j → v < 33 → cell_at self.new.cells.items k v ≡ cell_at self.old.cells.items k v }
    {
        if j > 8 {
            return;
        }
        // As a slice that is filled, what the other rows keep stays open.
        for v in 0..33u8 {
            self.cells[j as usize * 33 + v as usize] = None;
        }
    }
}

impl<C: Cost> Scratch<C> {
    // The cost of going over a link to w, where j links are ahead.
    // A search comes here and to `offer` most; with the row and the place known to lie within, neither tests its index.
    fn by_way_of(&self, j: u8, price: C, w: u8) -> Option<C>
        requires { (j < 9) × (w < 33) }
        ensures { result ≡ extended C.kind.joined price (cell_at self.now.cells.items j w) }
    {
        self.cells[j as usize * 33 + w as usize].map(|c| price.join(c))
    }

    // Keeps a cost of j links at v, if it is less than that known there.
    fn offer(&mut self, j: u8, v: u8, cost: Option<C>)
        requires { (j < 9) × (v < 33) }
        ensures { self.new.cells.items ≡ slice_set self.old.cells.items (j * 33 + v) (better C.kind.at_most (cell_at self.old.cells.items j v) cost) }
    {
        let known = &mut self.cells[j as usize * 33 + v as usize];
        *known = cheaper(*known, cost);
    }

    // Offers a link that may be used to both of its ends, in the row after row j.
    fn relax_link(&mut self, over: Ground, j: u8, number: u8)
        requires { j < 8 }
        ensures { Relaxed (ground_of C.kind over.entry) self.old.cells.items self.new.cells.items j number }
    {
        if !over.usable.is_usable(number) {
            return;
        }
        let Some(link) = over.net.link(number) else {
            return;
        };
        let price = C::of_link(&link);
        self.offer(j + 1, link.one, self.by_way_of(j, price, link.two));
        self.offer(j + 1, link.two, self.by_way_of(j, price, link.one));
    }

    // The row of no links: only the target is where one has to be.
    fn first_row(&mut self, to: u8)
        ensures { (v : ℕ) → v < 33 → cell_at self.new.cells.items 0 v ≡ (if nat_eq v to then Some C.kind.none else None) }
    {
        self.clear_row(0);
        self.put(0, to, Some(C::zero()));
    }

    // The row after row j, by going over the links once.
    fn next_row(&mut self, over: Ground, j: u8)
        requires { j < 8 }
        ensures { NextRow (ground_of C.kind over.entry) self.old.cells.items self.new.cells.items j }
    {
        self.clear_row(j + 1);
        for number in 1..over.link_count() + 1 {
            self.relax_link(over, j, number);
        }
    }

    // At each place the least cost of exactly j links from there to the target, for each j up to the hop limit.
    pub(super) fn fill(&mut self, over: Ground, to: u8)
        ensures { Tabled (ground_of C.kind over.entry) to self.new.cells.items over.entry.net.now.hops }
    {
        self.first_row(to);
        for j in 0..over.net.hops() {
            self.next_row(over, j);
        }
    }
}
