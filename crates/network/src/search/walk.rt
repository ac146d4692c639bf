ghost use Rattle.std.specs.Prelude.{◌≡◌, ◌≤◌, None, vec_len};
ghost use Rattle.std.specs.List.{find, range_with_len};
ghost use Rattle.network.specs.Flags.{may_use};
ghost use Rattle.network.specs.Grounds.{ground_of};
ghost use Rattle.network.specs.Method.{fit, greedy, cell_at};
ghost use Rattle.network.specs.Paths.{when_there, crossing};

use super::Scratch;
use super::ground::Ground;
use crate::cost::Cost;
use crate::path::Path;

impl<C: Cost> Scratch<C> {
    // The least cost of `left` links after the link of that number, from v.
    fn ahead(&self, over: Ground, left: u8, v: u8, number: u8) -> Option<C>
        ensures { result ≡ when_there (crossing over.entry.net.now (may_use over.entry.usable.now) v number) None (cell_at self.now.cells.items left) }
    {
        self.cell(left, over.next_place(v, number)?)
    }

    // Whether the link leads on from v, and with the least cost of `left` links after it stays within the bound.
    fn fits(&self, over: Ground, left: u8, bound: C, v: u8, paid: C, number: u8) -> bool
        ensures { result ≡ fit (ground_of C.kind over.entry) bound (cell_at self.now.cells.items left) v paid number }
    {
        // A closure for `is_some_and` leaves the proof knowing nothing of these joins.
        let Some(c) = self.ahead(over, left, v, number) else {
            return false;
        };
        paid.join(over.price(number)).join(c).at_most(bound)
    }

    // The least number of a link that fits.
    fn first_fit(&self, over: Ground, left: u8, bound: C, v: u8, paid: C) -> Option<u8>
        ensures { result ≡ find (fit (ground_of C.kind over.entry) bound (cell_at self.now.cells.items left) v paid) (range_with_len 1 (vec_len over.entry.net.now.links)) }
    {
        (1..over.link_count() + 1).find(|number| self.fits(over, left, bound, v, paid, *number))
    }

    // The links from a place on, `count` of them, each the first that fits.
    pub(super) fn walk_out(&self, over: Ground, from: u8, count: u8, bound: C) -> Path
        requires { count ≤ 8 }
        ensures { result ≡ greedy (ground_of C.kind over.entry) bound (cell_at self.now.cells.items) count from C.kind.none }
    {
        let mut path = Path::new();
        let mut v = from;
        let mut paid = C::zero();
        for step in 0..count {
            let Some(number) = self.first_fit(over, count - step - 1, bound, v, paid) else {
                return path;
            };
            path.push(number);
            paid = paid.join(over.price(number));
            v = over.next_place(v, number).unwrap_or(v);
        }
        path
    }
}
