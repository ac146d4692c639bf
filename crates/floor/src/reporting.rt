ghost use Rattle.std.specs.Prelude.{◌≡◌, length};
ghost use Rattle.orders.specs.Standing.{all_stood};
ghost use Rattle.floor.specs.Plans.{reported};

use crate::cells::channel_hours;
use crate::floor::floor;
use crate::report::Report;
use crate::used::used;
use network::network::Network;
use orders::book::Book;

// How many orders stand.
fn order_count(book: &Book) -> u32
    ensures { result ≡ length (all_stood book.now.rows.items) }
{
    book.rows.len() as u32
}

// The report on the orders that stand.
pub fn report(net: &Network, book: &Book) -> Report
    ensures { result ≡ reported net.now (all_stood book.now.rows.items) }
{
    Report {
        used: used(book),
        floor: floor(net, book),
        orders: order_count(book),
        channel_hours: channel_hours(book),
    }
}
