ghost use Rattle.std.specs.Prelude.{◌≡◌, ◌*◌, ◌≤◌};
ghost use Rattle.orders.specs.Standing.{stood, all_stood};
ghost use Rattle.floor.specs.Plans.{cell_hours, channel_hours};

use orders::book::Book;
use orders::row::Row;

// So many links times so many channels times so many hours.
fn cells(links: u8, channels: u8, hours: u8) -> u32
    ensures { result ≡ links * (channels * hours) }
{
    u32::from(links) * (u32::from(channels) * u32::from(hours))
}

// The cells that the row's order holds.
fn cell_hours(row: &Row) -> u32
    ensures is { result ≡ cell_hours (stood row.now) }
    ensures few { result ≤ 32640 }
{
    cells(row.way.path.count(), row.order.width, row.order.hours)
}

// The cells that all orders hold.
pub fn channel_hours(book: &Book) -> u32
    ensures { result ≡ channel_hours (all_stood book.now.rows.items) }
{
    book.rows.iter().map(cell_hours).sum()
}
