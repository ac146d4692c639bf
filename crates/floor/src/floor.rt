ghost use Rattle.std.specs.Prelude.{◌≡◌, ℕ, ◌≤◌, List};
ghost use Rattle.orders.specs.Standing.{all_stood};
ghost use Rattle.floor.specs.Floor.{has_end, touches as touches_at, ends_at as ends_there, share as share_of, load as load_at, always, links_at as links_there, rounded_up, busiest as busiest_at, floor as floor_of};
ghost use Rattle.floor.specs.Plans.{Placed, Plan, channels_of, orders_of};

use calendar::hours::covers_hour;
use network::link::Link;
use network::network::Network;
use orders::book::Book;
use orders::row::Row;
use ways::order::Order;

// Whether the order begins or ends at place v.
fn ends_at(order: Order, v: u8) -> bool
    ensures { result ≡ ends_there order v }
{
    order.from == v || order.to == v
}

// The width of the row's order at place v in an hour; 0 where it does not end there or not run then.
fn share(row: &Row, v: u8, hour: u8) -> u32
    ensures is { result ≡ share_of row.now.order v hour }
    ensures few { result ≤ 16 }
{
    let order = row.order;
    if ends_at(order, v) && covers_hour(order.first, order.hours, hour) {
        u32::from(order.width)
    } else {
        0
    }
}

// The widths of the orders that end at v and run in the hour, added up. It stays a plain loop over the rows, as the
// project keeps it.
fn load(book: &Book, v: u8, hour: u8) -> u32
    ensures is { result ≡ load_at (orders_of (all_stood book.now.rows.items)) v hour }
    ensures few { result ≤ 1024 }
{
    let mut sum = 0;
    for row in &book.rows {
        sum += share(row, v, hour);
    }
    sum
}

// Whether place v is an end of the link.
fn has_end(link: Link, v: u8) -> bool
    ensures { result ≡ has_end link v }
{
    link.one == v || link.two == v
}

// Whether there is a link of that number and place v is one of its ends.
fn touches(net: &Network, number: u8, v: u8) -> bool
    ensures { result ≡ touches_at net.now number v }
{
    net.link(number).is_some_and(|link| has_end(link, v))
}

// How many links have v as an end, in any hour.
fn links_at(net: &Network, v: u8) -> u32
    ensures is { (h : ℕ) → result ≡ links_there always net.now v h }
    ensures few { result ≤ 40 }
{
    (1..=net.link_count())
        .filter(|number| touches(net, *number, v))
        .count() as u32
}

// w divided by k and rounded up; 0 where k is 0. Written as the definition of the floor has it.
fn rounded_up(w: u32, k: u32) -> u32
    requires load { w ≤ 1024 }
    requires links { k ≤ 40 }
    ensures { result ≡ rounded_up w k }
{
    if k == 0 { 0 } else { (w + (k - 1)) / k }
}

// The greatest need at place v over the hours of the week.
fn busiest(net: &Network, book: &Book, v: u8) -> u32
    ensures { result ≡ busiest_at always net.now (orders_of (all_stood book.now.rows.items)) v }
{
    let links = links_at(net, v);
    (0..168u8)
        .map(|hour| rounded_up(load(book, v, hour), links))
        .max()
        .unwrap_or(0)
}

// The greatest need over all places and all hours of the week.
fn greatest_need(net: &Network, book: &Book) -> u32
    ensures { result ≡ floor_of net.now (orders_of (all_stood book.now.rows.items)) }
{
    (1..=net.places())
        .map(|v| busiest(net, book, v))
        .max()
        .unwrap_or(0)
}

// The floor: every plan of the orders on the network has at least as many channels.
pub fn floor(net: &Network, book: &Book) -> u32
    ensures is { result ≡ floor_of net.now (orders_of (all_stood book.now.rows.items)) }
    ensures least { (plan : List Placed) → Plan net.now (orders_of (all_stood book.now.rows.items)) plan → result ≤ channels_of plan }
{
    greatest_need(net, book)
}
