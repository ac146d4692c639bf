ghost use Rattle.std.specs.Prelude.{◌+◌, ◌≤◌};

use ways::order::Order;
use ways::way::Way;

pub mod cells;

// An order that stands, with its way: a row of the book. Its block lies within the channels that a plant can have.
#[derive(Clone, Copy, Debug, PartialEq)]
pub struct Row {
    pub order: Order,
    pub way: Way,
    ghost block: { (1 ≤ way.channel) × (way.channel + order.width ≤ 17) },
}
