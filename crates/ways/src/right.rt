ghost use Rattle.ways.specs.Right.{WayIsRight};

use network::cost::Cost;

// For every cost kind, on every network and every plant: the way that an order gets is allowed, none is ahead of it by
// the fit that was asked for, and where it gets none no way is allowed.
pub fn way_is_right<C: Cost>()
    ensures { WayIsRight C.kind }
{}
