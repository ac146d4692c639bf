ghost use Rattle.floor.specs.Laws.{FloorByLaw, FloorLaw, EmptyFloor, OwnPlanLaw};

// Every plan of the orders has at least as many channels as the floor.
pub fn floor_is_below_every_plan()
    ensures { FloorLaw }
{}

// The same over the links that count, for plans that keep to those.
pub fn floor_by_is_below_every_plan()
    ensures { FloorByLaw }
{}

// Where no order stands the floor is 0.
pub fn empty_floor_is_zero()
    ensures { EmptyFloor }
{}

// Orders that share no cell are a plan as they stand.
pub fn own_ways_are_a_plan()
    ensures { OwnPlanLaw }
{}
