use crate::bottoms::{map, timetable};
use crate::calls::run;
use calendar::refusal::answer_number;
use calendar::run::Run;
use plant::Plant;
use std::process::Abort;
use std::test::Fail;

// Three runs that together fill a week, each beginning where another ends, one of them around the turn.
fn neighbours() -> [Run; 3] {
    [run(1, 1, 160, 20), run(1, 1, 12, 1), run(1, 1, 13, 147)]
}

fn orders() -> [[Run; 3]; 6] {
    let [a, b, c] = neighbours();
    [
        [a, b, c],
        [a, c, b],
        [b, a, c],
        [b, c, a],
        [c, a, b],
        [c, b, a],
    ]
}

fn released_in_order<P: Plant>(rt: &impl Abort, plant: &mut P, order: &[Run; 3]) {
    for r in neighbours().iter() {
        assert_eq!(rt; answer_number(plant.hold(*r)), 0);
    }
    assert_eq!(rt; plant.held_count(1), 168);
    let mut held: u32 = 168;
    for r in order.iter() {
        assert_eq!(rt; answer_number(plant.release(*r)), 0);
        assert_eq!(rt; answer_number(plant.release(*r)), 25);
        held = held.saturating_sub(r.hours as u32);
        assert_eq!(rt; plant.held_count(1), held);
    }
    assert_eq!(rt; held, 0);
}

fn released<P: Plant + Drop>(rt: &impl Abort, plant: P) {
    let mut plant = plant;
    for order in orders().iter() {
        released_in_order(rt, &mut plant, order);
    }
}

#[test]
fn neighbours_are_released_in_each_order(rt: HostRuntime) -> Result<(), Fail> {
    released(&rt, timetable(rt.alloc(), 3, 1, 1)?);
    released(&rt, map(rt.alloc(), 1, 1)?);
    Ok(())
}

fn week(first: u8) -> Run {
    run(1, 1, first, 168)
}

fn whole_week<P: Plant + Drop>(rt: &impl Abort, plant: P) {
    let mut plant = plant;
    assert_eq!(rt; answer_number(plant.hold(week(5))), 0);
    assert_eq!(rt; answer_number(plant.release(week(6))), 25);
    assert_eq!(rt; answer_number(plant.release(run(1, 1, 5, 167))), 25);
    assert_eq!(rt; answer_number(plant.hold(week(6))), 23);
    assert_eq!(rt; answer_number(plant.release(week(5))), 0);
    assert_eq!(rt; answer_number(plant.hold(week(6))), 0);
    assert_eq!(rt; plant.held_count(1), 168);
}

#[test]
fn a_whole_week_knows_where_it_starts(rt: HostRuntime) -> Result<(), Fail> {
    whole_week(&rt, timetable(rt.alloc(), 3, 1, 1)?);
    whole_week(&rt, map(rt.alloc(), 1, 1)?);
    Ok(())
}
