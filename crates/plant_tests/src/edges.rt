use crate::bottoms::{map, timetable};
use crate::calls::run;
use crate::piles::{carded, clocked, windowed};
use calendar::refusal::answer_number;
use plant::Plant;
use std::process::Abort;
use std::test::Fail;

// Each edge of what a plant of three links can have, for hold and for release alike.
fn out_of_range<P: Plant>(rt: &impl Abort, plant: &mut P, channels: u8) {
    let past = channels.saturating_add(1);
    let outside = [
        run(0, 1, 0, 1),
        run(4, 1, 0, 1),
        run(3, 0, 0, 1),
        run(3, past, 0, 1),
        run(3, 1, 168, 1),
        run(3, 1, 0, 0),
        run(3, 1, 0, 169),
        run(255, 255, 255, 255),
    ];
    for r in outside.iter() {
        assert_eq!(rt; answer_number(plant.hold(*r)), 21);
        assert_eq!(rt; answer_number(plant.release(*r)), 21);
        assert_eq!(rt; plant.first_taken(*r), Some(r.first));
    }
}

// Call by call and no table, since holds, releases and questions mix, and so that a failure names its line.
// Held, held already, released, not there; at the last hour and around the turn. Channel 3 of link 3 is open in
// every pile.
fn held_and_gone<P: Plant>(rt: &impl Abort, plant: &mut P) {
    let r = run(3, 3, 167, 2);
    assert_eq!(rt; answer_number(plant.release(r)), 25);
    assert_eq!(rt; answer_number(plant.hold(r)), 0);
    assert_eq!(rt; plant.held_count(3), 2);
    assert_eq!(rt; answer_number(plant.hold(run(3, 3, 0, 1))), 23);
    assert_eq!(rt; plant.first_taken(run(3, 3, 166, 4)), Some(167));
    assert_eq!(rt; answer_number(plant.release(run(3, 3, 167, 1))), 25);
    assert_eq!(rt; answer_number(plant.release(run(3, 3, 0, 1))), 25);
    assert_eq!(rt; answer_number(plant.hold(run(3, 3, 1, 166))), 0);
    assert_eq!(rt; plant.held_count(3), 168);
    assert_eq!(rt; answer_number(plant.release(r)), 0);
    assert_eq!(rt; plant.held_count(3), 166);
}

fn edges<P: Plant + Drop>(rt: &impl Abort, plant: P, channels: u8) {
    let mut plant = plant;
    out_of_range(rt, &mut plant, channels);
    held_and_gone(rt, &mut plant);
}

#[test]
fn bottoms_refuse_at_their_edges(rt: HostRuntime) -> Result<(), Fail> {
    let heap = rt.alloc();
    edges(&rt, timetable(heap, 4, 3, 4)?, 4);
    edges(&rt, map(heap, 3, 4)?, 4);
    Ok(())
}

#[test]
fn layers_refuse_at_their_edges(rt: HostRuntime) -> Result<(), Fail> {
    let heap = rt.alloc();
    edges(&rt, windowed(timetable(heap, 4, 3, 4)?)?, 4);
    edges(&rt, windowed(map(heap, 3, 4)?)?, 4);
    edges(&rt, clocked(timetable(heap, 4, 3, 4)?, 167)?, 4);
    edges(&rt, clocked(map(heap, 3, 4)?, 162)?, 4);
    edges(&rt, carded(timetable(heap, 4, 3, 4)?)?, 16);
    edges(&rt, carded(map(heap, 3, 4)?)?, 16);
    Ok(())
}

#[test]
fn windows_close_their_hours(rt: HostRuntime) -> Result<(), Fail> {
    let mut plant = windowed(map(rt.alloc(), 3, 4)?)?;
    assert_eq!(rt; answer_number(plant.hold(run(1, 1, 12, 148))), 0);
    assert_eq!(rt; answer_number(plant.hold(run(1, 2, 11, 1))), 22);
    assert_eq!(rt; answer_number(plant.hold(run(1, 2, 160, 1))), 22);
    assert_eq!(rt; answer_number(plant.hold(run(2, 1, 0, 6))), 22);
    assert_eq!(rt; answer_number(plant.hold(run(2, 1, 0, 5))), 0);
    assert_eq!(rt; plant.first_taken(run(1, 2, 12, 168)), Some(160));
    Ok(())
}

#[test]
fn a_card_order_closes_what_it_lacks(rt: HostRuntime) -> Result<(), Fail> {
    let mut plant = carded(map(rt.alloc(), 3, 4)?)?;
    assert_eq!(rt; plant.size().channels, 16);
    assert_eq!(rt; answer_number(plant.hold(run(1, 2, 0, 1))), 22);
    assert_eq!(rt; answer_number(plant.release(run(1, 2, 0, 1))), 25);
    assert_eq!(rt; answer_number(plant.hold(run(1, 5, 0, 168))), 0);
    let below = plant.into_below();
    assert_eq!(rt; below.held(1, 4, 77), true);
    Ok(())
}

#[test]
fn a_full_timetable_has_no_room(rt: HostRuntime) -> Result<(), Fail> {
    let mut plant = timetable(rt.alloc(), 2, 3, 4)?;
    assert_eq!(rt; plant.room(), 2);
    assert_eq!(rt; answer_number(plant.hold(run(1, 1, 0, 1))), 0);
    assert_eq!(rt; answer_number(plant.hold(run(1, 1, 1, 1))), 0);
    assert_eq!(rt; plant.room(), 0);
    assert_eq!(rt; answer_number(plant.hold(run(1, 1, 2, 1))), 24);
    assert_eq!(rt; answer_number(plant.hold(run(1, 1, 1, 1))), 23);
    assert_eq!(rt; answer_number(plant.release(run(1, 1, 0, 1))), 0);
    assert_eq!(rt; answer_number(plant.hold(run(1, 1, 2, 1))), 0);
    Ok(())
}
