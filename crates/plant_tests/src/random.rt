use crate::bottoms::{map, timetable};
use crate::calls::{plain_answer, proved_answer, some_call};
use crate::list_plant::ListPlant;
use crate::piles::{carded, clocked, plain, plain_carded, plain_tall, plain_windowed, windowed};
use dice::Dice;
use plant::Plant;
use std::process::Abort;
use std::test::Fail;

const CALLS: u32 = 3000;

// Makes the same random calls on both, and compares each answer.
fn agree<P: Plant + Drop>(
    rt: &impl Abort,
    plant: P,
    plain: ListPlant,
    seed: u64,
) -> Result<(), Fail> {
    let mut plant = plant;
    let mut plain = plain;
    let mut dice = Dice::new(seed);
    for _ in 0..CALLS {
        let call = some_call(&mut dice, &plain);
        let wanted = plain_answer(&mut plain, call)?;
        assert_eq!(rt; proved_answer(&mut plant, call), wanted);
    }
    Ok(())
}

// The limit of a map of three links and four channels.
const CELLS: u32 = 3 * 4 * 168;

#[test]
fn bottoms_answer_as_the_plain_plant(rt: HostRuntime) -> Result<(), Fail> {
    let heap = rt.alloc();
    agree(&rt, timetable(heap, 12, 3, 4)?, plain(heap, 3, 4, 12), 1)?;
    agree(
        &rt,
        timetable(heap, 1024, 3, 4)?,
        plain(heap, 3, 4, 1024),
        2,
    )?;
    agree(&rt, map(heap, 3, 4)?, plain(heap, 3, 4, CELLS), 3)?;
    agree(&rt, map(heap, 1, 1)?, plain(heap, 1, 1, 168), 4)
}

#[test]
fn layers_over_a_timetable_answer_as_the_plain_plant(rt: HostRuntime) -> Result<(), Fail> {
    let heap = rt.alloc();
    agree(
        &rt,
        windowed(timetable(heap, 40, 3, 4)?)?,
        plain_windowed(heap, 40, 0)?,
        11,
    )?;
    agree(
        &rt,
        clocked(timetable(heap, 40, 3, 4)?, 162)?,
        plain(heap, 3, 4, 40),
        12,
    )?;
    agree(
        &rt,
        carded(timetable(heap, 40, 3, 4)?)?,
        plain_carded(heap, 40)?,
        13,
    )
}

#[test]
fn layers_over_a_map_answer_as_the_plain_plant(rt: HostRuntime) -> Result<(), Fail> {
    let heap = rt.alloc();
    agree(
        &rt,
        windowed(map(heap, 3, 4)?)?,
        plain_windowed(heap, CELLS, 0)?,
        21,
    )?;
    agree(
        &rt,
        clocked(map(heap, 3, 4)?, 1)?,
        plain(heap, 3, 4, CELLS),
        22,
    )?;
    agree(
        &rt,
        carded(map(heap, 3, 4)?)?,
        plain_carded(heap, CELLS)?,
        23,
    )
}

#[test]
fn the_piles_of_office_and_rack_answer_as_the_plain_plant(rt: HostRuntime) -> Result<(), Fail> {
    let heap = rt.alloc();
    agree(
        &rt,
        windowed(clocked(timetable(heap, 1024, 3, 4)?, 162)?)?,
        plain_windowed(heap, 1024, 0)?,
        31,
    )?;
    agree(
        &rt,
        clocked(windowed(carded(map(heap, 3, 4)?)?)?, 162)?,
        plain_tall(heap, CELLS, 162)?,
        32,
    )?;
    agree(
        &rt,
        clocked(windowed(carded(timetable(heap, 9, 3, 4)?)?)?, 7)?,
        plain_tall(heap, 9, 7)?,
        33,
    )
}
