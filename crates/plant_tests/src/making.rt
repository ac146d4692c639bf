use crate::bottoms::{rows, words};
use bitmap::map::Map;
use calendar::refusal::MakingRefusal;
use layers::card_table::CardTable;
use layers::offset::Offset;
use layers::window_table::WindowTable;
use plant::Plant;
use plant::timetable::Timetable;
use std::alloc::Global;
use std::process::Abort;
use std::test::Fail;

// The number of the refusal; 0 where there is none.
fn number<T: Drop>(made: Result<T, MakingRefusal>) -> u8 {
    made.err().map_or(0, MakingRefusal::number)
}

// Makes a timetable; the rows come back as they were where it is refused.
fn timetable_number(
    rt: &impl Abort,
    heap: Global,
    count: usize,
    links: u32,
    channels: u32,
) -> Result<u8, Fail> {
    let made = Timetable::new(rows(heap, count)?, links, channels).map_err(|refused| {
        assert!(rt; refused.memory.len() == count);
        assert!(rt; refused.memory.iter().all(|row| row.link == 9));
        refused.why
    });
    if let Ok(plant) = &made {
        assert_eq!(rt; plant.room() as usize, count);
    }
    Ok(number(made))
}

#[test]
fn a_timetable_is_made_within_its_limits(rt: HostRuntime) -> Result<(), Fail> {
    let heap = rt.alloc();
    assert_eq!(rt; timetable_number(&rt, heap, 0, 1, 1)?, 0);
    assert_eq!(rt; timetable_number(&rt, heap, 4096, 40, 16)?, 0);
    assert_eq!(rt; timetable_number(&rt, heap, 4097, 40, 16)?, 12);
    assert_eq!(rt; timetable_number(&rt, heap, 4097, 41, 16)?, 11);
    assert_eq!(rt; timetable_number(&rt, heap, 3, 0, 16)?, 11);
    assert_eq!(rt; timetable_number(&rt, heap, 3, 40, 17)?, 11);
    assert_eq!(rt; timetable_number(&rt, heap, 3, 40, 0)?, 11);
    Ok(())
}

// Makes a map; words past those needed are as they were, and all come back where it is refused.
fn map_number(
    rt: &impl Abort,
    heap: Global,
    count: usize,
    links: u32,
    channels: u32,
) -> Result<u8, Fail> {
    let made = Map::new(words(heap, count)?, links, channels)
        .map(|plant| plant.into_words())
        .map_err(|refused| {
            assert!(rt; refused.memory.len() == count);
            refused.why
        });
    if let Ok(words) = &made {
        assert!(rt; words.len() == count);
        let needed = (links as usize)
            .saturating_mul(channels as usize)
            .saturating_mul(6);
        for (i, word) in words.iter().enumerate() {
            assert_eq!(rt; *word, if i < needed { 0 } else { u64::MAX });
        }
    }
    Ok(number(made))
}

#[test]
fn a_map_is_made_within_its_limits(rt: HostRuntime) -> Result<(), Fail> {
    let heap = rt.alloc();
    assert_eq!(rt; map_number(&rt, heap, 3840, 40, 16)?, 0);
    assert_eq!(rt; map_number(&rt, heap, 3839, 40, 16)?, 12);
    assert_eq!(rt; map_number(&rt, heap, 10, 1, 1)?, 0);
    assert_eq!(rt; map_number(&rt, heap, 5, 1, 1)?, 12);
    assert_eq!(rt; map_number(&rt, heap, 5, 1, 17)?, 11);
    assert_eq!(rt; map_number(&rt, heap, 5000, 41, 1)?, 11);
    assert_eq!(rt; map_number(&rt, heap, 0, 0, 1)?, 11);
    Ok(())
}

#[test]
fn windows_are_added_within_their_limits(rt: HostRuntime) {
    let mut table = WindowTable::new();
    assert_eq!(rt; number(table.add(0, 0, 1)), 13);
    assert_eq!(rt; number(table.add(41, 0, 1)), 13);
    assert_eq!(rt; number(table.add(1, 168, 1)), 13);
    assert_eq!(rt; number(table.add(1, 0, 0)), 13);
    assert_eq!(rt; number(table.add(1, 0, 169)), 13);
    assert_eq!(rt; number(table.add(257, 0, 1)), 13);
    for _ in 0..8 {
        assert_eq!(rt; number(table.add(40, 167, 168)), 0);
    }
    assert_eq!(rt; number(table.add(1, 0, 1)), 13);
}

#[test]
fn an_offset_is_an_hour_of_the_week(rt: HostRuntime) {
    assert_eq!(rt; number(Offset::new(0)), 0);
    assert_eq!(rt; number(Offset::new(167)), 0);
    assert_eq!(rt; number(Offset::new(168)), 13);
    assert_eq!(rt; number(Offset::new(u32::MAX)), 13);
}

#[test]
fn a_card_order_has_sixteen_different_cards(rt: HostRuntime) {
    assert_eq!(rt;
        number(CardTable::new([16, 15, 14, 13, 12, 11, 10, 9, 8, 7, 6, 5, 4, 3, 2, 1])),
        0
    );
    assert_eq!(rt;
        number(CardTable::new([1, 2, 3, 4, 5, 6, 7, 8, 9, 10, 11, 12, 13, 14, 15, 1])),
        13
    );
    assert_eq!(rt;
        number(CardTable::new([0, 2, 3, 4, 5, 6, 7, 8, 9, 10, 11, 12, 13, 14, 15, 16])),
        13
    );
    assert_eq!(rt;
        number(CardTable::new([1, 2, 3, 4, 5, 6, 7, 8, 9, 10, 11, 12, 13, 14, 15, 17])),
        13
    );
}
