use crate::calls::run;
use bitmap::map::Map;
use calendar::run::Run;
use plant::timetable::Timetable;
use std::alloc::{AllocError, Global};
use std::test::Fail;

pub fn rows(heap: Global, count: usize) -> Result<Vec<Run>, AllocError> {
    vec![in heap; run(9, 9, 9, 9); count]
}

pub fn words(heap: Global, count: usize) -> Result<Vec<u64>, AllocError> {
    vec![in heap; u64::MAX; count]
}

// A timetable over rows that hold something else before.
pub fn timetable(heap: Global, count: usize, links: u32, channels: u32) -> Result<Timetable, Fail> {
    Ok(Timetable::new(rows(heap, count)?, links, channels)?)
}

// A map over words that hold something else before.
pub fn map(heap: Global, links: u32, channels: u32) -> Result<Map, Fail> {
    Ok(Map::new(words(heap, 40 * 16 * 6)?, links, channels)?)
}
