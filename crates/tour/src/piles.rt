use calendar::run::Run;
use layers::clock::Clock;
use layers::offset::Offset;
use layers::window_table::WindowTable;
use layers::windows::Windows;
use plant::timetable::Timetable;
use std::alloc::Global;

// Windows over a clock over a timetable.
pub fn rack(heap: Global) -> anyhow::Result<Windows<Clock<Timetable>>> {
    let mut windows = WindowTable::new();
    windows.add(3, 0, 168)?;
    let rows: Vec<Run> = vec![in heap; Run::default(); 2]?;
    let clock = Clock::new(Timetable::new(rows, 4, 2)?, Offset::new(162)?);
    Ok(Windows::new(clock, windows))
}
