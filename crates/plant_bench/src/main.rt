#![tactic(auto)]

mod hour_table;
mod rounds;
mod subject;

use bitmap::map::Map;
use calendar::run::Run;
use hour_table::{Cell, HourTable};
use plant::timetable::Timetable;
use rounds::all_rounds;
use std::alloc::Global;
use std::env;
use std::time::Instant;
use subject::Subject;

fn plain_table(heap: Global) -> anyhow::Result<HourTable> {
    let cells: Vec<Cell> = vec![in heap; Cell::Free; 107_520]?;
    Ok(HourTable {
        cells,
        channels: 16,
    })
}

fn map(heap: Global) -> anyhow::Result<Map> {
    let words: Vec<u64> = vec![in heap; 0; 3840]?;
    Ok(Map::new(words, 40, 16)?)
}

fn timetable(heap: Global) -> anyhow::Result<Timetable> {
    let rows: Vec<Run> = vec![in heap; Run::default(); 1024]?;
    Ok(Timetable::new(rows, 40, 16)?)
}

// What is printed: how many calls one round did, or how many a second so many rounds did.
#[derive(Clone, Copy)]
enum Mode {
    Once,
    Timed { rounds: u32 },
}

fn measure<S: Subject>(
    rt: &HostRuntime,
    name: &str,
    subject: &mut S,
    hours: u8,
    mode: Mode,
) -> anyhow::Result<()> {
    match mode {
        Mode::Once => {
            let done = all_rounds(subject, 1, hours);
            println!(rt; "{name}, runs of {hours} hours: {done} calls done")?;
        }
        Mode::Timed { rounds } => {
            let start = Instant::now(rt)?;
            let done = all_rounds(subject, rounds, hours);
            let micros = start.elapsed(rt)?.as_micros();
            let rate = (done as u128).saturating_mul(1_000_000) / micros.max(1);
            println!(rt; "{name}, runs of {hours} hours: {rate} calls a second")?;
        }
    }
    Ok(())
}

fn measure_all(rt: &HostRuntime, hours: u8, mode: Mode) -> anyhow::Result<()> {
    let heap = rt.alloc();
    measure(rt, "plain table", &mut plain_table(heap)?, hours, mode)?;
    measure(rt, "map", &mut map(heap)?, hours, mode)?;
    measure(rt, "timetable", &mut timetable(heap)?, hours, mode)
}

// With an argument, measures; without, makes one round of each and prints what was done.
fn bench(rt: &HostRuntime) -> anyhow::Result<()> {
    let mode = if env::args(rt)?.count() > 1 {
        Mode::Timed { rounds: 200 }
    } else {
        Mode::Once
    };
    measure_all(rt, 4, mode)?;
    measure_all(rt, 84, mode)?;
    measure_all(rt, 168, mode)
}

fn main(rt: HostRuntime) -> anyhow::Result<()> {
    bench(&rt)
}
