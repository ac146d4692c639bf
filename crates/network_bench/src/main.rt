#![tactic(auto)]

mod cases;
mod depth_first;
mod finder;
mod tally;

use anyhow::anyhow;
use bitmap::map::Map;
use cases::{Case, dense, row};
use finder::{DepthFirst, Finder, OnMap, Table};
use network::cost::Cost;
use network::loss::Loss;
use network::metres::Metres;
use network::search::Scratch;
use std::alloc::Global;
use std::env;
use std::time::Instant;
use tally::{Tally, find_often};
use ways::space::Space;

fn show<F: Finder>(
    rt: &HostRuntime,
    case: &Case,
    cost: &str,
    finder: &mut F,
    how: &str,
) -> anyhow::Result<()> {
    let name = case.name;
    match finder.find(&case.net, case.shown.0, case.shown.1) {
        Some(path) => println!(rt; "{name}, {cost}, {how}: links {path}")?,
        None => println!(rt; "{name}, {cost}, {how}: no path")?,
    }
    Ok(())
}

fn measure<F: Finder>(
    rt: &HostRuntime,
    case: &Case,
    cost: &str,
    finder: &mut F,
    how: &str,
    rounds: u64,
) -> anyhow::Result<Tally> {
    let name = case.name;
    let start = Instant::now(rt)?;
    let tally = find_often(finder, case, rounds);
    let micros = start.elapsed(rt)?.as_micros();
    let rate = (tally.paths as u128).saturating_mul(1_000_000) / micros.max(1);
    println!(rt; "{name}, {cost}, {how}: {rate} paths a second")?;
    Ok(tally)
}

fn on_map<C: Cost>(heap: Global) -> anyhow::Result<OnMap<C>> {
    let words: Vec<u64> = vec![in heap; 0; 3840]?;
    let space = Space::new(heap)?;
    let map = Map::new(words, 40, 16)?;
    Ok(OnMap { map, space })
}

// Measures the search for a way, and holds what it finds against the plain search.
fn compare_ways<C: Cost>(
    rt: &HostRuntime,
    case: &Case,
    cost: &str,
    tried: Tally,
    rounds: u64,
    more: u64,
) -> anyhow::Result<()> {
    let mut ways: OnMap<C> = on_map(rt.alloc())?;
    let found = measure(
        rt,
        case,
        cost,
        &mut ways,
        "way on a map",
        rounds.saturating_mul(more),
    )?;
    if found != tried.times(more) {
        return Err(anyhow!("the ways have other paths"));
    }
    Ok(())
}

// Measures both searches, the plain one `plain_rounds` times and the proved one `more` times as often. Both have to find
// the same paths.
fn compare<C: Cost>(
    rt: &HostRuntime,
    case: &Case,
    cost: &str,
    zero: C,
    plain_rounds: u64,
    more: u64,
) -> anyhow::Result<()> {
    let mut table: Table<C> = Table {
        scratch: Scratch::new(rt.alloc())?,
    };
    let mut plain = DepthFirst { zero };
    let rounds = plain_rounds.saturating_mul(more);
    let found = measure(rt, case, cost, &mut table, "chosen path", rounds)?;
    let tried = measure(rt, case, cost, &mut plain, "depth first", plain_rounds)?;
    if found != tried.times(more) {
        return Err(anyhow!("the two searches found different paths"));
    }
    compare_ways::<C>(rt, case, cost, tried, plain_rounds, more / 50)
}

fn show_all<C: Cost>(rt: &HostRuntime, cost: &str, zero: C) -> anyhow::Result<()> {
    let mut table: Table<C> = Table {
        scratch: Scratch::new(rt.alloc())?,
    };
    let mut plain = DepthFirst { zero };
    let dense = dense(rt.alloc())?;
    show(rt, &dense, cost, &mut table, "chosen path")?;
    show(rt, &dense, cost, &mut plain, "depth first")?;
    let mut ways: OnMap<C> = on_map(rt.alloc())?;
    show(rt, &dense, cost, &mut ways, "way on a map")?;
    show(rt, &row(rt.alloc())?, cost, &mut table, "chosen path")
}

fn compare_all<C: Cost>(rt: &HostRuntime, cost: &str, zero: C) -> anyhow::Result<()> {
    compare(rt, &dense(rt.alloc())?, cost, zero, 10, 50)?;
    compare(rt, &row(rt.alloc())?, cost, zero, 1, 500_000)
}

// With an argument, measures; without, finds a path by each and prints it.
fn bench(rt: &HostRuntime) -> anyhow::Result<()> {
    if env::args(rt)?.count() > 1 {
        compare_all(rt, "by length", Metres::zero())?;
        return compare_all(rt, "by loss", Loss::zero());
    }
    show_all(rt, "by length", Metres::zero())?;
    show_all(rt, "by loss", Loss::zero())
}

fn main(rt: HostRuntime) -> anyhow::Result<()> {
    bench(&rt)
}
