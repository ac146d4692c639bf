#![tactic(auto)]

mod piles;
mod routes;
mod steps;

use examples::examples_stand;
use piles::rack;
use routes::{office_routes, rack_routes};
use sample::{sample_network, sample_plant};
use steps::{office_steps, rack_steps};

fn tour_office(rt: &HostRuntime) -> anyhow::Result<()> {
    println!(rt;
        "Office: a map of 4 links and 2 channels; a window shuts link 2 from hour 20 for 4 hours."
    )?;
    let mut plant = sample_plant(rt.alloc())?;
    office_steps(rt, &mut plant)?;
    let net = sample_network(rt.alloc())?;
    office_routes(rt, &plant, &net)
}

fn tour_rack(rt: &HostRuntime) -> anyhow::Result<()> {
    println!(rt;
        "Rack: a timetable of 2 rows under a clock of 162; a window shuts link 3 all week."
    )?;
    let mut plant = rack(rt.alloc())?;
    rack_steps(rt, &mut plant)?;
    let net = sample_network(rt.alloc())?;
    rack_routes(rt, &plant, &net)
}

// Holds and releases a handful of runs on the two piles, finds ways on them, and prints what each step did.
fn tour(rt: &HostRuntime) -> anyhow::Result<()> {
    tour_office(rt)?;
    tour_rack(rt)?;
    let count = examples_stand();
    println!(rt; "{count} worked examples of the rules come out as they should.")?;
    Ok(())
}

fn main(rt: HostRuntime) -> anyhow::Result<()> {
    tour(&rt)
}
