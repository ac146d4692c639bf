#![tactic(auto)]

mod calls;
mod listing;

use calls::sample_calls;
use listing::{show_answers, show_report};
use network::metres::Metres;
use planner::planner::{Planner, Workspace};
use sample::{sample_network, sample_plant};
use ways::fit::Fit;

// Makes the sample file's calls as one list, on a planner by length and first fit on windows over a map, and prints
// their answers and the report as a listing has them.
fn serve_sample(rt: &HostRuntime) -> anyhow::Result<()> {
    let net = sample_network(rt.alloc())?;
    let plant = sample_plant(rt.alloc())?;
    let workspace: Workspace<Metres> = Workspace::new(rt.alloc())?;
    let mut planner = Planner::new(net, plant, Fit::First, workspace);
    let mut slots = sample_calls();
    let report = planner.serve(&mut slots);
    show_answers(rt, &slots)?;
    show_report(rt, report)?;
    Ok(())
}

fn main(rt: HostRuntime) -> anyhow::Result<()> {
    serve_sample(&rt)
}
