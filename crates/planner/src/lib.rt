#![tactic(auto)]

pub mod planner;
pub mod runs;
