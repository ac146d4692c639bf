#![tactic(auto)]

pub mod cells;
pub mod floor;
pub mod laws;
pub mod report;
pub mod reporting;
pub mod used;
