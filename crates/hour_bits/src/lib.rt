#![tactic(auto)]

pub mod row;
pub mod set;
pub mod word;
