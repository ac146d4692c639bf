#![tactic(auto)]

pub mod map;
