#![tactic(auto)]

pub mod hours;
pub mod refusal;
pub mod run;
