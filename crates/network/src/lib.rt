#![tactic(auto)]

pub mod cost;
pub mod length;
pub mod link;
pub mod loss;
pub mod metres;
pub mod network;
pub mod path;
pub mod refusal;
pub mod search;
pub mod usable;
pub mod worst;
