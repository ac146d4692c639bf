#![tactic(auto)]

pub mod block;
pub mod costs;
pub mod find;
pub mod fit;
pub mod follow;
pub mod free_channels;
pub mod order;
pub mod right;
pub mod route;
pub mod search;
pub mod space;
pub mod way;
