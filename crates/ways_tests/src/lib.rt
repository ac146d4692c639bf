#![tactic(auto)]

pub mod plain_ways;
#[cfg(test)]
mod random;
