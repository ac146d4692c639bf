#![tactic(auto)]

#[cfg(test)]
mod examples;
pub mod list_network;
pub mod plain_search;
#[cfg(test)]
mod proved;
#[cfg(test)]
mod random;
