#![tactic(auto)]

#[cfg(test)]
mod bottoms;
pub mod calls;
#[cfg(test)]
mod edges;
pub mod list_plant;
#[cfg(test)]
mod making;
#[cfg(test)]
mod neighbours;
#[cfg(test)]
mod piles;
#[cfg(test)]
mod random;
