#![tactic(auto)]

pub mod book;
pub mod call;
pub mod refusal;
pub mod request;
pub mod row;
