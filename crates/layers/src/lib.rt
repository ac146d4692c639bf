#![tactic(auto)]

pub mod card_order;
pub mod card_table;
pub mod clock;
pub mod offset;
pub mod window_table;
pub mod windows;
