#![tactic(auto)]

pub mod aged;
pub mod store;
