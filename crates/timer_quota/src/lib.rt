#![tactic(auto)]

pub mod quota;
pub mod store;
