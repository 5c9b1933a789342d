#![tactic(auto)]

pub mod number;
pub mod record;
