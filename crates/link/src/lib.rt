#![tactic(auto)]

pub mod fate;
pub mod packet;
