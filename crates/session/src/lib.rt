#![tactic(auto)]

pub mod answer;
pub mod command;
pub mod law;
