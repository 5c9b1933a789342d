#![tactic(auto)]

pub mod action;
pub mod columns;
pub mod fault;
pub mod line;
pub mod queue;
mod text;
pub mod writer;
