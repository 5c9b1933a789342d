#![tactic(auto)]

pub mod draft;
pub mod questions;
pub mod rig;
pub mod running;
