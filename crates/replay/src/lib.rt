#![tactic(auto)]

mod ask;
pub mod lent;
mod operate;
pub mod outcome;
pub mod pair;
mod play;
mod playing;
mod print;
pub mod run;
mod steps;
