#![tactic(auto)]

pub mod heap;
mod sift;
