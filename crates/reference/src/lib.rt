#![tactic(auto)]

pub mod channel;
pub mod estimator;
pub mod link;
pub mod rig;
pub mod store;
pub mod text;
#[cfg(test)]
mod worked;
