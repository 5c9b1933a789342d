#![tactic(auto)]

pub mod call;
pub mod expired;
pub mod fault;
pub mod history;
pub mod owners;
pub mod store;
