#![tactic(auto)]

mod cascade;
pub mod layout;
pub mod place;
pub mod wheel;
