#![tactic(auto)]

pub mod compare;
pub mod note;
pub mod record;
