#![tactic(auto)]

pub mod buckets;
pub mod ends;
pub mod entries;
pub mod ledger;
pub mod links;
pub mod row;
pub mod rows;
mod slots;
