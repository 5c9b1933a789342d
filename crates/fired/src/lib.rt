#![tactic(auto)]

// The workshop of `transport`: what becomes of an entry that a step takes from a store, over what is lent to the step.

pub mod arrival;
pub mod due;
mod packet;
