#![tactic(auto)]

// The workshop of `transport`: its step, over what is lent to it.

pub mod step;
mod tick;
