#![tactic(auto)]

// The workshop of `transport`: its calls on a channel, over a table of just 64 records. They have preconditions; `transport` is the interface without any.

pub mod close;
pub mod open;
mod record;
pub mod send;
pub mod take;
