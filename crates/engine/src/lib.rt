#![tactic(auto)]

// The workshop of `transport`: what its calls share. Some functions here have preconditions; `transport` is the interface without any.

pub mod cancel;
pub mod dispatch;
pub mod lent;
pub mod rig;
pub mod worn;
