#![tactic(auto)]

ghost use Rattle.timers_law.specs.Begins.{Begins};
ghost use Rattle.timers_law.specs.Ends.{Ends};
ghost use Rattle.timers_law.specs.Restarts.{Restarts};
ghost use Rattle.timers_law.specs.Timers.{Timers};

/// Whatever calls a session makes, the timers of all three stores obey the laws of a history.
#[tactic(auto, using(crate::proofs::Timers::timers))]
pub fn timers_stand() -> u8
    ensures { Timers }
{
    0
}

/// No store refuses a step: a timer that is taken may start anew, and the clocks may go on.
#[tactic(auto, using(crate::proofs::Restarts::restarts))]
pub fn restarts_stand() -> u8
    ensures { Restarts }
{
    0
}

/// Stepping until a tick comes to an end, since a number falls with every step that is not refused.
#[tactic(auto, using(crate::proofs::Ends::step_falls))]
pub fn steps_end() -> u8
    ensures { Ends }
{
    0
}

/// A session over sound stores that is not refused begins with fresh stores, one clock and an unused table.
pub fn sessions_begin() -> u8
    ensures { Begins }
{
    0
}
