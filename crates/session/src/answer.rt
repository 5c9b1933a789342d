use timer::fault::TimerFault;
use trace::action::Action;
use trace::fault::RigFault;

/// What a call of a session was answered with.
#[derive(Clone, Copy, PartialEq, Eq)]
pub enum Answer {
    /// What an operation did, or why it was refused.
    Done(Result<Action, RigFault>),
    /// A number that was asked for.
    Number(usize),
    /// Whether an entry is due.
    Due(bool),
    /// What a start would be refused with.
    Check(Option<TimerFault>),
}

/// One call of a session as it is noted.
#[derive(Clone, Copy, PartialEq, Eq)]
pub struct Note {
    /// The tick after the call.
    pub tick: u32,
    /// The answer.
    pub answer: Answer,
}
