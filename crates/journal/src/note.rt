ghost use Rattle.std.specs.Prelude.{◌≡◌, Some};
ghost use Rattle.journal.specs.Notes.{effect_kind};
ghost use Rattle.journal.specs.Text.{name_text, effect_text, note_text};

use std::fmt;
use timer::fault::TimerFault;

/// The calls of a store that can be refused.
#[derive(Clone, Copy, PartialEq, Eq, Drop)]
pub enum CallName {
    /// `start`.
    Start,
    /// `stop`.
    Stop,
    /// `advance`.
    Advance,
}

/// What a call of a store came to.
#[derive(Clone, Copy, PartialEq, Eq, Drop)]
pub enum Effect {
    /// A timer was started.
    Started {
        /// Its ticket.
        ticket: u32,
        /// Its deadline.
        deadline: u32,
        /// Its owner.
        owner: u8,
        /// Its payload.
        payload: u32,
    },
    /// A timer was stopped.
    Stopped {
        /// Its ticket.
        ticket: u32,
        /// Its owner.
        owner: u8,
        /// Its payload.
        payload: u32,
    },
    /// A timer fired, in the tick of its deadline.
    Fired {
        /// Its ticket.
        ticket: u32,
        /// Its owner.
        owner: u8,
        /// Its payload.
        payload: u32,
    },
    /// No timer was due.
    Idle,
    /// The tick went on by one.
    Advanced,
    /// The call was refused, and why.
    Refused(CallName, TimerFault),
}

impl Effect {
    /// The kind that a journal counts the effect by; it counts neither `Idle` nor `Advanced`.
    pub fn kind(self) -> Option<Kind>
        ensures { result ≡ effect_kind self }
    {
        match self {
            Effect::Started { .. } => Some(Kind::Started),
            Effect::Stopped { .. } => Some(Kind::Stopped),
            Effect::Fired { .. } => Some(Kind::Fired),
            Effect::Idle | Effect::Advanced => None,
            Effect::Refused(..) => Some(Kind::Refused),
        }
    }
}

/// The kinds of effects that a journal counts.
#[derive(Clone, Copy, PartialEq, Eq, Drop)]
pub enum Kind {
    /// A timer was started.
    Started,
    /// A timer was stopped.
    Stopped,
    /// A timer fired.
    Fired,
    /// A call was refused.
    Refused,
}

/// One line of a journal.
#[derive(Clone, Copy, PartialEq, Eq, Drop)]
pub struct Note {
    /// The store's tick after the call.
    pub tick: u32,
    /// What the call came to.
    pub effect: Effect,
}

impl fmt::Display for CallName {
    ghost output = { λ x. Some (name_text x) };

    fn fmt<W: fmt::Write>(&self, f: &mut fmt::Formatter<W>) -> fmt::Result {
        match *self {
            CallName::Start => write!(f, "start"),
            CallName::Stop => write!(f, "stop"),
            CallName::Advance => write!(f, "advance"),
        }
    }
}

impl fmt::Display for Note {
    ghost output = { λ x. Some (note_text x) };

    fn fmt<W: fmt::Write>(&self, f: &mut fmt::Formatter<W>) -> fmt::Result {
        let tick = self.tick;
        match self.effect {
            Effect::Started {
                ticket,
                deadline,
                owner,
                payload,
            } => write!(f, "{tick} start {ticket} {deadline} {owner} {payload}\n"),
            Effect::Stopped {
                ticket,
                owner,
                payload,
            } => write!(f, "{tick} stop {ticket} - {owner} {payload}\n"),
            Effect::Fired {
                ticket,
                owner,
                payload,
            } => write!(f, "{tick} fire {ticket} {tick} {owner} {payload}\n"),
            Effect::Idle => write!(f, "{tick} idle\n"),
            Effect::Advanced => write!(f, "{tick} advance\n"),
            Effect::Refused(call, fault) => write!(f, "{tick} {call} refused {fault}\n"),
        }
    }
}
