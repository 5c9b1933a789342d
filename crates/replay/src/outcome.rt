ghost use Rattle.std.specs.Prelude.{◌≡◌, Some};
ghost use Rattle.replay.specs.declared.outcome.Stopped.TheVariants.{Begin, Memory};

use session::answer::Note;
use std::alloc::AllocError;
use std::error::Error;
use std::fmt;
use transport::rig::{Finished, Refused};

/// A session that was played to its end.
#[derive(Drop)]
pub struct Session {
    /// What was noted of each call, in order.
    pub notes: Vec<Note>,
    /// The rig that has ended.
    pub finished: Finished,
    /// What is printed of the session.
    pub text: Vec<u8>,
}

/// Why a session was not played to its end.
#[derive(Debug, Drop)]
pub enum Stopped {
    /// The rig could not begin.
    Begin(Refused),
    /// Memory ran out.
    Memory,
}

impl From<AllocError> for Stopped {
    ghost from_gives = { λ _ r. r ≡ Memory };

    fn from(_error: AllocError) -> Stopped {
        Stopped::Memory
    }
}

impl From<Refused> for Stopped {
    ghost from_gives = { λ x r. r ≡ Begin x };

    fn from(refused: Refused) -> Stopped {
        Stopped::Begin(refused)
    }
}

impl fmt::Display for Stopped {
    ghost use Rattle.replay.specs.Telling.{stopped_text};

    ghost output = { λ x. Some (stopped_text x) };

    fn fmt<W: fmt::Write>(&self, f: &mut fmt::Formatter<W>) -> fmt::Result {
        match self {
            Stopped::Begin(_) => write!(f, "the session could not begin"),
            Stopped::Memory => write!(f, "memory ran out"),
        }
    }
}

impl Error for Stopped {}
