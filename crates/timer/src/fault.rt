ghost use Rattle.std.specs.Prelude.{◌≡◌, Some, decimal};
ghost use Rattle.timer.specs.Faults.{fault_number};

use std::error::Error;
use std::fmt;

/// Why a store refuses a call; a refused call changes nothing.
#[derive(Clone, Copy, PartialEq, Eq, Debug)]
pub enum TimerFault {
    /// The deadline is not after now.
    Past = 1,
    /// The deadline is after the last tick.
    Late = 2,
    /// The owner is above 63.
    Owner = 3,
    /// Every ticket that 32 bits can number has been given.
    Spent = 4,
    /// As many entries are pending as the store has room for.
    Full = 5,
    /// The owner has as many pending entries as it may have.
    Limit = 6,
    /// No pending entry has the ticket.
    Missing = 7,
    /// An entry is due and has to be taken first.
    Due = 8,
    /// Now is the last tick.
    Ended = 9,
}

impl TimerFault {
    /// The number that stands for the refusal in print.
    pub fn number(self) -> u8
        ensures { result ≡ fault_number self }
    {
        self as u8
    }
}

impl fmt::Display for TimerFault {
    ghost output = { λ x. Some (decimal (fault_number x)) };

    fn fmt<W: fmt::Write>(&self, f: &mut fmt::Formatter<W>) -> fmt::Result {
        write!(f, "{}", self.number())
    }
}

impl Error for TimerFault {}
