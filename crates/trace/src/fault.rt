ghost use Rattle.std.specs.Prelude.{◌≡◌, Some, decimal};
ghost use Rattle.trace.specs.Faults.{rig_number, store_part};
ghost use Rattle.trace.specs.declared.fault.RigFault.TheVariants.{Store};

use crate::queue::StoreFault;
use std::error::Error;
use std::fmt;

/// Why a call of the rig, or of what is around it, is refused.
#[derive(Clone, Copy, PartialEq, Eq, Debug)]
pub enum RigFault {
    /// The channel is above 63.
    Channel,
    /// The channel is not in the state that the call asks for.
    State,
    /// As many words wait for an acknowledgement as the window has places.
    Window,
    /// One of the stores refuses.
    Store(StoreFault),
    /// Tickets, packet numbers or sequence numbers run out.
    Spent,
    /// Nothing is due and the last tick is too near.
    Ending,
    /// The default delay or the interval is out of its range.
    Setting,
    /// The stores differ in their tick or their last tick.
    Clocks,
    /// A store has pending entries or gave tickets before.
    Used,
    /// The last tick is too near to begin.
    Span,
    /// The table has fewer than 64 records.
    Table,
    /// The list of fates has no room.
    Fates,
    /// The buffer has fewer than 80 bytes.
    Buffer,
}

impl RigFault {
    /// The number that stands for the refusal in print.
    pub fn number(self) -> u8
        ensures { result ≡ rig_number self }
    {
        match self {
            RigFault::Channel => 11,
            RigFault::State => 12,
            RigFault::Window => 13,
            RigFault::Store(_) => 14,
            RigFault::Spent => 15,
            RigFault::Ending => 16,
            RigFault::Setting => 21,
            RigFault::Clocks => 22,
            RigFault::Used => 23,
            RigFault::Span => 24,
            RigFault::Table => 25,
            RigFault::Fates => 36,
            RigFault::Buffer => 40,
        }
    }

    /// The refusal of a store that is behind this one, if any.
    pub fn store_fault(self) -> Option<StoreFault>
        ensures { result ≡ store_part self }
    {
        match self {
            RigFault::Store(fault) => Some(fault),
            _ => None,
        }
    }
}

impl From<StoreFault> for RigFault {
    ghost from_gives = { λ x r. r ≡ Store x };

    fn from(fault: StoreFault) -> RigFault {
        RigFault::Store(fault)
    }
}

impl fmt::Display for RigFault {
    ghost output = { λ x. Some (decimal (rig_number x)) };

    fn fmt<W: fmt::Write>(&self, f: &mut fmt::Formatter<W>) -> fmt::Result {
        write!(f, "{}", self.number())
    }
}

impl Error for RigFault {}
