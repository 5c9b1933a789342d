ghost use Rattle.std.specs.Prelude.{◌≡◌};
ghost use Rattle.trace.specs.Faults.{queue_letter, in_queue};

use timer::fault::TimerFault;

/// Which of the three timer stores of a rig.
#[derive(Clone, Copy, PartialEq, Eq, Debug)]
pub enum Queue {
    /// The packets that are under way.
    Wire,
    /// The words that wait for an acknowledgement.
    Resend,
    /// The channels that send a sign of life now and then.
    Keepalive,
}

/// A refusal of one of the three stores.
#[derive(Clone, Copy, PartialEq, Eq, Debug)]
pub struct StoreFault {
    /// The store that refused.
    pub queue: Queue,
    /// Why it refused.
    pub fault: TimerFault,
}

impl Queue {
    /// The letter that stands for the store in print.
    pub fn letter(self) -> u8
        ensures { result ≡ queue_letter self }
    {
        match self {
            Queue::Wire => b'w',
            Queue::Resend => b'r',
            Queue::Keepalive => b'k',
        }
    }

    /// What this store answered, with its name on a refusal.
    pub fn named<T>(self, answer: Result<T, TimerFault>) -> Result<T, StoreFault>
        ensures { result ≡ in_queue self answer }
    {
        answer.map_err(|fault| StoreFault { queue: self, fault })
    }
}
