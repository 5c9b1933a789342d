ghost use Rattle.std.specs.Prelude.{◌≡◌, ℕ, ◌<◌, nat_lt, if◌then◌else◌, Ok, Err};
ghost use Rattle.trace.specs.declared.fault.RigFault.TheVariants as fault;

use std::marker::Model;
use trace::fault::RigFault;

/// How many channels a rig has.
pub const CHANNELS: usize = 64;

/// The number of a channel that exists, which is below 64.
#[derive(Clone, Copy, PartialEq, Eq)]
pub struct ChannelNumber {
    number: u8,
}

impl Model for ChannelNumber {
    ghost Value = { ℕ };

    ghost view = { λ c. c.number };

    ghost invariant = { λ c. c.number < 64 };

    ghost inverse = { λ n. record { number = n } };
}

impl TryFrom<u32> for ChannelNumber {
    type Error = RigFault;

    ghost try_from_gives = { λ n r. r ≡ (if nat_lt 63 n then Err fault.Channel else Ok n) };

    fn try_from(number: u32) -> Result<ChannelNumber, RigFault> {
        if (number as usize) < CHANNELS {
            Ok(ChannelNumber {
                number: number as u8,
            })
        } else {
            Err(RigFault::Channel)
        }
    }
}

impl ChannelNumber {
    /// The number.
    pub fn number(self) -> u8
        ensures { result ≡ self }
    {
        self.number
    }

    /// The place of the channel's record in a table.
    pub fn index(self) -> usize
        ensures value { result ≡ self }
        ensures known { result < 64 }
    {
        self.number as usize
    }
}
