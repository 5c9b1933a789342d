#![tactic(auto)]

pub mod operation;

ghost use Rattle.std.specs.Prelude.{◌≡◌};
ghost use Rattle.protocol.specs.Examples.{Examples};

/// How many channels a rig has.
pub fn channels() -> u8
    ensures value { result ≡ 64 }
    ensures examples { Examples }
{
    64
}
