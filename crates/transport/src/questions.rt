ghost use Rattle.std.specs.Prelude.{◌≡◌, take};
ghost use Rattle.transport.specs.Asked.{known, status_in, status_number_in, timeout_in};

use crate::rig::{Finished, Running};
use channel::record::{Channel, Status};
use link::packet::Packet;
use timer::store::Store;

// The record of a channel, unless its number is above 63 or past the table.
#[tactic(auto, using(crate::proofs::Asked::known_at, crate::proofs::Asked::known_past))]
fn known(table: &[Channel], channel: u32) -> Option<Channel>
    ensures { result ≡ known (take 64 table.now) channel }
{
    if channel > 63 {
        return None;
    }
    table.get(channel as usize).copied().map(Channel::read)
}

impl Running {
    /// The state of a channel, unless its number is above 63 or past the table.
    pub fn status(&self, table: &[Channel], channel: u32) -> Option<Status>
        ensures { result ≡ status_in (take 64 table.now) channel }
    {
        known(table, channel).map(|record| record.status)
    }

    /// The number of a channel's state: 0 unused, 1 open, 2 closed, 3 for a channel above 63 or past the table.
    pub fn status_number(&self, table: &[Channel], channel: u32) -> u8
        ensures { result ≡ status_number_in (take 64 table.now) channel }
    {
        self.status(table, channel).map_or(3, Status::number)
    }

    /// The retransmission timeout of a channel in ticks, or 0 for a channel above 63 or past the table.
    pub fn timeout(&self, table: &[Channel], channel: u32) -> u32
        ensures { result ≡ timeout_in (take 64 table.now) channel }
    {
        known(table, channel).map_or(0, |record| record.estimator.timeout)
    }

    /// How many packets were sent.
    pub fn packets(&self) -> u32
        ensures { result ≡ self.now.rig.packets }
    {
        self.rig.packets
    }

    /// Ends the session in the wire's tick.
    pub fn finish<W: Store<Packet>>(self, wire: &W) -> Finished
        ensures { result ≡ record { tick = (W.meaning wire.now).now; packets = self.rig.packets } }
    {
        let Running { rig } = self;
        Finished {
            tick: wire.now(),
            packets: rig.packets,
        }
    }
}

impl Finished {
    /// The tick in which the session ended.
    pub fn tick(&self) -> u32
        ensures { result ≡ self.now.tick }
    {
        self.tick
    }

    /// How many packets were sent.
    pub fn packets(&self) -> u32
        ensures { result ≡ self.now.packets }
    {
        self.packets
    }
}
