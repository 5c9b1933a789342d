ghost use Rattle.std.specs.Prelude.{◌≡◌, if◌then◌else◌, length};
ghost use Rattle.protocol.specs.State.{record_of, low};
ghost use Rattle.protocol.specs.Link.{transmit};
ghost use Rattle.protocol.specs.Rules.{live};

use crate::rig::Rig;
use channel::number::ChannelNumber;
use channel::record::{Attempt, Channel};
use link::packet::Packet;
use timer::store::Store;
use trace::action::Transmission;

/// What is lent to a step: the rig's numbers, the three stores, a table of just 64 records and the list of fates.
#[derive(Drop)]
pub struct Lent<'l, 'w, 'r, 'k, W, R, K> {
    /// The rig's numbers.
    pub rig: &'l mut Rig,
    /// The packets that are under way.
    pub wire: &'w mut W,
    /// The timers of the words that are not acknowledged.
    pub resend: &'r mut R,
    /// The timers of the signs of life.
    pub keepalive: &'k mut K,
    /// The records of the channels.
    pub records: &'l mut [Channel],
    /// The fates of the first packets.
    pub fates: &'l [u16],
    ghost full: { length records.now ≡ 64 },
}

impl<W: Store<Packet>, R: Store<Attempt>, K: Store<u8>> Lent<'_, '_, '_, '_, W, R, K> {
    ghost use Rattle.engine.specs.Loans.{lent_state, Kept};

    /// The channel that owns an entry, if it exists and is open.
    pub fn open_channel(&self, owner: u8) -> Option<ChannelNumber>
        ensures { result ≡ (if live (lent_state W.Store R.Store K.Store self.now) owner then Some owner else None) }
    {
        let channel = ChannelNumber::try_from(u32::from(owner)).ok()?;
        self.record_of(channel).is_open().then_some(channel)
    }

    /// Whether tickets or packet numbers run out.
    pub fn low(&self) -> bool
        ensures { result ≡ low (lent_state W.Store R.Store K.Store self.now) }
    {
        self.rig.low(self.wire, self.resend, self.keepalive)
    }

    /// The record of a channel.
    pub fn record_of(&self, channel: ChannelNumber) -> Channel
        ensures { result ≡ record_of (lent_state W.Store R.Store K.Store self.now) channel }
    {
        self.records[channel.index()].read()
    }

    /// Sends a packet on a channel.
    pub fn transmit(&mut self, owner: u8, packet: Packet) -> Transmission
        ensures value { result ≡ (transmit (lent_state W.Store R.Store K.Store self.old) owner packet).transmission }
        ensures after { lent_state W.Store R.Store K.Store self.new ≡ (transmit (lent_state W.Store R.Store K.Store self.old) owner packet).after }
        ensures kept { Kept W.Store R.Store K.Store self.old self.new }
        ensures resend { self.new.resend.now ≡ self.old.resend.now }
        ensures keepalive { self.new.keepalive.now ≡ self.old.keepalive.now }
    {
        self.rig.transmit(self.wire, self.fates, owner, packet)
    }
}
