ghost use Rattle.std.specs.Prelude.{◌≡◌};

use channel::record::{Attempt, Channel};
use link::packet::Packet;
use timer::store::Store;

/// What a caller lends to the session of a rig.
#[derive(Drop)]
pub struct Lent<'l, W, R, K> {
    /// The store of the packets under way.
    pub wire: &'l mut W,
    /// The store of the words that may go out again.
    pub resend: &'l mut R,
    /// The store of the signs of life that are still to be sent.
    pub keepalive: &'l mut K,
    /// The records of the channels, of which the first 64 are used.
    pub table: &'l mut [Channel],
    /// The fates of the first packets.
    pub fates: &'l [u16],
}

impl<'l, W, R, K> Lent<'l, W, R, K> {
    /// Three stores, a table of records and a list of fates, lent to one session.
    pub fn new(
        wire: &'l mut W,
        resend: &'l mut R,
        keepalive: &'l mut K,
        table: &'l mut [Channel],
        fates: &'l [u16],
    ) -> Lent<'l, W, R, K>
        ensures { result ≡ record { wire = wire.entry; resend = resend.entry; keepalive = keepalive.entry; table = table.entry; fates = fates.entry } }
    {
        Lent {
            wire,
            resend,
            keepalive,
            table,
            fates,
        }
    }
}

impl<W: Store<Packet>, R: Store<Attempt>, K: Store<u8>> Lent<'_, W, R, K> {
    /// The tick of the session, which is that of its wire.
    pub(crate) fn tick(&self) -> u32
        ensures { result ≡ (W.meaning self.now.wire.now).now }
    {
        self.wire.now()
    }
}
