ghost use Rattle.std.specs.Prelude.{◌≡◌, ◌||◌, ◌==◌};
ghost use Rattle.protocol.specs.State.{worn};

use crate::rig::Rig;
use channel::record::Attempt;
use link::packet::Packet;
use timer::store::Store;

// The most tickets that a store may have given if two are to be left.
const MOST_GIVEN: u32 = u32::MAX - 2;

fn worn<P, S: Store<P>>(store: &S) -> bool
    ensures { result ≡ worn (S.meaning store.now) }
{
    store.given() > MOST_GIVEN
}

impl Rig {
    /// Whether tickets or packet numbers run out.
    pub fn low<W: Store<Packet>, R: Store<Attempt>, K: Store<u8>>(
        &self,
        wire: &W,
        resend: &R,
        keepalive: &K,
    ) -> bool
        ensures { result ≡ (worn (W.meaning wire.now) || (worn (R.meaning resend.now) || (worn (K.meaning keepalive.now) || self.now.packets == 4294967295))) }
    {
        worn(wire) || worn(resend) || worn(keepalive) || self.packets == u32::MAX
    }
}
