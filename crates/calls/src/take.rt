ghost use Rattle.std.specs.Prelude.{◌≡◌, length};
ghost use Rattle.protocol.specs.Obeys.{Obeys};
ghost use Rattle.engine.specs.Parts.{state_of};
ghost use Rattle.calls.specs.Bodies.{take_body};

use crate::record::open_channel;
use channel::record::{Attempt, Channel};
use engine::rig::Rig;
use link::packet::Packet;
use timer::store::Store;
use trace::action::Action;
use trace::fault::RigFault;

/// Takes the next word of an open channel, if it is there.
pub fn take<W: Store<Packet>, R: Store<Attempt>, K: Store<u8>>(
    rig: &Rig,
    wire: &W,
    resend: &R,
    keepalive: &K,
    records: &mut [Channel],
    fates: &[u16],
    channel: u32,
) -> Result<Action, RigFault>
    requires { length records.old ≡ 64 }
    ensures obeys { Obeys (λ s. take_body s channel) (state_of rig.now fates.now (W.meaning wire.now) (R.meaning resend.now) (K.meaning keepalive.now) records.old) result (state_of rig.now fates.now (W.meaning wire.now) (R.meaning resend.now) (K.meaning keepalive.now) records.new) }
{
    let channel = open_channel(records, channel)?;
    let record = &mut records[channel.index()];
    record.repair();
    Ok(Action::Taken {
        channel: channel.number(),
        segment: record.take_front(),
    })
}
