ghost use Rattle.std.specs.Prelude.{◌≡◌, length};
ghost use Rattle.protocol.specs.Obeys.{Obeys};
ghost use Rattle.timer.specs.Frame.{Framed};
ghost use Rattle.engine.specs.Parts.{state_of};
ghost use Rattle.calls.specs.Bodies.{close_body};

use crate::record::open_channel;
use channel::record::{Attempt, Channel};
use engine::cancel::{cancel, cancel_all};
use engine::rig::Rig;
use link::packet::Packet;
use timer::store::Store;
use trace::action::Action;
use trace::fault::RigFault;

/// Closes an open channel and stops its timers.
pub fn close<W: Store<Packet>, R: Store<Attempt>, K: Store<u8>>(
    rig: &Rig,
    wire: &W,
    resend: &mut R,
    keepalive: &mut K,
    records: &mut [Channel],
    fates: &[u16],
    channel: u32,
) -> Result<Action, RigFault>
    requires { length records.old ≡ 64 }
    ensures obeys { Obeys (λ s. close_body s channel) (state_of rig.now fates.now (W.meaning wire.now) (R.meaning resend.old) (K.meaning keepalive.old) records.old) result (state_of rig.now fates.now (W.meaning wire.now) (R.meaning resend.new) (K.meaning keepalive.new) records.new) }
    ensures resend { Framed R.Store resend.old resend.new }
    ensures keepalive { Framed K.Store keepalive.old keepalive.new }
{
    let channel = open_channel(records, channel)?;
    let record = &mut records[channel.index()];
    record.repair();
    cancel_all(resend, record.sending);
    let _ = cancel(keepalive, record.keepalive);
    record.closed();
    Ok(Action::Closed {
        channel: channel.number(),
    })
}
