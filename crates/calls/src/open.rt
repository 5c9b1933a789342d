ghost use Rattle.std.specs.Prelude.{◌≡◌, length};
ghost use Rattle.protocol.specs.Obeys.{Obeys};
ghost use Rattle.timer.specs.Frame.{Framed};
ghost use Rattle.engine.specs.Parts.{state_of};
ghost use Rattle.calls.specs.Bodies.{open_body};

use channel::number::ChannelNumber;
use channel::record::{Attempt, Channel};
use engine::rig::Rig;
use link::packet::Packet;
use timer::store::Store;
use trace::action::Action;
use trace::fault::RigFault;
use trace::queue::Queue;

/// Opens a channel that was never opened, and starts its keepalive timer.
pub fn open<W: Store<Packet>, R: Store<Attempt>, K: Store<u8>>(
    rig: &Rig,
    wire: &W,
    resend: &R,
    keepalive: &mut K,
    records: &mut [Channel],
    fates: &[u16],
    channel: u32,
) -> Result<Action, RigFault>
    requires { length records.old ≡ 64 }
    ensures obeys { Obeys (λ s. open_body s channel) (state_of rig.now fates.now (W.meaning wire.now) (R.meaning resend.now) (K.meaning keepalive.old) records.old) result (state_of rig.now fates.now (W.meaning wire.now) (R.meaning resend.now) (K.meaning keepalive.new) records.new) }
    ensures keepalive { Framed K.Store keepalive.old keepalive.new }
{
    let channel = ChannelNumber::try_from(channel)?;
    if !records[channel.index()].is_unused() {
        return Err(RigFault::State);
    }
    if rig.low(wire, resend, keepalive) {
        return Err(RigFault::Spent);
    }
    let owner = channel.number();
    let deadline = wire.now().saturating_add(rig.interval);
    let ticket = Queue::Keepalive.named(keepalive.start(deadline, owner, owner))?;
    records[channel.index()] = Channel::opened(ticket);
    Ok(Action::Opened { channel: owner })
}
