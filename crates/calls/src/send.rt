ghost use Rattle.std.specs.Prelude.{◌≡◌, length, slice_index_or};
ghost use Rattle.protocol.specs.Obeys.{Obeys};
ghost use Rattle.timer.specs.Frame.{Framed};
ghost use Rattle.channel.specs.Record.{as_read};
ghost use Rattle.protocol.specs.State.{blank};
ghost use Rattle.protocol.specs.Rules.{send_start};
ghost use Rattle.engine.specs.Parts.{state_of};
ghost use Rattle.calls.specs.Bodies.{send_body};

use crate::record::open_channel;
use channel::number::ChannelNumber;
use channel::record::{Attempt, Channel};
use engine::rig::Rig;
use estimator::wait::wait;
use link::packet::Packet;
use timer::store::Store;
use trace::action::{Action, Segment};
use trace::fault::RigFault;
use trace::queue::Queue;

/// Sends a new word on an open channel, and starts its resend timer.
pub fn send<W: Store<Packet>, R: Store<Attempt>, K: Store<u8>>(
    rig: &mut Rig,
    wire: &mut W,
    resend: &mut R,
    keepalive: &K,
    records: &mut [Channel],
    fates: &[u16],
    channel: u32,
    word: u32,
) -> Result<Action, RigFault>
    requires { length records.old ≡ 64 }
    ensures obeys { Obeys (λ s. send_body s channel word) (state_of rig.old fates.now (W.meaning wire.old) (R.meaning resend.old) (K.meaning keepalive.now) records.old) result (state_of rig.new fates.now (W.meaning wire.new) (R.meaning resend.new) (K.meaning keepalive.now) records.new) }
    ensures wire { Framed W.Store wire.old wire.new }
    ensures resend { Framed R.Store resend.old resend.new }
{
    let channel = open_channel(records, channel)?;
    let record = records[channel.index()].read();
    if rig.low(wire, resend, keepalive) || record.next == u32::MAX {
        return Err(RigFault::Spent);
    }
    if record.window_full() {
        return Err(RigFault::Window);
    }
    launch(
        rig, wire, resend, keepalive, records, fates, channel, record, word,
    )
}

// Starts the resend timer of a new word and sends it.
fn launch<W: Store<Packet>, R: Store<Attempt>, K: Store<u8>>(
    rig: &mut Rig,
    wire: &mut W,
    resend: &mut R,
    keepalive: &K,
    records: &mut [Channel],
    fates: &[u16],
    channel: ChannelNumber,
    record: Channel,
    word: u32,
) -> Result<Action, RigFault>
    requires table { length records.old ≡ 64 }
    requires found { «record» ≡ as_read (slice_index_or records.old channel blank) }
    ensures obeys { Obeys (λ s. send_start s channel word) (state_of rig.old fates.now (W.meaning wire.old) (R.meaning resend.old) (K.meaning keepalive.now) records.old) result (state_of rig.new fates.now (W.meaning wire.new) (R.meaning resend.new) (K.meaning keepalive.now) records.new) }
    ensures wire { Framed W.Store wire.old wire.new }
    ensures resend { Framed R.Store resend.old resend.new }
{
    let owner = channel.number();
    let tick = wire.now();
    let segment = Segment {
        sequence: record.next,
        word,
    };
    let deadline = tick.saturating_add(wait(record.estimator.timeout, 0));
    let attempt = Attempt::first(segment, tick);
    let ticket = Queue::Resend.named(resend.start(deadline, owner, attempt))?;
    let transmission = rig.transmit(wire, fates, owner, Packet::Data(segment));
    let record = &mut records[channel.index()];
    record.repair();
    record.sent(ticket);
    Ok(Action::Sent {
        channel: owner,
        segment,
        transmission,
    })
}
