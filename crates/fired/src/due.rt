ghost use Rattle.std.specs.Prelude.{◌≡◌};
ghost use Rattle.protocol.specs.Obeys.{Obeys};
ghost use Rattle.protocol.specs.Rules.{resend_rule, resend as resend_entry, beat_rule, beat as beat_entry};
ghost use Rattle.engine.specs.Loans.{lent_state, Kept};

use channel::number::ChannelNumber;
use channel::record::Attempt;
use engine::lent::Lent;
use estimator::wait::wait;
use link::packet::Packet;
use timer::expired::Expired;
use timer::store::Store;
use trace::action::{Action, Heartbeat};
use trace::fault::RigFault;
use trace::queue::Queue;

// A word of an open channel was not acknowledged in time: it is sent again, and its timer starts anew.
#[tactic(auto, unfolding(protocol::specs::Rules::resend_rule))]
fn resend_open<W: Store<Packet>, R: Store<Attempt>, K: Store<u8>>(
    lent: &mut Lent<W, R, K>,
    channel: ChannelNumber,
    attempt: Attempt,
) -> Result<Action, RigFault>
    ensures obeys { Obeys (λ s. resend_rule s channel attempt) (lent_state W.Store R.Store K.Store lent.old) result (lent_state W.Store R.Store K.Store lent.new) }
    ensures kept { Kept W.Store R.Store K.Store lent.old lent.new }
    ensures keepalive { lent.new.keepalive.now ≡ lent.old.keepalive.now }
{
    let owner = channel.number();
    let record = lent.record_of(channel);
    let attempt = attempt.again();
    let segment = attempt.segment;
    let pause = wait(record.estimator.timeout, attempt.tries);
    let deadline = lent.wire.now().saturating_add(pause);
    let transmission = lent.transmit(owner, Packet::Data(segment));
    let ticket = Queue::Resend.named(lent.resend.start(deadline, owner, attempt))?;
    let records = &mut *lent.records;
    let record = &mut records[channel.index()];
    record.repair();
    record.resent(segment.sequence, ticket);
    Ok(Action::Resent {
        channel: owner,
        segment,
        transmission: Some(transmission),
    })
}

/// A resend timer has fired.
pub fn resend_due<W: Store<Packet>, R: Store<Attempt>, K: Store<u8>>(
    lent: &mut Lent<W, R, K>,
    entry: Expired<Attempt>,
) -> Result<Action, RigFault>
    ensures obeys { Obeys (λ s. resend_entry s entry) (lent_state W.Store R.Store K.Store lent.old) result (lent_state W.Store R.Store K.Store lent.new) }
    ensures kept { Kept W.Store R.Store K.Store lent.old lent.new }
    ensures keepalive { lent.new.keepalive.now ≡ lent.old.keepalive.now }
{
    if let Some(channel) = lent.open_channel(entry.owner) {
        return resend_open(lent, channel, entry.payload);
    }
    Ok(Action::Resent {
        channel: entry.owner,
        segment: entry.payload.segment,
        transmission: None,
    })
}

// The turn of an open channel to give a sign of life has come: it is sent, and its timer starts anew.
#[tactic(auto, unfolding(protocol::specs::Rules::beat_rule))]
fn beat_open<W: Store<Packet>, R: Store<Attempt>, K: Store<u8>>(
    lent: &mut Lent<W, R, K>,
    channel: ChannelNumber,
) -> Result<Action, RigFault>
    ensures obeys { Obeys (λ s. beat_rule s channel) (lent_state W.Store R.Store K.Store lent.old) result (lent_state W.Store R.Store K.Store lent.new) }
    ensures kept { Kept W.Store R.Store K.Store lent.old lent.new }
    ensures resend { lent.new.resend.now ≡ lent.old.resend.now }
{
    let owner = channel.number();
    let record = lent.record_of(channel);
    let sequence = record.next;
    let deadline = lent.wire.now().saturating_add(lent.rig.interval);
    let transmission = lent.transmit(owner, Packet::Keepalive { sequence });
    let ticket = Queue::Keepalive.named(lent.keepalive.start(deadline, owner, owner))?;
    let records = &mut *lent.records;
    let record = &mut records[channel.index()];
    record.repair();
    record.kept_alive(ticket);
    Ok(Action::KeepaliveSent {
        channel: owner,
        heartbeat: Some(Heartbeat {
            sequence,
            transmission,
        }),
    })
}

/// A keepalive timer has fired.
pub fn beat_due<W: Store<Packet>, R: Store<Attempt>, K: Store<u8>>(
    lent: &mut Lent<W, R, K>,
    entry: Expired<u8>,
) -> Result<Action, RigFault>
    ensures obeys { Obeys (λ s. beat_entry s entry) (lent_state W.Store R.Store K.Store lent.old) result (lent_state W.Store R.Store K.Store lent.new) }
    ensures kept { Kept W.Store R.Store K.Store lent.old lent.new }
    ensures resend { lent.new.resend.now ≡ lent.old.resend.now }
{
    if let Some(channel) = lent.open_channel(entry.owner) {
        return beat_open(lent, channel);
    }
    Ok(Action::KeepaliveSent {
        channel: entry.owner,
        heartbeat: None,
    })
}
