ghost use Rattle.std.specs.Prelude.{◌≡◌, Ok};
ghost use Rattle.protocol.specs.Obeys.{Obeys};
ghost use Rattle.timer.specs.Frame.{Framed};
ghost use Rattle.timer.specs.Rules.{stop_rule};
ghost use Rattle.protocol.specs.Rules.{data_rule, acknowledgement_rule, sample_of};
ghost use Rattle.engine.specs.Loans.{lent_state, Kept};

use channel::number::ChannelNumber;
use channel::record::Attempt;
use engine::cancel::cancel;
use engine::lent::Lent;
use link::packet::Packet;
use timer::store::Store;
use trace::action::{Action, Segment};

// Stops the resend timer of a word that was acknowledged in this tick, and answers the sample that this gives, if any.
fn stop_attempt<R: Store<Attempt>>(resend: &mut R, ticket: u32, tick: u32) -> Option<u32>
    ensures sample { result ≡ sample_of (stop_rule (R.meaning resend.old) ticket).answer tick }
    ensures after { R.meaning resend.new ≡ (stop_rule (R.meaning resend.old) ticket).after }
    ensures framed { Framed R.Store resend.old resend.new }
{
    cancel(resend, ticket)
        .ok()
        .and_then(|(_, attempt)| attempt.sample(tick))
}

/// A word arrives on an open channel.
#[tactic(auto, unfolding(protocol::specs::Rules::data_rule))]
pub(crate) fn data<W: Store<Packet>, R: Store<Attempt>, K: Store<u8>>(
    lent: &mut Lent<W, R, K>,
    channel: ChannelNumber,
    segment: Segment,
) -> Action
    ensures obeys { Obeys (λ s. data_rule s channel segment) (lent_state W.Store R.Store K.Store lent.old) (Ok result) (lent_state W.Store R.Store K.Store lent.new) }
    ensures kept { Kept W.Store R.Store K.Store lent.old lent.new }
    ensures keepalive { lent.new.keepalive.now ≡ lent.old.keepalive.now }
{
    let owner = channel.number();
    let records = &mut *lent.records;
    let record = &mut records[channel.index()];
    record.repair();
    let acknowledges = record.acknowledges(segment.sequence);
    record.received(segment);
    if !acknowledges {
        return Action::DataArrived {
            channel: owner,
            segment,
            acknowledgement: None,
        };
    }
    let packet = Packet::Acknowledgement {
        sequence: segment.sequence,
    };
    let transmission = lent.transmit(owner, packet);
    Action::DataArrived {
        channel: owner,
        segment,
        acknowledgement: Some(transmission),
    }
}

/// An acknowledgement arrives on an open channel.
#[tactic(auto, unfolding(protocol::specs::Rules::acknowledgement_rule))]
pub(crate) fn acknowledgement<W: Store<Packet>, R: Store<Attempt>, K: Store<u8>>(
    lent: &mut Lent<W, R, K>,
    channel: ChannelNumber,
    sequence: u32,
) -> Action
    ensures obeys { Obeys (λ s. acknowledgement_rule s channel sequence) (lent_state W.Store R.Store K.Store lent.old) (Ok result) (lent_state W.Store R.Store K.Store lent.new) }
    ensures kept { Kept W.Store R.Store K.Store lent.old lent.new }
    ensures keepalive { lent.new.keepalive.now ≡ lent.old.keepalive.now }
{
    let records = &mut *lent.records;
    let record = &mut records[channel.index()];
    record.repair();
    let awaited = record.awaits(sequence);
    if let Some(ticket) = awaited {
        let sample = stop_attempt(lent.resend, ticket, lent.wire.now());
        let records = &mut *lent.records;
        records[channel.index()].answered(sequence, sample);
    }
    Action::AcknowledgementArrived {
        channel: channel.number(),
        sequence,
    }
}
