ghost use Rattle.std.specs.Prelude.{◌≡◌, Ok};
ghost use Rattle.protocol.specs.Obeys.{Obeys};
ghost use Rattle.protocol.specs.Rules.{arrival, told_arrival};
ghost use Rattle.engine.specs.Loans.{lent_state, Kept};

use crate::packet::{acknowledgement, data};
use channel::record::Attempt;
use engine::lent::Lent;
use link::packet::Packet;
use timer::expired::Expired;
use timer::store::Store;
use trace::action::Action;

// What is told of a packet that arrives on a channel that is not open.
fn told(owner: u8, packet: Packet) -> Action
    ensures { result ≡ told_arrival owner packet }
{
    match packet {
        Packet::Data(segment) => Action::DataArrived {
            channel: owner,
            segment,
            acknowledgement: None,
        },
        Packet::Acknowledgement { sequence } => Action::AcknowledgementArrived {
            channel: owner,
            sequence,
        },
        Packet::Keepalive { sequence } => Action::KeepaliveArrived {
            channel: owner,
            sequence,
        },
    }
}

/// A packet arrives.
pub fn arrival<W: Store<Packet>, R: Store<Attempt>, K: Store<u8>>(
    lent: &mut Lent<W, R, K>,
    entry: Expired<Packet>,
) -> Action
    ensures obeys { Obeys (λ s. arrival s entry) (lent_state W.Store R.Store K.Store lent.old) (Ok result) (lent_state W.Store R.Store K.Store lent.new) }
    ensures kept { Kept W.Store R.Store K.Store lent.old lent.new }
    ensures keepalive { lent.new.keepalive.now ≡ lent.old.keepalive.now }
{
    let owner = entry.owner;
    let Some(channel) = lent.open_channel(owner) else {
        return told(owner, entry.payload);
    };
    match entry.payload {
        Packet::Data(segment) => data(lent, channel, segment),
        Packet::Acknowledgement { sequence } => acknowledgement(lent, channel, sequence),
        Packet::Keepalive { sequence } => Action::KeepaliveArrived {
            channel: owner,
            sequence,
        },
    }
}
