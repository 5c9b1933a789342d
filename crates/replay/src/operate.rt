ghost use Rattle.protocol.specs.Obeys.{Obeys};
ghost use Rattle.protocol.specs.Rules.{rule};
ghost use Rattle.replay.specs.Lent.{Kept, state_of};
ghost use Rattle.replay.specs.Noting.{Performed};

use crate::ask::ask;
use crate::lent::Lent;
use channel::record::Attempt;
use link::packet::Packet;
use protocol::operation::Operation;
use session::answer::Answer;
use session::command::Call;
use timer::store::Store;
use trace::action::Action;
use trace::fault::RigFault;
use transport::rig::Running;

// Makes a call that can change the rig.
fn operate<W: Store<Packet>, R: Store<Attempt>, K: Store<u8>>(
    rig: &mut Running,
    lent: &mut Lent<'_, W, R, K>,
    operation: Operation,
) -> Result<Action, RigFault>
    ensures obeys { Obeys (λ s. rule s operation) (state_of rig.old W.Store R.Store K.Store lent.old) result (state_of rig.new W.Store R.Store K.Store lent.new) }
    ensures kept { Kept W.Store R.Store K.Store lent.old lent.new }
{
    match operation {
        Operation::Open(channel) => rig.open(
            lent.wire,
            lent.resend,
            lent.keepalive,
            lent.table,
            lent.fates,
            channel,
        ),
        Operation::Send(channel, word) => rig.send(
            lent.wire,
            lent.resend,
            lent.keepalive,
            lent.table,
            lent.fates,
            channel,
            word,
        ),
        Operation::Take(channel) => rig.take(
            lent.wire,
            lent.resend,
            lent.keepalive,
            lent.table,
            lent.fates,
            channel,
        ),
        Operation::Close(channel) => rig.close(
            lent.wire,
            lent.resend,
            lent.keepalive,
            lent.table,
            lent.fates,
            channel,
        ),
        Operation::Step => rig.step(
            lent.wire,
            lent.resend,
            lent.keepalive,
            lent.table,
            lent.fates,
        ),
    }
}

/// Makes one call of a session.
pub(crate) fn perform<W: Store<Packet>, R: Store<Attempt>, K: Store<u8>>(
    rig: &mut Running,
    lent: &mut Lent<'_, W, R, K>,
    call: Call,
) -> Answer
    ensures performed { Performed (state_of rig.old W.Store R.Store K.Store lent.old) call result (state_of rig.new W.Store R.Store K.Store lent.new) }
    ensures kept { Kept W.Store R.Store K.Store lent.old lent.new }
{
    match call {
        Call::Operate(operation) => Answer::Done(operate(rig, lent, operation)),
        Call::Ask(question) => ask(rig, lent, question),
    }
}
