ghost use Rattle.std.specs.Prelude.{◌≡◌};
ghost use Rattle.session.specs.Run.{store_told, told};
ghost use Rattle.replay.specs.Lent.{state_of};

use crate::lent::Lent;
use channel::record::Attempt;
use link::packet::Packet;
use session::answer::Answer;
use session::command::{Question, StoreQuestion};
use timer::store::Store;
use trace::queue::Queue;
use transport::rig::Running;

// Asks a store.
fn ask_store<P, S: Store<P>>(store: &S, question: StoreQuestion) -> Answer
    ensures { result ≡ store_told (S.meaning store.now) question }
{
    match question {
        StoreQuestion::Now => Answer::Number(store.now() as usize),
        StoreQuestion::Last => Answer::Number(store.last() as usize),
        StoreQuestion::Capacity => Answer::Number(store.capacity()),
        StoreQuestion::Given => Answer::Number(store.given() as usize),
        StoreQuestion::Pending => Answer::Number(store.pending()),
        StoreQuestion::Due => Answer::Due(store.due()),
        StoreQuestion::Limit(owner) => Answer::Number(store.limit(owner)),
        StoreQuestion::Count(owner) => Answer::Number(store.count(owner)),
        StoreQuestion::Check(deadline, owner) => Answer::Check(store.check(deadline, owner)),
    }
}

/// Asks the rig or one of its stores.
pub(crate) fn ask<W: Store<Packet>, R: Store<Attempt>, K: Store<u8>>(
    rig: &Running,
    lent: &Lent<'_, W, R, K>,
    question: Question,
) -> Answer
    ensures { result ≡ told (state_of rig.now W.Store R.Store K.Store lent.now) question }
{
    match question {
        Question::Status(channel) => Answer::Number(
            rig.status_number(lent.table, channel) as usize,
        ),
        Question::Timeout(channel) => Answer::Number(rig.timeout(lent.table, channel) as usize),
        Question::Packets => Answer::Number(rig.packets() as usize),
        Question::Store(Queue::Wire, question) => ask_store(lent.wire, question),
        Question::Store(Queue::Resend, question) => ask_store(lent.resend, question),
        Question::Store(Queue::Keepalive, question) => ask_store(lent.keepalive, question),
    }
}
