ghost use Rattle.std.specs.Prelude.{◌≡◌, List, ◌++◌};
ghost use Rattle.timer.specs.Frame.{Framed};
ghost use Rattle.timer.specs.Rules.{Event};
ghost use Rattle.timer.specs.History.{call_answer, call_after, ends, events, Fresh, Lawful};

use crate::call::{Answer, Call};
use crate::store::Store;

/// Makes one call of a store, and answers what the store answered.
pub fn perform<P: Copy, S: Store<P>>(store: &mut S, call: Call<P>) -> Answer<P>
    ensures answer { result ≡ call_answer (S.meaning store.old) call }
    ensures after { S.meaning store.new ≡ call_after (S.meaning store.old) call }
    ensures framed { Framed S.Store store.old store.new }
{
    match call {
        Call::Start(deadline, owner, payload) => Answer::Start(store.start(
            deadline, owner, payload,
        )),
        Call::Stop(ticket) => Answer::Stop(store.stop(ticket)),
        Call::Take => Answer::Take(store.take()),
        Call::Advance => Answer::Advance(store.advance()),
    }
}

/// Makes the calls of a list, one after the other.
///
/// Whatever the store is and whatever the calls are, what they did to the timers obeys the laws of a history.
pub fn play<P: Copy, S: Store<P>>(store: &mut S, calls: &[Call<P>])
    ensures after { S.meaning store.new ≡ ends (S.meaning store.old) calls.now }
    ensures begun { Fresh (S.meaning store.old) → Lawful (S.meaning store.new) (events (S.meaning store.old) calls.now) }
    ensures lawful { (es : List Event) → Lawful (S.meaning store.old) es → Lawful (S.meaning store.new) (es ++ events (S.meaning store.old) calls.now) }
    ensures framed { Framed S.Store store.old store.new }
{
    for call in calls {
        let _ = perform(store, *call);
    }
}
