ghost use Rattle.std.specs.Prelude.{◌≡◌, None};
ghost use Rattle.protocol.specs.Obeys.{Obeys};
ghost use Rattle.timer.specs.Frame.{Framed};
ghost use Rattle.timer.specs.Rules.{take_rule};
ghost use Rattle.protocol.specs.Rules.{moved};
ghost use Rattle.engine.specs.Loans.{lent_state, Kept};
ghost use Rattle.stepping.specs.Bodies.{step_body};

use crate::tick::tick;
use channel::record::Attempt;
use engine::lent::Lent;
use fired::arrival::arrival;
use fired::due::{beat_due, resend_due};
use link::packet::Packet;
use timer::expired::Expired;
use timer::store::Store;
use trace::action::Action;
use trace::fault::RigFault;

// How far the last tick has to be away for the tick to go on.
const MARGIN: u32 = 60_000;

// Takes an entry that is due; where none is, the store stays as it was.
fn take_due<P, S: Store<P>>(store: &mut S) -> Option<Expired<P>>
    ensures answer { result ≡ (take_rule (S.meaning store.old)).answer }
    ensures after { S.meaning store.new ≡ (take_rule (S.meaning store.old)).after }
    ensures idle { result ≡ None → S.meaning store.new ≡ S.meaning store.old }
    ensures framed { Framed S.Store store.old store.new }
{
    store.take()
}

// Does the first that is due, from store to store, or lets the tick go on.
fn proceed<W: Store<Packet>, R: Store<Attempt>, K: Store<u8>>(
    lent: &mut Lent<W, R, K>,
) -> Result<Action, RigFault>
    ensures obeys { Obeys moved (lent_state W.Store R.Store K.Store lent.old) result (lent_state W.Store R.Store K.Store lent.new) }
    ensures kept { Kept W.Store R.Store K.Store lent.old lent.new }
{
    if let Some(entry) = take_due(lent.wire) {
        return Ok(arrival(lent, entry));
    }
    if let Some(entry) = take_due(lent.resend) {
        return resend_due(lent, entry);
    }
    if let Some(entry) = take_due(lent.keepalive) {
        return beat_due(lent, entry);
    }
    tick(lent)
}

/// Does the first that is due, or lets the tick go on.
pub fn step<W: Store<Packet>, R: Store<Attempt>, K: Store<u8>>(
    lent: &mut Lent<W, R, K>,
) -> Result<Action, RigFault>
    ensures obeys { Obeys step_body (lent_state W.Store R.Store K.Store lent.old) result (lent_state W.Store R.Store K.Store lent.new) }
    ensures kept { Kept W.Store R.Store K.Store lent.old lent.new }
{
    if lent.low() {
        return Err(RigFault::Spent);
    }
    let due = lent.wire.due() || lent.resend.due() || lent.keepalive.due();
    if !due && lent.wire.now().saturating_add(MARGIN) >= lent.wire.last() {
        return Err(RigFault::Ending);
    }
    proceed(lent)
}
