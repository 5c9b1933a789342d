ghost use Rattle.std.specs.Prelude.{◌≡◌, Ok, Err, MatchResult};
ghost use Rattle.protocol.specs.Obeys.{Obeys};
ghost use Rattle.timer.specs.Frame.{Framed};
ghost use Rattle.timer.specs.Rules.{advance_rule};
ghost use Rattle.protocol.specs.Rules.{tick_rule};
ghost use Rattle.engine.specs.Loans.{lent_state, Kept};

use channel::record::Attempt;
use engine::lent::Lent;
use link::packet::Packet;
use timer::store::Store;
use trace::action::Action;
use trace::fault::RigFault;
use trace::queue::{Queue, StoreFault};

// One store's clock goes on; where the store refuses, it stays as it was.
fn advance<P, S: Store<P>>(queue: Queue, store: &mut S) -> Result<(), StoreFault>
    ensures cases { MatchResult result (λ _. (advance_rule (S.meaning store.old)).answer ≡ Ok tt) (λ e. ((advance_rule (S.meaning store.old)).answer ≡ Err e.fault) × (e.queue ≡ queue) × (S.meaning store.new ≡ S.meaning store.old)) }
    ensures after { S.meaning store.new ≡ (advance_rule (S.meaning store.old)).after }
    ensures framed { Framed S.Store store.old store.new }
{
    queue.named(store.advance())
}

/// Nothing is due: the three clocks go on.
#[tactic(auto, unfolding(protocol::specs::Rules::tick_rule))]
pub(crate) fn tick<W: Store<Packet>, R: Store<Attempt>, K: Store<u8>>(
    lent: &mut Lent<W, R, K>,
) -> Result<Action, RigFault>
    ensures obeys { Obeys tick_rule (lent_state W.Store R.Store K.Store lent.old) result (lent_state W.Store R.Store K.Store lent.new) }
    ensures kept { Kept W.Store R.Store K.Store lent.old lent.new }
{
    advance(Queue::Wire, lent.wire)?;
    advance(Queue::Resend, lent.resend)?;
    advance(Queue::Keepalive, lent.keepalive)?;
    Ok(Action::Advanced)
}
