ghost use Rattle.std.specs.Prelude.{◌≡◌, ◌||◌, [], ◌∷◌, ◌++◌, is_ok, MatchResult, nat_lt};
ghost use Rattle.timer.specs.Rules.{due_rule};
ghost use Rattle.protocol.specs.State.{State};
ghost use Rattle.protocol.specs.Rules.{step_rule};
ghost use Rattle.protocol.specs.declared.operation.Operation.TheVariants.{Step};
ghost use Rattle.session.specs.declared.command.Call.TheVariants.{Operate};
ghost use Rattle.session.specs.Run.{is_accepted, note_of, steps_until};
ghost use Rattle.session.specs.Progress.{Went};
ghost use Rattle.replay.specs.Lent.{Held, held};
ghost use Rattle.replay.specs.Playing.{Holding, playing_state};

use crate::lent::Lent;
use crate::playing::Playing;
use channel::record::Attempt;
use link::packet::Packet;
use protocol::operation::Operation;
use session::answer::Answer;
use session::command::Call;
use std::alloc::AllocError;
use timer::store::Store;

// Whether there is something to step for: the tick is below this one, or an entry is due.
fn goes_on<W: Store<Packet>, R: Store<Attempt>, K: Store<u8>>(
    lent: &Lent<'_, W, R, K>,
    tick: u32,
) -> bool
    ensures { let l : Held = held W.Store R.Store K.Store lent.now in result ≡ (nat_lt l.wire.now tick || (due_rule l.wire || (due_rule l.resend || due_rule l.keepalive))) }
{
    lent.tick() < tick || lent.wire.due() || lent.resend.due() || lent.keepalive.due()
}

// Whether an operation was accepted.
fn accepted(answer: Answer) -> bool
    ensures { result ≡ is_accepted answer }
{
    match answer {
        Answer::Done(answer) => answer.is_ok(),
        _ => false,
    }
}

impl<W: Store<Packet>, R: Store<Attempt>, K: Store<u8>> Playing<'_, '_, W, R, K> {
    // Makes and notes one step, and answers whether it was accepted.
    fn step_once(&mut self) -> Result<bool, AllocError>
        ensures cases { let s : State = playing_state W.Store R.Store K.Store self.old in let t : State = playing_state W.Store R.Store K.Store self.new in MatchResult result (λ ok. (ok ≡ is_ok (step_rule s).answer) × (t ≡ (step_rule s).after) × (self.new.notes.now.items ≡ self.old.notes.now.items ++ note_of s (Operate Step) ∷ [])) (λ _. (t ≡ s) × (self.new.notes.now.items ≡ self.old.notes.now.items)) }
        ensures kept { Holding W.Store R.Store K.Store self.old self.new }
    {
        let answer = self.note(Call::Operate(Operation::Step))?;
        Ok(accepted(answer))
    }

    /// Steps until a tick, and notes every step.
    pub(crate) fn step_until(&mut self, tick: u32) -> Result<(), AllocError>
        ensures went { let s : State = playing_state W.Store R.Store K.Store self.old in Went s self.old.notes.now.items (steps_until s tick) (is_ok result) (playing_state W.Store R.Store K.Store self.new) self.new.notes.now.items }
        ensures kept { Holding W.Store R.Store K.Store self.old self.new }
    {
        while goes_on(self.lent, tick) {
            if !self.step_once()? {
                return Ok(());
            }
        }
        Ok(())
    }
}
