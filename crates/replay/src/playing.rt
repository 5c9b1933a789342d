ghost use Rattle.timers_law.specs.Ready.{Ready};
ghost use Rattle.replay.specs.Lent.{state_of};

use crate::lent::Lent;
use crate::operate::perform;
use channel::record::Attempt;
use link::packet::Packet;
use session::answer::{Answer, Note};
use session::command::Call;
use std::alloc::AllocError;
use timer::store::Store;
use transport::rig::Running;

/// A session that is being played.
#[derive(Drop)]
pub(crate) struct Playing<'p, 'l, W: Store<Packet>, R: Store<Attempt>, K: Store<u8>> {
    /// The rig.
    pub(crate) rig: Running,
    /// What was noted so far.
    pub(crate) notes: &'p mut Vec<Note>,
    /// What is lent to the session.
    pub(crate) lent: &'p mut Lent<'l, W, R, K>,
    ghost ready: { ∥ Ready (state_of rig W.Store R.Store K.Store lent.now) ∥₁ },
}

impl<W: Store<Packet>, R: Store<Attempt>, K: Store<u8>> Playing<'_, '_, W, R, K> {
    ghost use Rattle.replay.specs.Noting.{Noted};
    ghost use Rattle.replay.specs.Playing.{Holding, playing_state};

    /// Makes a call and notes it, or does neither if there is no memory for the note.
    pub(crate) fn note(&mut self, call: Call) -> Result<Answer, AllocError>
        ensures cases { Noted (playing_state W.Store R.Store K.Store self.old) self.old.notes.now.items call result (playing_state W.Store R.Store K.Store self.new) self.new.notes.now.items }
        ensures kept { Holding W.Store R.Store K.Store self.old self.new }
    {
        self.notes.reserve(1)?;
        let answer = perform(&mut self.rig, self.lent, call);
        let tick = self.lent.tick();
        // the room is there, so this is no error
        let _ = self.notes.push(Note { tick, answer });
        Ok(answer)
    }
}
