ghost use Rattle.std.specs.Prelude.{is_ok};
ghost use Rattle.protocol.specs.State.{State};
ghost use Rattle.session.specs.Run.{unfold_one, calls_of};
ghost use Rattle.session.specs.Progress.{Went};
ghost use Rattle.replay.specs.Playing.{Holding, playing_state};

use crate::playing::Playing;
use channel::record::Attempt;
use link::packet::Packet;
use session::command::Command;
use std::alloc::AllocError;
use timer::store::Store;

impl<W: Store<Packet>, R: Store<Attempt>, K: Store<u8>> Playing<'_, '_, W, R, K> {
    // Plays one command.
    fn carry_out(&mut self, command: Command) -> Result<(), AllocError>
        ensures went { let s : State = playing_state W.Store R.Store K.Store self.old in Went s self.old.notes.now.items (unfold_one s command) (is_ok result) (playing_state W.Store R.Store K.Store self.new) self.new.notes.now.items }
        ensures kept { Holding W.Store R.Store K.Store self.old self.new }
    {
        match command {
            Command::Call(call) => {
                self.note(call)?;
                Ok(())
            }
            Command::StepUntil(tick) => self.step_until(tick),
        }
    }

    /// Plays commands one after the other, and notes every call.
    pub(crate) fn play(&mut self, commands: &[Command]) -> Result<(), AllocError>
        ensures went { let s : State = playing_state W.Store R.Store K.Store self.old in Went s self.old.notes.now.items (calls_of s commands.now) (is_ok result) (playing_state W.Store R.Store K.Store self.new) self.new.notes.now.items }
        ensures kept { Holding W.Store R.Store K.Store self.old self.new }
    {
        for command in commands {
            self.carry_out(*command)?;
        }
        Ok(())
    }
}
