ghost use Rattle.replay.specs.Lent.{Kept, held};
ghost use Rattle.replay.specs.Outcome.{Outcome};

use crate::lent::Lent;
use crate::outcome::{Session, Stopped};
use crate::playing::Playing;
use crate::print::print;
use channel::record::Attempt;
use link::packet::Packet;
use session::command::Command;
use std::alloc::Global;
use timer::store::Store;
use transport::rig::Draft;

/// Begins a rig, plays the commands and finishes it.
///
/// Whatever the stores and the commands are, the timers, the words and the restarts of the session obey its laws.
pub fn run<W: Store<Packet>, R: Store<Attempt>, K: Store<u8>>(
    heap: Global,
    draft: Draft,
    lent: &mut Lent<'_, W, R, K>,
    commands: &[Command],
) -> Result<Session, Stopped>
    ensures outcome { Outcome draft commands.now (held W.Store R.Store K.Store lent.old) result (held W.Store R.Store K.Store lent.new) }
    ensures kept { Kept W.Store R.Store K.Store lent.old lent.new }
{
    let rig = draft.begin(lent.wire, lent.resend, lent.keepalive, lent.table)?;
    let mut notes = Vec::new(heap);
    let mut playing = Playing {
        rig,
        notes: &mut notes,
        lent,
    };
    playing.play(commands)?;
    let finished = playing.rig.finish(lent.wire);
    let text = print(heap, &notes, finished.tick(), finished.packets())?;
    Ok(Session {
        notes,
        finished,
        text,
    })
}
