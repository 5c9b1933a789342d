ghost use Rattle.std.specs.Prelude.{◌≡◌, ◌++◌, is_ok, IfOk, if◌then◌else◌};
ghost use Rattle.std.specs.List.{flat_map};
ghost use Rattle.session.specs.Text.{note_text, session_text};

use session::answer::{Answer, Note};
use std::alloc::{AllocError, Global};
use trace::line::Line;
use trace::writer::append_line;

// Appends the line of a note; a question has none.
fn append_note(out: &mut Vec<u8>, note: &Note) -> Result<(), AllocError>
    ensures { out.new.items ≡ (if is_ok result then out.old.items ++ note_text note.now else out.old.items) }
{
    match note.answer {
        Answer::Done(answer) => append_line(out, &Line::of_call(note.tick, answer)),
        _ => Ok(()),
    }
}

/// The text of a session: the lines of its notes, and the last line.
pub(crate) fn print(
    heap: Global,
    notes: &[Note],
    tick: u32,
    packets: u32,
) -> Result<Vec<u8>, AllocError>
    ensures { IfOk result (λ v. v.items ≡ session_text notes.now tick packets) }
{
    let mut out = Vec::new(heap);
    for note in notes {
        append_note(&mut out, note)?;
    }
    append_line(&mut out, &Line::of_end(tick, packets))?;
    Ok(out)
}
