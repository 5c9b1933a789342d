use crate::log::Log;
use reference::text::append_line;
use session::answer::{Answer, Note};
use std::alloc::{AllocError, Global};

// Notes an answer; what an operation did, or why it was refused, by the plain line, in which no two are alike.
fn note_answer(heap: Global, log: &mut Log, tick: u32, answer: Answer) -> Result<(), AllocError> {
    match answer {
        Answer::Done(answer) => {
            let mut line = String::new(heap);
            append_line(&mut line, tick, &answer)?;
            log.number(1)?;
            log.text(line.as_bytes())
        }
        Answer::Number(number) => {
            log.number(2)?;
            log.count(number)
        }
        Answer::Due(is_due) => log.pair(3, u32::from(is_due)),
        Answer::Check(fault) => {
            log.number(4)?;
            log.fault(fault)
        }
    }
}

/// What a session came to: its notes, its end and its text.
pub fn log_of(
    heap: Global,
    notes: &[Note],
    tick: u32,
    packets: u32,
    text: &[u8],
) -> Result<Log, AllocError> {
    let mut log = Log::new(heap);
    log.count(notes.len())?;
    for note in notes.iter() {
        log.number(note.tick)?;
        note_answer(heap, &mut log, note.tick, note.answer)?;
    }
    log.pair(tick, packets)?;
    log.text(text)?;
    Ok(log)
}
