#![tactic(auto)]

mod stores;
mod task;

use crate::stores::{Kind, Layer, agrees, agrees_under_two, limited_notes, notes_of, vacant};
use journal::note::{Effect, Kind as NoteKind, Note};
use journal::record::how_many;
use timer::fault::TimerFault;

fn main(rt: HostRuntime) -> anyhow::Result<()> {
    run(&rt)
}

// Plays the task over the list and prints its journal; then over each other store, and under the quota, and prints whether they agree.
fn run(rt: &HostRuntime) -> anyhow::Result<()> {
    let memory = rt.alloc();
    let mut rows = vacant();
    let notes = notes_of(&mut rows, &task::calls(), task::BUDGET, memory)?;
    println!(rt; "tick what ticket deadline owner payload")?;
    print_notes(rt, &notes, |effect| !matches!(effect, Effect::Advanced))?;
    print_end(rt, &notes)?;
    let count = notes.len();
    compare(rt, "heap", count, agrees(Kind::Heap, Layer::Bare, memory)?)?;
    compare(
        rt,
        "wheel",
        count,
        agrees(Kind::Wheel, Layer::Bare, memory)?,
    )?;
    println!(rt; "under a quota of 3 for owner 9")?;
    let limited = limited_notes(memory)?;
    print_notes(
        rt,
        &limited,
        |effect| matches!(effect, Effect::Refused(_, TimerFault::Limit)),
    )?;
    let count = limited.len();
    compare(rt, "heap", count, agrees(Kind::Heap, Layer::Quota, memory)?)?;
    compare(
        rt,
        "wheel",
        count,
        agrees(Kind::Wheel, Layer::Quota, memory)?,
    )?;
    compare(rt, "quota over quota", count, agrees_under_two(memory)?)
}

// Prints the notes of the effects that are to be shown.
fn print_notes<F: Fn(&Effect) -> bool>(
    rt: &HostRuntime,
    notes: &[Note],
    shown: F,
) -> anyhow::Result<()>
    requires { F.IsAlwaysCallable shown }
{
    for note in notes.iter().filter(|note| shown(&note.effect)) {
        print!(rt; "{note}")?;
    }
    Ok(())
}

// Prints the closing line of a journal.
fn print_end(rt: &HostRuntime, notes: &[Note]) -> anyhow::Result<()> {
    let started = how_many(notes, NoteKind::Started);
    let stopped = how_many(notes, NoteKind::Stopped);
    let fired = how_many(notes, NoteKind::Fired);
    let refused = how_many(notes, NoteKind::Refused);
    let pending = started.saturating_sub(stopped).saturating_sub(fired);
    let tick = notes.last().map_or(0, |note| note.tick);
    println!(rt;
        "{tick} end: {started} started, {stopped} stopped, {fired} fired, {refused} refused, {pending} pending"
    )?;
    Ok(())
}

// Prints whether another store's notes are the same, as many as these.
fn compare(rt: &HostRuntime, name: &str, count: usize, is_same: bool) -> anyhow::Result<()> {
    if is_same {
        println!(rt; "{name}: the same {count} notes")?;
    } else {
        println!(rt; "{name}: other notes")?;
    }
    Ok(())
}
