ghost use Rattle.std.specs.Prelude.{◌≡◌, ◌++◌, ◌↔◌, IsTrue, IfOk, OnOk};
ghost use Rattle.timer.specs.Frame.{Framed};
ghost use Rattle.timer.specs.History.{call_after, ends};
ghost use Rattle.journal.specs.Notes.{effect_of, note_of, notes_of, coming_call, settling, settled, told, kind_count};

use crate::compare::agree;
use crate::note::{CallName, Effect, Kind, Note};
use std::alloc::{AllocError, Global};
use timer::call::Call;
use timer::store::Store;

// Makes one call of a store, and says what it came to.
fn effect<S: Store<u32>>(store: &mut S, call: Call<u32>) -> Effect
    ensures effect { result ≡ effect_of (S.meaning store.old) call }
    ensures after { S.meaning store.new ≡ call_after (S.meaning store.old) call }
    ensures framed { Framed S.Store store.old store.new }
{
    match call {
        Call::Start(deadline, owner, payload) => match store.start(deadline, owner, payload) {
            Ok(ticket) => Effect::Started {
                ticket,
                deadline,
                owner,
                payload,
            },
            Err(fault) => Effect::Refused(CallName::Start, fault),
        },
        Call::Stop(ticket) => match store.stop(ticket) {
            Ok((owner, payload)) => Effect::Stopped {
                ticket,
                owner,
                payload,
            },
            Err(fault) => Effect::Refused(CallName::Stop, fault),
        },
        Call::Take => match store.take() {
            Some(entry) => Effect::Fired {
                ticket: entry.ticket,
                owner: entry.owner,
                payload: entry.payload,
            },
            None => Effect::Idle,
        },
        Call::Advance => match store.advance() {
            Ok(()) => Effect::Advanced,
            Err(fault) => Effect::Refused(CallName::Advance, fault),
        },
    }
}

/// Makes one call of a store, and notes what it came to.
pub fn note<S: Store<u32>>(store: &mut S, call: Call<u32>) -> Note
    ensures note { result ≡ note_of (S.meaning store.old) call }
    ensures after { S.meaning store.new ≡ call_after (S.meaning store.old) call }
    ensures framed { Framed S.Store store.old store.new }
{
    let effect = effect(store, call);
    Note {
        tick: store.now(),
        effect,
    }
}

/// Makes the calls of a list, and adds a note of each.
///
/// Where memory runs out the calls up to there have been made, and the last of them has no note.
pub fn play<S: Store<u32>>(
    store: &mut S,
    calls: &[Call<u32>],
    notes: &mut Vec<Note>,
) -> Result<(), AllocError>
    ensures notes { OnOk result (notes.new.items ≡ notes.old.items ++ notes_of (S.meaning store.old) calls.now) }
    ensures after { OnOk result (S.meaning store.new ≡ ends (S.meaning store.old) calls.now) }
    ensures framed { Framed S.Store store.old store.new }
{
    for call in calls {
        notes.push(note(store, *call))?;
    }
    Ok(())
}

// What is to be done next: an entry is taken if one is due, else the tick goes on.
fn next_call<S: Store<u32>>(store: &S) -> Call<u32>
    ensures { result ≡ coming_call (S.meaning store.now) }
{
    if store.due() {
        Call::Take
    } else {
        Call::Advance
    }
}

/// Takes what is due and lets the tick go on until nothing is pending, in at most `budget` calls, and adds a note of each.
#[tactic(auto, using(crate::proofs::Steps::settling_steps))]
pub fn settle<S: Store<u32>>(
    store: &mut S,
    budget: u32,
    notes: &mut Vec<Note>,
) -> Result<(), AllocError>
    ensures notes { OnOk result (notes.new.items ≡ notes.old.items ++ notes_of (S.meaning store.old) (settling budget (S.meaning store.old))) }
    ensures after { OnOk result (S.meaning store.new ≡ ends (S.meaning store.old) (settling budget (S.meaning store.old))) }
    ensures framed { Framed S.Store store.old store.new }
{
    for _ in 0..budget {
        if store.pending() == 0 {
            return Ok(());
        }
        let call = next_call(store);
        notes.push(note(store, call))?;
    }
    Ok(())
}

/// The notes of a task on a store: its calls, and then what follows until nothing is pending, in at most `budget` calls.
pub fn tell<S: Store<u32>>(
    store: &mut S,
    calls: &[Call<u32>],
    budget: u32,
    heap: Global,
) -> Result<Vec<Note>, AllocError>
    ensures notes { IfOk result (λ v. v.items ≡ told (S.meaning store.old) calls.now budget) }
    ensures after { OnOk result (S.meaning store.new ≡ settled (S.meaning store.old) calls.now budget) }
    ensures framed { Framed S.Store store.old store.new }
{
    let mut notes = Vec::new(heap);
    play(store, calls, &mut notes)?;
    settle(store, budget, &mut notes)?;
    Ok(notes)
}

/// Whether a task on two stores has the same notes, as it has if the stores mean the same.
pub fn tell_alike<S: Store<u32>, T: Store<u32>>(
    one: &mut S,
    other: &mut T,
    calls: &[Call<u32>],
    budget: u32,
    heap: Global,
) -> Result<bool, AllocError>
    ensures same { IfOk result (λ same. IsTrue same ↔ (told (S.meaning one.old) calls.now budget ≡ told (T.meaning other.old) calls.now budget)) }
    ensures alike { IfOk result (λ same. S.meaning one.old ≡ T.meaning other.old → IsTrue same) }
    ensures framed { Framed S.Store one.old one.new }
    ensures other_framed { Framed T.Store other.old other.new }
{
    let notes = tell(one, calls, budget, heap)?;
    let others = tell(other, calls, budget, heap)?;
    Ok(agree(&notes, &others))
}

/// How many of the notes tell of an effect of the kind.
pub fn how_many(notes: &[Note], kind: Kind) -> usize
    ensures { result ≡ kind_count kind notes.now }
{
    notes
        .iter()
        .filter(|note| note.effect.kind() == Some(kind))
        .count()
}
