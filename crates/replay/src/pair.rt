ghost use Rattle.replay.specs.Alike.{Alike, Both};
ghost use Rattle.replay.specs.Lent.{Kept, held};
ghost use Rattle.replay.specs.Outcome.{Outcome};

use crate::lent::Lent;
use crate::outcome::{Session, Stopped};
use crate::run::run;
use channel::record::Attempt;
use link::packet::Packet;
use session::command::Command;
use std::alloc::Global;
use timer::store::Store;
use transport::rig::Draft;

/// What two rigs came to that were given the same commands.
#[derive(Drop)]
pub struct Pair {
    /// What the first came to.
    pub first: Result<Session, Stopped>,
    /// What the second came to.
    pub second: Result<Session, Stopped>,
}

/// Begins two rigs, plays the same commands on both and finishes both.
///
/// Their stores can be of any types and layered in any way, and their tables of any length. If they begin alike, nobody can tell them
/// apart: all answers, the end and every printed byte are equal. And for each of them the laws of a session hold.
pub fn run_pair<
    W: Store<Packet>,
    R: Store<Attempt>,
    K: Store<u8>,
    X: Store<Packet>,
    S: Store<Attempt>,
    L: Store<u8>,
>(
    heap: Global,
    draft: Draft,
    lent: &mut Lent<'_, W, R, K>,
    other_draft: Draft,
    other: &mut Lent<'_, X, S, L>,
    commands: &[Command],
) -> Pair
    ensures first { Outcome draft commands.now (held W.Store R.Store K.Store lent.old) result.first (held W.Store R.Store K.Store lent.new) }
    ensures second { Outcome other_draft commands.now (held X.Store S.Store L.Store other.old) result.second (held X.Store S.Store L.Store other.new) }
    ensures alike { Alike draft other_draft (held W.Store R.Store K.Store lent.old) (held X.Store S.Store L.Store other.old) → Both result.first result.second }
    ensures kept { Kept W.Store R.Store K.Store lent.old lent.new }
    ensures other_kept { Kept X.Store S.Store L.Store other.old other.new }
{
    let first = run(heap, draft, lent, commands);
    let second = run(heap, other_draft, other, commands);
    Pair { first, second }
}
