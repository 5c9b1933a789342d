ghost use Rattle.std.specs.Prelude.{◌≡◌, IfOk};
ghost use Rattle.replay.specs.Alike.{Both};
ghost use Rattle.rig.specs.Draft.{with_fates};

use crate::script;
use crate::stores::{ATTEMPT, KEEPALIVE_ROWS, PACKET, RESEND_ROWS, Stores, WIRE_ROWS};
use anyhow::anyhow;
use channel::record::{Attempt, Channel};
use link::packet::Packet;
use replay::lent::Lent;
use replay::pair::{Pair, run_pair};
use std::alloc::Global;
use timer::store::Store;
use timer_quota::quota::Quota;
use timer_rows::row::Row;
use transport::rig::Draft;

/// The session over wheels, and beside it over lists of the same sizes.
pub fn over_wheels_and_lists(heap: Global) -> anyhow::Result<Pair>
    ensures { IfOk result (λ p. Both p.first p.second) }
{
    // Each array is a variable of its own: a struct of them would be copied when it is made, and the stack would hold it twice.
    let mut wire_rows = [Row::vacant(PACKET); WIRE_ROWS];
    let mut resend_rows = [Row::vacant(ATTEMPT); RESEND_ROWS];
    let mut keepalive_rows = [Row::vacant(0); KEEPALIVE_ROWS];
    let mut other_wire_rows = wire_rows;
    let mut other_resend_rows = resend_rows;
    let mut other_keepalive_rows = keepalive_rows;
    let Stores {
        mut wire,
        mut resend,
        mut keepalive,
    } = Stores::wheels(&mut wire_rows, &mut resend_rows, &mut keepalive_rows);
    let Stores {
        wire: mut other_wire,
        resend: mut other_resend,
        keepalive: mut other_keepalive,
    } = Stores::lists(
        &mut other_wire_rows,
        &mut other_resend_rows,
        &mut other_keepalive_rows,
    );
    play(
        heap,
        &mut wire,
        &mut resend,
        &mut keepalive,
        &mut other_wire,
        &mut other_resend,
        &mut other_keepalive,
    )
}

// The draft of the session, with its fates in the list.
fn draft_of(fates: &mut [u16]) -> anyhow::Result<Draft>
    ensures { IfOk result (λ d. (d ≡ record { delay = 10; interval = 5000; fates = 2 }) × (fates.new ≡ with_fates fates.old)) }
{
    script::draft(fates).map_err(|_| anyhow!("the list of fates is full"))
}

// The session over two sets of stores, with a quota above each wire.
fn play<
    W: Store<Packet>,
    R: Store<Attempt>,
    K: Store<u8>,
    X: Store<Packet>,
    S: Store<Attempt>,
    L: Store<u8>,
>(
    heap: Global,
    wire: &mut W,
    resend: &mut R,
    keepalive: &mut K,
    other_wire: &mut X,
    other_resend: &mut S,
    other_keepalive: &mut L,
) -> anyhow::Result<Pair>
    ensures { IfOk result (λ p. W.meaning wire.old ≡ X.meaning other_wire.old → R.meaning resend.old ≡ S.meaning other_resend.old → K.meaning keepalive.old ≡ L.meaning other_keepalive.old → Both p.first p.second) }
{
    let mut fates = [0; 2];
    let mut other_fates = [0; 2];
    let draft = draft_of(&mut fates)?;
    let other_draft = draft_of(&mut other_fates)?;
    let mut table = [Channel::unused(); 64];
    let mut other_table = [Channel::unused(); 64];
    let mut limited = Quota::new(wire, [script::WIRE_QUOTA; 64]);
    let mut other_limited = Quota::new(other_wire, [script::WIRE_QUOTA; 64]);
    let mut lent = Lent::new(&mut limited, resend, keepalive, &mut table, &fates);
    let mut other = Lent::new(
        &mut other_limited,
        other_resend,
        other_keepalive,
        &mut other_table,
        &other_fates,
    );
    Ok(run_pair(
        heap,
        draft,
        &mut lent,
        other_draft,
        &mut other,
        &script::commands(),
    ))
}
