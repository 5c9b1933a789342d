// Sessions on pairs of rigs, over stores in two orders.
use crate::log::Log;
use crate::notes::log_of;
use crate::over::{ATTEMPT, Made, PACKET, store};
use crate::scenario::{Layers, RECORDS, Scenario};
use channel::record::{Attempt, Channel};
use link::packet::Packet;
use replay::lent::Lent;
use replay::outcome::{Session, Stopped};
use replay::pair::{Pair, run_pair};
use session::command::Command;
use std::alloc::{AllocError, Global};
use timer::store::Store;
use timer_aged::aged::Aged;
use timer_quota::quota::Quota;
use timer_rows::row::Row;
use transport::rig::Draft;

/// What one of a pair of rigs came to: its notes, its end and its text, or the refusal to begin.
pub fn seen(heap: Global, outcome: Result<Session, Stopped>) -> Result<Log, AllocError> {
    match outcome {
        Ok(session) => log_of(
            heap,
            &session.notes,
            session.finished.tick(),
            session.finished.packets(),
            &session.text,
        ),
        Err(Stopped::Begin(refused)) => {
            let mut log = Log::new(heap);
            log.number(u32::from(refused.fault.number()))?;
            Ok(log)
        }
        Err(Stopped::Memory) => Err(AllocError),
    }
}

// The draft of a scenario, whose fates come into the list as long as there is room.
fn draft(scenario: &Scenario<'_>, fates: &mut [u16]) -> Draft {
    let mut draft = Draft::new(scenario.delay, scenario.interval);
    for fate in scenario.fates.iter() {
        let _ = draft.add_fate(fates, *fate);
    }
    draft
}

// Plays commands on two rigs over these stores.
fn play<
    W: Store<Packet>,
    R: Store<Attempt>,
    K: Store<u8>,
    X: Store<Packet>,
    S: Store<Attempt>,
    L: Store<u8>,
>(
    heap: Global,
    scenario: &Scenario<'_>,
    commands: &[Command],
    wire: &mut W,
    resend: &mut R,
    keepalive: &mut K,
    other_wire: &mut X,
    other_resend: &mut S,
    other_keepalive: &mut L,
) -> Result<Pair, AllocError> {
    let mut fates = vec![in heap; 0; scenario.room]?;
    let mut other_fates = vec![in heap; 0; scenario.room]?;
    let draft_of_first = draft(scenario, &mut fates);
    let draft_of_other = draft(scenario, &mut other_fates);
    let records = scenario.records.min(RECORDS);
    let mut table = vec![in heap; Channel::unused(); records]?;
    let mut other_table = vec![in heap; Channel::unused(); records]?;
    let mut lent = Lent::new(wire, resend, keepalive, &mut table, &fates);
    let mut other = Lent::new(
        other_wire,
        other_resend,
        other_keepalive,
        &mut other_table,
        &other_fates,
    );
    Ok(run_pair(
        heap,
        draft_of_first,
        &mut lent,
        draft_of_other,
        &mut other,
        commands,
    ))
}

/// Plays commands on two rigs of a scenario, the first over stores in the order `O` and the other over stores in the order `Q`.
pub fn over<O: Made<Packet> + Made<Attempt> + Made<u8>, Q: Made<Packet> + Made<Attempt> + Made<u8>>(
    heap: Global,
    scenario: &Scenario<'_>,
    commands: &[Command],
) -> Result<Pair, AllocError> {
    let setups = scenario.setups;
    let mut wire_rows = vec![in heap; Row::vacant(PACKET); setups.wire.rows]?;
    let mut resend_rows = vec![in heap; Row::vacant(ATTEMPT); setups.resend.rows]?;
    let mut keepalive_rows = vec![in heap; Row::vacant(0); setups.keepalive.rows]?;
    let mut other_wire_rows = vec![in heap; Row::vacant(PACKET); setups.wire.rows]?;
    let mut other_resend_rows = vec![in heap; Row::vacant(ATTEMPT); setups.resend.rows]?;
    let mut other_keepalive_rows = vec![in heap; Row::vacant(0); setups.keepalive.rows]?;
    let mut wire = store::<Packet, O>(&mut wire_rows, setups.wire, PACKET);
    let mut resend = store::<Attempt, O>(&mut resend_rows, setups.resend, ATTEMPT);
    let mut keepalive = store::<u8, O>(&mut keepalive_rows, setups.keepalive, 0);
    let mut other_wire = store::<Packet, Q>(&mut other_wire_rows, setups.wire, PACKET);
    let mut other_resend = store::<Attempt, Q>(&mut other_resend_rows, setups.resend, ATTEMPT);
    let mut other_keepalive = store::<u8, Q>(&mut other_keepalive_rows, setups.keepalive, 0);
    match scenario.layers {
        Layers::Bare => play(
            heap,
            scenario,
            commands,
            &mut wire,
            &mut resend,
            &mut keepalive,
            &mut other_wire,
            &mut other_resend,
            &mut other_keepalive,
        ),
        Layers::Wire => play(
            heap,
            scenario,
            commands,
            &mut Quota::new(&mut wire, setups.wire.numbers),
            &mut resend,
            &mut keepalive,
            &mut Quota::new(&mut other_wire, setups.wire.numbers),
            &mut other_resend,
            &mut other_keepalive,
        ),
        Layers::Quotas => play(
            heap,
            scenario,
            commands,
            &mut Quota::new(&mut wire, setups.wire.numbers),
            &mut Quota::new(&mut resend, setups.resend.numbers),
            &mut Quota::new(&mut keepalive, setups.keepalive.numbers),
            &mut Quota::new(&mut other_wire, setups.wire.numbers),
            &mut Quota::new(&mut other_resend, setups.resend.numbers),
            &mut Quota::new(&mut other_keepalive, setups.keepalive.numbers),
        ),
        Layers::Aged => play(
            heap,
            scenario,
            commands,
            &mut Aged::new(&mut wire, setups.wire.given),
            &mut Aged::new(&mut resend, setups.resend.given),
            &mut Aged::new(&mut keepalive, setups.keepalive.given),
            &mut Aged::new(&mut other_wire, setups.wire.given),
            &mut Aged::new(&mut other_resend, setups.resend.given),
            &mut Aged::new(&mut other_keepalive, setups.keepalive.given),
        ),
    }
}
