use crate::log::{Asked, Log};
use crate::scenario::{Act, Before, Layers, RECORDS, Scenario, Setup, Setups, Spoiled};
use protocol::operation::Operation;
use reference::channel::Record;
use reference::link::{Packet, Unanswered};
use reference::rig::{Rig, Settings};
use reference::store::PlainStore;
use reference::text::append_line;
use std::alloc::{AllocError, Global};
use trace::action::{Action, Segment};
use trace::fault::RigFault;

const PACKET: Packet = Packet::Keepalive(0);

const UNANSWERED: Unanswered = Unanswered {
    segment: Segment {
        sequence: 0,
        word: 0,
    },
    tries: 0,
    first: 0,
};

/// Notes all that can be asked of a store.
pub fn note_store<P: Copy>(
    log: &mut Log,
    store: &PlainStore<P>,
    asked: Asked,
) -> Result<(), AllocError> {
    log.number(store.now())?;
    log.number(store.last())?;
    log.count(store.capacity())?;
    log.number(store.given())?;
    log.count(store.pending())?;
    log.number(u32::from(store.due()))?;
    log.count(store.limit(asked.owner))?;
    log.count(store.count(asked.owner))?;
    log.fault(store.check(asked.deadline, asked.owner))
}

// Notes the line of an answer.
fn note_line(
    heap: Global,
    log: &mut Log,
    tick: u32,
    answer: Result<Action, RigFault>,
) -> Result<(), AllocError> {
    let mut text = String::new(heap);
    append_line(&mut text, tick, &answer)?;
    log.text(text.as_bytes())
}

/// Makes a call of the plain rig.
pub fn operate(
    rig: &mut Rig,
    operation: Operation,
) -> Result<Result<Action, RigFault>, AllocError> {
    match operation {
        Operation::Open(channel) => rig.open(channel),
        Operation::Send(channel, word) => rig.send(channel, word),
        Operation::Take(channel) => Ok(rig.take(channel)),
        Operation::Close(channel) => Ok(rig.close(channel)),
        Operation::Step => rig.step(),
    }
}

// Makes steps up to one that is refused, and notes all that do more than let the tick go on.
fn steps(heap: Global, rig: &mut Rig, count: u32, log: &mut Log) -> Result<(), AllocError> {
    for _ in 0..count {
        let answer = rig.step()?;
        if answer == Ok(Action::Advanced) {
            continue;
        }
        note_line(heap, log, rig.wire.now(), answer)?;
        if answer.is_err() {
            break;
        }
    }
    Ok(())
}

fn spoil(record: &mut Record, spoiled: Spoiled) {
    record.next = spoiled.next;
    record.base = spoiled.base;
    record.taken = spoiled.taken;
    record.estimator.timeout = spoiled.timeout;
}

// Lends just so many of a list's items; the others wait, the last of them first.
fn lend<T: Drop>(lent: &mut Vec<T>, waiting: &mut Vec<T>, count: usize) -> Result<(), AllocError> {
    for _ in count..lent.len() {
        if let Some(item) = lent.pop() {
            waiting.push(item)?;
        }
    }
    for _ in lent.len()..count {
        if let Some(item) = waiting.pop() {
            lent.push(item)?;
        }
    }
    Ok(())
}

// A plain store, as it is to be lent.
fn store<P: Copy>(
    heap: Global,
    setup: Setup,
    is_limited: bool,
    payload: P,
) -> Result<PlainStore<P>, AllocError> {
    let mut store = PlainStore::new(heap, setup.rows, setup.first, setup.last, setup.given);
    if setup.before != Before::Nothing {
        let _ = store.start(setup.first.saturating_add(1), 0, payload)?;
    }
    if setup.before == Before::Stopped {
        let _ = store.stop(1);
    }
    if is_limited {
        store.lay_quota(&setup.numbers);
    }
    Ok(store)
}

// Lends three stores to a rig.
fn lend_stores(
    heap: Global,
    rig: &mut Rig,
    setups: Setups,
    layers: Layers,
) -> Result<(), AllocError> {
    rig.wire = store(heap, setups.wire, layers.limit_wire(), PACKET)?;
    rig.resend = store(heap, setups.resend, layers.limit_others(), UNANSWERED)?;
    rig.keepalive = store(heap, setups.keepalive, layers.limit_others(), 0)?;
    Ok(())
}

/// The plain rig of a scenario, which has not begun.
pub fn rig(heap: Global, scenario: &Scenario<'_>) -> Result<Rig, AllocError> {
    let setups = scenario.setups;
    let layers = scenario.layers;
    let wire = store(heap, setups.wire, layers.limit_wire(), PACKET)?;
    let resend = store(heap, setups.resend, layers.limit_others(), UNANSWERED)?;
    let keepalive = store(heap, setups.keepalive, layers.limit_others(), 0)?;
    let mut table = Vec::new(heap);
    table.resize(scenario.records.min(RECORDS), Record::unused())?;
    let settings = Settings {
        default_delay: scenario.delay,
        interval: scenario.interval,
    };
    Rig::new(
        heap,
        settings,
        wire,
        resend,
        keepalive,
        table,
        scenario.room,
    )
}

// The records and fates that are not lent at the moment.
#[derive(Drop)]
struct Waiting {
    records: Vec<Record>,
    fates: Vec<u16>,
}

// Does what is to be done to a rig, and notes everything that can be seen.
fn go_on(
    heap: Global,
    scenario: &Scenario<'_>,
    acts: &[Act],
    rig: &mut Rig,
    waiting: &mut Waiting,
    log: &mut Log,
) -> Result<(), AllocError> {
    for act in acts.iter() {
        match *act {
            Act::Operate(operation) => {
                let answer = operate(rig, operation)?;
                note_line(heap, log, rig.wire.now(), answer)?;
            }
            Act::Steps(count) => steps(heap, rig, count, log)?,
            Act::Spoil(channel, spoiled) => {
                if let Some(record) = rig.table.get_mut(channel) {
                    spoil(record, spoiled);
                }
            }
            Act::Table(count) => lend(&mut rig.table, &mut waiting.records, count.min(RECORDS))?,
            Act::Fates(count) => lend(
                &mut rig.fates,
                &mut waiting.fates,
                count.min(scenario.room),
            )?,
        }
        let asked = act.asked(rig.wire.now());
        note_store(log, &rig.wire, asked)?;
        note_store(log, &rig.resend, asked)?;
        note_store(log, &rig.keepalive, asked)?;
        let channel = act.channel();
        log.number(u32::from(rig.status(channel)))?;
        log.number(rig.timeout(channel))?;
        log.number(rig.packets())?;
    }
    Ok(())
}

/// Plays a scenario on the plain rig, and notes everything that can be seen.
pub fn play(heap: Global, scenario: &Scenario<'_>) -> Result<Log, AllocError> {
    let mut log = Log::new(heap);
    let mut rig = rig(heap, scenario)?;
    for fate in scenario.fates.iter() {
        let refused = rig.add_fate(*fate).err();
        log.number(refused.map_or(0, |fault| u32::from(fault.number())))?;
    }
    if let Err(fault) = rig.begin() {
        log.number(u32::from(fault.number()))?;
        return Ok(log);
    }
    let mut waiting = Waiting {
        records: Vec::new(heap),
        fates: Vec::new(heap),
    };
    // all records are there, of which those that the table has not wait
    for _ in rig.table.len()..RECORDS {
        waiting.records.push(Record::unused())?;
    }
    go_on(
        heap,
        scenario,
        scenario.acts,
        &mut rig,
        &mut waiting,
        &mut log,
    )?;
    if let Some(setups) = scenario.later {
        lend_stores(heap, &mut rig, setups, scenario.layers)?;
        go_on(
            heap,
            scenario,
            scenario.later_acts,
            &mut rig,
            &mut waiting,
            &mut log,
        )?;
    }
    let (tick, packets) = rig.finish();
    log.number(tick)?;
    log.number(packets)?;
    Ok(log)
}
