use crate::log::Log;
use crate::scenario::{Act, RECORDS, Scenario, Spoiled};
use channel::record::{Attempt, Channel};
use estimator::estimate::Estimator;
use link::packet::Packet;
use protocol::operation::Operation;
use std::alloc::{AllocError, Global};
use timer::store::Store;
use trace::action::Action;
use trace::fault::RigFault;
use trace::line::Line;
use trace::writer::{LINE_BYTES, write_line};
use transport::rig::{Draft, Running};

// Makes a call of a running rig.
fn operate<W: Store<Packet>, R: Store<Attempt>, K: Store<u8>>(
    running: &mut Running,
    wire: &mut W,
    resend: &mut R,
    keepalive: &mut K,
    table: &mut [Channel],
    fates: &[u16],
    operation: Operation,
) -> Result<Action, RigFault> {
    match operation {
        Operation::Open(channel) => running.open(wire, resend, keepalive, table, fates, channel),
        Operation::Send(channel, word) => {
            running.send(wire, resend, keepalive, table, fates, channel, word)
        }
        Operation::Take(channel) => running.take(wire, resend, keepalive, table, fates, channel),
        Operation::Close(channel) => running.close(wire, resend, keepalive, table, fates, channel),
        Operation::Step => running.step(wire, resend, keepalive, table, fates),
    }
}

// Makes steps up to one that is refused, and notes all that do more than let the tick go on.
fn steps<W: Store<Packet>, R: Store<Attempt>, K: Store<u8>>(
    running: &mut Running,
    wire: &mut W,
    resend: &mut R,
    keepalive: &mut K,
    table: &mut [Channel],
    fates: &[u16],
    count: u32,
    log: &mut Log,
) -> Result<(), AllocError> {
    for _ in 0..count {
        let answer = running.step(wire, resend, keepalive, table, fates);
        if answer == Ok(Action::Advanced) {
            continue;
        }
        note_line(log, wire.now(), answer)?;
        if answer.is_err() {
            break;
        }
    }
    Ok(())
}

// Notes the line of an answer.
fn note_line(log: &mut Log, tick: u32, answer: Result<Action, RigFault>) -> Result<(), AllocError> {
    let mut buffer = [0; LINE_BYTES];
    let length = write_line(&Line::of_call(tick, answer), &mut buffer).unwrap_or(0);
    log.text(&buffer[..length.min(LINE_BYTES)])
}

// A record that is found with other numbers.
fn spoil(record: Channel, spoiled: Spoiled) -> Channel {
    Channel {
        next: spoiled.next,
        base: spoiled.base,
        taken: spoiled.taken,
        estimator: Estimator {
            timeout: spoiled.timeout,
            ..record.estimator
        },
        ..record
    }
}

// A running rig, its table and its fates, and how many records and fates are lent.
#[derive(Drop)]
struct Rig {
    running: Running,
    table: Vec<Channel>,
    fates: Vec<u16>,
    records: usize,
    listed: usize,
}

// Adds the fates and begins, and notes what is refused.
fn begin<W: Store<Packet>, R: Store<Attempt>, K: Store<u8>>(
    heap: Global,
    scenario: &Scenario<'_>,
    wire: &W,
    resend: &R,
    keepalive: &K,
    log: &mut Log,
) -> Result<Option<Rig>, AllocError> {
    let mut fates = Vec::new(heap);
    fates.resize(scenario.room, 0)?;
    let mut draft = Draft::new(scenario.delay, scenario.interval);
    for fate in scenario.fates.iter() {
        let refused = draft.add_fate(&mut fates, *fate).err();
        log.number(refused.map_or(0, |fault| u32::from(fault.number())))?;
    }
    let mut table = Vec::new(heap);
    table.resize(RECORDS, Channel::unused())?;
    let lent = scenario.records.min(table.len());
    match draft.begin(wire, resend, keepalive, &mut table[..lent]) {
        Ok(running) => Ok(Some(Rig {
            running,
            table,
            fates,
            records: scenario.records,
            listed: scenario.room,
        })),
        Err(refused) => {
            log.number(u32::from(refused.fault.number()))?;
            Ok(None)
        }
    }
}

// Does what is to be done to a running rig, and notes everything that can be seen.
fn go_on<W: Store<Packet>, R: Store<Attempt>, K: Store<u8>>(
    acts: &[Act],
    rig: Rig,
    wire: &mut W,
    resend: &mut R,
    keepalive: &mut K,
    log: &mut Log,
) -> Result<Rig, AllocError> {
    let Rig {
        mut running,
        mut table,
        fates,
        mut records,
        mut listed,
    } = rig;
    for act in acts.iter() {
        let lent = records.min(table.len());
        let lent_fates = listed.min(fates.len());
        match *act {
            Act::Operate(operation) => {
                let answer = operate(
                    &mut running,
                    wire,
                    resend,
                    keepalive,
                    &mut table[..lent],
                    &fates[..lent_fates],
                    operation,
                );
                note_line(log, wire.now(), answer)?;
            }
            Act::Steps(count) => steps(
                &mut running,
                wire,
                resend,
                keepalive,
                &mut table[..lent],
                &fates[..lent_fates],
                count,
                log,
            )?,
            Act::Spoil(channel, spoiled) => {
                if let Some(record) = table.get_mut(channel) {
                    *record = spoil(*record, spoiled);
                }
            }
            Act::Table(count) => records = count,
            Act::Fates(count) => listed = count,
        }
        let asked = act.asked(wire.now());
        log.store(wire, asked)?;
        log.store(resend, asked)?;
        log.store(keepalive, asked)?;
        let lent = records.min(table.len());
        let channel = act.channel();
        log.number(u32::from(running.status_number(&table[..lent], channel)))?;
        log.number(running.timeout(&table[..lent], channel))?;
        log.number(running.packets())?;
    }
    Ok(Rig {
        running,
        table,
        fates,
        records,
        listed,
    })
}

// Finishes a rig, and notes its end.
fn finish<W: Store<Packet>>(rig: Rig, wire: &W, log: &mut Log) -> Result<(), AllocError> {
    let Rig { running, .. } = rig;
    let finished = running.finish(wire);
    log.number(finished.tick())?;
    log.number(finished.packets())
}

/// Plays a scenario over three stores, and then over three others where it says so.
pub fn play<
    W: Store<Packet>,
    R: Store<Attempt>,
    K: Store<u8>,
    X: Store<Packet>,
    S: Store<Attempt>,
    L: Store<u8>,
>(
    heap: Global,
    scenario: &Scenario<'_>,
    wire: &mut W,
    resend: &mut R,
    keepalive: &mut K,
    later_wire: &mut X,
    later_resend: &mut S,
    later_keepalive: &mut L,
) -> Result<Log, AllocError> {
    let mut log = Log::new(heap);
    let Some(rig) = begin(heap, scenario, wire, resend, keepalive, &mut log)? else {
        return Ok(log);
    };
    let rig = go_on(scenario.acts, rig, wire, resend, keepalive, &mut log)?;
    if scenario.later.is_none() {
        finish(rig, wire, &mut log)?;
        return Ok(log);
    }
    let rig = go_on(
        scenario.later_acts,
        rig,
        later_wire,
        later_resend,
        later_keepalive,
        &mut log,
    )?;
    finish(rig, later_wire, &mut log)?;
    Ok(log)
}
