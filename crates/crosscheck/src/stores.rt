// The refusals of a store at their edges, and calls that seeds decide.
use crate::log::{Asked, Log};
use crate::random::Random;
use crate::scenario::LAST;
use crate::theirs::note_store;
use reference::store::PlainStore;
use std::alloc::{AllocError, Global};
use tally::Tally;
use timer::call::{Answer, Call};
use timer::history::{perform, play};
use timer::store::Store;
use timer_aged::aged::Aged;
use timer_heap::heap;
use timer_list::list;
use timer_quota::quota::Quota;
use timer_rows::row::Row;
use timer_wheel::wheel;

// How many stores are made up.
const STORES: u64 = 600;

// What is done to a store.
#[derive(Clone, Copy)]
enum Act {
    // A call.
    Call(Call<u32>),
    // So many turns, in each of which a due entry is taken or the tick goes on.
    Turns(u32),
}

// The kinds of stores.
#[derive(Clone, Copy)]
enum Kind {
    Wheel,
    List,
    Heap,
}

// A store, and what is done to it.
#[derive(Clone, Copy)]
struct Case<'a> {
    rows: usize,
    first: u32,
    // how many tickets were given before
    given: u32,
    // how many entries each owner may have
    number: u16,
    acts: &'a [Act],
}

// Notes an answer.
fn note_answer(log: &mut Log, answer: Answer<u32>) -> Result<(), AllocError> {
    match answer {
        Answer::Start(Ok(ticket)) => log.pair(1, ticket),
        Answer::Start(Err(fault)) => log.pair(2, u32::from(fault.number())),
        Answer::Stop(Ok((owner, payload))) => {
            log.pair(3, u32::from(owner))?;
            log.number(payload)
        }
        Answer::Stop(Err(fault)) => log.pair(4, u32::from(fault.number())),
        Answer::Take(Some(entry)) => {
            log.pair(5, entry.ticket)?;
            log.pair(u32::from(entry.owner), entry.payload)
        }
        Answer::Take(None) => log.number(6),
        Answer::Advance(Ok(())) => log.number(7),
        Answer::Advance(Err(fault)) => log.pair(8, u32::from(fault.number())),
    }
}

// What is asked after an act.
fn asked(act: Act, now: u32) -> Asked {
    match act {
        Act::Call(Call::Start(deadline, owner, _)) => Asked { owner, deadline },
        _ => Asked {
            owner: (now % 64) as u8,
            deadline: now.saturating_add(1),
        },
    }
}

// Makes a call and notes it among the calls that were made.
fn make<S: Store<u32>>(
    store: &mut S,
    call: Call<u32>,
    calls: &mut Vec<Call<u32>>,
) -> Result<Answer<u32>, AllocError> {
    calls.push(call)?;
    Ok(perform(store, call))
}

// What is seen of a store, and at the end of another store that was made alike, to which the same calls are made in one go.
fn ours<S: Store<u32>, T: Store<u32>>(
    heap: Global,
    store: &mut S,
    other: &mut T,
    acts: &[Act],
) -> Result<Log, AllocError> {
    let mut log = Log::new(heap);
    let mut calls = Vec::new(heap);
    for act in acts.iter() {
        match *act {
            Act::Call(call) => note_answer(&mut log, make(store, call, &mut calls)?)?,
            Act::Turns(count) => {
                for _ in 0..count {
                    let call = if store.due() {
                        Call::Take
                    } else {
                        Call::Advance
                    };
                    let answer = make(store, call, &mut calls)?;
                    if let Answer::Advance(Ok(())) = answer {
                        continue;
                    }
                    note_answer(&mut log, answer)?;
                    log.number(store.now())?;
                }
            }
        }
        log.store(store, asked(*act, store.now()))?;
    }
    play(other, &calls);
    log.store(other, asked(Act::Turns(0), other.now()))?;
    Ok(log)
}

// What is seen of a plain store.
fn theirs(heap: Global, case: Case<'_>) -> Result<Log, AllocError> {
    let mut store = PlainStore::new(heap, case.rows, case.first, LAST, case.given);
    store.lay_quota(&[case.number; 64]);
    let mut log = Log::new(heap);
    for act in case.acts.iter() {
        match *act {
            Act::Call(call) => note_answer(&mut log, store.perform(call)?)?,
            Act::Turns(count) => {
                for _ in 0..count {
                    let call = if store.due() {
                        Call::Take
                    } else {
                        Call::Advance
                    };
                    let answer = store.perform(call)?;
                    if let Answer::Advance(Ok(())) = answer {
                        continue;
                    }
                    note_answer(&mut log, answer)?;
                    log.number(store.now())?;
                }
            }
        }
        note_store(&mut log, &store, asked(*act, store.now()))?;
    }
    note_store(&mut log, &store, asked(Act::Turns(0), store.now()))?;
    Ok(log)
}

// What is seen of two stores that were made alike, under a quota or as they are.
fn seen<S: Store<u32>, T: Store<u32>>(
    heap: Global,
    store: &mut S,
    other: &mut T,
    case: Case<'_>,
    limited: bool,
) -> Result<Log, AllocError> {
    if limited {
        ours(
            heap,
            &mut Quota::new(store, [case.number; 64]),
            &mut Quota::new(other, [case.number; 64]),
            case.acts,
        )
    } else {
        ours(heap, store, other, case.acts)
    }
}

// The same, aged where tickets were given before.
fn aged<S: Store<u32>, T: Store<u32>>(
    heap: Global,
    store: &mut S,
    other: &mut T,
    case: Case<'_>,
    limited: bool,
) -> Result<Log, AllocError> {
    if case.given == 0 {
        seen(heap, store, other, case, limited)
    } else {
        seen(
            heap,
            &mut Aged::new(store, case.given),
            &mut Aged::new(other, case.given),
            case,
            limited,
        )
    }
}

// What is seen of stores of a kind.
fn over(memory: Global, kind: Kind, case: Case<'_>, limited: bool) -> Result<Log, AllocError> {
    let mut rows = vec![in memory; Row::vacant(0); case.rows]?;
    let mut other_rows = vec![in memory; Row::vacant(0); case.rows]?;
    match kind {
        Kind::Wheel => aged(
            memory,
            &mut wheel::over(&mut rows, case.first),
            &mut wheel::over(&mut other_rows, case.first),
            case,
            limited,
        ),
        Kind::List => aged(
            memory,
            &mut list::over(&mut rows, case.first, LAST),
            &mut list::over(&mut other_rows, case.first, LAST),
            case,
            limited,
        ),
        Kind::Heap => aged(
            memory,
            &mut heap::over(&mut rows, case.first, LAST),
            &mut heap::over(&mut other_rows, case.first, LAST),
            case,
            limited,
        ),
    }
}

// Compares stores of each kind with the plain one, under a quota, and as they are where the quota allows all.
fn compare(heap: Global, case: Case<'_>, tally: &mut Tally) -> Result<(), AllocError> {
    let plain = theirs(heap, case)?;
    for kind in [Kind::Wheel, Kind::List, Kind::Heap] {
        tally.compare(over(heap, kind, case, true)?.numbers(), plain.numbers());
        if usize::from(case.number) >= case.rows {
            tally.compare(over(heap, kind, case, false)?.numbers(), plain.numbers());
        }
    }
    Ok(())
}

fn start(deadline: u32, owner: u8) -> Act {
    Act::Call(Call::Start(deadline, owner, deadline))
}

// Deadlines, owners, stops and advances at their edges, in a store that begins at this tick.
fn acts_at(first: u32) -> [Act; 32] {
    [
        start(first, 0),
        start(first.saturating_sub(1), 0),
        start(first.saturating_add(1), 0),
        start(LAST, 63),
        start(LAST.saturating_add(1), 0),
        start(u32::MAX, 0),
        start(first.saturating_add(2), 64),
        start(first.saturating_add(2), 255),
        start(first, 64),
        start(u32::MAX, 64),
        start(first.saturating_add(2), 63),
        start(first.saturating_add(1), 5),
        Act::Call(Call::Stop(0)),
        Act::Call(Call::Stop(99)),
        Act::Call(Call::Stop(u32::MAX)),
        Act::Call(Call::Stop(2)),
        Act::Call(Call::Stop(2)),
        Act::Call(Call::Take),
        Act::Call(Call::Advance),
        Act::Call(Call::Advance),
        Act::Call(Call::Stop(1)),
        Act::Call(Call::Take),
        Act::Call(Call::Take),
        Act::Call(Call::Stop(3)),
        Act::Call(Call::Advance),
        Act::Call(Call::Advance),
        Act::Call(Call::Advance),
        Act::Call(Call::Take),
        start(first.saturating_add(5), 1),
        Act::Turns(20),
        Act::Call(Call::Advance),
        Act::Call(Call::Stop(5)),
    ]
}

fn edges(heap: Global, tally: &mut Tally) -> Result<(), AllocError> {
    for first in [
        0,
        63,
        4_095,
        262_143,
        LAST - 3,
        LAST - 2,
        LAST - 1,
        LAST,
        u32::MAX,
    ] {
        for rows in [0, 1, 2, 3, 4, 64] {
            for number in [0, 1, 2, u16::MAX] {
                let case = Case {
                    rows,
                    first,
                    given: 0,
                    number,
                    acts: &acts_at(first),
                };
                compare(heap, case, tally)?;
            }
        }
    }
    Ok(())
}

// The last tickets, and starts and stops when none is left, in a store that begins at this tick.
fn acts_of_last_tickets(first: u32) -> [Act; 31] {
    [
        Act::Call(Call::Stop(0)),
        Act::Call(Call::Stop(1)),
        Act::Call(Call::Stop(u32::MAX)),
        start(first, 0),
        start(first.saturating_add(1), 0),
        start(first.saturating_add(2), 1),
        start(first.saturating_add(2), 2),
        start(first.saturating_add(2), 1),
        start(first.saturating_add(3), 3),
        start(first, 0),
        start(LAST.saturating_add(1), 0),
        start(first.saturating_add(1), 64),
        start(first.saturating_add(1), 0),
        Act::Call(Call::Stop(1)),
        Act::Call(Call::Stop(u32::MAX - 2)),
        Act::Call(Call::Stop(u32::MAX - 2)),
        start(first.saturating_add(3), 0),
        Act::Call(Call::Take),
        Act::Call(Call::Advance),
        Act::Call(Call::Advance),
        Act::Call(Call::Take),
        Act::Call(Call::Take),
        Act::Call(Call::Advance),
        Act::Call(Call::Stop(u32::MAX)),
        Act::Call(Call::Stop(u32::MAX)),
        start(first.saturating_add(9), 5),
        Act::Turns(8),
        Act::Call(Call::Stop(u32::MAX - 1)),
        start(first.saturating_add(20), 5),
        start(LAST.saturating_add(1), 64),
        Act::Call(Call::Stop(0)),
    ]
}

fn last_tickets(heap: Global, tally: &mut Tally) -> Result<(), AllocError> {
    for left in [0, 1, 2, 3, 4, 5, 6, 100, u32::MAX - 1] {
        for first in [0, 62, LAST - 3, LAST] {
            for rows in [0, 1, 2, 3, 64] {
                for number in [0, 1, u16::MAX] {
                    let case = Case {
                        rows,
                        first,
                        given: u32::MAX - left,
                        number,
                        acts: &acts_of_last_tickets(first),
                    };
                    compare(heap, case, tally)?;
                }
            }
        }
    }
    Ok(())
}

/// The refusals of a store at their edges.
pub fn compare_edges(heap: Global) -> Result<Tally, AllocError> {
    let mut tally = Tally::new();
    edges(heap, &mut tally)?;
    last_tickets(heap, &mut tally)?;
    Ok(tally)
}

// A deadline that can lie on any level of the wheel.
fn deadline(random: &mut Random, first: u32) -> u32 {
    let ahead = match random.below(6) {
        0 => random.below(3),
        1 => random.below(70),
        2 => random.below(5_000),
        3 => random.below(30_000),
        4 => random.below(300_000),
        _ => random.below(64),
    };
    first.saturating_add(ahead)
}

fn made_up(random: &mut Random, first: u32, given: u32) -> Act {
    match random.below(12) {
        0..=5 => start(deadline(random, first), random.below(66) as u8 % 66),
        6 | 7 => Act::Call(Call::Stop(given.saturating_add(random.below(60)))),
        8 => Act::Call(Call::Take),
        9 => Act::Call(Call::Advance),
        10 => Act::Turns(random.below(80)),
        _ => Act::Turns(random.below(2_000)),
    }
}

/// Stores to which calls are made that seeds decide, with deadlines on every level of the wheel.
pub fn compare_random(heap: Global) -> Result<Tally, AllocError> {
    let mut tally = Tally::new();
    for seed in 0..STORES {
        let mut random = Random::new(seed);
        let first = match random.below(5) {
            0 => 0,
            1 => random.between(4_000, 4_095),
            2 => random.between(261_000, 262_143),
            3 => random.between(16_515_000, 16_520_000),
            _ => random.below(LAST),
        };
        // every third store is left with few tickets
        let given = if seed % 3 == 0 {
            u32::MAX - random.below(40)
        } else {
            0
        };
        let mut acts = Vec::new(heap);
        for _ in 0..random.between(40, 120) {
            acts.push(made_up(&mut random, first, given))?;
        }
        let case = Case {
            rows: random.between(1, 80) as usize,
            first,
            given,
            number: if random.one_in(2) { u16::MAX } else { 2 },
            acts: &acts,
        };
        compare(heap, case, &mut tally)?;
    }
    Ok(tally)
}
