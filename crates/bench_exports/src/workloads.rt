use crate::random::Random;
use crate::sums::{Sum, mix};
use std::alloc::{AllocError, Global};
use timer::store::Store;

const OWNERS: u32 = 64;

// How many rows a store has where a workload does not say it.
const ROWS: usize = 4_096;

// The most entries that can be due at once.
const MOST_DUE: u32 = 4_096;

// How many timers are restarted, and how far ahead they start at most.
const RESTARTED: usize = 1_024;

const RESTART_SPAN: u32 = 60_000;

// How far ahead a timer that is to fire starts at most, and after how many ticks all have fired.
const FIRE_SPAN: u32 = 100_000;

const FIRE_TICKS: u32 = FIRE_SPAN + 1;

// How many timers wait while ticks pass.
const IDLE_TIMERS: u32 = 64;

/// What the timers of a workload carry: a number.
pub trait Payload: Copy + From<u32> + Into<u32> {}

impl<P: Copy + From<u32> + Into<u32>> Payload for P {}

/// What is done to a store that has nothing pending.
#[derive(Clone, Copy)]
pub enum Workload {
    /// Timers are stopped and started anew at random, with a tick after every eighth; those that fire start anew.
    Restart {
        /// How many are stopped and started anew.
        operations: u64,
    },
    /// Timers are started, and ticks pass until all have fired.
    Fire {
        /// How many timers.
        timers: u32,
        /// How often.
        rounds: u64,
    },
    /// Ticks pass while far timers wait.
    Idle {
        /// How many ticks.
        ticks: u64,
    },
    /// Timers are stopped and started anew at random, and no tick passes.
    StartStop {
        /// How many are pending.
        pending: u32,
        /// How many are stopped and started anew.
        operations: u64,
    },
    /// Some timers are stopped one after the other, and as many are started, again and again; no tick passes.
    Bursts {
        /// How many rows the store has.
        rows: u32,
        /// How many are pending before and after a burst.
        pending: u32,
        /// How many of them are stopped, and then started, in a burst.
        burst: u32,
        /// How many bursts.
        bursts: u64,
    },
}

// A timer that is stopped and started anew.
#[derive(Clone, Copy)]
struct Timer {
    ticket: u32,
    payload: u32,
}

impl Workload {
    /// How many rows a store needs for it.
    pub fn rows(self) -> usize {
        match self {
            Workload::Bursts { rows, .. } => rows as usize,
            _ => ROWS,
        }
    }

    /// Does the work, and answers its sum.
    pub fn run<P: Payload, S: Store<P>>(
        self,
        heap: Global,
        store: &mut S,
    ) -> Result<u64, AllocError> {
        let sum = match self {
            Workload::Restart { operations } => restart(store, operations),
            Workload::Fire { timers, rounds } => fire(store, timers, rounds),
            Workload::Idle { ticks } => idle(store, ticks),
            Workload::StartStop {
                pending,
                operations,
            } => {
                let mut tickets = vec![in heap; 0; pending as usize]?;
                start_stop(store, &mut tickets, pending, operations)
            }
            Workload::Bursts {
                pending,
                burst,
                bursts,
                ..
            } => {
                let unstarted = Timer {
                    ticket: 0,
                    payload: 0,
                };
                let mut timers = vec![in heap; unstarted; pending as usize]?;
                in_bursts(store, &mut timers, pending, burst, bursts)
            }
        };
        Ok(sum.total)
    }
}

// Starts a timer so many ticks ahead, and answers its ticket, or 0.
fn start<P: Payload, S: Store<P>>(store: &mut S, ahead: u32, payload: u32) -> u32 {
    let deadline = store.now().wrapping_add(ahead);
    let owner = (payload % OWNERS) as u8;
    store.start(deadline, owner, P::from(payload)).unwrap_or(0)
}

// Takes what is due, and starts it anew.
fn renew<P: Payload, S: Store<P>>(store: &mut S, tickets: &mut [u32; RESTARTED], sum: &mut Sum) {
    for _ in 0..MOST_DUE {
        let Some(entry) = store.take() else {
            break;
        };
        let payload = entry.payload.into();
        let mixed = mix(store.now(), payload);
        sum.add(mixed);
        if let Some(ticket) = tickets.get_mut(payload as usize) {
            let ahead = 1 + ((mixed >> 40) % u64::from(RESTART_SPAN)) as u32;
            *ticket = start(store, ahead, payload);
        }
    }
}

fn restart<P: Payload, S: Store<P>>(store: &mut S, operations: u64) -> Sum {
    let mut random = Random::new();
    let mut tickets = [0; RESTARTED];
    for (payload, ticket) in tickets.iter_mut().enumerate() {
        let ahead = random.below(RESTART_SPAN).wrapping_add(1);
        *ticket = start(store, ahead, payload as u32);
    }
    let mut sum = Sum::new();
    for operation in 0..operations {
        let payload = random.below(RESTARTED as u32);
        if let Some(ticket) = tickets.get_mut(payload as usize) {
            let _ = store.stop(*ticket);
            let ahead = random.below(RESTART_SPAN).wrapping_add(1);
            *ticket = start(store, ahead, payload);
        }
        if operation % 8 == 7 {
            let _ = store.advance();
            renew(store, &mut tickets, &mut sum);
        }
    }
    sum
}

// Takes what is due: nothing, in most ticks.
fn take_due<P: Payload, S: Store<P>>(store: &mut S, sum: &mut Sum) {
    if let Some(entry) = store.take() {
        take_more(store, sum, entry.payload.into());
    }
}

// Sums up one that was due, and takes the others.
#[inline(never)]
fn take_more<P: Payload, S: Store<P>>(store: &mut S, sum: &mut Sum, first: u32) {
    sum.add(mix(store.now(), first));
    while let Some(entry) = store.take() {
        sum.add(mix(store.now(), entry.payload.into()));
    }
}

// Lets ticks pass until all timers have fired; a function of its own, so that the loop is laid out for itself.
#[inline(never)]
fn fire_all<P: Payload, S: Store<P>>(store: &mut S, sum: &mut Sum) {
    for _ in 0..FIRE_TICKS {
        if store.pending() == 0 {
            break;
        }
        let _ = store.advance();
        take_due(store, sum);
    }
}

// Lets so many ticks pass; a function of its own, too.
#[inline(never)]
fn pass<P: Payload, S: Store<P>>(store: &mut S, ticks: u64, sum: &mut Sum) {
    for _ in 0..ticks {
        let _ = store.advance();
        take_due(store, sum);
    }
}

fn fire<P: Payload, S: Store<P>>(store: &mut S, timers: u32, rounds: u64) -> Sum {
    let mut random = Random::new();
    let mut sum = Sum::new();
    for _ in 0..rounds {
        for payload in 0..timers {
            let ahead = random.below(FIRE_SPAN).wrapping_add(1);
            start(store, ahead, payload);
        }
        fire_all(store, &mut sum);
    }
    sum
}

fn idle<P: Payload, S: Store<P>>(store: &mut S, ticks: u64) -> Sum {
    let mut random = Random::new();
    let mut sum = Sum::new();
    for payload in 0..IDLE_TIMERS {
        let ahead = random.below(6_000_000).wrapping_add(10_000_001);
        start(store, ahead, payload);
    }
    pass(store, ticks, &mut sum);
    sum.add(mix(store.now(), 0));
    sum
}

// Starts a timer far ahead, and answers its ticket, or 0.
fn start_far<P: Payload, S: Store<P>>(store: &mut S, random: &mut Random, payload: u32) -> u32 {
    let ahead = random.below(1_000_000).wrapping_add(1_000_000);
    start(store, ahead, payload)
}

fn start_stop<P: Payload, S: Store<P>>(
    store: &mut S,
    tickets: &mut [u32],
    pending: u32,
    operations: u64,
) -> Sum {
    let mut random = Random::new();
    let mut sum = Sum::new();
    for (ticket, payload) in tickets.iter_mut().zip(0..pending) {
        *ticket = start_far(store, &mut random, payload);
    }
    for _ in 0..operations {
        let payload = random.below(pending);
        if let Some(ticket) = tickets.get_mut(payload as usize) {
            let _ = store.stop(*ticket);
            *ticket = start_far(store, &mut random, payload);
            sum.add(mix(*ticket, payload));
        }
    }
    sum
}

// Lets two timers of a list change places, if it has both.
fn swap(timers: &mut [Timer], a: usize, b: usize) {
    if a < timers.len() && b < timers.len() {
        timers.swap(a, b);
    }
}

// Those that a burst stops come to the front of the list, and start anew there.
fn in_bursts<P: Payload, S: Store<P>>(
    store: &mut S,
    timers: &mut [Timer],
    pending: u32,
    burst: u32,
    bursts: u64,
) -> Sum {
    let mut random = Random::new();
    let mut sum = Sum::new();
    for (timer, payload) in timers.iter_mut().zip(0..pending) {
        let ticket = start_far(store, &mut random, payload);
        *timer = Timer { ticket, payload };
    }
    for _ in 0..bursts {
        for i in 0..burst {
            let others = random.below(pending.wrapping_sub(i));
            let chosen = i.wrapping_add(others);
            swap(timers, i as usize, chosen as usize);
            if let Some(timer) = timers.get(i as usize) {
                let _ = store.stop(timer.ticket);
            }
        }
        for timer in timers.iter_mut().take(burst as usize) {
            timer.ticket = start_far(store, &mut random, timer.payload);
            sum.add(mix(timer.ticket, timer.payload));
        }
    }
    sum
}
