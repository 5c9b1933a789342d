use crate::looks::{by_start, by_stop};
use crate::tally::Tally;
use std::alloc::{AllocError, Global};
use timer::store::Store;
use timer_rows::row::Row;
use timer_wheel::wheel::{LAST_TICK, Wheel, over};

// What picks among the tickets: 2^32 divided by the golden ratio, a prime.
const PICK: u32 = 2_654_435_761;

/// How many rows the starts and the stops of a case looked at.
#[derive(Clone, Copy)]
pub struct Seen {
    /// The starts.
    pub starts: Tally,
    /// The stops.
    pub stops: Tally,
}

// Starts a timer, and counts the rows that this looks at.
fn start(
    store: &mut Wheel<'_, u8>,
    tickets: &mut Vec<u32>,
    tally: &mut Tally,
) -> Result<(), AllocError> {
    tally.add(by_start(store.rows(), store.ledger().vacant));
    if let Ok(ticket) = store.start(LAST_TICK, 0, 0) {
        tickets.push(ticket)?;
    }
    Ok(())
}

// Stops the timer that the number picks, and counts the rows that this looks at.
fn stop(store: &mut Wheel<'_, u8>, tickets: &mut Vec<u32>, number: u32, tally: &mut Tally) {
    let picked = u64::from(number.wrapping_mul(PICK)).wrapping_mul(tickets.len() as u64) >> 32;
    let at = picked as usize;
    if at < tickets.len() {
        let ticket = tickets.swap_remove(at);
        tally.add(by_stop(store.rows(), ticket));
        let _ = store.stop(ticket);
    }
}

// Starts so many timers.
fn fill(
    store: &mut Wheel<'_, u8>,
    tickets: &mut Vec<u32>,
    count: usize,
    tally: &mut Tally,
) -> Result<(), AllocError> {
    for _ in 0..count {
        start(store, tickets, tally)?;
    }
    Ok(())
}

/// A store of so many rows is filled.
pub fn filling_case(heap: Global, count: usize) -> Result<Seen, AllocError> {
    let mut rows = vec![in heap; Row::vacant(0); count]?;
    let mut store = over(&mut rows, 0);
    let mut tickets = Vec::new(heap);
    let mut starts = Tally::new();
    fill(&mut store, &mut tickets, count, &mut starts)?;
    Ok(Seen {
        starts,
        stops: Tally::new(),
    })
}

/// In a store of so many rows, of which a part in per cent is taken, some timers are stopped and as many started, so many rounds.
pub fn burst_case(
    heap: Global,
    count: usize,
    load: usize,
    burst: u32,
    rounds: u32,
) -> Result<Seen, AllocError> {
    let mut rows = vec![in heap; Row::vacant(0); count]?;
    let mut store = over(&mut rows, 0);
    let mut tickets = Vec::new(heap);
    fill(
        &mut store,
        &mut tickets,
        count.saturating_mul(load) / 100,
        &mut Tally::new(),
    )?;
    let mut starts = Tally::new();
    let mut stops = Tally::new();
    for round in 0..rounds {
        for turn in 0..burst {
            let number = round.wrapping_mul(burst).wrapping_add(turn);
            stop(&mut store, &mut tickets, number, &mut stops);
        }
        for _ in 0..burst {
            start(&mut store, &mut tickets, &mut starts)?;
        }
    }
    Ok(Seen { starts, stops })
}
