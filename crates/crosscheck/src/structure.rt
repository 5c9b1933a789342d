// How the list, the heap and the wheel keep their entries, as far as it can be asked, beside what the rules say of it.
use crate::log::Log;
use crate::random::Random;
use reference::store::PlainStore;
use std::alloc::{AllocError, Global};
use tally::Tally;
use timer::call::{Answer, Call};
use timer::history::perform;
use timer_heap::heap;
use timer_heap::heap::TimerHeap;
use timer_list::list;
use timer_list::list::SortedList;
use timer_rows::row::Row;
use timer_wheel::wheel::{LAST_TICK, Wheel};
use timer_wheel::{layout, wheel};

// How many stores of each kind are made up.
const STORES: u64 = 120;

// How often something is done to each of them.
const ACTS: u32 = 80;

// A pending entry.
#[derive(Clone, Copy)]
struct Timer {
    ticket: u32,
    deadline: u32,
}

// A tick's digit in base 64.
fn digit(level: u32, tick: u32) -> u32 {
    tick.checked_shr(6 * level.min(3)).unwrap_or(0) % 64
}

// The level of the highest digit in which a deadline differs from now, and that digit of it; digit 0 where none does.
fn place(now: u32, deadline: u32) -> (u32, u32) {
    (0..4)
        .rev()
        .find(|level| digit(*level, now) != digit(*level, deadline))
        .map_or(
            (0, digit(0, deadline)),
            |level| (level, digit(level, deadline)),
        )
}

// The ticket of the first of the timers by deadline, then ticket.
fn first(timers: &[Timer]) -> u32 {
    timers
        .iter()
        .map(|timer| (timer.deadline, timer.ticket))
        .min()
        .map_or(0, |timer| timer.1)
}

// The ticket of the last of them.
fn last(timers: &[Timer]) -> u32 {
    timers
        .iter()
        .map(|timer| (timer.deadline, timer.ticket))
        .max()
        .map_or(0, |timer| timer.1)
}

// The lowest and the highest ticket of the timers that lie on a level in a slot.
fn ends(timers: &[Timer], now: u32, at: (u32, u32)) -> (u32, u32) {
    let mut ends = (u32::MAX, 0);
    for timer in timers {
        if place(now, timer.deadline) == at {
            ends = (ends.0.min(timer.ticket), ends.1.max(timer.ticket));
        }
    }
    ends
}

// Three stores and a plain one, to which the same calls are made, and what is pending in them.
#[derive(Drop)]
struct Stores<'a> {
    list: SortedList<'a, u32>,
    heap: TimerHeap<'a, u32>,
    wheel: Wheel<'a, u32>,
    plain: PlainStore<u32>,
    timers: Vec<Timer>,
}

impl<'a> Stores<'a> {
    // Makes a call of each store.
    fn perform(&mut self, call: Call<u32>) -> Result<(), AllocError> {
        let _ = perform(&mut self.list, call);
        let _ = perform(&mut self.heap, call);
        if let Call::Advance = call {
            let _ = layout::advance(&mut self.wheel);
        } else {
            let _ = perform(&mut self.wheel, call);
        }
        let answer = self.plain.perform(call)?;
        self.follow(call, answer)
    }

    // Keeps what is pending, as the plain store answered.
    fn follow(&mut self, call: Call<u32>, answer: Answer<u32>) -> Result<(), AllocError> {
        match (call, answer) {
            (Call::Start(deadline, _, _), Answer::Start(Ok(ticket))) => {
                self.timers.push(Timer { ticket, deadline })?;
            }
            (Call::Stop(ticket), Answer::Stop(Ok(_))) => self.remove(ticket),
            (Call::Take, Answer::Take(Some(entry))) => self.remove(entry.ticket),
            _ => {}
        }
        Ok(())
    }

    fn remove(&mut self, ticket: u32) {
        self.timers.retain(|timer| timer.ticket != ticket);
    }

    // So many turns, in each of which a due entry is taken or the tick goes on.
    fn turn(&mut self, count: u32) -> Result<(), AllocError> {
        for _ in 0..count {
            let call = if self.plain.due() {
                Call::Take
            } else {
                Call::Advance
            };
            self.perform(call)?;
        }
        Ok(())
    }

    // What the stores tell of their structure.
    fn ours(&self, log: &mut Log) -> Result<(), AllocError> {
        log.number(list::front(&self.list).unwrap_or(0))?;
        log.number(list::back(&self.list).unwrap_or(0))?;
        log.number(heap::top(&self.heap).unwrap_or(0))?;
        let now = self.plain.now();
        for timer in self.timers.iter() {
            let at = place(now, timer.deadline);
            log.number(layout::front(&self.wheel, at.0, at.1).unwrap_or(0))?;
            log.number(layout::back(&self.wheel, at.0, at.1).unwrap_or(0))?;
        }
        Ok(())
    }

    // What it has to be.
    fn theirs(&self, log: &mut Log) -> Result<(), AllocError> {
        log.number(first(&self.timers))?;
        log.number(last(&self.timers))?;
        log.number(first(&self.timers))?;
        let now = self.plain.now();
        for timer in self.timers.iter() {
            let ends = ends(&self.timers, now, place(now, timer.deadline));
            log.number(ends.0)?;
            log.number(ends.1)?;
        }
        Ok(())
    }
}

// A deadline that can lie on any level of the wheel.
fn deadline(random: &mut Random, now: u32) -> u32 {
    let ahead = match random.below(5) {
        0 => random.below(4),
        1 => random.below(70),
        2 => random.below(5_000),
        3 => random.below(300_000),
        _ => random.below(3_000_000),
    };
    now.saturating_add(ahead)
}

// One thing that is done, by chance.
fn act(random: &mut Random, stores: &mut Stores<'_>) -> Result<(), AllocError> {
    match random.below(10) {
        0..=5 => {
            let deadline = deadline(random, stores.plain.now());
            stores.perform(Call::Start(deadline, 0, deadline))
        }
        6 | 7 => {
            let given = stores.plain.given();
            stores.perform(Call::Stop(random.below(given.saturating_add(1))))
        }
        8 => stores.turn(random.below(80)),
        _ => stores.turn(random.below(3_000)),
    }
}

// The stores of a seed.
fn compare(heap: Global, seed: u64, tally: &mut Tally) -> Result<(), AllocError> {
    let mut random = Random::new(seed);
    let first = match random.below(4) {
        0 => 0,
        1 => random.between(4_000, 4_095),
        2 => random.between(261_000, 262_143),
        _ => random.below(LAST_TICK - 1_000_000),
    };
    let count = random.between(1, 64) as usize;
    let mut list_rows = vec![in heap; Row::vacant(0); count]?;
    let mut heap_rows = vec![in heap; Row::vacant(0); count]?;
    let mut wheel_rows = vec![in heap; Row::vacant(0); count]?;
    let mut stores = Stores {
        list: list::over(&mut list_rows, first, LAST_TICK),
        heap: heap::over(&mut heap_rows, first, LAST_TICK),
        wheel: wheel::over(&mut wheel_rows, first),
        plain: PlainStore::new(heap, count, first, LAST_TICK, 0),
        timers: Vec::new(heap),
    };
    let mut ours = Log::new(heap);
    let mut theirs = Log::new(heap);
    for _ in 0..ACTS {
        act(&mut random, &mut stores)?;
        stores.ours(&mut ours)?;
        stores.theirs(&mut theirs)?;
    }
    tally.compare(ours.numbers(), theirs.numbers());
    Ok(())
}

/// How the list, the heap and the wheel keep their entries, while calls are made that seeds decide.
pub fn compare_structures(heap: Global) -> Result<Tally, AllocError> {
    let mut tally = Tally::new();
    for seed in 0..STORES {
        compare(heap, seed, &mut tally)?;
    }
    Ok(tally)
}
