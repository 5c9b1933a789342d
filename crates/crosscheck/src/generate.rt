use crate::random::Random;
use crate::scenario::{Act, Layers, Scenario, Setup, Setups, Spoiled};
use protocol::operation::Operation;
use std::alloc::{AllocError, Global};

// Ticks just before a level of the wheel is emptied, and others.
const STARTS: [u32; 8] = [0, 40, 63, 4_000, 4_095, 262_100, 262_143, 16_700_000];

// The most rows of a store.
const ROWS: u32 = 64;

// A fate: lost, doubled, long or short.
fn fate(random: &mut Random) -> u16 {
    let delay = match random.below(8) {
        0 => 0,
        1 => random.between(500, 5_000),
        _ => random.between(1, 40),
    };
    let twice = if random.one_in(5) { 32_768 } else { 0 };
    delay as u16 + twice
}

// A channel, now and then one that does not exist.
fn channel(random: &mut Random, channels: u32) -> u32 {
    if random.one_in(60) {
        random.between(62, 65)
    } else {
        random.below(channels)
    }
}

fn operation(random: &mut Random, channels: u32) -> Operation {
    let channel = channel(random, channels);
    match random.below(20) {
        0 | 1 => Operation::Open(channel),
        2..=9 => Operation::Send(channel, random.next()),
        10..=14 => Operation::Take(channel),
        15 => Operation::Close(channel),
        _ => Operation::Step,
    }
}

fn spoiled(random: &mut Random) -> Spoiled {
    let base = if random.one_in(4) {
        u32::MAX - random.below(12)
    } else {
        random.below(20)
    };
    Spoiled {
        next: base
            .saturating_add(random.below(20))
            .saturating_sub(random.below(12)),
        base,
        taken: random.below(20),
        timeout: random.below(100_000),
    }
}

fn act(random: &mut Random, channels: u32) -> Act {
    match random.below(40) {
        0..=7 => Act::Steps(random.below(60)),
        8 | 9 => Act::Steps(random.below(1_500)),
        10 if random.one_in(4) => Act::Spoil(random.below(channels) as usize, spoiled(random)),
        11 if random.one_in(8) => Act::Table(random.between(62, 65) as usize),
        12 if random.one_in(4) => Act::Fates(random.below(40) as usize),
        _ => Act::Operate(operation(random, channels)),
    }
}

// A store with a number of rows from `least` on, that a quota holds to a number from `few` on.
fn setup(random: &mut Random, first: u32, least: u32, few: u16) -> Setup {
    Setup {
        numbers: [few.saturating_add(random.below(9) as u16); 64],
        ..Setup::new(random.between(least, ROWS) as usize, first)
    }
}

/// A scenario that was generated.
#[derive(Drop)]
pub struct Generated {
    delay: u32,
    interval: u32,
    fates: Vec<u16>,
    room: usize,
    layers: Layers,
    setups: Setups,
    records: usize,
    acts: Vec<Act>,
}

impl Generated {
    /// The scenario.
    pub fn scenario(&self) -> Scenario<'_> {
        Scenario {
            delay: self.delay,
            interval: self.interval,
            fates: &self.fates,
            room: self.room,
            layers: self.layers,
            setups: self.setups,
            later: None,
            records: self.records,
            acts: &self.acts,
            later_acts: &[],
        }
    }
}

/// A scenario of some hundred calls and runs of steps, which a seed decides.
pub fn generate(heap: Global, seed: u64) -> Result<Generated, AllocError> {
    let mut random = Random::new(seed);
    let channels = random.between(1, 5);
    let mut fates = Vec::new(heap);
    for _ in 0..random.below(60) {
        fates.push(fate(&mut random))?;
    }
    let mut acts = Vec::new(heap);
    for channel in 0..channels {
        acts.push(Act::Operate(Operation::Open(channel)))?;
    }
    for _ in 0..random.between(80, 160) {
        acts.push(act(&mut random, channels))?;
    }
    let first = STARTS[random.below(8) as usize % STARTS.len()];
    Ok(Generated {
        delay: random.between(1, 60),
        interval: random.between(1, 3_000),
        fates,
        room: random.below(60) as usize,
        layers: if random.one_in(2) {
            Layers::Quotas
        } else {
            Layers::Bare
        },
        setups: Setups {
            wire: setup(&mut random, first, 4, 1),
            resend: setup(&mut random, first, 4, 4),
            keepalive: setup(&mut random, first, 2, 0),
        },
        records: if random.one_in(30) {
            63
        } else {
            64 + random.below(2) as usize
        },
        acts,
    })
}
