use crate::log::Asked;
use protocol::operation::Operation;

/// The numbers that a record is found with.
#[derive(Clone, Copy)]
pub struct Spoiled {
    /// The number of the next new word.
    pub next: u32,
    /// The lowest number that may still wait.
    pub base: u32,
    /// The number of the next word to take.
    pub taken: u32,
    /// The retransmission timeout.
    pub timeout: u32,
}

/// What is done to a rig.
#[derive(Clone, Copy)]
pub enum Act {
    /// A call.
    Operate(Operation),
    /// So many steps, up to one that is refused.
    Steps(u32),
    /// The record of a channel is found with other numbers.
    Spoil(usize, Spoiled),
    /// From here on the table is lent with so many records.
    Table(usize),
    /// From here on the list of fates is lent with so many entries.
    Fates(usize),
}

/// The most records of the table.
pub const RECORDS: usize = 65;

/// The last tick that a wheel can reach.
pub const LAST: u32 = 16_777_215;

/// What was done to a store before it is lent.
#[derive(Clone, Copy, PartialEq, Eq)]
pub enum Before {
    /// Nothing.
    Nothing,
    /// An entry was started.
    Started,
    /// An entry was started and stopped.
    Stopped,
}

/// A store as it is lent.
#[derive(Clone, Copy)]
pub struct Setup {
    /// How many rows it has.
    pub rows: usize,
    /// The tick in which it begins.
    pub first: u32,
    /// Its last tick, over the list and the heap.
    pub last: u32,
    /// How many entries each owner may have, where quotas are laid.
    pub numbers: [u16; 64],
    /// How many tickets were given before, where the stores are aged.
    pub given: u32,
    /// What was done to it before.
    pub before: Before,
}

impl Setup {
    /// A new store with so many rows.
    pub fn new(rows: usize, first: u32) -> Setup {
        Setup {
            rows,
            first,
            last: LAST,
            numbers: [u16::MAX; 64],
            given: 0,
            before: Before::Nothing,
        }
    }
}

/// The three stores of a rig as they are lent.
#[derive(Clone, Copy)]
pub struct Setups {
    /// The wire.
    pub wire: Setup,
    /// The resend store.
    pub resend: Setup,
    /// The keepalive store.
    pub keepalive: Setup,
}

impl Setups {
    /// Three new stores with so many rows each.
    pub fn new(rows: usize, first: u32) -> Setups {
        Setups {
            wire: Setup::new(rows, first),
            resend: Setup::new(rows, first),
            keepalive: Setup::new(rows, first),
        }
    }
}

/// What lies over the stores.
#[derive(Clone, Copy)]
pub enum Layers {
    /// Nothing.
    Bare,
    /// A quota over the wire.
    Wire,
    /// A quota over each.
    Quotas,
    /// A layer over each that ages it.
    Aged,
}

impl Layers {
    /// Whether a quota lies over the wire.
    pub fn limit_wire(self) -> bool {
        matches!(self, Layers::Wire | Layers::Quotas)
    }

    /// Whether a quota lies over the other two stores.
    pub fn limit_others(self) -> bool {
        matches!(self, Layers::Quotas)
    }
}

/// A rig, and what is done to it.
#[derive(Clone, Copy)]
pub struct Scenario<'a> {
    /// The default delay.
    pub delay: u32,
    /// The interval between keepalives.
    pub interval: u32,
    /// The fates that are added.
    pub fates: &'a [u16],
    /// How many fates the list can hold.
    pub room: usize,
    /// What lies over the stores.
    pub layers: Layers,
    /// The stores that are lent to begin.
    pub setups: Setups,
    /// Other stores that are lent in place of those after the first acts, if there are any.
    pub later: Option<Setups>,
    /// How many records the table has.
    pub records: usize,
    /// What is done.
    pub acts: &'a [Act],
    /// What is done over the later stores.
    pub later_acts: &'a [Act],
}

impl<'a> Scenario<'a> {
    /// A rig over new stores of 64 rows, with a delay of 10, an interval of 5,000 and no fates.
    pub fn plain(acts: &'a [Act]) -> Scenario<'a> {
        Scenario {
            delay: 10,
            interval: 5_000,
            fates: &[],
            room: 0,
            layers: Layers::Bare,
            setups: Setups::new(64, 0),
            later: None,
            records: 64,
            acts,
            later_acts: &[],
        }
    }
}

impl Act {
    /// The channel that the act is about, or 0.
    pub fn channel(self) -> u32 {
        match self {
            Act::Operate(operation) => match operation {
                Operation::Open(channel)
                | Operation::Send(channel, _)
                | Operation::Take(channel)
                | Operation::Close(channel) => channel,
                Operation::Step => 0,
            },
            Act::Spoil(channel, _) => channel.min(64) as u32,
            _ => 0,
        }
    }

    /// What is asked of the stores after the act, in a tick.
    pub fn asked(self, tick: u32) -> Asked {
        Asked {
            owner: self.channel().min(64) as u8,
            deadline: tick.saturating_add(self.channel() % 3),
        }
    }
}
