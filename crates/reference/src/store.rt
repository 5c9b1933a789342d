use std::alloc::{AllocError, Global};
use timer::call::{Answer, Call};
use timer::expired::Expired;
use timer::fault::TimerFault;

// The owners that a store knows: 0 to 63.
const OWNERS: usize = 64;

// A pending entry.
#[derive(Clone, Copy)]
struct Entry<P: Copy> {
    // The ticket that it was given.
    ticket: u32,
    // The tick in which it is due.
    deadline: u32,
    // Whose entry it is.
    owner: u8,
    // What the owner keeps in it.
    payload: P,
}

/// A timer store whose pending entries lie in one list, which each call searches from end to end.
#[derive(Drop)]
pub struct PlainStore<P: Copy> {
    // The current tick.
    now: u32,
    // The highest tick that now can reach.
    last: u32,
    // How many entries can be pending at once.
    capacity: usize,
    // For each owner how many of its entries can be pending at once.
    limits: [usize; OWNERS],
    // How many tickets were given.
    given: u32,
    // What is pending.
    entries: Vec<Entry<P>>,
}

impl<P: Copy> PlainStore<P> {
    /// An empty store that has given so many tickets; a first tick above the last counts as the last.
    pub fn new(heap: Global, capacity: usize, first: u32, last: u32, given: u32) -> PlainStore<P> {
        PlainStore {
            now: first.min(last),
            last,
            capacity,
            limits: [capacity; OWNERS],
            given,
            entries: Vec::new(heap),
        }
    }

    /// Lays a quota over the store: an owner's limit becomes its number, if that is smaller.
    pub fn lay_quota(&mut self, numbers: &[u16; OWNERS]) {
        for (limit, number) in self.limits.iter_mut().zip(numbers.iter()) {
            *limit = usize::from(*number).min(*limit);
        }
    }

    /// The current tick.
    pub fn now(&self) -> u32 {
        self.now
    }

    /// The highest tick that now can reach.
    pub fn last(&self) -> u32 {
        self.last
    }

    /// How many entries can be pending at once.
    pub fn capacity(&self) -> usize {
        self.capacity
    }

    /// How many tickets were given.
    pub fn given(&self) -> u32 {
        self.given
    }

    /// How many entries are pending.
    pub fn pending(&self) -> usize {
        self.entries.len()
    }

    /// Whether an entry is due.
    pub fn due(&self) -> bool {
        self.entries.iter().any(|entry| entry.deadline == self.now)
    }

    /// How many entries of an owner can be pending at once, and 0 for an owner above 63.
    pub fn limit(&self, owner: u8) -> usize {
        self.limits.get(usize::from(owner)).copied().unwrap_or(0)
    }

    /// How many entries of an owner are pending.
    pub fn count(&self, owner: u8) -> usize {
        self.entries
            .iter()
            .filter(|entry| entry.owner == owner)
            .count()
    }

    /// What a start would refuse.
    pub fn check(&self, deadline: u32, owner: u8) -> Option<TimerFault> {
        if deadline <= self.now {
            Some(TimerFault::Past)
        } else if deadline > self.last {
            Some(TimerFault::Late)
        } else if owner > 63 {
            Some(TimerFault::Owner)
        } else if self.given == u32::MAX {
            Some(TimerFault::Spent)
        } else if self.pending() >= self.capacity {
            Some(TimerFault::Full)
        } else if self.count(owner) >= self.limit(owner) {
            Some(TimerFault::Limit)
        } else {
            None
        }
    }

    /// Adds an entry and answers its ticket; where memory runs out, nothing has changed.
    pub fn start(
        &mut self,
        deadline: u32,
        owner: u8,
        payload: P,
    ) -> Result<Result<u32, TimerFault>, AllocError> {
        if let Some(fault) = self.check(deadline, owner) {
            return Ok(Err(fault));
        }
        let ticket = self.given.saturating_add(1);
        let entry = Entry {
            ticket,
            deadline,
            owner,
            payload,
        };
        self.entries.push(entry)?;
        self.given = ticket;
        Ok(Ok(ticket))
    }

    /// Removes the entry with a ticket and answers its owner and payload.
    pub fn stop(&mut self, ticket: u32) -> Result<(u8, P), TimerFault> {
        let place = self
            .entries
            .iter()
            .position(|entry| entry.ticket == ticket)
            .ok_or(TimerFault::Missing)?;
        let entry = self.entries.remove(place);
        Ok((entry.owner, entry.payload))
    }

    /// Removes and answers the due entry with the lowest ticket, if one is due.
    pub fn take(&mut self) -> Option<Expired<P>> {
        let ticket = self
            .entries
            .iter()
            .filter(|entry| entry.deadline == self.now)
            .map(|entry| entry.ticket)
            .min()?;
        let (owner, payload) = self.stop(ticket).ok()?;
        Some(Expired {
            ticket,
            owner,
            payload,
        })
    }

    /// Goes on by one tick.
    pub fn advance(&mut self) -> Result<(), TimerFault> {
        if self.due() {
            return Err(TimerFault::Due);
        }
        if self.now == self.last {
            return Err(TimerFault::Ended);
        }
        self.now = self.now.saturating_add(1);
        Ok(())
    }

    /// Performs a call that is given as data.
    pub fn perform(&mut self, call: Call<P>) -> Result<Answer<P>, AllocError> {
        let answer = match call {
            Call::Start(deadline, owner, payload) => {
                Answer::Start(self.start(deadline, owner, payload)?)
            }
            Call::Stop(ticket) => Answer::Stop(self.stop(ticket)),
            Call::Take => Answer::Take(self.take()),
            Call::Advance => Answer::Advance(self.advance()),
        };
        Ok(answer)
    }

    /// Makes room for so many more entries, so that the next starts find memory.
    pub fn make_room(&mut self, count: usize) -> Result<(), AllocError> {
        self.entries.reserve(count)
    }
}
