ghost use Rattle.std.specs.Prelude.{◌≡◌, ℕ, ◌+◌, ◌^◌, ◌<◌, ◌≤◌, min, replicate, ◌==◌, nat_le, nat_lt, slice_index};
ghost use Rattle.timer_rows.specs.Counts.{raised, lowered, ticked_ledger};

/// What a store keeps beside its rows, whatever order it keeps them in.
#[derive(Clone, Copy, Drop)]
pub struct Ledger {
    /// The current tick.
    pub now: u32,
    /// The last tick.
    pub last: u32,
    /// How many tickets have been given.
    pub given: u32,
    /// How many rows hold an entry.
    pub pending: u16,
    /// The row on top of the stack of vacant rows.
    pub vacant: u16,
    /// How many of them each owner has.
    pub counts: [u16; 64],
}

impl Ledger {
    /// The ledger of a store that has given no ticket; a first tick above the last counts as the last.
    pub fn new(first: u32, last: u32) -> Self
        ensures { result ≡ record { now = min first last; last = last; given = 0; pending = 0; vacant = 0; counts = replicate 64 0 } }
    {
        Ledger {
            now: first.min(last),
            last,
            given: 0,
            pending: 0,
            vacant: 0,
            counts: [0; 64],
        }
    }

    /// Whether the deadline is not after now.
    pub fn is_past(&self, deadline: u32) -> bool
        ensures { result ≡ nat_le deadline self.entry.now.now }
    {
        deadline <= self.now
    }

    /// Whether the deadline lies after the last tick.
    pub fn is_late(&self, deadline: u32) -> bool
        ensures { result ≡ nat_lt self.entry.now.last deadline }
    {
        self.last < deadline
    }

    /// Whether every ticket has been given.
    pub fn is_spent(&self) -> bool
        ensures { result ≡ (self.entry.now.given == 4294967295) }
    {
        self.given == u32::MAX
    }

    /// Whether now is the last tick.
    pub fn is_ended(&self) -> bool
        ensures { result ≡ (self.entry.now.now == self.entry.now.last) }
    {
        self.now == self.last
    }

    /// Adds one to now.
    pub fn tick(&mut self)
        requires { self.now.now + 1 < 2 ^ 32 }
        ensures { self.exit.now ≡ ticked_ledger self.entry.now }
    {
        self.now += 1;
    }

    /// Counts one more entry of the owner, and answers its ticket; the stack of vacant rows then begins with this row.
    pub fn raise(&mut self, owner: u8, vacant: u16) -> u32
        requires known { owner < 64 }
        requires fits { (self.now.given + 1 < 2 ^ 32) × (self.now.pending + 1 < 2 ^ 16) × (slice_index self.now.counts owner + 1 < 2 ^ 16) }
        ensures ticket { result ≡ self.entry.now.given + 1 }
        ensures after { self.exit.now ≡ raised self.entry.now owner vacant }
    {
        self.given += 1;
        self.pending += 1;
        self.counts[usize::from(owner)] += 1;
        self.vacant = vacant;
        self.given
    }

    /// Counts one entry less of the owner; the row that it has left is put on the stack of vacant rows.
    pub fn lower(&mut self, owner: u8, row: u16)
        requires known { owner < 64 }
        requires some { (0 < self.now.pending) × (0 < slice_index self.now.counts owner) }
        ensures { self.exit.now ≡ lowered self.entry.now owner row }
    {
        self.pending -= 1;
        self.counts[usize::from(owner)] -= 1;
        self.vacant = row;
    }
}
