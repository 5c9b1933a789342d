ghost use Rattle.std.specs.Prelude.{◌≡◌, ◌==◌, nat_lt};

/// What stands for a row where there is none.
pub const NO_ROW: u16 = 65_535;

/// A place for one entry in the memory that is lent to a store; ticket 0 marks a vacant row.
#[derive(Clone, Copy)]
pub struct Row<P> {
    /// The entry's ticket, or 0.
    pub ticket: u32,
    /// The tick in which the entry is due.
    pub deadline: u32,
    /// The next node of the entry's slot; in a heap, the row of the entry at the position that has this row's number.
    pub next: u16,
    /// The previous node of the entry's slot; in a heap, the position of the entry in this row.
    pub prev: u16,
    /// The first row of the bucket that has this row's number, or `NO_ROW`.
    pub bucket: u16,
    /// The next row of the entry's bucket, or `NO_ROW`; in a vacant row, the next one on the stack of vacant rows.
    pub chain: u16,
    /// The entry's owner.
    pub owner: u8,
    /// What the caller of `start` handed over.
    pub payload: P,
}

impl<P: Copy> Row<P> {
    /// A vacant row; the payload only fills its place.
    pub fn vacant(payload: P) -> Row<P>
        ensures { result ≡ record { ticket = 0; deadline = 0; next = 0; prev = 0; bucket = 65535; chain = 65535; owner = 0; payload = payload } }
    {
        Row {
            ticket: 0,
            deadline: 0,
            next: 0,
            prev: 0,
            bucket: NO_ROW,
            chain: NO_ROW,
            owner: 0,
            payload,
        }
    }

    /// Whether the row's deadline comes after another one.
    pub fn is_after(&self, deadline: u32) -> bool
        ensures { result ≡ nat_lt deadline self.now.deadline }
    {
        deadline < self.deadline
    }

    /// Whether the row's deadline is the tick.
    pub fn is_due(&self, tick: u32) -> bool
        ensures { result ≡ (self.now.deadline == tick) }
    {
        self.deadline == tick
    }
}
