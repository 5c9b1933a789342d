ghost use Rattle.std.specs.Prelude.{◌≡◌, ◌+◌, ◌<◌, ◌^◌, max};

use std::fmt;

/// How many rows the calls of one kind looked at.
#[derive(Clone, Copy)]
pub struct Tally {
    /// How many calls there were.
    pub calls: u64,
    /// How many rows they looked at in all.
    pub rows: u64,
    /// How many rows one of them looked at, at most.
    pub worst: u64,
}

impl Tally {
    /// No call yet.
    pub fn new() -> Tally
        ensures { result ≡ record { calls = 0; rows = 0; worst = 0 } }
    {
        Tally {
            calls: 0,
            rows: 0,
            worst: 0,
        }
    }

    /// Counts a call that looks at so many rows.
    pub fn add(&mut self, rows: usize)
        ensures calls { self.old.calls + 1 < 2 ^ 64 → self.new.calls ≡ self.old.calls + 1 }
        ensures rows { self.old.rows + rows < 2 ^ 64 → self.new.rows ≡ self.old.rows + rows }
        ensures worst { self.new.worst ≡ max self.old.worst rows }
    {
        let rows = rows as u64;
        self.calls = self.calls.saturating_add(1);
        self.rows = self.rows.saturating_add(rows);
        self.worst = self.worst.max(rows);
    }
}

impl fmt::Display for Tally {
    fn fmt<W: fmt::Write>(&self, f: &mut fmt::Formatter<W>) -> fmt::Result {
        write!(f, "{} {} {}", self.calls, self.rows, self.worst)
    }
}
