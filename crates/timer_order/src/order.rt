ghost use Rattle.std.specs.Prelude.{◌≡◌, ℕ, ◌+◌, ◌<◌, ◌≤◌, ◌≢◌, List, length, None, MatchOption, slice_index};
ghost use Rattle.timer.specs.Meaning.{Meaning};
ghost use Rattle.timer.specs.Rules.{check_rule, entered, with_pending, without};
ghost use Rattle.timer_rows.specs.Counts.{ticked_ledger};
ghost use Rattle.timer_rows.specs.Kept.{Kept};
ghost use Rattle.timer_rows.specs.Rows.{tickets, entries, contents, meant, NoneDue, Foremost};
ghost use Rattle.timer_rows.specs.declared.ledger.Ledger as ledgers;
ghost use Rattle.timer_rows.specs.declared.row.Row as rows_type;

use timer_rows::ledger::Ledger;
use timer_rows::row::Row;

/// How a store keeps the entries of its rows in order, so that it finds the due entry with the lowest ticket.
pub trait Order<P: Copy> {
    // what the order keeps true of the rows and the ledger, beside what every store keeps true of them
    ghost Holds: { Self → List (rows_type.Row P) → ledgers.Ledger → Type 0 };

    // what the order notes of its latest insertion; an order that notes nothing keeps the default
    ghost noted: { Self → ℕ } = { λ _. 0 };

    // what it has to note of an insertion, from what the store meant before and the deadline
    ghost note_of: { Meaning P → ℕ → ℕ } = { λ _ _. 0 };

    /// Adds an entry that a check does not refuse, and answers its ticket.
    fn insert(
        &mut self,
        rows: &mut [Row<P>],
        ledger: &mut Ledger,
        deadline: u32,
        owner: u8,
        payload: P,
    ) -> u32
        requires kept { Kept rows.old ledger.old }
        requires held { Holds self.old rows.old ledger.old }
        requires allowed { check_rule (meant rows.old ledger.old) deadline owner ≡ None }
        ensures ticket { result ≡ ledger.old.given + 1 }
        ensures kept { Kept rows.new ledger.new }
        ensures held { Holds self.new rows.new ledger.new }
        ensures meant { meant rows.new ledger.new ≡ entered (meant rows.old ledger.old) deadline owner payload }
        ensures noted { noted self.new ≡ note_of (meant rows.old ledger.old) deadline };

    /// Gives up the entry of a row.
    fn remove(&mut self, rows: &mut [Row<P>], ledger: &mut Ledger, x: usize)
        requires kept { Kept rows.old ledger.old }
        requires held { Holds self.old rows.old ledger.old }
        requires live { (x < length rows.old) × (slice_index (tickets rows.old) x ≢ 0) }
        ensures kept { Kept rows.new ledger.new }
        ensures held { Holds self.new rows.new ledger.new }
        ensures meant { meant rows.new ledger.new ≡ with_pending (meant rows.old ledger.old) (without (slice_index (tickets rows.old) x) (entries rows.old)) }
        ensures noted { noted self.new ≡ noted self.old };

    /// The row of the due entry with the lowest ticket, if an entry is due.
    fn first_due(&self, rows: &[Row<P>], ledger: &Ledger) -> Option<usize>
        requires kept { Kept rows.now ledger.now }
        requires held { Holds self.now rows.now ledger.now }
        ensures { MatchOption result (NoneDue ledger.entry.now.now rows.now) (λ x. Foremost ledger.entry.now.now rows.now x) };

    /// Moves the entries whose places in the order change as the ledger's tick has gone on with nothing due.
    fn cascade(&mut self, rows: &mut [Row<P>], ledger: &Ledger)
        requires kept { Kept rows.old ledger.now }
        requires before { (l : ledgers.Ledger) × (ledger.now ≡ ticked_ledger l) × Holds self.old rows.old l }
        ensures held { Holds self.new rows.new ledger.entry.now }
        ensures contents { contents rows.new ≡ contents rows.old }
        ensures noted { noted self.new ≡ noted self.old };

    // the order holds in one way only
    ghost once: { (s : Self) (rows : List (rows_type.Row P)) (l : ledgers.Ledger) → IsProp (Holds s rows l) };
}
