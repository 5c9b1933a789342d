ghost use Rattle.std.specs.Prelude.{◌≡◌, ℕ, ◌+◌, ◌<◌, ◌≤◌, min, ◌≢◌, [], length, replicate, None, slice_index, slice_index_or, slice_set};
ghost use Rattle.timer.specs.Meaning.{Entry};
ghost use Rattle.timer.specs.Rules.{check_rule, entered, with_pending, without};
ghost use Rattle.timer_rows.specs.Buckets.{buckets, chains, bucket_of, buckets_without, chains_without};
ghost use Rattle.timer_rows.specs.Kept.{Kept};
ghost use Rattle.timer_rows.specs.Rows.{tickets, nexts, prevs, vacated, contents, entries, meant};

use crate::buckets::{bucket_of, chain, unchain};
use crate::ledger::Ledger;
use crate::row::{NO_ROW, Row};
use crate::rows::vacant_row;
use timer::fault::TimerFault;

/// Marks every row vacant and every bucket empty, and puts all rows of a store on the stack of vacant rows, row 0 on top; a store has at most 4,096.
pub fn clear<P: Copy>(rows: &mut [Row<P>])
    ensures vacant { (i : ℕ) → slice_index (tickets rows.new) i ≡ 0 }
    ensures buckets { (i : ℕ) → slice_index_or (buckets rows.new) i 65535 ≡ 65535 }
    ensures stack { length rows.old ≤ 4096 → (i : ℕ) → i < length rows.new → slice_index (chains rows.new) i ≡ i + 1 }
{
    for (x, row) in rows.iter_mut().enumerate() {
        row.ticket = 0;
        row.bucket = NO_ROW;
        row.chain = (x + 1).min(usize::from(NO_ROW)) as u16;
    }
}

/// The lowest refusal of a start with this deadline and owner, or `None`.
///
/// An owner's limit is the number of rows, so an owner that has reached it has filled the store: that is refused first.
pub fn check<P: Copy>(
    rows: &[Row<P>],
    ledger: &Ledger,
    deadline: u32,
    owner: u8,
) -> Option<TimerFault>
    requires { Kept rows.now ledger.now }
    ensures { result ≡ check_rule (meant rows.now ledger.entry.now) deadline owner }
{
    if ledger.is_past(deadline) {
        Some(TimerFault::Past)
    } else if ledger.is_late(deadline) {
        Some(TimerFault::Late)
    } else if owner > 63 {
        Some(TimerFault::Owner)
    } else if ledger.is_spent() {
        Some(TimerFault::Spent)
    } else if usize::from(ledger.pending) == rows.len() {
        Some(TimerFault::Full)
    } else {
        None
    }
}

/// Puts an entry with the next ticket into a vacant row, and answers the row and the ticket.
pub fn insert<P: Copy>(
    rows: &mut [Row<P>],
    ledger: &mut Ledger,
    deadline: u32,
    owner: u8,
    payload: P,
) -> (usize, u32)
    requires kept { Kept rows.old ledger.now }
    requires allowed { check_rule (meant rows.old ledger.now) deadline owner ≡ None }
    ensures row { (result.0 < length rows.old) × (slice_index (tickets rows.old) result.0 ≡ 0) }
    ensures ticket { result.1 ≡ ledger.entry.now.given + 1 }
    ensures kept { Kept rows.new ledger.exit.now }
    ensures meant { meant rows.new ledger.exit.now ≡ entered (meant rows.old ledger.entry.now) deadline owner payload }
    ensures contents { contents rows.new ≡ slice_set (contents rows.old) result.0 (record { ticket = result.1; deadline = deadline; owner = owner; payload = payload }) }
    ensures links { (nexts rows.new ≡ nexts rows.old) × (prevs rows.new ≡ prevs rows.old) }
    ensures chains { (buckets rows.new ≡ slice_set (buckets rows.old) (bucket_of (length rows.old) result.1) result.0) × (chains rows.new ≡ slice_set (chains rows.old) result.0 (slice_index (buckets rows.old) (bucket_of (length rows.old) result.1))) }
    ensures top { ledger.entry.now.vacant < length rows.old → slice_index (tickets rows.old) ledger.entry.now.vacant ≡ 0 → result.0 ≡ ledger.entry.now.vacant }
    ensures popped { ledger.exit.now.vacant ≡ slice_index (chains rows.old) result.0 }
{
    let x = vacant_row(rows, ledger.vacant);
    let ticket = ledger.raise(owner, rows[x].chain);
    chain(rows, x, bucket_of(rows.len(), ticket));
    let row = rows[x];
    rows[x] = Row {
        ticket,
        deadline,
        next: row.next,
        prev: row.prev,
        bucket: row.bucket,
        chain: row.chain,
        owner,
        payload,
    };
    (x, ticket)
}

/// Gives up the entry of a row.
pub fn remove<P: Copy>(rows: &mut [Row<P>], ledger: &mut Ledger, x: usize)
    requires kept { Kept rows.old ledger.now }
    requires live { (x < length rows.old) × (slice_index (tickets rows.old) x ≢ 0) }
    ensures kept { Kept rows.new ledger.exit.now }
    ensures meant { meant rows.new ledger.exit.now ≡ with_pending (meant rows.old ledger.entry.now) (without (slice_index (tickets rows.old) x) (entries rows.old)) }
    ensures contents { (d : Entry P) → contents rows.new ≡ slice_set (contents rows.old) x (vacated (slice_index_or (contents rows.old) x d)) }
    ensures links { (nexts rows.new ≡ nexts rows.old) × (prevs rows.new ≡ prevs rows.old) }
    ensures bucket { buckets rows.new ≡ buckets_without (buckets rows.old) (chains rows.old) (bucket_of (length rows.old) (slice_index (tickets rows.old) x)) x }
    ensures chain { chains rows.new ≡ slice_set (chains_without (buckets rows.old) (chains rows.old) (bucket_of (length rows.old) (slice_index (tickets rows.old) x)) x) x ledger.entry.now.vacant }
    ensures pushed { ledger.exit.now.vacant ≡ x }
{
    unchain(rows, x);
    let row = rows[x];
    rows[x] = Row {
        ticket: 0,
        chain: ledger.vacant,
        ..row
    };
    ledger.lower(row.owner, x as u16);
}
