ghost use Rattle.std.specs.Prelude.{◌≡◌, ℕ, ◌<◌, ◌≤◌, ◌≢◌, ◌==◌, min, length, None, MatchOption, position, slice_index, true};
ghost use Rattle.timer.specs.Rules.{find};
ghost use Rattle.timer_rows.specs.Rows.{used, tickets, entries, Sought};

use crate::buckets::{bucket_of, find_chained};
use crate::row::Row;

/// How many of the rows that were lent a store uses: all of them, but at most 4,096.
#[tactic(auto, using(crate::proofs::Asked::capacity_used))]
pub fn capacity<P: Copy>(rows: &[Row<P>]) -> usize
    ensures value { result ≡ min (length rows.now) 4096 }
    ensures used { result ≡ length (used rows.now) }
{
    rows.len().min(4096)
}

// The first of the rows that has the ticket.
fn seek<P: Copy>(rows: &[Row<P>], ticket: u32) -> Option<usize>
    ensures { result ≡ position (λ r. r.ticket == ticket) rows.now }
{
    rows.iter().position(|row| row.ticket == ticket)
}

// A row that has the ticket, or with ticket 0 a vacant row: the first one from a row on, round the end.
// It is rarely called, and kept out of its callers.
#[cold]
#[inline(never)]
fn seek_from<P: Copy>(rows: &[Row<P>], ticket: u32, first: usize) -> Option<usize>
    ensures { Sought rows.now ticket result }
{
    let first = first.min(rows.len());
    if let Some(x) = seek(&rows[first..], ticket) {
        return Some(first + x);
    }
    seek(&rows[..first], ticket)
}

/// The row of the pending entry with the ticket.
#[tactic(auto, using(crate::proofs::Asked::no_ticket, crate::proofs::Asked::sought_ticket))]
pub fn row_of<P: Copy>(rows: &[Row<P>], ticket: u32) -> Option<usize>
    ensures { MatchOption result (find ticket (entries rows.now) ≡ None) (λ x. (x < length rows.now) × (slice_index (tickets rows.now) x ≡ ticket) × (ticket ≢ 0)) }
{
    if ticket == 0 {
        return None;
    }
    if let Some(x) = find_chained(rows, ticket) {
        return Some(x);
    }
    seek_from(rows, ticket, bucket_of(rows.len(), ticket))
}

// Whether there is such a row, and it is vacant.
fn is_vacant<P: Copy>(rows: &[Row<P>], x: usize) -> bool
    ensures only { result ≡ true → (x < length rows.now) × (slice_index (tickets rows.now) x ≡ 0) }
    ensures all { x < length rows.now → slice_index (tickets rows.now) x ≡ 0 → result ≡ true }
{
    rows.get(x).is_some_and(|row| row.ticket == 0)
}

/// A vacant row: the one on top of the stack of vacant rows, or, if that row is not vacant, the first one that is.
#[tactic(auto, using(crate::proofs::Asked::sought_room))]
pub fn vacant_row<P: Copy>(rows: &[Row<P>], top: u16) -> usize
    requires room { length (entries rows.now) ≢ length rows.now }
    ensures row { (result < length rows.now) × (slice_index (tickets rows.now) result ≡ 0) }
    ensures top { top < length rows.now → slice_index (tickets rows.now) top ≡ 0 → result ≡ top }
{
    let top = usize::from(top);
    if is_vacant(rows, top) {
        return top;
    }
    seek_from(rows, 0, 0).unwrap()
}
