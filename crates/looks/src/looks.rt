ghost use Rattle.std.specs.Prelude.{◌≡◌, ◌+◌, ◌<◌, ◌≤◌, length, slice_index};
ghost use Rattle.timer_rows.specs.Rows.{tickets};

use timer_rows::buckets::{bucket_of, find_chained};
use timer_rows::row::Row;

// What a call of a store will look at, read from its rows before the call.
// It rests on contracts: a start takes the row on top of the stack of vacant rows if that is vacant (`insert`, clause `top`), and a stop finds the row that the walk of its bucket's chain meets first (`find_chained`).

// How many rows are looked at from the first one up to a vacant one.
fn sought(rows: &[Row<u8>]) -> usize
    ensures { result ≤ length rows.now }
{
    rows.iter()
        .position(|row| row.ticket == 0)
        .map_or(rows.len(), |x| x + 1)
}

/// How many rows a start will look at: the one on top of the stack of vacant rows, or if that is not vacant all up to the first vacant one, and the row of its ticket's bucket.
pub fn by_start(rows: &[Row<u8>], top: u16) -> usize
    ensures vacant { top < length rows.now → slice_index (tickets rows.now) top ≡ 0 → result ≡ 2 }
    ensures most { result ≤ length rows.now + 2 }
{
    match rows.get(usize::from(top)) {
        Some(row) if row.ticket == 0 => 2,
        Some(_) => sought(rows) + 2,
        None => sought(rows) + 1,
    }
}

/// How many rows a stop of a pending ticket will look at: the one of its bucket, and those of the bucket's chain up to its own, or if the chain does not lead there all rows.
pub fn by_stop(rows: &[Row<u8>], ticket: u32) -> usize
    ensures { result ≤ length rows.now + 1 }
{
    if find_chained(rows, ticket).is_none() {
        return rows.len();
    }
    let Some(first) = rows.get(bucket_of(rows.len(), ticket)) else {
        return rows.len();
    };
    let mut x = first.bucket;
    for passed in 0..rows.len() {
        let Some(row) = rows.get(usize::from(x)) else {
            break;
        };
        if row.ticket == ticket {
            return passed + 2;
        }
        x = row.chain;
    }
    rows.len()
}
