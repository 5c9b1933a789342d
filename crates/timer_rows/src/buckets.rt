ghost use Rattle.std.specs.Prelude.{◌≡◌, ◌<◌, ◌≤◌, ⊤, length, MatchOption, slice_index, slice_index_or, slice_set};
ghost use Rattle.timer_rows.specs.Buckets.{buckets, chains, bucket_of, along, buckets_without, chains_without};
ghost use Rattle.timer_rows.specs.Rows.{tickets, nexts, prevs, contents};

use crate::row::Row;

// A hash table of tickets in the rows themselves: row i holds the first row of bucket i, and the rows of a bucket are chained,
// the latest entry first. A chain only says where to look first: what is found there is believed once its ticket has been read.
// So no fact is kept about chains, and where one leads nowhere, all rows are searched.

// How many rows of a chain are looked at. Where entries come and go at random in a full store of 4,096 rows, hardly a chain has more than five.
const MOST: usize = 64;

/// The bucket of a ticket, by Fibonacci hashing: the multiplier is 2^32 divided by the golden ratio.
///
/// The buckets of tickets that follow one another lie far apart, so that few tickets share one.
pub fn bucket_of(count: usize, ticket: u32) -> usize
    ensures value { count ≤ 4096 → result ≡ bucket_of count ticket }
    ensures row { 0 < count → count ≤ 4096 → result < count }
{
    let hash = u64::from(ticket.wrapping_mul(0x9E37_79B9));
    (hash.wrapping_mul(count as u64) >> 32) as usize
}

/// The row that the chain of the ticket's bucket has for the ticket.
pub fn find_chained<P: Copy>(rows: &[Row<P>], ticket: u32) -> Option<usize>
    ensures value { length rows.now ≤ 4096 → result ≡ along 64 (tickets rows.now) (chains rows.now) (slice_index_or (buckets rows.now) (bucket_of (length rows.now) ticket) 65535) ticket }
    ensures row { MatchOption result ⊤ (λ x. (x < length rows.now) × (slice_index (tickets rows.now) x ≡ ticket)) }
{
    let mut x = rows.get(bucket_of(rows.len(), ticket))?.bucket;
    for _ in 0..MOST {
        let row = rows.get(usize::from(x))?;
        if row.ticket == ticket {
            return Some(usize::from(x));
        }
        x = row.chain;
    }
    None
}

fn set_bucket<P: Copy>(rows: &mut [Row<P>], x: usize, to: u16)
    requires { x < length rows.old }
    ensures chains { (buckets rows.new ≡ slice_set (buckets rows.old) x to) × (chains rows.new ≡ chains rows.old) }
    ensures contents { contents rows.new ≡ contents rows.old }
    ensures links { (nexts rows.new ≡ nexts rows.old) × (prevs rows.new ≡ prevs rows.old) }
{
    rows[x].bucket = to;
}

fn set_chain<P: Copy>(rows: &mut [Row<P>], x: usize, to: u16)
    requires { x < length rows.old }
    ensures chains { (buckets rows.new ≡ buckets rows.old) × (chains rows.new ≡ slice_set (chains rows.old) x to) }
    ensures contents { contents rows.new ≡ contents rows.old }
    ensures links { (nexts rows.new ≡ nexts rows.old) × (prevs rows.new ≡ prevs rows.old) }
{
    rows[x].chain = to;
}

/// Puts a row at the front of the chain of a bucket.
pub fn chain<P: Copy>(rows: &mut [Row<P>], x: usize, bucket: usize)
    requires { (x < length rows.old) × (bucket < length rows.old) × (length rows.old ≤ 4096) }
    ensures chains { (buckets rows.new ≡ slice_set (buckets rows.old) bucket x) × (chains rows.new ≡ slice_set (chains rows.old) x (slice_index (buckets rows.old) bucket)) }
    ensures contents { contents rows.new ≡ contents rows.old }
    ensures links { (nexts rows.new ≡ nexts rows.old) × (prevs rows.new ≡ prevs rows.old) }
{
    let next = rows[bucket].bucket;
    set_chain(rows, x, next);
    set_bucket(rows, bucket, x as u16);
}

// The row before another one in the chain that begins with a third.
fn previous<P: Copy>(rows: &[Row<P>], first: u16, x: u16) -> Option<usize>
    ensures value { result ≡ along 64 (chains rows.now) (chains rows.now) first x }
    ensures row { MatchOption result ⊤ (λ node. node < length rows.now) }
{
    let mut node = usize::from(first);
    for _ in 0..MOST {
        let next = rows.get(node)?.chain;
        if next == x {
            return Some(node);
        }
        node = usize::from(next);
    }
    None
}

/// Takes a row out of the chain of its ticket's bucket.
pub fn unchain<P: Copy>(rows: &mut [Row<P>], x: usize)
    requires { (x < length rows.old) × (length rows.old ≤ 4096) }
    ensures bucket { buckets rows.new ≡ buckets_without (buckets rows.old) (chains rows.old) (bucket_of (length rows.old) (slice_index (tickets rows.old) x)) x }
    ensures chain { chains rows.new ≡ chains_without (buckets rows.old) (chains rows.old) (bucket_of (length rows.old) (slice_index (tickets rows.old) x)) x }
    ensures contents { contents rows.new ≡ contents rows.old }
    ensures links { (nexts rows.new ≡ nexts rows.old) × (prevs rows.new ≡ prevs rows.old) }
{
    let bucket = bucket_of(rows.len(), rows[x].ticket);
    let first = rows[bucket].bucket;
    let next = rows[x].chain;
    if usize::from(first) == x {
        set_bucket(rows, bucket, next);
    } else if let Some(node) = previous(rows, first, x as u16) {
        set_chain(rows, node, next);
    }
}
