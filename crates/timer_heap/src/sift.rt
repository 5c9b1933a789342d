ghost use Rattle.std.specs.Prelude.{◌≡◌, ℕ, ◌+◌, ◌*◌, ◌<◌, ◌≤◌, length, MatchOption, slice_index, slice_set};
ghost use Rattle.timer_rows.specs.Rows.{nexts, prevs, contents};
ghost use Rattle.timer_heap.specs.Order.{Later, Least, Settled, Sooner, Under};
ghost use Rattle.timer_heap.specs.Positions.{Indexed, Ordered, Sinking, Unsettled, rank_at};

use timer_rows::row::Row;

// The row whose entry stands at a position.
pub(crate) fn row_at<P: Copy>(rows: &[Row<P>], position: usize) -> usize
    requires { position < length rows.now }
    ensures { result ≡ slice_index (nexts rows.now) position }
{
    rows[position].next as usize
}

// The position of a row's entry.
pub(crate) fn position_of<P: Copy>(rows: &[Row<P>], row: usize) -> usize
    requires { row < length rows.now }
    ensures { result ≡ slice_index (prevs rows.now) row }
{
    rows[row].prev as usize
}

// Notes that the entry of a row stands at a position.
#[tactic(auto, using(crate::proofs::Places::written))]
pub(crate) fn put<P: Copy>(rows: &mut [Row<P>], position: usize, row: usize)
    requires { (position < length rows.old) × (row < length rows.old) × (length rows.old ≤ 4096) }
    ensures cells { nexts rows.new ≡ slice_set (nexts rows.old) position row }
    ensures places { prevs rows.new ≡ slice_set (prevs rows.old) row position }
    ensures contents { contents rows.new ≡ contents rows.old }
{
    rows[position].next = row as u16;
    rows[row].prev = position as u16;
}

// Lets the entries at two positions change places.
pub(crate) fn swap<P: Copy>(rows: &mut [Row<P>], a: usize, b: usize)
    requires positions { (a < length rows.old) × (b < length rows.old) × (length rows.old ≤ 4096) }
    requires rows { (slice_index (nexts rows.old) a < length rows.old) × (slice_index (nexts rows.old) b < length rows.old) }
    ensures cells { nexts rows.new ≡ slice_set (slice_set (nexts rows.old) a (slice_index (nexts rows.old) b)) b (slice_index (nexts rows.old) a) }
    ensures places { prevs rows.new ≡ slice_set (slice_set (prevs rows.old) (slice_index (nexts rows.old) b) a) (slice_index (nexts rows.old) a) b }
    ensures contents { contents rows.new ≡ contents rows.old }
{
    let x = row_at(rows, a);
    let y = row_at(rows, b);
    put(rows, a, y);
    put(rows, b, x);
}

// What the heap is ordered by: the deadline of the entry at a position, and then its ticket.
pub(crate) fn rank<P: Copy>(rows: &[Row<P>], position: usize) -> (u32, u32)
    requires { (position < length rows.now) × (slice_index (nexts rows.now) position < length rows.now) }
    ensures { result.0 * 4294967296 + result.1 ≡ rank_at rows.now position }
{
    let row = rows[row_at(rows, position)];
    (row.deadline, row.ticket)
}

// The position above another, if its entry comes later.
fn above<P: Copy>(rows: &[Row<P>], i: usize) -> Option<usize>
    requires { (k : ℕ) × (i < k) × Indexed rows.now k }
    ensures { MatchOption result (Settled (rank_at rows.now) i) (λ p. Later (rank_at rows.now) i p) }
{
    if i == 0 {
        return None;
    }
    let parent = (i - 1) / 2;
    (rank(rows, i) < rank(rows, parent)).then_some(parent)
}

// Of the positions below another, the one whose entry comes first.
fn first_child<P: Copy>(rows: &[Row<P>], i: usize, count: usize) -> usize
    requires { (i * 2 + 1 < count) × Indexed rows.now count }
    ensures { Least (rank_at rows.now) i count result }
{
    let left = 2 * i + 1;
    let right = left + 1;
    if right < count && rank(rows, right) < rank(rows, left) {
        right
    } else {
        left
    }
}

// The position below another whose entry comes first, if it comes before the other's.
fn below<P: Copy>(rows: &[Row<P>], i: usize, count: usize) -> Option<usize>
    requires { (i < count) × Indexed rows.now count }
    ensures { MatchOption result (Under (rank_at rows.now) i count) (λ c. Sooner (rank_at rows.now) i count c) }
{
    if i >= count / 2 {
        return None;
    }
    let child = first_child(rows, i, count);
    (rank(rows, child) < rank(rows, i)).then_some(child)
}

// Lets the entry at a position rise while the one above it comes later.
pub(crate) fn sift_up<P: Copy>(rows: &mut [Row<P>], start: usize)
    requires { (k : ℕ) × Unsettled rows.old start k }
    ensures contents { contents rows.new ≡ contents rows.old }
    ensures sinking { (k : ℕ) → Unsettled rows.old start k → Sinking rows.new start k }
{
    let mut i = start;
    while let Some(parent) = above(rows, i) {
        swap(rows, parent, i);
        i = parent;
    }
}

// Lets the entry at a position sink while one below it comes before it.
pub(crate) fn sift_down<P: Copy>(rows: &mut [Row<P>], start: usize, count: usize)
    requires { Sinking rows.old start count }
    ensures contents { contents rows.new ≡ contents rows.old }
    ensures ordered { Ordered rows.new count }
{
    let mut i = start;
    while let Some(child) = below(rows, i, count) {
        swap(rows, i, child);
        i = child;
    }
}

// Brings the entry at a position to its place.
pub(crate) fn settle<P: Copy>(rows: &mut [Row<P>], position: usize, count: usize)
    requires { Unsettled rows.old position count }
    ensures contents { contents rows.new ≡ contents rows.old }
    ensures ordered { Ordered rows.new count }
{
    sift_up(rows, position);
    sift_down(rows, position, count);
}
