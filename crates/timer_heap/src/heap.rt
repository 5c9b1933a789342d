ghost use Rattle.std.specs.Prelude.{◌≡◌, ℕ, [], length, MatchOption, slice_index};
ghost use Rattle.timer_order.specs.Idle.{idle};
ghost use Rattle.timer_rows.specs.Rows.{used, unused, tickets, entries, meant};
ghost use Rattle.timer_heap.specs.Once.{ordered_once};
ghost use Rattle.timer_heap.specs.Positions.{Ordered, Soonest};

use crate::sift::{position_of, put, row_at, settle, sift_up, swap};
use timer_order::order::Order;
use timer_order::row_store::RowStore;
use timer_rows::entries::{insert, remove};
use timer_rows::ledger::Ledger;
use timer_rows::row::Row;

/// A timer store that keeps its entries in a binary heap by deadline, then ticket, over rows that are lent to it: scheme 3 of Varghese and Lauck.
pub type TimerHeap<'a, P> = RowStore<'a, P, HeapOrder>;

/// A heap with nothing pending over the rows, whatever they hold; a first tick above the last counts as the last.
pub fn over<P: Copy>(rows: &mut [Row<P>], first: u32, last: u32) -> TimerHeap<'_, P>
    ensures meaning { meant (used result.rows.now) result.ledger ≡ idle first last (length (used rows.old)) }
    ensures cleared { (i : ℕ) → slice_index (tickets (used result.rows.now)) i ≡ 0 }
    ensures unused { unused result.rows.now ≡ unused rows.old }
    ensures lender { result.rows.ghost_name ≡ rows.entry.ghost_name }
{
    RowStore::over(rows, first, last, HeapOrder)
}

/// The ticket of the entry at the top of the heap, which fires next; nothing if the heap is empty.
///
/// Whatever calls led to a heap, its rows are a binary heap, and each of them has the position of its entry noted.
pub fn top<P: Copy>(heap: &TimerHeap<P>) -> Option<u32>
    ensures top { MatchOption result (entries (used heap.now.rows.now) ≡ []) (λ t. Soonest (entries (used heap.now.rows.now)) t) }
    ensures ordered { Ordered (used heap.now.rows.now) heap.now.ledger.pending }
{
    if heap.ledger().pending == 0 {
        return None;
    }
    let rows = heap.rows();
    Some(rows[row_at(rows, 0)].ticket)
}

/// The order of a binary heap by deadline, then ticket; the rows themselves hold the heap.
#[derive(Clone, Copy, Drop)]
pub struct HeapOrder;

impl<P: Copy> Order<P> for HeapOrder {
    ghost Holds = { λ _ rows l. Ordered rows l.pending };

    fn insert(
        &mut self,
        rows: &mut [Row<P>],
        ledger: &mut Ledger,
        deadline: u32,
        owner: u8,
        payload: P,
    ) -> u32 {
        let end = usize::from(ledger.pending);
        let (x, ticket) = insert(rows, ledger, deadline, owner, payload);
        put(rows, end, x);
        sift_up(rows, end);
        ticket
    }

    // Kept out of the test whether an entry is due, which every tick makes.
    #[inline(never)]
    fn remove(&mut self, rows: &mut [Row<P>], ledger: &mut Ledger, x: usize) {
        let gap = position_of(rows, x);
        let last = usize::from(ledger.pending) - 1;
        swap(rows, gap, last);
        remove(rows, ledger, x);
        if gap < last {
            settle(rows, gap, last);
        }
    }

    fn first_due(&self, rows: &[Row<P>], ledger: &Ledger) -> Option<usize> {
        if ledger.pending == 0 {
            return None;
        }
        let x = row_at(rows, 0);
        rows[x].is_due(ledger.now).then_some(x)
    }

    fn cascade(&mut self, _rows: &mut [Row<P>], _ledger: &Ledger) {}

    ghost once = { λ _ rows l. ordered_once rows l.pending };
}
