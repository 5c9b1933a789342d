ghost use Rattle.std.specs.Prelude.{◌≡◌, ℕ, length, reverse, slice_index};
ghost use Rattle.timer_order.specs.Idle.{idle};
ghost use Rattle.timer_rows.specs.Rows.{used, unused, tickets, entries, meant};
ghost use Rattle.timer_rows.specs.Walks.{first_ticket, Meets};
ghost use Rattle.timer_rows.proofs.Props.{slots_prop};
ghost use Rattle.timer_list.specs.Sorted.{by_deadline, Sorted, Spot};

use timer_order::order::Order;
use timer_order::row_store::RowStore;
use timer_rows::ledger::Ledger;
use timer_rows::links::Sentinels;
use timer_rows::row::Row;
use timer_rows::rows::capacity;

/// A timer store that keeps its entries in a doubly linked list by deadline, then ticket, over rows that are lent to it: scheme 2 of Varghese and Lauck.
pub type SortedList<'a, P> = RowStore<'a, P, ListOrder>;

/// A list with nothing pending over the rows, whatever they hold; a first tick above the last counts as the last.
pub fn over<P: Copy>(rows: &mut [Row<P>], first: u32, last: u32) -> SortedList<'_, P>
    ensures meaning { meant (used result.rows.now) result.ledger ≡ idle first last (length (used rows.old)) }
    ensures cleared { (i : ℕ) → slice_index (tickets (used result.rows.now)) i ≡ 0 }
    ensures unused { unused result.rows.now ≡ unused rows.old }
    ensures lender { result.rows.ghost_name ≡ rows.entry.ghost_name }
{
    let slots = Sentinels::empty(capacity(rows));
    RowStore::over(rows, first, last, ListOrder { slots })
}

/// The ticket of the list's first entry, which fires next; nothing if the list is empty.
///
/// Whatever calls led to a list, a walk from its sentinel meets the pending entries by deadline, then ticket, and a walk back meets them in the opposite order.
pub fn front<P: Copy>(list: &SortedList<P>) -> Option<u32>
    ensures front { result ≡ first_ticket (by_deadline (entries (used list.now.rows.now))) }
    ensures walk { Meets (used list.now.rows.now) list.now.order.slots.ends 0 (by_deadline (entries (used list.now.rows.now))) }
{
    list.order().slots.front(list.rows(), 0)
}

/// The ticket of the list's last entry; nothing if the list is empty.
pub fn back<P: Copy>(list: &SortedList<P>) -> Option<u32>
    ensures { result ≡ first_ticket (reverse (by_deadline (entries (used list.now.rows.now)))) }
{
    list.order().slots.back(list.rows(), 0)
}

/// The order of a doubly linked list by deadline, then ticket.
#[derive(Clone, Copy, Drop)]
pub struct ListOrder {
    /// The list's sentinel: the list is its one slot.
    pub(crate) slots: Sentinels<1>,
}

impl ListOrder {
    // The node before which an entry with the deadline goes, sought from the front.
    fn spot<P: Copy>(&self, rows: &[Row<P>], deadline: u32) -> u16
        requires { Sorted rows.now self.now.slots.ends }
        ensures { Spot rows.now self.now.slots.ends deadline result }
    {
        let mut node = self.slots.first(rows, 0);
        while (node as usize) < rows.len() {
            let row = rows[node as usize];
            if row.is_after(deadline) {
                return node;
            }
            node = row.next;
        }
        node
    }
}

impl<P: Copy> Order<P> for ListOrder {
    ghost Holds = { λ s rows _. Sorted rows s.slots.ends };

    fn insert(
        &mut self,
        rows: &mut [Row<P>],
        ledger: &mut Ledger,
        deadline: u32,
        owner: u8,
        payload: P,
    ) -> u32 {
        let node = self.spot(rows, deadline);
        self.slots
            .insert_before(rows, ledger, node, deadline, owner, payload)
    }

    fn remove(&mut self, rows: &mut [Row<P>], ledger: &mut Ledger, x: usize) {
        self.slots.remove(rows, ledger, x);
    }

    fn first_due(&self, rows: &[Row<P>], ledger: &Ledger) -> Option<usize> {
        let x = usize::from(self.slots.first(rows, 0));
        rows.get(x)?.is_due(ledger.now).then_some(x)
    }

    fn cascade(&mut self, _rows: &mut [Row<P>], _ledger: &Ledger) {}

    ghost once = { λ s rows l. slots_prop _ _ rows s.slots.ends 1 };
}
