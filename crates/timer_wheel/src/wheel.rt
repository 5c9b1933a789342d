ghost use Rattle.std.specs.Prelude.{◌≡◌, ℕ, length, slice_index};
ghost use Rattle.timer_order.specs.Idle.{idle};
ghost use Rattle.timer_rows.specs.Rows.{used, unused, tickets, meant};
ghost use Rattle.timer_wheel.specs.Once.{placed_once};
ghost use Rattle.timer_wheel.specs.Placed.{Placed};

use crate::place::place;
use timer_order::order::Order;
use timer_order::row_store::RowStore;
use timer_rows::ledger::Ledger;
use timer_rows::links::Sentinels;
use timer_rows::row::Row;
use timer_rows::rows::capacity;

/// The last tick of every wheel: four digits of 63.
pub const LAST_TICK: u32 = 16_777_215;

/// A timer store that keeps its entries in a hierarchical timing wheel of four levels of 64 slots, over rows that are lent to it: scheme 7 of Varghese and Lauck.
pub type Wheel<'a, P> = RowStore<'a, P, WheelOrder>;

/// A wheel with nothing pending over the rows, whatever they hold; a first tick above the last counts as the last.
pub fn over<P: Copy>(rows: &mut [Row<P>], first: u32) -> Wheel<'_, P>
    ensures meaning { meant (used result.rows.now) result.ledger ≡ idle first LAST_TICK (length (used rows.old)) }
    ensures cleared { (i : ℕ) → slice_index (tickets (used result.rows.now)) i ≡ 0 }
    ensures unused { unused result.rows.now ≡ unused rows.old }
    ensures lender { result.rows.ghost_name ≡ rows.entry.ghost_name }
{
    let slots = Sentinels::empty(capacity(rows));
    RowStore::over(rows, first, LAST_TICK, WheelOrder { slots })
}

/// The order of a timing wheel: each entry in the slot of its place, and the entries of a slot by their tickets.
#[derive(Clone, Copy, Drop)]
pub struct WheelOrder {
    /// The slots, level by level.
    pub(crate) slots: Sentinels<256>,
}

impl<P: Copy> Order<P> for WheelOrder {
    ghost Holds = { λ s rows l. Placed rows l s.slots.ends };

    fn insert(
        &mut self,
        rows: &mut [Row<P>],
        ledger: &mut Ledger,
        deadline: u32,
        owner: u8,
        payload: P,
    ) -> u32 {
        let to = place(ledger.now, deadline);
        self.slots
            .insert_last(rows, ledger, to, deadline, owner, payload)
    }

    fn remove(&mut self, rows: &mut [Row<P>], ledger: &mut Ledger, x: usize) {
        self.slots.remove(rows, ledger, x);
    }

    // The first row of the slot of the tick's lowest digit on level 0.
    fn first_due(&self, rows: &[Row<P>], ledger: &Ledger) -> Option<usize> {
        let x = usize::from(self.slots.first(rows, (ledger.now % 64) as usize));
        (x < rows.len()).then_some(x)
    }

    fn cascade(&mut self, rows: &mut [Row<P>], ledger: &Ledger) {
        self.cascade_from(rows, ledger.now - 1);
    }

    ghost once = { λ s rows l. placed_once rows l s.slots.ends };
}
