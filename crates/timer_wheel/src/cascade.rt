ghost use Rattle.std.specs.Prelude.{◌≡◌, ◌+◌, ◌%◌, ◌<◌};
ghost use Rattle.timer_rows.specs.Rows.{contents};
ghost use Rattle.timer_wheel.specs.Place.{cascade_place_of};
ghost use Rattle.timer_wheel.specs.Placed.{Slotted};
ghost use Rattle.timer_wheel.specs.Emptying.{Waiting};

use crate::place::{cascade_place, place};
use crate::wheel::WheelOrder;
use timer_rows::row::Row;

impl WheelOrder {
    // Empties a slot from its front as the tick ends: each entry goes to the end of the slot of its new place.
    // It is rarely called, and kept out of what every tick runs.
    #[cold]
    fn empty_slot<P: Copy>(&mut self, rows: &mut [Row<P>], tick: u32, from: usize)
        requires waiting { Waiting tick rows.old }
        requires slots { Slotted tick rows.old self.old.slots.ends }
        requires turn { (tick < 16777215) × ((tick + 1) % 64 ≡ 0) × (from ≡ cascade_place_of (tick + 1)) }
        ensures slots { Slotted (tick + 1) rows.new self.new.slots.ends }
        ensures contents { contents rows.new ≡ contents rows.old }
    {
        let count = rows.len() as u16;
        let mut x = self.slots.first(rows, from);
        while x < count {
            let to = place(tick + 1, rows[x as usize].deadline);
            self.slots.move_last(rows, x, to);
            x = self.slots.first(rows, from);
        }
    }

    // Moves the entries whose places change as the tick ends: those of one slot, where the next tick has one to empty, and no others.
    pub(crate) fn cascade_from<P: Copy>(&mut self, rows: &mut [Row<P>], tick: u32)
        requires waiting { Waiting tick rows.old }
        requires slots { Slotted tick rows.old self.old.slots.ends }
        requires before { tick < 16777215 }
        ensures slots { Slotted (tick + 1) rows.new self.new.slots.ends }
        ensures contents { contents rows.new ≡ contents rows.old }
    {
        if let Some(from) = cascade_place(tick + 1) {
            self.empty_slot(rows, tick, from);
        }
    }
}
