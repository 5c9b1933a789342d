ghost use Rattle.std.specs.Prelude.{◌≡◌, ◌&&◌, if◌then◌else◌, None, nat_lt, reverse, OnErr, OnOk};
ghost use Rattle.timer.specs.Rules.{advance_rule};
ghost use Rattle.timer_rows.specs.Rows.{used, unused, entries, meant};
ghost use Rattle.timer_rows.specs.Walks.{first_ticket};
ghost use Rattle.timer_wheel.specs.Cascade.{cascade, laid};
ghost use Rattle.timer_wheel.specs.Layout.{lying, Layout, Walked};

use crate::place::{LEVELS, SLOTS};
use crate::wheel::Wheel;
use timer::fault::TimerFault;
use timer::store::Store;

// Where the entries of a wheel lie, as its users can ask for it.

/// The ticket of the first entry of a slot on a level; nothing if the slot is empty, or there is none with these numbers.
///
/// Whatever calls led to a wheel, the level of a pending entry is that of the topmost digit where deadline and now disagree, and
/// each slot is a list of its entries in the order of their tickets.
pub fn front<P: Copy>(wheel: &Wheel<P>, level: u32, slot: u32) -> Option<u32>
    ensures front { result ≡ (if nat_lt level 4 && nat_lt slot 64 then first_ticket (lying wheel.now.ledger.now level slot (entries (used wheel.now.rows.now))) else None) }
    ensures layout { Layout wheel.now.ledger.now (used wheel.now.rows.now) wheel.now.order.slots.ends }
{
    if level < LEVELS && slot < SLOTS {
        let place = (SLOTS * level + slot) as usize;
        wheel.order().slots.front(wheel.rows(), place)
    } else {
        None
    }
}

/// The ticket of the last entry of a slot on a level; nothing if the slot is empty, or there is none with these numbers.
pub fn back<P: Copy>(wheel: &Wheel<P>, level: u32, slot: u32) -> Option<u32>
    ensures { result ≡ (if nat_lt level 4 && nat_lt slot 64 then first_ticket (reverse (lying wheel.now.ledger.now level slot (entries (used wheel.now.rows.now)))) else None) }
{
    if level < LEVELS && slot < SLOTS {
        let place = (SLOTS * level + slot) as usize;
        wheel.order().slots.back(wheel.rows(), place)
    } else {
        None
    }
}

/// Adds one to now, as every store does, and says what becomes of the slots.
///
/// A walk along each slot then meets what the cascade leaves there: on each level whose lower digits became zero, the highest
/// first, the slot of now's digit is emptied from its front and each entry placed anew.
pub fn advance<P: Copy>(wheel: &mut Wheel<P>) -> Result<(), TimerFault>
    ensures answer { result ≡ (advance_rule (meant (used wheel.old.rows.now) wheel.old.ledger)).answer }
    ensures after { meant (used wheel.new.rows.now) wheel.new.ledger ≡ (advance_rule (meant (used wheel.old.rows.now) wheel.old.ledger)).after }
    ensures lender { wheel.new.rows.ghost_name ≡ wheel.old.rows.ghost_name }
    ensures beyond { unused wheel.new.rows.now ≡ unused wheel.old.rows.now }
    ensures refused { OnErr result (wheel.new ≡ wheel.old) }
    ensures before { Walked (used wheel.old.rows.now) wheel.old.order.slots.ends (laid wheel.old.ledger.now (entries (used wheel.old.rows.now))) }
    ensures cascade { OnOk result (Walked (used wheel.new.rows.now) wheel.new.order.slots.ends (cascade wheel.new.ledger.now (laid wheel.old.ledger.now (entries (used wheel.old.rows.now))))) }
{
    wheel.advance()
}
