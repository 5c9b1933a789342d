ghost use Rattle.std.specs.Prelude.{◌≡◌, ℕ, ◌+◌, ◌<◌, ◌≤◌, ◌≢◌, length, reverse, None, slice_index, slice_index_or};
ghost use Rattle.timer.specs.Meaning.{Entry};
ghost use Rattle.timer.specs.Rules.{check_rule, entered, with_pending, without};
ghost use Rattle.timer_rows.specs.Kept.{Kept};
ghost use Rattle.timer_rows.specs.Rows.{tickets, contents, entries, meant};
ghost use Rattle.timer_rows.specs.Slots.{homes, Slots, Slotted, Between, Moves};
ghost use Rattle.timer_rows.specs.Walks.{first_ticket, in_slot};

use crate::entries::{insert, remove};
use crate::ledger::Ledger;
use crate::links::Sentinels;
use crate::row::Row;

// What a store over slots does with its rows, whichever slot an entry is for and whatever a slot is sorted by.

impl<const N: usize> Sentinels<N> {
    /// Puts an entry with the next ticket into a vacant row, and that row before a node of a slot; answers the ticket.
    pub fn insert_before<P: Copy>(
        &mut self,
        rows: &mut [Row<P>],
        ledger: &mut Ledger,
        node: u16,
        deadline: u32,
        owner: u8,
        payload: P,
    ) -> u32
        requires kept { Kept rows.old ledger.now }
        requires allowed { check_rule (meant rows.old ledger.now) deadline owner ≡ None }
        requires node { (s : Slotted rows.old self.old.ends N) × (slice_index_or (homes N s.0 rows.old) node N < N) }
        ensures ticket { result ≡ ledger.entry.now.given + 1 }
        ensures kept { Kept rows.new ledger.exit.now }
        ensures meant { meant rows.new ledger.exit.now ≡ entered (meant rows.old ledger.entry.now) deadline owner payload }
        ensures slots { (slot key : Entry P → ℕ) → Slots slot key rows.old self.old.ends N → Between slot key rows.old self.old.ends N node (record { ticket = result; deadline = deadline; owner = owner; payload = payload }) → Slots slot key rows.new self.new.ends N }
    {
        let (x, ticket) = insert(rows, ledger, deadline, owner, payload);
        self.link(rows, x as u16, node);
        ticket
    }

    /// Puts an entry with the next ticket into a vacant row, and that row at the end of a slot; answers the ticket.
    pub fn insert_last<P: Copy>(
        &mut self,
        rows: &mut [Row<P>],
        ledger: &mut Ledger,
        slot: usize,
        deadline: u32,
        owner: u8,
        payload: P,
    ) -> u32
        requires kept { Kept rows.old ledger.now }
        requires allowed { check_rule (meant rows.old ledger.now) deadline owner ≡ None }
        requires few { 4096 + N ≤ 65535 }
        requires slot { slot < N }
        requires slots { Slotted rows.old self.old.ends N }
        ensures ticket { result ≡ ledger.entry.now.given + 1 }
        ensures kept { Kept rows.new ledger.exit.now }
        ensures meant { meant rows.new ledger.exit.now ≡ entered (meant rows.old ledger.entry.now) deadline owner payload }
        ensures slots { (of : Entry P → ℕ) → Slots of (λ e. e.ticket) rows.old self.old.ends N → of (record { ticket = result; deadline = deadline; owner = owner; payload = payload }) ≡ slot → Slots of (λ e. e.ticket) rows.new self.new.ends N }
    {
        let (x, ticket) = insert(rows, ledger, deadline, owner, payload);
        self.push(rows, x as u16, slot);
        ticket
    }

    /// The ticket of the first entry of a slot; nothing if the slot is empty.
    pub fn front<P: Copy>(&self, rows: &[Row<P>], slot: usize) -> Option<u32>
        requires { slot < N }
        ensures { (of key : Entry P → ℕ) → Slots of key rows.now self.now.ends N → result ≡ first_ticket (in_slot of key slot rows.now) }
    {
        let x = self.first(rows, slot);
        Some(rows.get(usize::from(x))?.ticket)
    }

    /// The ticket of the last entry of a slot; nothing if the slot is empty.
    pub fn back<P: Copy>(&self, rows: &[Row<P>], slot: usize) -> Option<u32>
        requires { slot < N }
        ensures { (of key : Entry P → ℕ) → Slots of key rows.now self.now.ends N → result ≡ first_ticket (reverse (in_slot of key slot rows.now)) }
    {
        let x = self.last(rows, slot);
        Some(rows.get(usize::from(x))?.ticket)
    }

    /// Takes a row out of its slot, and gives up its entry.
    pub fn remove<P: Copy>(&mut self, rows: &mut [Row<P>], ledger: &mut Ledger, x: usize)
        requires kept { Kept rows.old ledger.now }
        requires live { (x < length rows.old) × (slice_index (tickets rows.old) x ≢ 0) }
        requires slots { Slotted rows.old self.old.ends N }
        ensures kept { Kept rows.new ledger.exit.now }
        ensures meant { meant rows.new ledger.exit.now ≡ with_pending (meant rows.old ledger.entry.now) (without (slice_index (tickets rows.old) x) (entries rows.old)) }
        ensures slots { (slot key : Entry P → ℕ) → Slots slot key rows.old self.old.ends N → Slots slot key rows.new self.new.ends N }
    {
        self.unlink(rows, x as u16);
        remove(rows, ledger, x);
    }

    /// Takes a row out of its slot, and puts it at the end of a slot.
    pub fn move_last<P: Copy>(&mut self, rows: &mut [Row<P>], x: u16, slot: usize)
        requires few { length rows.old + N ≤ 65535 }
        requires live { (x < length rows.old) × (slice_index (tickets rows.old) x ≢ 0) }
        requires slot { slot < N }
        requires slots { Slotted rows.old self.old.ends N }
        ensures contents { contents rows.new ≡ contents rows.old }
        ensures slots { (old new key : Entry P → ℕ) → Slots old key rows.old self.old.ends N → Moves old new key rows.old x slot → Slots new key rows.new self.new.ends N }
    {
        self.unlink(rows, x);
        self.push(rows, x, slot);
    }
}
