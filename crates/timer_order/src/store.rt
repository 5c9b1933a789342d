use crate::order::Order;
use crate::row_store::RowStore;
use timer::expired::Expired;
use timer::fault::TimerFault;
use timer::owners::number_of;
use timer::store::Store;
use timer_rows::entries::{check, clear};
use timer_rows::ledger::Ledger;
use timer_rows::row::Row;
use timer_rows::rows::{capacity, row_of};

impl<'a, P: Copy, O: Order<P>> RowStore<'a, P, O> {
    ghost use Rattle.std.specs.Prelude.{◌≡◌, ℕ, ◌<◌, ◌≢◌, ◌==◌, min, length, None, MatchOption, slice_index, slice_index_or};
    ghost use Rattle.timer.specs.Rules.{find, with_pending, without};
    ghost use Rattle.timer_rows.specs.Rows.{used, unused, tickets, entries, meant, NoneDue, Foremost};
    ghost use Rattle.timer_order.specs.Idle.{idle, Starts};

    /// A store with nothing pending over the rows, whatever they hold, in an order of vacant rows; a first tick above the last counts as the last.
    pub fn over(rows: &'a mut [Row<P>], first: u32, last: u32, order: O) -> Self
        requires held { Starts O.Holds order (length (used rows.old)) last }
        ensures meaning { meant (used result.rows.now) result.ledger ≡ idle first last (length (used rows.old)) }
        ensures cleared { (i : ℕ) → slice_index (tickets (used result.rows.now)) i ≡ 0 }
        ensures unused { unused result.rows.now ≡ unused rows.old }
        ensures lender { result.rows.ghost_name ≡ rows.entry.ghost_name }
        ensures order { result.order ≡ order }
    {
        let n = capacity(rows);
        clear(&mut rows[0..n]);
        RowStore {
            rows,
            count: n as u16,
            ledger: Ledger::new(first, last),
            order,
        }
    }

    /// The rows that are used.
    #[tactic(auto, using(timer_rows::proofs::Parts::part_used))]
    pub fn rows(&self) -> &[Row<P>]
        ensures { result.now ≡ used self.now.rows.now }
    {
        let n = self.used();
        &self.rows[0..n]
    }

    /// The clock, the tickets given and the counts.
    pub fn ledger(&self) -> &Ledger
        ensures { result.now ≡ self.now.ledger }
    {
        &self.ledger
    }

    /// The order of the entries.
    pub fn order(&self) -> &O
        ensures { result.now ≡ self.now.order }
    {
        &self.order
    }

    // How many of the rows are used.
    #[tactic(auto, using(timer_rows::proofs::Asked::capacity_used))]
    fn used(&self) -> usize
        ensures value { result ≡ min (length self.now.rows.now) 4096 }
        ensures capacity { result ≡ length (used self.now.rows.now) }
    {
        usize::from(self.count)
    }

    // The row of the pending entry with the ticket.
    fn row_of(&self, ticket: u32) -> Option<usize>
        ensures { MatchOption result (find ticket (entries (used self.now.rows.now)) ≡ None) (λ x. (x < length (used self.now.rows.now)) × (slice_index (tickets (used self.now.rows.now)) x ≡ ticket) × (ticket ≢ 0)) }
    {
        let n = self.used();
        row_of(&self.rows[0..n], ticket)
    }

    // The row of the due entry with the lowest ticket, if an entry is due.
    fn first_due(&self) -> Option<usize>
        ensures { MatchOption result (NoneDue self.now.ledger.now (used self.now.rows.now)) (λ x. Foremost self.now.ledger.now (used self.now.rows.now) x) }
    {
        let n = self.used();
        self.order.first_due(&self.rows[0..n], &self.ledger)
    }

    // A row that is used.
    fn row_at(&self, x: usize) -> Row<P>
        requires { x < length (used self.now.rows.now) }
        ensures { result ≡ slice_index_or (used self.now.rows.now) x result }
    {
        self.rows[x]
    }

    // Whether now is the last tick.
    fn is_ended(&self) -> bool
        ensures { result ≡ (self.now.ledger.now == self.now.ledger.last) }
    {
        self.ledger.is_ended()
    }

    // Gives up the entry of a row.
    // It is kept out of `take`, which a loop over ticks asks in each of them and which mostly finds nothing.
    #[inline(never)]
    fn remove(&mut self, x: usize)
        requires { (x < length (used self.old.rows.now)) × (slice_index (tickets (used self.old.rows.now)) x ≢ 0) }
        ensures after { meant (used self.new.rows.now) self.new.ledger ≡ with_pending (meant (used self.old.rows.now) self.old.ledger) (without (slice_index (tickets (used self.old.rows.now)) x) (entries (used self.old.rows.now))) }
        ensures unused { unused self.new.rows.now ≡ unused self.old.rows.now }
        ensures lender { self.new.rows.ghost_name ≡ self.old.rows.ghost_name }
        ensures noted { O.noted self.new.order ≡ O.noted self.old.order }
    {
        let n = self.used();
        self.order.remove(&mut self.rows[0..n], &mut self.ledger, x);
    }
}

impl<'a, P: Copy, O: Order<P>> Store<P> for RowStore<'a, P, O> {
    ghost use Rattle.std.specs.Prelude.{◌≡◌, false, [], ◌∷◌, is_ok, if◌then◌else◌, OnErr, IsNone};
    ghost use mathlib.Core.List as lists;
    ghost use Rattle.timer_rows.proofs.Sounds.{meant_sound};
    ghost use Rattle.timer.specs.Rules.{due_rule, start_rule, stop_rule, take_rule, advance_rule};
    ghost use Rattle.timer_rows.specs.Rows.{used, unused, meant, NoneDue};
    ghost use Rattle.timer_rows.specs.declared.row.Row as row;

    ghost meaning = { λ s. meant (used s.rows.now) s.ledger };

    ghost sound = { λ s. meant_sound (used s.rows.now) s.ledger s.kept };

    ghost lenders = { λ s. s.rows.ghost_name ∷ [] };

    ghost spare = { lists.List (row.Row P) };

    ghost beyond = { λ s. unused s.rows.now };

    fn now(&self) -> u32 {
        self.ledger.now
    }

    fn last(&self) -> u32 {
        self.ledger.last
    }

    fn capacity(&self) -> usize {
        self.used()
    }

    fn given(&self) -> u32 {
        self.ledger.given
    }

    fn pending(&self) -> usize {
        usize::from(self.ledger.pending)
    }

    fn due(&self) -> bool
        ensures value { result ≡ due_rule (meant (used self.now.rows.now) self.now.ledger) }
        ensures none { result ≡ false → NoneDue self.now.ledger.now (used self.now.rows.now) }
    {
        self.first_due().is_some()
    }

    fn limit(&self, owner: u8) -> usize {
        if owner < 64 { self.used() } else { 0 }
    }

    fn count(&self, owner: u8) -> usize {
        number_of(&self.ledger.counts, owner)
    }

    #[tactic(auto, using(timer_rows::proofs::Parts::part_used))]
    fn check(&self, deadline: u32, owner: u8) -> Option<TimerFault> {
        let n = self.used();
        check(&self.rows[0..n], &self.ledger, deadline, owner)
    }

    fn start(&mut self, deadline: u32, owner: u8, payload: P) -> Result<u32, TimerFault>
        ensures answer { result ≡ (start_rule (meant (used self.old.rows.now) self.old.ledger) deadline owner payload).answer }
        ensures after { meant (used self.new.rows.now) self.new.ledger ≡ (start_rule (meant (used self.old.rows.now) self.old.ledger) deadline owner payload).after }
        ensures lenders { self.new.rows.ghost_name ∷ [] ≡ self.old.rows.ghost_name ∷ [] }
        ensures beyond { unused self.new.rows.now ≡ unused self.old.rows.now }
        ensures refused { OnErr result (self.new ≡ self.old) }
        ensures noted { O.noted self.new.order ≡ (if is_ok result then O.note_of (meant (used self.old.rows.now) self.old.ledger) deadline else O.noted self.old.order) }
    {
        if let Some(fault) = self.check(deadline, owner) {
            return Err(fault);
        }
        let n = self.used();
        let rows = &mut self.rows[0..n];
        let ledger = &mut self.ledger;
        Ok(self.order.insert(rows, ledger, deadline, owner, payload))
    }

    fn stop(&mut self, ticket: u32) -> Result<(u8, P), TimerFault>
        ensures answer { result ≡ (stop_rule (meant (used self.old.rows.now) self.old.ledger) ticket).answer }
        ensures after { meant (used self.new.rows.now) self.new.ledger ≡ (stop_rule (meant (used self.old.rows.now) self.old.ledger) ticket).after }
        ensures lenders { self.new.rows.ghost_name ∷ [] ≡ self.old.rows.ghost_name ∷ [] }
        ensures beyond { unused self.new.rows.now ≡ unused self.old.rows.now }
        ensures refused { OnErr result (self.new ≡ self.old) }
        ensures noted { O.noted self.new.order ≡ O.noted self.old.order }
    {
        let x = self.row_of(ticket).ok_or(TimerFault::Missing)?;
        let row = self.row_at(x);
        self.remove(x);
        Ok((row.owner, row.payload))
    }

    fn take(&mut self) -> Option<Expired<P>>
        ensures answer { result ≡ (take_rule (meant (used self.old.rows.now) self.old.ledger)).answer }
        ensures after { meant (used self.new.rows.now) self.new.ledger ≡ (take_rule (meant (used self.old.rows.now) self.old.ledger)).after }
        ensures lenders { self.new.rows.ghost_name ∷ [] ≡ self.old.rows.ghost_name ∷ [] }
        ensures beyond { unused self.new.rows.now ≡ unused self.old.rows.now }
        ensures refused { IsNone result → self.new ≡ self.old }
        ensures noted { O.noted self.new.order ≡ O.noted self.old.order }
    {
        let x = self.first_due()?;
        let row = self.row_at(x);
        self.remove(x);
        Some(Expired {
            ticket: row.ticket,
            owner: row.owner,
            payload: row.payload,
        })
    }

    fn advance(&mut self) -> Result<(), TimerFault>
        ensures answer { result ≡ (advance_rule (meant (used self.old.rows.now) self.old.ledger)).answer }
        ensures after { meant (used self.new.rows.now) self.new.ledger ≡ (advance_rule (meant (used self.old.rows.now) self.old.ledger)).after }
        ensures lenders { self.new.rows.ghost_name ∷ [] ≡ self.old.rows.ghost_name ∷ [] }
        ensures beyond { unused self.new.rows.now ≡ unused self.old.rows.now }
        ensures refused { OnErr result (self.new ≡ self.old) }
        ensures noted { O.noted self.new.order ≡ O.noted self.old.order }
    {
        if self.due() {
            return Err(TimerFault::Due);
        }
        if self.is_ended() {
            return Err(TimerFault::Ended);
        }
        let n = self.used();
        self.ledger.tick();
        self.order.cascade(&mut self.rows[0..n], &self.ledger);
        Ok(())
    }
}
