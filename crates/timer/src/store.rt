ghost use Rattle.std.specs.Prelude.{◌≡◌, List, length};
ghost use Rattle.std.specs.Borrow.{GName};
ghost use Rattle.timer.specs.Faults.{checked_number};
ghost use Rattle.timer.specs.Meaning.{Meaning, Sound};
ghost use Rattle.timer.specs.Rules.{Lowest, applies, check_rule, start_rule, stop_rule, take_rule, advance_rule, due_rule, limit_rule, count_rule};

use crate::expired::Expired;
use crate::fault::TimerFault;

/// A timer store: entries with a deadline, an owner from 0 to 63 and a payload, and a tick that advances one by one.
///
/// Each call is pinned by a rule on the store's meaning, so that code over this trait runs alike over every store.
pub trait Store<P> {
    // what the store means
    ghost meaning: { Self → Meaning P };

    // what holds of that meaning at any time
    ghost sound: { (s : Self) → Sound (meaning s) };

    // the names of the loans that the store works in
    ghost lenders: { Self → List GName };

    // the type of what the store was lent and does not use
    ghost spare: { Type 0 };

    // what the store was lent and does not use
    ghost beyond: { Self → spare };

    /// The current tick.
    fn now(&self) -> u32
        ensures { result ≡ (meaning self.now).now };

    /// The last tick that `advance` can reach.
    fn last(&self) -> u32
        ensures { result ≡ (meaning self.now).last };

    /// How many entries can be pending at a time.
    fn capacity(&self) -> usize
        ensures { result ≡ (meaning self.now).capacity };

    /// How many tickets have been given, which is also the latest ticket.
    fn given(&self) -> u32
        ensures { result ≡ (meaning self.now).given };

    /// How many entries are pending.
    fn pending(&self) -> usize
        ensures { result ≡ length (meaning self.now).pending };

    /// Whether an entry's deadline is now.
    fn due(&self) -> bool
        ensures { result ≡ due_rule (meaning self.now) };

    /// How many entries of the owner may be pending at a time; 0 for an owner above 63.
    fn limit(&self, owner: u8) -> usize
        ensures { result ≡ limit_rule (meaning self.now) owner };

    /// How many entries of the owner are pending; 0 for an owner above 63.
    fn count(&self, owner: u8) -> usize
        ensures { result ≡ count_rule (meaning self.now) owner };

    /// The lowest refusal that `start` would answer, or `None`.
    fn check(&self, deadline: u32, owner: u8) -> Option<TimerFault>
        ensures { result ≡ check_rule (meaning self.now) deadline owner };

    /// Adds an entry and answers its ticket, the first being 1.
    fn start(&mut self, deadline: u32, owner: u8, payload: P) -> Result<u32, TimerFault>
        ensures answer { result ≡ (start_rule (meaning self.old) deadline owner payload).answer }
        ensures after { meaning self.new ≡ (start_rule (meaning self.old) deadline owner payload).after }
        ensures lenders { lenders self.new ≡ lenders self.old }
        ensures beyond { beyond self.new ≡ beyond self.old };

    /// Removes the pending entry of the ticket, due or not, and answers its owner and payload.
    fn stop(&mut self, ticket: u32) -> Result<(u8, P), TimerFault>
        ensures answer { result ≡ (stop_rule (meaning self.old) ticket).answer }
        ensures after { meaning self.new ≡ (stop_rule (meaning self.old) ticket).after }
        ensures lenders { lenders self.new ≡ lenders self.old }
        ensures beyond { beyond self.new ≡ beyond self.old };

    /// Removes the due entry with the lowest ticket, and answers it.
    fn take(&mut self) -> Option<Expired<P>>
        ensures answer { result ≡ (take_rule (meaning self.old)).answer }
        ensures after { meaning self.new ≡ (take_rule (meaning self.old)).after }
        ensures lenders { lenders self.new ≡ lenders self.old }
        ensures beyond { beyond self.new ≡ beyond self.old };

    /// Adds one to now.
    fn advance(&mut self) -> Result<(), TimerFault>
        ensures answer { result ≡ (advance_rule (meaning self.old)).answer }
        ensures after { meaning self.new ≡ (advance_rule (meaning self.old)).after }
        ensures lenders { lenders self.new ≡ lenders self.old }
        ensures beyond { beyond self.new ≡ beyond self.old };
}

/// The number of the refusal that `check` answers, or 0.
pub fn check_number<P: Copy, S: Store<P>>(store: &S, deadline: u32, owner: u8) -> u8
    ensures value { result ≡ checked_number (check_rule (S.meaning store.now) deadline owner) }
    ensures lowest { Lowest (applies (S.meaning store.now) deadline owner) (check_rule (S.meaning store.now) deadline owner) }
{
    store
        .check(deadline, owner)
        .map_or(0, |fault| fault.number())
}
