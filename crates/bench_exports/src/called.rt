ghost use Rattle.std.specs.Prelude.{◌≡◌, ◌∷◌};

use timer::expired::Expired;
use timer::fault::TimerFault;
use timer::store::Store;

/// A layer over a timer store, or over another layer, that passes every call on. Those that a workload makes in number stay calls: they are not inlined into it.
#[derive(Drop)]
pub struct Called<'s, S> {
    /// The store below.
    inner: &'s mut S,
}

impl<'s, S> Called<'s, S> {
    /// A layer over the store below.
    pub fn new(inner: &'s mut S) -> Called<'s, S>
        ensures value { result.inner.now ≡ inner.old }
        ensures lender { result.inner.ghost_name ≡ inner.entry.ghost_name }
    {
        Called { inner }
    }
}

impl<'s, P: Copy, S: Store<P>> Store<P> for Called<'s, S> {
    ghost meaning = { λ s. S.meaning s.inner.now };

    ghost sound = { λ s. S.sound s.inner.now };

    ghost lenders = { λ s. s.inner.ghost_name ∷ S.lenders s.inner.now };

    ghost spare = { S.spare };

    ghost beyond = { λ s. S.beyond s.inner.now };

    // LLVM reads the number at the caller all the same, so that no call is left.
    #[inline(never)]
    fn now(&self) -> u32 {
        self.inner.now()
    }

    fn last(&self) -> u32 {
        self.inner.last()
    }

    fn capacity(&self) -> usize {
        self.inner.capacity()
    }

    fn given(&self) -> u32 {
        self.inner.given()
    }

    #[inline(never)]
    fn pending(&self) -> usize {
        self.inner.pending()
    }

    fn due(&self) -> bool {
        self.inner.due()
    }

    fn limit(&self, owner: u8) -> usize {
        self.inner.limit(owner)
    }

    fn count(&self, owner: u8) -> usize {
        self.inner.count(owner)
    }

    fn check(&self, deadline: u32, owner: u8) -> Option<TimerFault> {
        self.inner.check(deadline, owner)
    }

    #[inline(never)]
    fn start(&mut self, deadline: u32, owner: u8, payload: P) -> Result<u32, TimerFault> {
        self.inner.start(deadline, owner, payload)
    }

    #[inline(never)]
    fn stop(&mut self, ticket: u32) -> Result<(u8, P), TimerFault> {
        self.inner.stop(ticket)
    }

    #[inline(never)]
    fn take(&mut self) -> Option<Expired<P>> {
        self.inner.take()
    }

    #[inline(never)]
    fn advance(&mut self) -> Result<(), TimerFault> {
        self.inner.advance()
    }
}
