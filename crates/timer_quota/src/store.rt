ghost use Rattle.std.specs.Prelude.{◌≡◌, ◌∷◌};
ghost use Rattle.timer_quota.specs.Quota.{limited, limited_sound};

use crate::quota::Quota;
use timer::expired::Expired;
use timer::fault::TimerFault;
use timer::owners::number_of;
use timer::store::Store;

impl<'s, P: Copy, S: Store<P>> Store<P> for Quota<'s, S> {
    ghost meaning = { λ s. limited (S.meaning s.inner.now) s.numbers };

    ghost sound = { λ s. limited_sound (S.meaning s.inner.now) s.numbers (S.sound s.inner.now) };

    ghost lenders = { λ s. s.inner.ghost_name ∷ S.lenders s.inner.now };

    ghost spare = { S.spare };

    ghost beyond = { λ s. S.beyond s.inner.now };

    fn now(&self) -> u32 {
        self.inner.now()
    }

    fn last(&self) -> u32 {
        self.inner.last()
    }

    fn capacity(&self) -> usize {
        self.inner.capacity()
    }

    fn given(&self) -> u32 {
        self.inner.given()
    }

    fn pending(&self) -> usize {
        self.inner.pending()
    }

    fn due(&self) -> bool {
        self.inner.due()
    }

    fn limit(&self, owner: u8) -> usize {
        number_of(&self.numbers, owner).min(self.inner.limit(owner))
    }

    fn count(&self, owner: u8) -> usize {
        self.inner.count(owner)
    }

    fn check(&self, deadline: u32, owner: u8) -> Option<TimerFault> {
        let at_number = self.count(owner) >= number_of(&self.numbers, owner);
        let own = at_number.then_some(TimerFault::Limit);
        self.inner.check(deadline, owner).or(own)
    }

    #[tactic(auto, using(crate::proofs::Cuts::start_answer, crate::proofs::Cuts::start_after))]
    fn start(&mut self, deadline: u32, owner: u8, payload: P) -> Result<u32, TimerFault> {
        if let Some(fault) = self.check(deadline, owner) {
            return Err(fault);
        }
        self.inner.start(deadline, owner, payload)
    }

    fn stop(&mut self, ticket: u32) -> Result<(u8, P), TimerFault> {
        self.inner.stop(ticket)
    }

    fn take(&mut self) -> Option<Expired<P>> {
        self.inner.take()
    }

    fn advance(&mut self) -> Result<(), TimerFault> {
        self.inner.advance()
    }
}
