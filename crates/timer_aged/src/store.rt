ghost use Rattle.std.specs.Prelude.{◌≡◌, ◌∷◌};
ghost use Rattle.timer_aged.specs.Aged.{aged, aged_sound};

use crate::aged::Aged;
use timer::expired::Expired;
use timer::fault::TimerFault;
use timer::store::Store;

impl<'s, P: Copy, S: Store<P>> Store<P> for Aged<'s, P, S> {
    ghost meaning = { λ s. aged (S.meaning s.inner.now) s.shift };

    ghost sound = { λ s. aged_sound (S.meaning s.inner.now) s.shift (S.sound s.inner.now) };

    ghost lenders = { λ s. s.inner.ghost_name ∷ S.lenders s.inner.now };

    ghost spare = { S.spare };

    ghost beyond = { λ s. S.beyond s.inner.now };

    fn now(&self) -> u32 {
        self.inner.now()
    }

    fn last(&self) -> u32 {
        self.inner.last()
    }

    fn capacity(&self) -> usize {
        self.inner.capacity()
    }

    fn given(&self) -> u32 {
        self.inner.given() + self.shift
    }

    fn pending(&self) -> usize {
        self.inner.pending()
    }

    #[tactic(auto, using(crate::proofs::Rulings::due_aged))]
    fn due(&self) -> bool {
        self.inner.due()
    }

    fn limit(&self, owner: u8) -> usize {
        self.inner.limit(owner)
    }

    #[tactic(auto, using(crate::proofs::Rulings::count_aged))]
    fn count(&self, owner: u8) -> usize {
        self.inner.count(owner)
    }

    #[tactic(auto, using(crate::proofs::Calls::checks))]
    fn check(&self, deadline: u32, owner: u8) -> Option<TimerFault> {
        let below = self.inner.check(deadline, owner);
        if self.given() < u32::MAX {
            return below;
        }
        match below {
            Some(fault) if fault.number() < TimerFault::Spent.number() => below,
            _ => Some(TimerFault::Spent),
        }
    }

    #[tactic(auto, using(crate::proofs::Calls::starts))]
    fn start(&mut self, deadline: u32, owner: u8, payload: P) -> Result<u32, TimerFault> {
        if let Some(fault) = self.check(deadline, owner) {
            return Err(fault);
        }
        let ticket = self.inner.start(deadline, owner, payload)?;
        Ok(ticket + self.shift)
    }

    #[tactic(auto, using(crate::proofs::Calls::stops))]
    fn stop(&mut self, ticket: u32) -> Result<(u8, P), TimerFault> {
        let below = ticket.checked_sub(self.shift).ok_or(TimerFault::Missing)?;
        self.inner.stop(below)
    }

    #[tactic(auto, using(crate::proofs::Calls::takes))]
    fn take(&mut self) -> Option<Expired<P>> {
        let expired = self.inner.take()?;
        Some(Expired {
            ticket: expired.ticket + self.shift,
            ..expired
        })
    }

    #[tactic(auto, using(crate::proofs::Calls::advances))]
    fn advance(&mut self) -> Result<(), TimerFault> {
        self.inner.advance()
    }
}
