ghost use Rattle.timer_aged.specs.Aged.{Numbered};

use std::marker::PhantomData;
use timer::store::Store;

/// A layer over a timer store, or over another layer, whose tickets go on as if so many more had been given.
#[derive(Drop)]
pub struct Aged<'s, P: Copy, S: Store<P>> {
    /// The store below.
    pub(crate) inner: &'s mut S,
    /// How much higher its tickets are than those of the store below.
    pub(crate) shift: u32,
    /// The type of the payloads, which no other field names.
    pub(crate) payload: PhantomData<P>,
    ghost numbered: { ∥ Numbered (S.meaning inner.now) shift ∥₁ },
}

impl<'s, P: Copy, S: Store<P>> Aged<'s, P, S> {
    ghost use Rattle.std.specs.Prelude.{◌≡◌};
    ghost use Rattle.timer_aged.specs.Aged.{shift_rule};

    /// Ages the store below by so many tickets, or by all that it has left; one in which something is pending is not aged.
    pub fn new(inner: &'s mut S, shift: u32) -> Aged<'s, P, S>
        ensures value { (result.inner.now ≡ inner.old) × (result.shift ≡ shift_rule (S.meaning inner.old) shift) }
        ensures lender { result.inner.ghost_name ≡ inner.entry.ghost_name }
    {
        let left = u32::MAX - inner.given();
        let shift = if inner.pending() == 0 {
            shift.min(left)
        } else {
            0
        };
        Aged {
            inner,
            shift,
            payload: PhantomData,
        }
    }
}
