ghost use Rattle.std.specs.Prelude.{◌≡◌};

/// A layer over a timer store, or over another layer, that holds each owner to a number of pending entries.
#[derive(Drop)]
pub struct Quota<'s, S> {
    /// The store below.
    pub(crate) inner: &'s mut S,
    /// How many entries of each owner may be pending, where the store below does not allow fewer.
    pub(crate) numbers: [u16; 64],
}

impl<'s, S> Quota<'s, S> {
    /// A quota over the store below.
    pub fn new(inner: &'s mut S, numbers: [u16; 64]) -> Quota<'s, S>
        ensures value { (result.inner.now ≡ inner.old) × (result.numbers ≡ numbers) }
        ensures lender { result.inner.ghost_name ≡ inner.entry.ghost_name }
    {
        Quota { inner, numbers }
    }
}
