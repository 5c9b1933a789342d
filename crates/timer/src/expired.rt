/// An entry whose deadline has come, as `take` answers it.
#[derive(Clone, Copy)]
pub struct Expired<P> {
    /// The ticket that `start` answered.
    pub ticket: u32,
    /// The owner that was passed to `start`.
    pub owner: u8,
    /// The payload that was passed to `start`.
    pub payload: P,
}
