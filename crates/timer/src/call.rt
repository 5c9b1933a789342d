use crate::expired::Expired;
use crate::fault::TimerFault;

/// A call of a store that can change it, as data.
#[derive(Clone, Copy)]
pub enum Call<P> {
    /// `start` with a deadline, an owner and a payload.
    Start(u32, u8, P),
    /// `stop` of a ticket.
    Stop(u32),
    /// `take`.
    Take,
    /// `advance`.
    Advance,
}

/// What a store answers to such a call.
#[derive(Clone, Copy)]
pub enum Answer<P> {
    /// The ticket of the new entry, or the refusal.
    Start(Result<u32, TimerFault>),
    /// The owner and the payload of the stopped entry, or the refusal.
    Stop(Result<(u8, P), TimerFault>),
    /// The due entry with the lowest ticket, if one is due.
    Take(Option<Expired<P>>),
    /// Nothing, or the refusal.
    Advance(Result<(), TimerFault>),
}
