/// A call of a running rig, as data.
#[derive(Clone, Copy, PartialEq, Eq)]
pub enum Operation {
    /// Opens a channel.
    Open(u32),
    /// Sends a word on a channel.
    Send(u32, u32),
    /// Takes the next word of a channel.
    Take(u32),
    /// Closes a channel.
    Close(u32),
    /// Does what is due next, or lets the tick go on.
    Step,
}
