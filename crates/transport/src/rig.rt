use engine::rig::Rig;
use trace::fault::RigFault;

/// How many channels a rig has, and how many records of a table it uses.
pub const CHANNELS: usize = channel::number::CHANNELS;

/// A rig that is not running yet: its settings, and how many fates were added to the caller's list.
#[derive(Debug, Drop)]
pub struct Draft {
    // the delay of packets without a fate of their own
    pub(crate) delay: u32,
    // the ticks between two signs of life
    pub(crate) interval: u32,
    // how many fates the list holds
    pub(crate) fates: usize,
}

/// A draft that could not begin.
#[derive(Debug, Drop)]
pub struct Refused {
    /// The draft, as it was.
    pub draft: Draft,
    /// Why it could not begin.
    pub fault: RigFault,
}

/// A rig that is running: its settings, and how many packets were sent.
#[derive(Drop)]
pub struct Running {
    pub(crate) rig: Rig,
}

/// A rig that has ended: its last tick, and how many packets were sent.
#[derive(Drop)]
pub struct Finished {
    pub(crate) tick: u32,
    pub(crate) packets: u32,
}
