use protocol::operation::Operation;
use trace::queue::Queue;

/// What can be asked of a store.
#[derive(Clone, Copy, PartialEq, Eq)]
pub enum StoreQuestion {
    /// The tick.
    Now,
    /// The last tick.
    Last,
    /// How many entries can be pending at once.
    Capacity,
    /// How many tickets were given.
    Given,
    /// How many entries are pending.
    Pending,
    /// Whether an entry is due.
    Due,
    /// The limit of an owner.
    Limit(u8),
    /// How many of an owner's entries are pending.
    Count(u8),
    /// What a start with this deadline and owner would be refused with.
    Check(u32, u8),
}

/// What can be asked of a running rig and its stores.
#[derive(Clone, Copy, PartialEq, Eq)]
pub enum Question {
    /// The state of a channel.
    Status(u32),
    /// The retransmission timeout of a channel.
    Timeout(u32),
    /// How many packets were sent.
    Packets,
    /// A question to one of the stores.
    Store(Queue, StoreQuestion),
}

/// A call of a session.
#[derive(Clone, Copy, PartialEq, Eq)]
pub enum Call {
    /// A call that can change the rig.
    Operate(Operation),
    /// A question.
    Ask(Question),
}

/// A command of a session.
#[derive(Clone, Copy, PartialEq, Eq)]
pub enum Command {
    /// One call.
    Call(Call),
    /// Steps as long as the tick is below this one or something is due, up to a step that is refused.
    StepUntil(u32),
}
