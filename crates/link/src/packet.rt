use trace::action::Segment;

/// What one end of a channel sends to the other.
#[derive(Clone, Copy, PartialEq, Eq)]
pub enum Packet {
    /// A word with its number.
    Data(Segment),
    /// The word with this number arrived.
    Acknowledgement {
        /// The number of the word.
        sequence: u32,
    },
    /// A sign of life.
    Keepalive {
        /// The number of the channel's next new word.
        sequence: u32,
    },
}
