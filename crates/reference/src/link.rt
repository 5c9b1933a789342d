use trace::action::Segment;

/// A packet, as the wire's store holds it.
#[derive(Clone, Copy, PartialEq, Eq)]
pub enum Packet {
    /// A word with its number.
    Data(Segment),
    /// The number of a word that arrived.
    Acknowledgement(u32),
    /// The number of the sender's next new word.
    Keepalive(u32),
}

/// A word that waits for its acknowledgement, as the resend store holds it.
#[derive(Clone, Copy, PartialEq, Eq)]
pub struct Unanswered {
    /// The word with its number.
    pub segment: Segment,
    /// How many times it was resent, counted up to six.
    pub tries: u8,
    /// The tick of the first sending.
    pub first: u32,
}

/// How many copies of a packet with this fate go under way.
pub fn copies_of(fate: u32) -> u8 {
    if delay_of(fate) == 0 {
        0
    } else if fate & 0x8000 == 0 {
        1
    } else {
        2
    }
}

/// After how many ticks a packet with this fate arrives, or 0 if it is lost.
pub fn delay_of(fate: u32) -> u16 {
    (fate & 0x7fff) as u16
}
