ghost use Rattle.std.specs.Prelude.{◌≡◌};
ghost use Rattle.trace.specs.Columns.{columns};

use crate::columns::Columns;

/// A word with its sequence number.
#[derive(Clone, Copy, PartialEq, Eq)]
pub struct Segment {
    /// The number of the word on its channel, from 0.
    pub sequence: u32,
    /// The word.
    pub word: u32,
}

/// A packet that was handed to the link, and what the link made of it.
#[derive(Clone, Copy, PartialEq, Eq)]
pub struct Transmission {
    /// The number of the packet, from 0 in order of sending.
    pub packet: u32,
    /// After how many ticks it arrives, or 0 if it is lost.
    pub delay: u16,
    /// How many copies of it are under way.
    pub copies: u8,
}

/// A sign of life that was sent.
#[derive(Clone, Copy, PartialEq, Eq)]
pub struct Heartbeat {
    /// The number of the channel's next new word.
    pub sequence: u32,
    /// The packet that was sent.
    pub transmission: Transmission,
}

/// What an accepted call of the rig did.
#[derive(Clone, Copy, PartialEq, Eq)]
pub enum Action {
    /// A channel was opened.
    Opened {
        /// The channel.
        channel: u8,
    },
    /// A new word was sent.
    Sent {
        /// The channel.
        channel: u8,
        /// The word and its number.
        segment: Segment,
        /// The packet with the word.
        transmission: Transmission,
    },
    /// The next word was taken, or none was there.
    Taken {
        /// The channel.
        channel: u8,
        /// The word and its number, if it was there.
        segment: Option<Segment>,
    },
    /// A channel was closed.
    Closed {
        /// The channel.
        channel: u8,
    },
    /// A packet with a word arrived.
    DataArrived {
        /// The channel.
        channel: u8,
        /// The word and its number.
        segment: Segment,
        /// The packet that acknowledges it, if one was sent.
        acknowledgement: Option<Transmission>,
    },
    /// An acknowledgement arrived.
    AcknowledgementArrived {
        /// The channel.
        channel: u8,
        /// The number that it acknowledges.
        sequence: u32,
    },
    /// A sign of life arrived.
    KeepaliveArrived {
        /// The channel.
        channel: u8,
        /// The number that it carries.
        sequence: u32,
    },
    /// A word was not acknowledged in time.
    Resent {
        /// The channel.
        channel: u8,
        /// The word and its number.
        segment: Segment,
        /// The packet with the word, if it was sent again.
        transmission: Option<Transmission>,
    },
    /// A channel's turn to give a sign of life came.
    KeepaliveSent {
        /// The channel.
        channel: u8,
        /// What was sent, if something was.
        heartbeat: Option<Heartbeat>,
    },
    /// Nothing was due, and the tick went on by one.
    Advanced,
}

impl Action {
    /// The columns of the line that tells of the action; an advance has no line.
    pub fn columns(self) -> Option<Columns>
        ensures { result ≡ columns self }
    {
        let columns = match self {
            Action::Opened { channel } => Columns::bare(b'O', channel),
            Action::Sent {
                channel,
                segment,
                transmission,
            } => Columns::data(b'S', channel, segment, Some(transmission)),
            Action::Taken {
                channel,
                segment: Some(segment),
            } => Columns::data(b'T', channel, segment, None),
            Action::Taken {
                channel,
                segment: None,
            } => Columns::bare(b'T', channel),
            Action::Closed { channel } => Columns::bare(b'C', channel),
            Action::DataArrived {
                channel,
                segment,
                acknowledgement,
            } => Columns::data(b'D', channel, segment, acknowledgement),
            Action::AcknowledgementArrived { channel, sequence } => Columns::numbered(
                b'A', channel, sequence, None,
            ),
            Action::KeepaliveArrived { channel, sequence } => Columns::numbered(
                b'K', channel, sequence, None,
            ),
            Action::Resent {
                channel,
                segment,
                transmission,
            } => Columns::data(b'R', channel, segment, transmission),
            Action::KeepaliveSent {
                channel,
                heartbeat: Some(heartbeat),
            } => Columns::numbered(
                b'H',
                channel,
                heartbeat.sequence,
                Some(heartbeat.transmission),
            ),
            Action::KeepaliveSent {
                channel,
                heartbeat: None,
            } => Columns::bare(b'H', channel),
            Action::Advanced => return None,
        };
        Some(columns)
    }
}
