ghost use Rattle.std.specs.Prelude.{◌≡◌, Some, None};
ghost use Rattle.trace.specs.Columns.{bare, numbered, spoken};

use crate::action::{Segment, Transmission};

/// The columns of a line after its tick; a column without a value is printed as `-`.
#[derive(Clone, Copy)]
pub struct Columns {
    /// The letter of the line.
    pub letter: u8,
    /// The channel.
    pub channel: u8,
    /// The sequence number.
    pub sequence: Option<u32>,
    /// The word.
    pub word: Option<u32>,
    /// The packet that the call sent, which fills the last three columns.
    pub transmission: Option<Transmission>,
}

impl Columns {
    /// A line with nothing but its letter and its channel.
    pub fn bare(letter: u8, channel: u8) -> Columns
        ensures { result ≡ bare letter channel }
    {
        Columns {
            letter,
            channel,
            sequence: None,
            word: None,
            transmission: None,
        }
    }

    /// A line with a sequence number and no word.
    pub fn numbered(
        letter: u8,
        channel: u8,
        sequence: u32,
        transmission: Option<Transmission>,
    ) -> Columns
        ensures { result ≡ numbered letter channel sequence transmission }
    {
        Columns {
            letter,
            channel,
            sequence: Some(sequence),
            word: None,
            transmission,
        }
    }

    /// A line with a word and its sequence number.
    pub fn data(
        letter: u8,
        channel: u8,
        segment: Segment,
        transmission: Option<Transmission>,
    ) -> Columns
        ensures { result ≡ spoken letter channel segment transmission }
    {
        Columns {
            letter,
            channel,
            sequence: Some(segment.sequence),
            word: Some(segment.word),
            transmission,
        }
    }
}
