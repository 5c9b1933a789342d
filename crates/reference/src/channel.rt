ghost use Rattle.std.specs.Prelude.{◌<◌};

use crate::estimator::Estimator;

// How many words can be between the lowest that waits and the next new one.
const PLACES: usize = 8;

/// What became of a channel.
#[derive(Clone, Copy, PartialEq, Eq, Debug)]
pub enum Status {
    /// It was never opened.
    Unused,
    /// It is open.
    Open,
    /// It was closed.
    Closed,
}

/// A place for a word that was sent.
#[derive(Clone, Copy, PartialEq, Eq, Debug)]
pub enum Sending {
    /// Its word was acknowledged, or none was sent.
    Answered,
    /// Its word waits, with this ticket of its resend timer.
    Waiting(u32),
}

/// The record of a channel.
#[derive(Clone, Copy, PartialEq, Eq, Debug)]
pub struct Record {
    /// Whether the channel is unused, open or closed.
    pub status: Status,
    /// The number of the next new word.
    pub next: u32,
    /// The lowest number that may still wait for its acknowledgement.
    pub base: u32,
    /// The places of the words that were sent, by number modulo 8.
    pub sending: [Sending; PLACES],
    /// The number of the next word to take.
    pub taken: u32,
    /// The places of the words that arrived, by number modulo 8.
    pub receiving: [Option<u32>; PLACES],
    /// What is known of the round-trip time.
    pub estimator: Estimator,
    /// The ticket of the keepalive timer.
    pub keepalive: u32,
}

// The place of a number.
fn place_of(number: u32) -> usize
    ensures { result < 8 }
{
    number as usize % PLACES
}

impl Record {
    /// The record of a channel that was never opened.
    pub fn unused() -> Record {
        Record {
            status: Status::Unused,
            next: 0,
            base: 0,
            sending: [Sending::Answered; PLACES],
            taken: 0,
            receiving: [None; PLACES],
            estimator: Estimator::without_sample(),
            keepalive: 0,
        }
    }

    /// The record of a channel that was just opened, with the ticket of its keepalive timer.
    pub fn opened(ticket: u32) -> Record {
        let mut record = Record::unused();
        record.status = Status::Open;
        record.keepalive = ticket;
        record
    }

    /// The record as it is read: with `next` and the timeout cut to their ranges.
    pub fn as_read(self) -> Record {
        let mut record = self;
        let most = self.base.saturating_add(8);
        record.next = self.next.max(self.base).min(most);
        record.estimator.timeout = self.estimator.timeout();
        record
    }

    /// Whether the window is full, so that no new word can be sent.
    pub fn is_full(self) -> bool {
        self.next.saturating_sub(self.base) >= 8
    }

    /// The sending place of a number.
    pub fn sending_of(self, number: u32) -> Sending {
        self.sending[place_of(number)]
    }

    /// Sets the sending place of a number.
    pub fn set_sending(&mut self, number: u32, place: Sending) {
        self.sending[place_of(number)] = place;
    }

    /// The word in the receiving place of a number, if it is filled.
    pub fn received(self, number: u32) -> Option<u32> {
        self.receiving[place_of(number)]
    }

    /// Sets the receiving place of a number.
    pub fn set_received(&mut self, number: u32, word: Option<u32>) {
        self.receiving[place_of(number)] = word;
    }

    /// Raises `base` past answered places, at most to `next`.
    pub fn raise_base(&mut self) {
        for _ in 0..PLACES {
            if self.base < self.next && self.sending_of(self.base) == Sending::Answered {
                self.base = self.base.saturating_add(1);
            }
        }
    }
}
