ghost use Rattle.std.specs.Prelude.{◌≡◌, ◌-◌, ◌%◌, ◌≤◌, length, take};
ghost use Rattle.std.specs.List.{range_with_len, take_while};
ghost use Rattle.channel.specs.Record.{number_of, starting, as_read, unused, opened, is_open, is_unused, window_full, sent, resent, awaits, is_passed, risen, answered, front, without_front, has_place, acknowledges, received, closed, kept_alive, first_attempt, again, sample};

use estimator::estimate::Estimator;
use trace::action::Segment;

const WINDOW: u32 = 8;

const MOST_TRIES: u32 = 6;

/// What a channel can be used for.
#[derive(Clone, Copy, PartialEq, Eq)]
pub enum Status {
    /// It was never opened.
    Unused = 0,
    /// Words can be sent and taken.
    Open = 1,
    /// It was closed, for good.
    Closed = 2,
}

impl Status {
    /// The number that stands for the state: 0 unused, 1 open, 2 closed.
    pub fn number(self) -> u8
        ensures { result ≡ number_of self }
    {
        self as u8
    }
}

/// The record of a channel: both its ends.
#[derive(Clone, Copy)]
pub struct Channel {
    /// What the channel can be used for.
    pub status: Status,
    /// The number of the next new word.
    pub next: u32,
    /// The lowest number that may still wait for its acknowledgement.
    pub base: u32,
    /// The places of sent words, each word's at its number modulo 8: the ticket of the resend timer of a word that waits for its acknowledgement.
    pub sending: [Option<u32>; 8],
    /// How many words were taken, which is the number of the word to take next.
    pub taken: u32,
    /// The places of arriving words, each word's at its number modulo 8: a word that arrived and was not taken yet.
    pub receiving: [Option<u32>; 8],
    /// The estimate of the round-trip time and the retransmission timeout.
    pub estimator: Estimator,
    /// The ticket of the keepalive timer.
    pub keepalive: u32,
}

/// What a resend timer carries.
#[derive(Clone, Copy, PartialEq, Eq)]
pub struct Attempt {
    /// The word with its number.
    pub segment: Segment,
    /// How often it was sent again, counted up to 6.
    pub tries: u32,
    /// The tick in which it was first sent.
    pub sent: u32,
}

// Where the word of a number has its place, at both ends.
fn place(sequence: u32) -> usize
    ensures { result ≡ sequence % 8 }
{
    (sequence % WINDOW) as usize
}

// How many of the next eight numbers from `base` on, below `next`, have places where no word waits.
fn passed(base: u32, next: u32, places: &[Option<u32>; 8]) -> usize
    ensures value { result ≡ length (take_while (is_passed places.now) (take 8 (range_with_len base (next - base)))) }
    ensures most { result ≤ next - base }
{
    (base..next)
        .take(WINDOW as usize)
        .take_while(|sequence| places[place(*sequence)].is_none())
        .count()
}

// How far `base` rises past places where no word waits, at most to `next` and at most by eight.
#[tactic(auto, using(crate::proofs::Rising::risen_counts))]
fn rise(base: u32, next: u32, places: &[Option<u32>; 8]) -> u32
    ensures { result ≡ risen 8 base next places.now }
{
    base + passed(base, next, places) as u32
}

impl Channel {
    // A record with nothing sent and nothing arrived.
    fn starting(status: Status, keepalive: u32) -> Channel
        ensures { result ≡ starting status keepalive }
    {
        Channel {
            status,
            next: 0,
            base: 0,
            sending: [None; 8],
            taken: 0,
            receiving: [None; 8],
            estimator: Estimator::new(),
            keepalive,
        }
    }

    /// The record of a channel that was never opened.
    pub fn unused() -> Channel
        ensures { result ≡ unused }
    {
        Channel::starting(Status::Unused, 0)
    }

    /// The record of a channel that was just opened, whose keepalive timer has this ticket.
    pub fn opened(ticket: u32) -> Channel
        ensures { result ≡ opened ticket }
    {
        Channel::starting(Status::Open, ticket)
    }

    /// The record as every call reads it: `next` from `base` to eight past it, and the timeout in its range.
    pub fn read(mut self) -> Channel
        ensures value { result ≡ as_read self }
        ensures once { as_read result ≡ result }
    {
        self.repair();
        self
    }

    /// Makes the record what every call reads of it.
    pub fn repair(&mut self)
        ensures { self.new ≡ as_read self.old }
    {
        let most = self.base.saturating_add(WINDOW);
        self.next = self.next.min(most).max(self.base);
        self.estimator = self.estimator.in_range();
    }

    /// Whether words can be sent and taken.
    pub fn is_open(&self) -> bool
        ensures { result ≡ is_open self.now }
    {
        self.status == Status::Open
    }

    /// Whether the channel was never opened.
    pub fn is_unused(&self) -> bool
        ensures { result ≡ is_unused self.now }
    {
        self.status == Status::Unused
    }

    /// Whether as many words wait as there are places.
    pub fn window_full(&self) -> bool
        ensures { result ≡ window_full self.now }
    {
        self.next.saturating_sub(self.base) == WINDOW
    }

    /// Notes that one more word was sent, whose resend timer has this ticket.
    pub fn sent(&mut self, ticket: u32)
        ensures { self.new ≡ sent self.old ticket }
    {
        self.sending[place(self.next)] = Some(ticket);
        self.next = self.next.saturating_add(1);
    }

    /// Notes that the word of this number was sent again, whose resend timer has this ticket.
    pub fn resent(&mut self, sequence: u32, ticket: u32)
        ensures { self.new ≡ resent self.old sequence ticket }
    {
        self.sending[place(sequence)] = Some(ticket);
    }

    /// The ticket of the resend timer of the word with this number, if the word waits.
    pub fn awaits(&self, sequence: u32) -> Option<u32>
        ensures { result ≡ awaits self.now sequence }
    {
        if (self.base..self.next).contains(&sequence) {
            self.sending[place(sequence)]
        } else {
            None
        }
    }

    /// Notes that the word of this number was acknowledged, with the sample of the round-trip time that this gave, if any.
    pub fn answered(&mut self, sequence: u32, sample: Option<u32>)
        ensures { self.new ≡ answered self.old sequence sample }
    {
        self.sending[place(sequence)] = None;
        self.base = rise(self.base, self.next, &self.sending);
        if let Some(ticks) = sample {
            self.estimator.sample(ticks);
        }
    }

    /// Takes the word to take next, if it is there.
    pub fn take_front(&mut self) -> Option<Segment>
        ensures value { result ≡ front self.old }
        ensures after { self.new ≡ without_front self.old }
    {
        let sequence = self.taken;
        let word = self.receiving[place(sequence)].take()?;
        self.taken = self.taken.saturating_add(1);
        Some(Segment { sequence, word })
    }

    // Whether there is a place for the word of this number.
    fn has_place(&self, sequence: u32) -> bool
        ensures { result ≡ has_place self.now sequence }
    {
        (self.taken..=self.taken.saturating_add(WINDOW - 1)).contains(&sequence)
    }

    /// Whether a word with this number that arrives is acknowledged: it was taken, or there is a place for it.
    pub fn acknowledges(&self, sequence: u32) -> bool
        ensures { result ≡ acknowledges self.now sequence }
    {
        sequence < self.taken || self.has_place(sequence)
    }

    /// Notes that this word arrived: it fills its place, if there is one and no word is there already.
    pub fn received(&mut self, segment: Segment)
        ensures { self.new ≡ received self.old segment }
    {
        if self.has_place(segment.sequence) {
            self.receiving[place(segment.sequence)].get_or_insert(segment.word);
        }
    }

    /// Notes that the channel was closed.
    pub fn closed(&mut self)
        ensures { self.new ≡ closed self.old }
    {
        self.status = Status::Closed;
    }

    /// Notes another ticket of the keepalive timer.
    pub fn kept_alive(&mut self, ticket: u32)
        ensures { self.new ≡ kept_alive self.old ticket }
    {
        self.keepalive = ticket;
    }
}

impl Attempt {
    /// The first attempt to send a word, in this tick.
    pub fn first(segment: Segment, tick: u32) -> Attempt
        ensures { result ≡ first_attempt segment tick }
    {
        Attempt {
            segment,
            tries: 0,
            sent: tick,
        }
    }

    /// The attempt that follows this one.
    pub fn again(self) -> Attempt
        ensures { result ≡ again self }
    {
        Attempt {
            tries: self.tries.saturating_add(1).min(MOST_TRIES),
            ..self
        }
    }

    /// The sample of the round-trip time that an acknowledgement in this tick gives; none if the word was sent again.
    pub fn sample(&self, tick: u32) -> Option<u32>
        ensures { result ≡ sample self.now tick }
    {
        (self.tries == 0).then(|| tick.saturating_sub(self.sent))
    }
}
