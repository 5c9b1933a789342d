use crate::channel::{Record, Sending, Status};
use crate::estimator::Estimator;
use crate::link::{Packet, Unanswered, copies_of, delay_of};
use crate::store::PlainStore;
use std::alloc::{AllocError, Global};
use timer::fault::TimerFault;
use trace::action::{Action, Heartbeat, Segment, Transmission};
use trace::fault::RigFault;
use trace::queue::{Queue, StoreFault};

// How many channels a rig has.
const CHANNELS: usize = 64;

// How many fates a rig takes.
const FATES: usize = 4_096;

// How far away the last tick has to be.
const SPAN: u32 = 60_000;

// Why a call ends early.
#[derive(Drop)]
enum Halt {
    // It is refused.
    Refused(RigFault),
    // Memory ran out.
    Memory(AllocError),
}

impl From<RigFault> for Halt {
    fn from(fault: RigFault) -> Halt {
        Halt::Refused(fault)
    }
}

impl From<AllocError> for Halt {
    fn from(error: AllocError) -> Halt {
        Halt::Memory(error)
    }
}

// The outcome of a call, with want of memory apart.
fn apart<T: Drop>(outcome: Result<T, Halt>) -> Result<Result<T, RigFault>, AllocError> {
    match outcome {
        Ok(value) => Ok(Ok(value)),
        Err(Halt::Refused(fault)) => Ok(Err(fault)),
        Err(Halt::Memory(error)) => Err(error),
    }
}

// The answer of a store, with the store's name on a refusal.
fn named<T: Copy>(queue: Queue, answer: Result<T, TimerFault>) -> Result<T, RigFault> {
    match answer {
        Ok(value) => Ok(value),
        Err(fault) => Err(RigFault::Store(StoreFault { queue, fault })),
    }
}

// Whether a store has pending entries or gave tickets.
fn was_used<P: Copy>(store: &PlainStore<P>) -> bool {
    store.pending() > 0 || store.given() > 0
}

// Whether a store has fewer than two tickets left.
fn is_spent<P: Copy>(store: &PlainStore<P>) -> bool {
    u32::MAX - store.given() < 2
}

// The number of a channel, where any above 63 stands for one that there is not.
fn short(channel: u32) -> u8 {
    channel.min(64) as u8
}

/// What a rig is set to.
#[derive(Clone, Copy, PartialEq, Eq, Debug)]
pub struct Settings {
    /// The fate of a packet for which none was added.
    pub default_delay: u32,
    /// After how many ticks a channel gives a sign of life again.
    pub interval: u32,
}

/// A rig of 64 channels over three plain stores.
#[derive(Drop)]
pub struct Rig {
    /// The default delay and the interval.
    pub settings: Settings,
    /// The packets that are under way.
    pub wire: PlainStore<Packet>,
    /// The words that wait for their acknowledgement.
    pub resend: PlainStore<Unanswered>,
    /// The channels that will give a sign of life.
    pub keepalive: PlainStore<u8>,
    /// The records of the channels, of which the first 64 are used.
    pub table: Vec<Record>,
    /// The list of fates, with whatever it held where none was added.
    pub fates: Vec<u16>,
    /// How many fates were added.
    pub added: usize,
    /// How many packets were sent.
    pub packets: u32,
}

impl Rig {
    /// A rig before begin, with a list that has room for so many fates.
    pub fn new(
        heap: Global,
        settings: Settings,
        wire: PlainStore<Packet>,
        resend: PlainStore<Unanswered>,
        keepalive: PlainStore<u8>,
        table: Vec<Record>,
        room: usize,
    ) -> Result<Rig, AllocError> {
        Ok(Rig {
            settings,
            wire,
            resend,
            keepalive,
            table,
            fates: vec![in heap; 0; room]?,
            added: 0,
            packets: 0,
        })
    }

    /// Adds a fate to the list.
    pub fn add_fate(&mut self, fate: u16) -> Result<(), RigFault> {
        if self.added >= FATES {
            return Err(RigFault::Fates);
        }
        let place = self.fates.get_mut(self.added).ok_or(RigFault::Fates)?;
        *place = fate;
        self.added = self.added.saturating_add(1);
        Ok(())
    }

    // What begin tests, in the order of the numbers.
    fn begin_fault(&self) -> Option<RigFault> {
        let now = self.wire.now();
        let last = self.wire.last();
        let is_set = (1..=32_767).contains(&self.settings.default_delay)
            && (1..=60_000).contains(&self.settings.interval);
        let is_together = self.resend.now() == now
            && self.keepalive.now() == now
            && self.resend.last() == last
            && self.keepalive.last() == last;
        let is_used = was_used(&self.wire) || was_used(&self.resend) || was_used(&self.keepalive);
        if !is_set {
            Some(RigFault::Setting)
        } else if !is_together {
            Some(RigFault::Clocks)
        } else if is_used {
            Some(RigFault::Used)
        } else if last.saturating_sub(now) < SPAN {
            Some(RigFault::Span)
        } else if self.table.len() < CHANNELS {
            Some(RigFault::Table)
        } else {
            None
        }
    }

    /// Begins to run: no packet was sent, and the first 64 records are unused.
    pub fn begin(&mut self) -> Result<(), RigFault> {
        if let Some(fault) = self.begin_fault() {
            return Err(fault);
        }
        self.packets = 0;
        for record in self.table.iter_mut().take(CHANNELS) {
            *record = Record::unused();
        }
        Ok(())
    }

    /// The tick and the number of packets sent, as a finished rig tells them.
    pub fn finish(&self) -> (u32, u32) {
        (self.wire.now(), self.packets)
    }

    /// A channel's status: 0 unused, 1 open, 2 closed, and 3 where there is no such channel.
    pub fn status(&self, channel: u32) -> u8 {
        match self.find(short(channel)) {
            None => 3,
            Some(record) => match record.status {
                Status::Unused => 0,
                Status::Open => 1,
                Status::Closed => 2,
            },
        }
    }

    /// A channel's timeout, and 0 where there is no such channel.
    pub fn timeout(&self, channel: u32) -> u32 {
        match self.find(short(channel)) {
            None => 0,
            Some(record) => record.estimator.timeout(),
        }
    }

    /// How many packets were sent.
    pub fn packets(&self) -> u32 {
        self.packets
    }

    // The record of a channel as it is read, if there is such a channel.
    fn find(&self, channel: u8) -> Option<Record> {
        if channel > 63 {
            return None;
        }
        let record = self.table.get(usize::from(channel))?;
        Some(record.as_read())
    }

    // The record of a channel as it is read, if the channel is open.
    fn find_open(&self, channel: u8) -> Option<Record> {
        let record = self.find(channel)?;
        if record.status == Status::Open {
            Some(record)
        } else {
            None
        }
    }

    // Stores the record of a channel.
    fn store(&mut self, channel: u8, record: Record) {
        if let Some(place) = self.table.get_mut(usize::from(channel)) {
            *place = record;
        }
    }

    // The test of the table.
    fn test_table(&self) -> Result<(), RigFault> {
        if self.table.len() < CHANNELS {
            Err(RigFault::Table)
        } else {
            Ok(())
        }
    }

    // The record of a channel that has to be open.
    fn open_record(&self, channel: u8) -> Result<Record, RigFault> {
        self.test_table()?;
        if channel > 63 {
            return Err(RigFault::Channel);
        }
        self.find_open(channel).ok_or(RigFault::State)
    }

    // Whether a store has fewer than two tickets left, or no packet number is left.
    fn is_spent(&self) -> bool {
        is_spent(&self.wire)
            || is_spent(&self.resend)
            || is_spent(&self.keepalive)
            || self.packets == u32::MAX
    }

    // Makes room for the most that a call starts, so that want of memory changes nothing.
    fn make_room(&mut self) -> Result<(), AllocError> {
        self.wire.make_room(2)?;
        self.resend.make_room(1)?;
        self.keepalive.make_room(1)
    }

    // The tick after so many.
    fn after(&self, ticks: u32) -> u32 {
        self.wire.now().saturating_add(ticks)
    }

    // The fate of a packet.
    fn fate(&self, packet: u32) -> u32 {
        let number = packet as usize;
        if number >= self.added {
            return self.settings.default_delay;
        }
        match self.fates.get(number) {
            Some(fate) => u32::from(*fate),
            None => self.settings.default_delay,
        }
    }

    // Sends a packet on a channel.
    fn transmit(&mut self, channel: u8, packet: Packet) -> Result<Transmission, AllocError> {
        let number = self.packets;
        let fate = self.fate(number);
        let delay = delay_of(fate);
        let deadline = self.after(u32::from(delay));
        let mut copies: u8 = 0;
        for _ in 0..copies_of(fate) {
            if self.wire.start(deadline, channel, packet)?.is_ok() {
                copies = copies.saturating_add(1);
            }
        }
        self.packets = number.saturating_add(1);
        Ok(Transmission {
            packet: number,
            delay,
            copies,
        })
    }

    // Starts a resend timer and answers its ticket.
    fn start_resend(
        &mut self,
        channel: u8,
        estimator: Estimator,
        unanswered: Unanswered,
    ) -> Result<u32, Halt> {
        let deadline = self.after(estimator.wait(unanswered.tries));
        let answer = self.resend.start(deadline, channel, unanswered)?;
        Ok(named(Queue::Resend, answer)?)
    }

    // Starts a keepalive timer and answers its ticket.
    fn start_keepalive(&mut self, channel: u8) -> Result<u32, Halt> {
        let deadline = self.after(self.settings.interval);
        let answer = self.keepalive.start(deadline, channel, channel)?;
        Ok(named(Queue::Keepalive, answer)?)
    }

    /// Opens a channel.
    pub fn open(&mut self, channel: u32) -> Result<Result<Action, RigFault>, AllocError> {
        self.make_room()?;
        apart(self.try_open(short(channel)))
    }

    fn try_open(&mut self, channel: u8) -> Result<Action, Halt> {
        self.test_table()?;
        let record = self.find(channel).ok_or(RigFault::Channel)?;
        if record.status != Status::Unused {
            return Err(Halt::Refused(RigFault::State));
        }
        if self.is_spent() {
            return Err(Halt::Refused(RigFault::Spent));
        }
        let ticket = self.start_keepalive(channel)?;
        self.store(channel, Record::opened(ticket));
        Ok(Action::Opened { channel })
    }

    /// Sends a new word on a channel.
    pub fn send(
        &mut self,
        channel: u32,
        word: u32,
    ) -> Result<Result<Action, RigFault>, AllocError> {
        self.make_room()?;
        apart(self.try_send(short(channel), word))
    }

    fn try_send(&mut self, channel: u8, word: u32) -> Result<Action, Halt> {
        let mut record = self.open_record(channel)?;
        if self.is_spent() || record.next == u32::MAX {
            return Err(Halt::Refused(RigFault::Spent));
        }
        if record.is_full() {
            return Err(Halt::Refused(RigFault::Window));
        }
        let segment = Segment {
            sequence: record.next,
            word,
        };
        let unanswered = Unanswered {
            segment,
            tries: 0,
            first: self.wire.now(),
        };
        let ticket = self.start_resend(channel, record.estimator, unanswered)?;
        let transmission = self.transmit(channel, Packet::Data(segment))?;
        record.set_sending(segment.sequence, Sending::Waiting(ticket));
        record.next = record.next.saturating_add(1);
        self.store(channel, record);
        Ok(Action::Sent {
            channel,
            segment,
            transmission,
        })
    }

    /// Takes the next word of a channel, if it is there.
    pub fn take(&mut self, channel: u32) -> Result<Action, RigFault> {
        let channel = short(channel);
        let mut record = self.open_record(channel)?;
        let number = record.taken;
        let segment = match record.received(number) {
            None => None,
            Some(word) => {
                record.set_received(number, None);
                record.taken = number.saturating_add(1);
                Some(Segment {
                    sequence: number,
                    word,
                })
            }
        };
        self.store(channel, record);
        Ok(Action::Taken { channel, segment })
    }

    /// Closes a channel.
    pub fn close(&mut self, channel: u32) -> Result<Action, RigFault> {
        let channel = short(channel);
        let mut record = self.open_record(channel)?;
        for place in record.sending.iter() {
            if let Sending::Waiting(ticket) = place {
                let _ = self.resend.stop(*ticket);
            }
        }
        let _ = self.keepalive.stop(record.keepalive);
        record.status = Status::Closed;
        self.store(channel, record);
        Ok(Action::Closed { channel })
    }

    /// Does the first thing that is to be done, or goes on by one tick.
    pub fn step(&mut self) -> Result<Result<Action, RigFault>, AllocError> {
        self.make_room()?;
        apart(self.try_step())
    }

    fn try_step(&mut self) -> Result<Action, Halt> {
        self.test_table()?;
        if self.is_spent() {
            return Err(Halt::Refused(RigFault::Spent));
        }
        let is_due = self.wire.due() || self.resend.due() || self.keepalive.due();
        if !is_due && self.after(SPAN) >= self.wire.last() {
            return Err(Halt::Refused(RigFault::Ending));
        }
        if let Some(entry) = self.wire.take() {
            self.arrive(entry.owner, entry.payload)
        } else if let Some(entry) = self.resend.take() {
            self.resend_word(entry.owner, entry.payload)
        } else if let Some(entry) = self.keepalive.take() {
            self.give_sign(entry.owner)
        } else {
            self.advance()
        }
    }

    // Lets the three stores go on by one tick.
    fn advance(&mut self) -> Result<Action, Halt> {
        named(Queue::Wire, self.wire.advance())?;
        named(Queue::Resend, self.resend.advance())?;
        named(Queue::Keepalive, self.keepalive.advance())?;
        Ok(Action::Advanced)
    }

    // A packet arrives.
    fn arrive(&mut self, channel: u8, packet: Packet) -> Result<Action, Halt> {
        match packet {
            Packet::Data(segment) => self.data_arrives(channel, segment),
            Packet::Acknowledgement(sequence) => {
                self.acknowledgement_arrives(channel, sequence);
                Ok(Action::AcknowledgementArrived { channel, sequence })
            }
            Packet::Keepalive(sequence) => Ok(Action::KeepaliveArrived { channel, sequence }),
        }
    }

    // A packet with a word arrives; the word is kept if it is one of the next eight.
    fn data_arrives(&mut self, channel: u8, segment: Segment) -> Result<Action, Halt> {
        let number = segment.sequence;
        let mut acknowledgement = None;
        if let Some(mut record) = self.find_open(channel) {
            let is_next = number >= record.taken && number.saturating_sub(record.taken) < 8;
            if is_next && record.received(number).is_none() {
                record.set_received(number, Some(segment.word));
            }
            self.store(channel, record);
            if is_next || number < record.taken {
                acknowledgement = Some(self.transmit(channel, Packet::Acknowledgement(number))?);
            }
        }
        Ok(Action::DataArrived {
            channel,
            segment,
            acknowledgement,
        })
    }

    // An acknowledgement arrives, and has an effect if its word waits.
    fn acknowledgement_arrives(&mut self, channel: u8, number: u32) {
        let Some(mut record) = self.find_open(channel) else {
            return;
        };
        self.store(channel, record);
        if number < record.base || number >= record.next {
            return;
        }
        let Sending::Waiting(ticket) = record.sending_of(number) else {
            return;
        };
        if let Ok((_, unanswered)) = self.resend.stop(ticket)
            && unanswered.tries == 0
        {
            let sample = self.wire.now().saturating_sub(unanswered.first);
            record.estimator = record.estimator.after(sample);
        }
        record.set_sending(number, Sending::Answered);
        record.raise_base();
        self.store(channel, record);
    }

    // A word was not acknowledged in time and is sent again.
    fn resend_word(&mut self, channel: u8, unanswered: Unanswered) -> Result<Action, Halt> {
        let segment = unanswered.segment;
        let mut transmission = None;
        if let Some(mut record) = self.find_open(channel) {
            transmission = Some(self.transmit(channel, Packet::Data(segment))?);
            let again = Unanswered {
                segment,
                tries: unanswered.tries.saturating_add(1).min(6),
                first: unanswered.first,
            };
            let ticket = self.start_resend(channel, record.estimator, again)?;
            record.set_sending(segment.sequence, Sending::Waiting(ticket));
            self.store(channel, record);
        }
        Ok(Action::Resent {
            channel,
            segment,
            transmission,
        })
    }

    // A channel's turn to give a sign of life has come.
    fn give_sign(&mut self, channel: u8) -> Result<Action, Halt> {
        let mut heartbeat = None;
        if let Some(mut record) = self.find_open(channel) {
            let sequence = record.next;
            let transmission = self.transmit(channel, Packet::Keepalive(sequence))?;
            heartbeat = Some(Heartbeat {
                sequence,
                transmission,
            });
            record.keepalive = self.start_keepalive(channel)?;
            self.store(channel, record);
        }
        Ok(Action::KeepaliveSent { channel, heartbeat })
    }
}
