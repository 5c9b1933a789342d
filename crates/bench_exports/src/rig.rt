use crate::stores::Kind;
use crate::sums::{Sum, mix};
use channel::record::{Attempt, Channel};
use link::packet::Packet;
use std::alloc::{AllocError, Global};
use timer::store::Store;
use timer_heap::heap;
use timer_list::list;
use timer_rows::row::Row;
use timer_wheel::wheel::{self, LAST_TICK};
use trace::action::{Action, Segment};
use trace::fault::RigFault;
use transport::rig::{CHANNELS, Draft, Running};

const ROWS: usize = 4_096;

const FATES: usize = 4_095;

const DELAY: u32 = 10;

const INTERVAL: u32 = 5_000;

// How many words of a channel are under way.
const WINDOW: u32 = 4;

const PACKET: Packet = Packet::Keepalive { sequence: 0 };

const ATTEMPT: Attempt = Attempt {
    segment: Segment {
        sequence: 0,
        word: 0,
    },
    tries: 0,
    sent: 0,
};

// The fate of a packet: every seventh is lost, and the others take 1 to 20 ticks.
fn fate(packet: usize) -> u16 {
    if packet % 7 == 6 {
        0
    } else {
        1 + (packet % 20) as u16
    }
}

// A draft with the fates, which are put into the list.
fn drafted(fates: &mut [u16]) -> Draft {
    let mut draft = Draft::new(DELAY, INTERVAL);
    for packet in 0..FATES {
        let _ = draft.add_fate(fates, fate(packet));
    }
    draft
}

// The number of what a step did.
fn number_of(answer: Result<Action, RigFault>) -> u32 {
    match answer {
        Ok(Action::Advanced) => 0,
        Ok(Action::DataArrived { .. }) => 1,
        Ok(Action::AcknowledgementArrived { .. }) => 2,
        Ok(Action::KeepaliveArrived { .. }) => 3,
        Ok(Action::Resent { .. }) => 4,
        Ok(Action::KeepaliveSent { .. }) => 5,
        Ok(_) => 6,
        Err(_) => 7,
    }
}

// What the channels send and have sent.
#[derive(Clone, Copy)]
struct Traffic {
    // the next word
    word: u32,
    // how many words of each channel were sent and not taken yet
    under_way: [u32; CHANNELS],
}

impl Traffic {
    // Counts a word of a channel as sent.
    fn sent(&mut self, channel: u32) {
        self.word = self.word.wrapping_add(1);
        if let Some(count) = self.under_way.get_mut(channel as usize) {
            *count = count.wrapping_add(1);
        }
    }

    // Counts a word of a channel as taken.
    fn taken(&mut self, channel: u32) {
        if let Some(count) = self.under_way.get_mut(channel as usize) {
            *count = count.wrapping_sub(1);
        }
    }

    // How many words of a channel can go under way.
    fn room(&self, channel: u32) -> u32 {
        let count = self.under_way.get(channel as usize).copied();
        WINDOW.saturating_sub(count.unwrap_or(WINDOW))
    }
}

// Sends words on a channel until enough are under way or one is refused.
fn send<W: Store<Packet>, R: Store<Attempt>, K: Store<u8>>(
    running: &mut Running,
    wire: &mut W,
    resend: &mut R,
    keepalive: &K,
    table: &mut [Channel],
    fates: &[u16],
    channel: u32,
    traffic: &mut Traffic,
) {
    for _ in 0..traffic.room(channel) {
        let word = traffic.word;
        let answer = running.send(wire, resend, keepalive, table, fates, channel, word);
        if answer.is_err() {
            break;
        }
        traffic.sent(channel);
    }
}

// Takes the words of a channel that have arrived, at most as many as can wait there.
fn take<W: Store<Packet>, R: Store<Attempt>, K: Store<u8>>(
    running: &Running,
    wire: &W,
    resend: &R,
    keepalive: &K,
    table: &mut [Channel],
    fates: &[u16],
    channel: u32,
    traffic: &mut Traffic,
    sum: &mut Sum,
) {
    for _ in 0..=WINDOW {
        let answer = running.take(wire, resend, keepalive, table, fates, channel);
        let Ok(
            Action::Taken {
                segment: Some(segment),
                ..
            },
        ) = answer
        else {
            break;
        };
        sum.add(mix(segment.word, channel));
        traffic.taken(channel);
    }
}

// Opens the channels and makes the steps, each after one channel's turn to send and take.
fn drive<W: Store<Packet>, R: Store<Attempt>, K: Store<u8>>(
    mut running: Running,
    wire: &mut W,
    resend: &mut R,
    keepalive: &mut K,
    table: &mut [Channel],
    fates: &[u16],
    steps: u64,
) -> Sum {
    for channel in 0..CHANNELS as u32 {
        let _ = running.open(wire, resend, keepalive, table, fates, channel);
    }
    let mut traffic = Traffic {
        word: 0,
        under_way: [0; CHANNELS],
    };
    let mut sum = Sum::new();
    for turn in 0..steps {
        let channel = (turn % CHANNELS as u64) as u32;
        send(
            &mut running,
            wire,
            resend,
            keepalive,
            table,
            fates,
            channel,
            &mut traffic,
        );
        take(
            &running,
            wire,
            resend,
            keepalive,
            table,
            fates,
            channel,
            &mut traffic,
            &mut sum,
        );
        let answer = running.step(wire, resend, keepalive, table, fates);
        sum.add(mix(wire.now(), number_of(answer)));
    }
    sum
}

// The sum of a rig over three stores, or 0 where it cannot begin.
fn over<W: Store<Packet>, R: Store<Attempt>, K: Store<u8>>(
    memory: Global,
    steps: u64,
    wire: &mut W,
    resend: &mut R,
    keepalive: &mut K,
) -> Result<u64, AllocError> {
    let mut fates = vec![in memory; 0; FATES]?;
    let mut table = [Channel::unused(); CHANNELS];
    let draft = drafted(&mut fates);
    let Ok(running) = draft.begin(wire, resend, keepalive, &mut table) else {
        return Ok(0);
    };
    let sum = drive(running, wire, resend, keepalive, &mut table, &fates, steps);
    Ok(sum.total)
}

/// The sum of so many steps of a rig over stores of a kind; no call is kept a call here.
pub fn run(memory: Global, kind: Kind, steps: u64) -> Result<u64, AllocError> {
    let mut wire_rows = vec![in memory; Row::vacant(PACKET); ROWS]?;
    let mut resend_rows = vec![in memory; Row::vacant(ATTEMPT); ROWS]?;
    let mut keepalive_rows = vec![in memory; Row::vacant(0); CHANNELS]?;
    match kind {
        Kind::Wheel | Kind::CalledWheel => over(
            memory,
            steps,
            &mut wheel::over(&mut wire_rows, 0),
            &mut wheel::over(&mut resend_rows, 0),
            &mut wheel::over(&mut keepalive_rows, 0),
        ),
        Kind::Heap | Kind::CalledHeap => over(
            memory,
            steps,
            &mut heap::over(&mut wire_rows, 0, LAST_TICK),
            &mut heap::over(&mut resend_rows, 0, LAST_TICK),
            &mut heap::over(&mut keepalive_rows, 0, LAST_TICK),
        ),
        Kind::List => over(
            memory,
            steps,
            &mut list::over(&mut wire_rows, 0, LAST_TICK),
            &mut list::over(&mut resend_rows, 0, LAST_TICK),
            &mut list::over(&mut keepalive_rows, 0, LAST_TICK),
        ),
    }
}
