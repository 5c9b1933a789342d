use std::alloc::AllocError;
use timer::fault::TimerFault;
use trace::action::{Action, Transmission};
use trace::fault::RigFault;
use trace::queue::Queue;

/// Appends the line of a call that was answered in this tick; an advance has none.
pub fn append_line(
    out: &mut String,
    tick: u32,
    answer: &Result<Action, RigFault>,
) -> Result<(), AllocError> {
    match answer {
        Ok(action) => append_action(out, tick, *action),
        Err(fault) => append_refusal(out, tick, *fault),
    }
}

/// Appends the last line of a session.
pub fn append_end(out: &mut String, tick: u32, packets: u32) -> Result<(), AllocError> {
    append_number(out, tick)?;
    out.push_str(" E ")?;
    append_number(out, packets)?;
    out.push('\n')
}

fn append_action(out: &mut String, tick: u32, action: Action) -> Result<(), AllocError> {
    let Some(letter) = letter_of(action) else {
        return Ok(());
    };
    append_number(out, tick)?;
    out.push(' ')?;
    out.push(letter)?;
    append_field(out, channel_of(action))?;
    append_field(out, sequence_of(action))?;
    append_field(out, word_of(action))?;
    append_transmission(out, transmission_of(action))?;
    out.push('\n')
}

fn append_refusal(out: &mut String, tick: u32, fault: RigFault) -> Result<(), AllocError> {
    append_number(out, tick)?;
    out.push_str(" X")?;
    append_field(out, Some(rig_number(fault)))?;
    match fault {
        RigFault::Store(behind) => {
            out.push(' ')?;
            out.push(queue_letter(behind.queue))?;
            append_field(out, Some(timer_number(behind.fault)))?;
        }
        _ => out.push_str(" - -")?,
    }
    out.push('\n')
}

fn append_transmission(
    out: &mut String,
    transmission: Option<Transmission>,
) -> Result<(), AllocError> {
    match transmission {
        Some(sent) => {
            append_field(out, Some(sent.packet))?;
            append_field(out, Some(u32::from(sent.delay)))?;
            append_field(out, Some(u32::from(sent.copies)))
        }
        None => out.push_str(" - - -"),
    }
}

fn append_field(out: &mut String, field: Option<u32>) -> Result<(), AllocError> {
    out.push(' ')?;
    match field {
        Some(number) => append_number(out, number),
        None => out.push('-'),
    }
}

fn append_number(out: &mut String, number: u32) -> Result<(), AllocError> {
    write!(out, "{number}")
}

// The letter of an action's line, if it has a line.
fn letter_of(action: Action) -> Option<char> {
    match action {
        Action::Opened { .. } => Some('O'),
        Action::Sent { .. } => Some('S'),
        Action::Taken { .. } => Some('T'),
        Action::Closed { .. } => Some('C'),
        Action::DataArrived { .. } => Some('D'),
        Action::AcknowledgementArrived { .. } => Some('A'),
        Action::KeepaliveArrived { .. } => Some('K'),
        Action::Resent { .. } => Some('R'),
        Action::KeepaliveSent { .. } => Some('H'),
        Action::Advanced => None,
    }
}

// The channel of an action.
fn channel_of(action: Action) -> Option<u32> {
    match action {
        Action::Opened { channel }
        | Action::Sent { channel, .. }
        | Action::Taken { channel, .. }
        | Action::Closed { channel }
        | Action::DataArrived { channel, .. }
        | Action::AcknowledgementArrived { channel, .. }
        | Action::KeepaliveArrived { channel, .. }
        | Action::Resent { channel, .. }
        | Action::KeepaliveSent { channel, .. } => Some(u32::from(channel)),
        Action::Advanced => None,
    }
}

// The sequence number that an action's line tells, if any.
fn sequence_of(action: Action) -> Option<u32> {
    match action {
        Action::Sent { segment, .. }
        | Action::DataArrived { segment, .. }
        | Action::Resent { segment, .. } => Some(segment.sequence),
        Action::Taken { segment, .. } => segment.map(|segment| segment.sequence),
        Action::AcknowledgementArrived { sequence, .. }
        | Action::KeepaliveArrived { sequence, .. } => Some(sequence),
        Action::KeepaliveSent { heartbeat, .. } => heartbeat.map(|heartbeat| heartbeat.sequence),
        Action::Opened { .. } | Action::Closed { .. } | Action::Advanced => None,
    }
}

// The word that an action's line tells, if any.
fn word_of(action: Action) -> Option<u32> {
    match action {
        Action::Sent { segment, .. }
        | Action::DataArrived { segment, .. }
        | Action::Resent { segment, .. } => Some(segment.word),
        Action::Taken { segment, .. } => segment.map(|segment| segment.word),
        _ => None,
    }
}

// The packet that an action sent, if any.
fn transmission_of(action: Action) -> Option<Transmission> {
    match action {
        Action::Sent { transmission, .. } => Some(transmission),
        Action::DataArrived {
            acknowledgement,
            ..
        } => acknowledgement,
        Action::Resent { transmission, .. } => transmission,
        Action::KeepaliveSent { heartbeat, .. } => heartbeat.map(
            |heartbeat| heartbeat.transmission,
        ),
        _ => None,
    }
}

// The number of a refusal of the rig.
fn rig_number(fault: RigFault) -> u32 {
    match fault {
        RigFault::Channel => 11,
        RigFault::State => 12,
        RigFault::Window => 13,
        RigFault::Store(_) => 14,
        RigFault::Spent => 15,
        RigFault::Ending => 16,
        RigFault::Setting => 21,
        RigFault::Clocks => 22,
        RigFault::Used => 23,
        RigFault::Span => 24,
        RigFault::Table => 25,
        RigFault::Fates => 36,
        RigFault::Buffer => 40,
    }
}

// The number of a refusal of a store.
fn timer_number(fault: TimerFault) -> u32 {
    match fault {
        TimerFault::Past => 1,
        TimerFault::Late => 2,
        TimerFault::Owner => 3,
        TimerFault::Spent => 4,
        TimerFault::Full => 5,
        TimerFault::Limit => 6,
        TimerFault::Missing => 7,
        TimerFault::Due => 8,
        TimerFault::Ended => 9,
    }
}

// The letter of a store.
fn queue_letter(queue: Queue) -> char {
    match queue {
        Queue::Wire => 'w',
        Queue::Resend => 'r',
        Queue::Keepalive => 'k',
    }
}
