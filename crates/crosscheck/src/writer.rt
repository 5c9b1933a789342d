// The line writer, in buffers of 0 to 200 bytes.
use crate::log::Log;
use reference::text::{append_end, append_line};
use std::alloc::{AllocError, Global};
use tally::Tally;
use timer::fault::TimerFault;
use trace::action::{Action, Heartbeat, Segment, Transmission};
use trace::fault::RigFault;
use trace::line::Line;
use trace::queue::{Queue, StoreFault};
use trace::writer::{append_line as append, write_line};

// What a buffer holds before a line is written.
const BEFORE: u8 = 0xA5;

const SEGMENTS: [Segment; 2] = [
    Segment {
        sequence: 0,
        word: 0,
    },
    Segment {
        sequence: u32::MAX,
        word: u32::MAX,
    },
];

const TRANSMISSIONS: [Option<Transmission>; 3] = [
    None,
    Some(Transmission {
        packet: 0,
        delay: 0,
        copies: 0,
    }),
    Some(Transmission {
        packet: u32::MAX,
        delay: u16::MAX,
        copies: u8::MAX,
    }),
];

const FAULTS: [RigFault; 12] = [
    RigFault::Channel,
    RigFault::State,
    RigFault::Window,
    RigFault::Spent,
    RigFault::Ending,
    RigFault::Setting,
    RigFault::Clocks,
    RigFault::Used,
    RigFault::Span,
    RigFault::Table,
    RigFault::Fates,
    RigFault::Buffer,
];

const STORE_FAULTS: [TimerFault; 9] = [
    TimerFault::Past,
    TimerFault::Late,
    TimerFault::Owner,
    TimerFault::Spent,
    TimerFault::Full,
    TimerFault::Limit,
    TimerFault::Missing,
    TimerFault::Due,
    TimerFault::Ended,
];

// What the line writer and the appender do with a line.
fn ours(heap: Global, line: &Line, room: usize) -> Result<Log, AllocError> {
    let mut log = Log::new(heap);
    let mut buffer = vec![in heap; BEFORE; room]?;
    match write_line(line, &mut buffer) {
        Ok(length) => log.count(length)?,
        Err(fault) => log.number(1_000 + u32::from(fault.number()))?,
    }
    log.text(&buffer)?;
    let mut text = Vec::new(heap);
    append(&mut text, line)?;
    log.text(&text)?;
    Ok(log)
}

// What they are to do, where the line has this text.
fn theirs(heap: Global, text: &[u8], room: usize) -> Result<Log, AllocError> {
    let mut log = Log::new(heap);
    if room < 80 {
        log.number(1_040)?;
    } else {
        log.count(text.len())?;
    }
    log.count(room)?;
    for place in 0..room {
        let byte = match text.get(place) {
            Some(byte) if room >= 80 => *byte,
            _ => BEFORE,
        };
        log.number(u32::from(byte))?;
    }
    log.text(text)?;
    Ok(log)
}

fn compare(heap: Global, line: &Line, text: &[u8], tally: &mut Tally) -> Result<(), AllocError> {
    for room in [0, 1, 79, 80, 81, 200] {
        let seen = ours(heap, line, room)?;
        tally.compare(seen.numbers(), theirs(heap, text, room)?.numbers());
    }
    Ok(())
}

fn compare_answer(
    heap: Global,
    answer: Result<Action, RigFault>,
    tally: &mut Tally,
) -> Result<(), AllocError> {
    for tick in [0, 9, 10, 1_000, u32::MAX] {
        let mut text = String::new(heap);
        append_line(&mut text, tick, &answer)?;
        compare(heap, &Line::of_call(tick, answer), text.as_bytes(), tally)?;
    }
    Ok(())
}

// The actions on a channel.
fn compare_actions(heap: Global, channel: u8, tally: &mut Tally) -> Result<(), AllocError> {
    compare_answer(heap, Ok(Action::Opened { channel }), tally)?;
    compare_answer(heap, Ok(Action::Closed { channel }), tally)?;
    compare_answer(
        heap,
        Ok(Action::Taken {
            channel,
            segment: None,
        }),
        tally,
    )?;
    compare_answer(
        heap,
        Ok(Action::KeepaliveSent {
            channel,
            heartbeat: None,
        }),
        tally,
    )?;
    for segment in SEGMENTS {
        let sequence = segment.sequence;
        compare_answer(
            heap,
            Ok(Action::Taken {
                channel,
                segment: Some(segment),
            }),
            tally,
        )?;
        compare_answer(
            heap,
            Ok(Action::AcknowledgementArrived { channel, sequence }),
            tally,
        )?;
        compare_answer(
            heap,
            Ok(Action::KeepaliveArrived { channel, sequence }),
            tally,
        )?;
        for transmission in TRANSMISSIONS {
            compare_answer(
                heap,
                Ok(Action::DataArrived {
                    channel,
                    segment,
                    acknowledgement: transmission,
                }),
                tally,
            )?;
            compare_answer(
                heap,
                Ok(Action::Resent {
                    channel,
                    segment,
                    transmission,
                }),
                tally,
            )?;
            let Some(transmission) = transmission else {
                continue;
            };
            compare_answer(
                heap,
                Ok(Action::Sent {
                    channel,
                    segment,
                    transmission,
                }),
                tally,
            )?;
            compare_answer(
                heap,
                Ok(Action::KeepaliveSent {
                    channel,
                    heartbeat: Some(Heartbeat {
                        sequence,
                        transmission,
                    }),
                }),
                tally,
            )?;
        }
    }
    Ok(())
}

/// Every kind of line, with the least and the greatest numbers, in buffers around 80 bytes.
pub fn compare_lines(heap: Global) -> Result<Tally, AllocError> {
    let mut tally = Tally::new();
    for channel in [0, 9, 63, u8::MAX] {
        compare_actions(heap, channel, &mut tally)?;
    }
    compare_answer(heap, Ok(Action::Advanced), &mut tally)?;
    for fault in FAULTS {
        compare_answer(heap, Err(fault), &mut tally)?;
    }
    for queue in [Queue::Wire, Queue::Resend, Queue::Keepalive] {
        for fault in STORE_FAULTS {
            compare_answer(
                heap,
                Err(RigFault::Store(StoreFault { queue, fault })),
                &mut tally,
            )?;
        }
    }
    for packets in [0, 5, u32::MAX] {
        let mut text = String::new(heap);
        append_end(&mut text, packets, packets)?;
        compare(
            heap,
            &Line::of_end(packets, packets),
            text.as_bytes(),
            &mut tally,
        )?;
    }
    Ok(tally)
}
