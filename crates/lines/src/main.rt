#![tactic(auto)]

// Prints one line of each kind, and what the line writer answers at the edge of its buffer.
use std::alloc::AllocError;
use std::io;
use std::io::Write;
use timer::fault::TimerFault;
use trace::action::{Action, Heartbeat, Segment, Transmission};
use trace::fault::RigFault;
use trace::line::Line;
use trace::queue::Queue;
use trace::writer::{append_line, write_line};

const SEGMENT: Segment = Segment {
    sequence: 1,
    word: 701,
};

const TRANSMISSION: Transmission = Transmission {
    packet: 3,
    delay: 10,
    copies: 2,
};

const HEARTBEAT: Heartbeat = Heartbeat {
    sequence: 4,
    transmission: TRANSMISSION,
};

const ACTIONS: [Action; 14] = [
    Action::Opened { channel: 3 },
    Action::Sent {
        channel: 3,
        segment: SEGMENT,
        transmission: TRANSMISSION,
    },
    Action::Taken {
        channel: 3,
        segment: Some(SEGMENT),
    },
    Action::Taken {
        channel: 3,
        segment: None,
    },
    Action::Closed { channel: 63 },
    Action::DataArrived {
        channel: 3,
        segment: SEGMENT,
        acknowledgement: Some(TRANSMISSION),
    },
    Action::DataArrived {
        channel: 3,
        segment: SEGMENT,
        acknowledgement: None,
    },
    Action::AcknowledgementArrived {
        channel: 3,
        sequence: 1,
    },
    Action::KeepaliveArrived {
        channel: 3,
        sequence: 1,
    },
    Action::Resent {
        channel: 3,
        segment: SEGMENT,
        transmission: Some(TRANSMISSION),
    },
    Action::Resent {
        channel: 3,
        segment: SEGMENT,
        transmission: None,
    },
    Action::KeepaliveSent {
        channel: 3,
        heartbeat: Some(HEARTBEAT),
    },
    Action::KeepaliveSent {
        channel: 3,
        heartbeat: None,
    },
    Action::Advanced,
];

const FAULTS: [RigFault; 12] = [
    RigFault::Channel,
    RigFault::State,
    RigFault::Window,
    RigFault::Spent,
    RigFault::Ending,
    RigFault::Setting,
    RigFault::Clocks,
    RigFault::Used,
    RigFault::Span,
    RigFault::Table,
    RigFault::Fates,
    RigFault::Buffer,
];

const STORE_FAULTS: [(Queue, TimerFault); 3] = [
    (Queue::Wire, TimerFault::Past),
    (Queue::Resend, TimerFault::Full),
    (Queue::Keepalive, TimerFault::Ended),
];

// A store's refusal on its way into the rig's.
fn refused(queue: Queue, fault: TimerFault) -> Result<Action, RigFault> {
    queue.named(Err::<u32, TimerFault>(fault))?;
    Ok(Action::Advanced)
}

fn lines(out: &mut Vec<u8>) -> Result<(), AllocError> {
    for action in ACTIONS {
        append_line(out, &Line::of_call(20, Ok(action)))?;
    }
    for fault in FAULTS {
        append_line(out, &Line::of_call(30, Err(fault)))?;
    }
    for (queue, fault) in STORE_FAULTS {
        append_line(out, &Line::of_call(30, refused(queue, fault)))?;
    }
    Ok(())
}

fn main(rt: HostRuntime) -> io::Result<()> {
    let mut out = Vec::new(rt.alloc());
    lines(&mut out)?;
    rt.stdout().write_all(&out)?;
    rt.print(Line::of_end(u32::MAX, u32::MAX))?;
    let line = Line::of_end(7, 12);
    let mut buffer = [0; 81];
    for room in 79..=81 {
        match write_line(&line, &mut buffer[..room]) {
            Ok(length) => println!(rt; "{room} bytes: wrote {length}")?,
            Err(fault) => println!(rt; "{room} bytes: refused {fault}")?,
        }
    }
    Ok(())
}
