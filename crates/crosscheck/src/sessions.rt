// Sessions that `run_pair` plays, compared with the plain rig.
use crate::SESSIONS;
use crate::commands::{call, call_and_ask, commands_of};
use crate::compare::compare;
use crate::generate::generate;
use crate::log::Log;
use crate::over::Made;
use crate::pairs::{over, seen};
use crate::plain::play;
use crate::scenario::{Act, Before, LAST, Layers, Scenario, Setup, Setups};
use channel::record::Attempt;
use link::packet::Packet;
use protocol::operation::Operation;
use session::command::Command;
use std::alloc::{AllocError, Global};
use tally::Tally;
use timer_heap::heap::HeapOrder;
use timer_list::list::ListOrder;
use timer_wheel::wheel::WheelOrder;

// Compares what both rigs of a pair come to, over stores in two orders, with what the plain rig came to.
fn against<O: Made<Packet> + Made<Attempt> + Made<u8>, Q: Made<Packet> + Made<Attempt> + Made<u8>>(
    heap: Global,
    scenario: &Scenario<'_>,
    commands: &[Command],
    plain: &Log,
    tally: &mut Tally,
) -> Result<(), AllocError> {
    let pair = over::<O, Q>(heap, scenario, commands)?;
    tally.compare(seen(heap, pair.first)?.numbers(), plain.numbers());
    tally.compare(seen(heap, pair.second)?.numbers(), plain.numbers());
    Ok(())
}

// Plays commands on the plain rig and on pairs of rigs over stores of different types, and compares.
fn compare_pairs(
    heap: Global,
    scenario: &Scenario<'_>,
    commands: &[Command],
    tally: &mut Tally,
) -> Result<(), AllocError> {
    let plain = play(heap, scenario, commands)?.log;
    against::<WheelOrder, ListOrder>(heap, scenario, commands, &plain, tally)?;
    against::<HeapOrder, WheelOrder>(heap, scenario, commands, &plain, tally)
}

// The rig of the session that the rules describe.
fn ruled<'a>(acts: &'a [Act]) -> Scenario<'a> {
    let wire = Setup {
        numbers: [32; 64],
        ..Setup::new(512, 0)
    };
    Scenario {
        delay: 10,
        interval: 5_000,
        fates: &[10, 0],
        room: 2,
        layers: Layers::Wire,
        setups: Setups {
            wire,
            resend: Setup::new(256, 0),
            keepalive: Setup::new(64, 0),
        },
        ..Scenario::plain(acts)
    }
}

// The commands of that session.
fn script() -> [Command; 9] {
    [
        call(Operation::Open(3)),
        call(Operation::Send(3, 700)),
        call(Operation::Send(3, 701)),
        Command::StepUntil(30),
        call(Operation::Take(3)),
        call(Operation::Take(3)),
        Command::StepUntil(1_030),
        call(Operation::Take(3)),
        call(Operation::Send(9, 5)),
    ]
}

/// The session of the rules: as its commands say, and call by call with all questions after each.
pub fn compare_session(heap: Global) -> Result<Tally, AllocError> {
    let mut tally = Tally::new();
    let scenario = ruled(&[]);
    compare_pairs(heap, &scenario, &script(), &mut tally)?;
    let operations = play(heap, &scenario, &script())?.operations;
    let mut commands = Vec::new(heap);
    let mut acts = Vec::new(heap);
    for (operation, tick) in operations.iter() {
        call_and_ask(&mut commands, *operation, *tick)?;
        acts.push(Act::Operate(*operation))?;
    }
    compare_pairs(heap, &scenario, &commands, &mut tally)?;
    compare(heap, &ruled(&acts), &mut tally)?;
    Ok(tally)
}

// Rigs that are refused to begin, for each reason.
fn refused(heap: Global, tally: &mut Tally) -> Result<(), AllocError> {
    let setups = Setups::new(64, 0);
    let used = Setup {
        before: Before::Started,
        ..Setup::new(64, 0)
    };
    let plain = Scenario::plain(&[]);
    for scenario in [
        Scenario { delay: 0, ..plain },
        Scenario {
            interval: 0,
            ..plain
        },
        Scenario {
            setups: Setups {
                resend: Setup::new(64, 1),
                ..setups
            },
            ..plain
        },
        Scenario {
            setups: Setups {
                wire: used,
                ..setups
            },
            ..plain
        },
        Scenario {
            setups: Setups::new(64, LAST - 59_999),
            ..plain
        },
        Scenario {
            records: 63,
            ..plain
        },
    ] {
        compare_pairs(heap, &scenario, &script(), tally)?;
    }
    Ok(())
}

// Steps until a tick that has passed while something is due, and until a step is refused since the last tick is too near.
fn steps_to_the_end(heap: Global, tally: &mut Tally) -> Result<(), AllocError> {
    let first = LAST - 60_030;
    let step = call(Operation::Step);
    let commands = [
        call(Operation::Open(0)),
        call(Operation::Send(0, 700)),
        Command::StepUntil(first),
        step,
        step,
        Command::StepUntil(first + 1),
        Command::StepUntil(0),
        call(Operation::Send(0, 701)),
        Command::StepUntil(u32::MAX),
        Command::StepUntil(u32::MAX),
        call(Operation::Take(0)),
        call(Operation::Take(0)),
        Command::StepUntil(0),
        call(Operation::Close(0)),
        step,
    ];
    for delay in [1, 2, 3] {
        for interval in [1, 2, 5_000] {
            let scenario = Scenario {
                delay,
                interval,
                setups: Setups::new(64, first),
                ..Scenario::plain(&[])
            };
            compare_pairs(heap, &scenario, &commands, tally)?;
            compare_pairs(heap, &scenario, &[], tally)?;
        }
    }
    Ok(())
}

/// Sessions that are refused, that come to the last tick, and that seeds decide.
pub fn compare_sessions(heap: Global) -> Result<Tally, AllocError> {
    let mut tally = Tally::new();
    refused(heap, &mut tally)?;
    steps_to_the_end(heap, &mut tally)?;
    for seed in 0..SESSIONS {
        let generated = generate(heap, seed)?;
        let scenario = generated.scenario();
        let commands = commands_of(heap, &scenario)?;
        compare_pairs(heap, &scenario, &commands, &mut tally)?;
    }
    Ok(tally)
}
