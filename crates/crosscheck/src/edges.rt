// The refusals of the rig at their edges, and what else a caller can lend.
use crate::compare::{compare, compare_shorter};
use crate::scenario::{Act, Before, LAST, Layers, Scenario, Setup, Setups, Spoiled};
use protocol::operation::Operation;
use std::alloc::{AllocError, Global};
use tally::Tally;

const OPEN: Act = Act::Operate(Operation::Open(0));

const SEND: Act = Act::Operate(Operation::Send(0, 700));

const TAKE: Act = Act::Operate(Operation::Take(0));

const CLOSE: Act = Act::Operate(Operation::Close(0));

const STEP: Act = Act::Operate(Operation::Step);

// Words that arrive and are taken, signs of life, and the end.
const EVERYTHING: [Act; 12] = [
    OPEN,
    SEND,
    Act::Steps(25),
    TAKE,
    TAKE,
    SEND,
    SEND,
    Act::Steps(1_200),
    TAKE,
    Act::Steps(6_000),
    CLOSE,
    Act::Steps(6_000),
];

// Calls that each use up tickets: new timers, packets, resends and signs of life, and calls that use up none.
const TO_THE_LAST_TICKETS: [Act; 16] = [
    SEND,
    Act::Operate(Operation::Open(1)),
    Act::Operate(Operation::Send(1, 9)),
    STEP,
    Act::Steps(12),
    TAKE,
    Act::Operate(Operation::Open(2)),
    Act::Steps(30),
    SEND,
    Act::Steps(1_200),
    TAKE,
    SEND,
    Act::Operate(Operation::Open(64)),
    Act::Operate(Operation::Open(3)),
    CLOSE,
    STEP,
];

// Three stores of which one after the other is another one.
fn one_by_one(setups: Setups, other: Setup) -> [Setups; 3] {
    [
        Setups {
            wire: other,
            ..setups
        },
        Setups {
            resend: other,
            ..setups
        },
        Setups {
            keepalive: other,
            ..setups
        },
    ]
}

fn settings(heap: Global, tally: &mut Tally) -> Result<(), AllocError> {
    for (delay, interval) in [
        (0, 1),
        (1, 1),
        (32_767, 1),
        (32_768, 1),
        (1, 0),
        (1, 60_000),
        (1, 60_001),
        (u32::MAX, u32::MAX),
    ] {
        let scenario = Scenario {
            delay,
            interval,
            ..Scenario::plain(&EVERYTHING)
        };
        compare(heap, &scenario, tally)?;
    }
    Ok(())
}

fn stores_to_begin(heap: Global, tally: &mut Tally) -> Result<(), AllocError> {
    let setups = Setups::new(64, 0);
    for setups in one_by_one(setups, Setup::new(64, 1)) {
        compare(
            heap,
            &Scenario {
                setups,
                ..Scenario::plain(&EVERYTHING)
            },
            tally,
        )?;
    }
    let shorter = Setup {
        last: LAST - 1,
        ..Setup::new(64, 0)
    };
    for setups in one_by_one(setups, shorter) {
        compare_shorter(
            heap,
            &Scenario {
                setups,
                ..Scenario::plain(&EVERYTHING)
            },
            tally,
        )?;
    }
    for before in [Before::Started, Before::Stopped] {
        let used = Setup {
            before,
            ..Setup::new(64, 0)
        };
        for setups in one_by_one(setups, used) {
            compare(
                heap,
                &Scenario {
                    setups,
                    ..Scenario::plain(&EVERYTHING)
                },
                tally,
            )?;
        }
    }
    for first in [
        LAST - 60_002,
        LAST - 60_001,
        LAST - 60_000,
        LAST - 59_999,
        LAST,
        u32::MAX,
    ] {
        compare(
            heap,
            &Scenario {
                setups: Setups::new(64, first),
                ..Scenario::plain(&EVERYTHING)
            },
            tally,
        )?;
    }
    Ok(())
}

// Whether a bit of a number is set.
fn has(number: u32, bit: u32) -> bool {
    (number >> bit.min(31)) % 2 == 1
}

// Every way in which the tests of begin can fail together.
fn refusals_to_begin(heap: Global, tally: &mut Tally) -> Result<(), AllocError> {
    for case in 0..32 {
        let first = if has(case, 3) { LAST - 59_999 } else { 0 };
        let wire = Setup {
            before: if has(case, 2) {
                Before::Stopped
            } else {
                Before::Nothing
            },
            ..Setup::new(64, first)
        };
        let resend = Setup::new(64, if has(case, 1) { 5 } else { first });
        let scenario = Scenario {
            interval: if has(case, 0) { 0 } else { 1 },
            setups: Setups {
                wire,
                resend,
                ..Setups::new(64, first)
            },
            records: if has(case, 4) { 63 } else { 64 },
            ..Scenario::plain(&EVERYTHING)
        };
        compare(heap, &scenario, tally)?;
    }
    Ok(())
}

fn tables(heap: Global, tally: &mut Tally) -> Result<(), AllocError> {
    for records in [0, 63, 64, 65] {
        compare(
            heap,
            &Scenario {
                records,
                ..Scenario::plain(&EVERYTHING)
            },
            tally,
        )?;
        let acts = [
            OPEN,
            SEND,
            Act::Table(records),
            OPEN,
            SEND,
            TAKE,
            CLOSE,
            STEP,
            Act::Operate(Operation::Open(64)),
            Act::Operate(Operation::Open(63)),
            Act::Table(64),
            Act::Steps(20),
        ];
        compare(heap, &Scenario::plain(&acts), tally)?;
    }
    Ok(())
}

fn channels(heap: Global, tally: &mut Tally) -> Result<(), AllocError> {
    for channel in [0, 62, 63, 64, 65, 255, 256, 319, u32::MAX] {
        let open = Act::Operate(Operation::Open(channel));
        let send = Act::Operate(Operation::Send(channel, 5));
        let take = Act::Operate(Operation::Take(channel));
        let close = Act::Operate(Operation::Close(channel));
        let acts = [
            send,
            take,
            close,
            open,
            open,
            take,
            send,
            Act::Steps(30),
            take,
            close,
            close,
            send,
            take,
            open,
            Act::Steps(6_000),
        ];
        compare(heap, &Scenario::plain(&acts), tally)?;
    }
    Ok(())
}

fn windows(heap: Global, tally: &mut Tally) -> Result<(), AllocError> {
    let acts = [
        OPEN,
        SEND,
        SEND,
        SEND,
        SEND,
        SEND,
        SEND,
        SEND,
        SEND,
        SEND,
        Act::Steps(12),
        SEND,
        Act::Steps(12),
        SEND,
        SEND,
        TAKE,
        TAKE,
        Act::Steps(3_000),
    ];
    for fates in [
        &[][..],
        &[0, 10, 10, 10, 10, 10, 10, 10],
        &[10, 0, 32_778, 0, 30, 20, 32_788, 1],
        &[0, 0, 0, 0, 0, 0, 0, 0, 0, 0, 0],
    ] {
        compare(
            heap,
            &Scenario {
                fates,
                room: 20,
                ..Scenario::plain(&acts)
            },
            tally,
        )?;
    }
    Ok(())
}

fn full_stores(heap: Global, tally: &mut Tally) -> Result<(), AllocError> {
    let acts = [
        OPEN,
        Act::Operate(Operation::Open(1)),
        SEND,
        SEND,
        SEND,
        Act::Operate(Operation::Send(1, 9)),
        Act::Steps(1_500),
        Act::Operate(Operation::Open(2)),
        TAKE,
        CLOSE,
        Act::Steps(6_000),
    ];
    for rows in [0, 1, 2, 3] {
        for setups in one_by_one(Setups::new(64, 0), Setup::new(rows, 0)) {
            compare(
                heap,
                &Scenario {
                    setups,
                    ..Scenario::plain(&acts)
                },
                tally,
            )?;
        }
        let few = Setup {
            numbers: [rows as u16; 64],
            ..Setup::new(64, 0)
        };
        for setups in one_by_one(Setups::new(64, 0), few) {
            compare(
                heap,
                &Scenario {
                    layers: Layers::Quotas,
                    setups,
                    ..Scenario::plain(&acts)
                },
                tally,
            )?;
        }
    }
    Ok(())
}

// Stores with other clocks, which are lent once the rig runs: a new timer or an advance is refused.
fn other_clocks(heap: Global, tally: &mut Tally) -> Result<(), AllocError> {
    for first in [
        0,
        999,
        1_000,
        1_001,
        2_001,
        5_000,
        5_001,
        70_000,
        LAST - 60_000,
        LAST - 1,
        LAST,
    ] {
        for before in [Before::Nothing, Before::Started] {
            let other = Setup {
                before,
                ..Setup::new(64, first)
            };
            for setups in one_by_one(Setups::new(64, 0), other) {
                compare(
                    heap,
                    &Scenario {
                        later: Some(setups),
                        later_acts: &[
                            STEP,
                            STEP,
                            STEP,
                            Act::Operate(Operation::Open(1)),
                            SEND,
                            STEP,
                            TAKE,
                            CLOSE,
                            Act::Steps(50),
                        ],
                        ..Scenario::plain(&[OPEN])
                    },
                    tally,
                )?;
            }
        }
    }
    Ok(())
}

// Stores with few tickets left: not to begin, and lent once the rig runs.
fn last_tickets(heap: Global, tally: &mut Tally) -> Result<(), AllocError> {
    for left in [0, 1, 2, 3, 4, 5, 8, u32::MAX - 1] {
        let old = Setup {
            given: u32::MAX - left,
            ..Setup::new(64, 0)
        };
        for setups in one_by_one(Setups::new(64, 0), old) {
            let scenario = Scenario {
                interval: 20,
                layers: Layers::Aged,
                ..Scenario::plain(&EVERYTHING)
            };
            compare(heap, &Scenario { setups, ..scenario }, tally)?;
            for fates in [&[][..], &[32_778, 32_778, 32_778, 32_778, 0, 0, 32_778]] {
                compare(
                    heap,
                    &Scenario {
                        fates,
                        room: 7,
                        later: Some(setups),
                        later_acts: &TO_THE_LAST_TICKETS,
                        ..scenario
                    },
                    tally,
                )?;
            }
        }
    }
    Ok(())
}

fn records(heap: Global, tally: &mut Tally) -> Result<(), AllocError> {
    for base in [
        0,
        1,
        7,
        8,
        u32::MAX - 9,
        u32::MAX - 8,
        u32::MAX - 1,
        u32::MAX,
    ] {
        for ahead in [0, 1, 7, 8, 9, 100] {
            for timeout in [0, 999, 1_000, 60_000, 60_001, u32::MAX] {
                let next = base.saturating_add(ahead).saturating_sub(timeout % 2);
                let spoiled = Spoiled {
                    next,
                    base,
                    taken: next.saturating_sub(ahead % 3),
                    timeout,
                };
                let acts = [
                    OPEN,
                    Act::Spoil(0, spoiled),
                    TAKE,
                    SEND,
                    SEND,
                    Act::Steps(30),
                    TAKE,
                    TAKE,
                    SEND,
                    Act::Steps(1_300),
                    TAKE,
                    CLOSE,
                ];
                compare(heap, &Scenario::plain(&acts), tally)?;
            }
        }
    }
    Ok(())
}

fn fates(heap: Global, tally: &mut Tally) -> Result<(), AllocError> {
    let mut many = Vec::new(heap);
    many.resize(4_097, 7)?;
    for room in [0, 1, 2, 4_095, 4_096, 4_097, 5_000] {
        compare(
            heap,
            &Scenario {
                fates: &many,
                room,
                ..Scenario::plain(&EVERYTHING)
            },
            tally,
        )?;
    }
    for lent in [0, 1, 2, 3] {
        let acts = [
            OPEN,
            Act::Fates(lent),
            SEND,
            SEND,
            SEND,
            Act::Steps(40),
            TAKE,
            SEND,
        ];
        compare(
            heap,
            &Scenario {
                fates: &[32_778, 32_768],
                room: 3,
                ..Scenario::plain(&acts)
            },
            tally,
        )?;
    }
    Ok(())
}

// Words that are lost again and again, so that each wait is twice the one before up to the longest: before any sample, and after one.
fn long_waits(heap: Global, tally: &mut Tally) -> Result<(), AllocError> {
    let lost = [0_u16; 24];
    let mut sampled = lost;
    sampled[0] = 450;
    sampled[1] = 450;
    let acts = [
        OPEN,
        SEND,
        Act::Steps(1_000),
        SEND,
        Act::Steps(250_000),
        TAKE,
        TAKE,
        Act::Steps(1_000),
    ];
    for fates in [lost, sampled] {
        compare(
            heap,
            &Scenario {
                interval: 60_000,
                fates: &fates,
                room: 24,
                ..Scenario::plain(&acts)
            },
            tally,
        )?;
    }
    Ok(())
}

/// The refusals of the rig at their edges, and what else a caller can lend.
pub fn compare_edges(heap: Global) -> Result<Tally, AllocError> {
    let mut tally = Tally::new();
    settings(heap, &mut tally)?;
    stores_to_begin(heap, &mut tally)?;
    refusals_to_begin(heap, &mut tally)?;
    tables(heap, &mut tally)?;
    channels(heap, &mut tally)?;
    windows(heap, &mut tally)?;
    full_stores(heap, &mut tally)?;
    other_clocks(heap, &mut tally)?;
    last_tickets(heap, &mut tally)?;
    records(heap, &mut tally)?;
    fates(heap, &mut tally)?;
    long_waits(heap, &mut tally)?;
    Ok(tally)
}
