use crate::log::Log;
use crate::ours::play;
use crate::scenario::{Before, Layers, Scenario, Setup};
use channel::record::Attempt;
use link::packet::Packet;
use std::alloc::{AllocError, Global};
use timer::store::Store;
use timer_aged::aged::Aged;
use timer_heap::heap::{self, HeapOrder};
use timer_list::list::{self, ListOrder};
use timer_order::order::Order;
use timer_order::row_store::RowStore;
use timer_quota::quota::Quota;
use timer_rows::row::Row;
use timer_wheel::wheel::{self, WheelOrder};
use trace::action::Segment;

/// A packet for rows that are vacant.
pub const PACKET: Packet = Packet::Keepalive { sequence: 0 };

/// An attempt for rows that are vacant.
pub const ATTEMPT: Attempt = Attempt {
    segment: Segment {
        sequence: 0,
        word: 0,
    },
    tries: 0,
    sent: 0,
};

/// An order of which stores of payloads `P` are made.
pub trait Made<P: Copy>: Order<P> + Drop {
    /// A store in this order, with nothing pending.
    fn made(rows: &mut [Row<P>], first: u32, last: u32) -> RowStore<'_, P, Self>;
}

impl<P: Copy> Made<P> for WheelOrder {
    fn made(rows: &mut [Row<P>], first: u32, _last: u32) -> RowStore<'_, P, Self> {
        wheel::over(rows, first)
    }
}

impl<P: Copy> Made<P> for ListOrder {
    fn made(rows: &mut [Row<P>], first: u32, last: u32) -> RowStore<'_, P, Self> {
        list::over(rows, first, last)
    }
}

impl<P: Copy> Made<P> for HeapOrder {
    fn made(rows: &mut [Row<P>], first: u32, last: u32) -> RowStore<'_, P, Self> {
        heap::over(rows, first, last)
    }
}

/// A store over rows, as it is to be lent.
pub fn store<'a, P: Copy + Drop, O: Made<P>>(
    rows: &'a mut [Row<P>],
    setup: Setup,
    payload: P,
) -> RowStore<'a, P, O> {
    let mut store = O::made(rows, setup.first, setup.last);
    if setup.before != Before::Nothing {
        let _ = store.start(setup.first.saturating_add(1), 0, payload);
    }
    if setup.before == Before::Stopped {
        let _ = store.stop(1);
    }
    store
}

/// What is seen of a scenario over stores in an order.
pub fn over<O: Made<Packet> + Made<Attempt> + Made<u8>>(
    heap: Global,
    scenario: &Scenario<'_>,
) -> Result<Log, AllocError> {
    let setups = scenario.setups;
    let later = scenario.later.unwrap_or(setups);
    let mut wire_rows = vec![in heap; Row::vacant(PACKET); setups.wire.rows]?;
    let mut resend_rows = vec![in heap; Row::vacant(ATTEMPT); setups.resend.rows]?;
    let mut keepalive_rows = vec![in heap; Row::vacant(0); setups.keepalive.rows]?;
    let mut later_wire_rows = vec![in heap; Row::vacant(PACKET); later.wire.rows]?;
    let mut later_resend_rows = vec![in heap; Row::vacant(ATTEMPT); later.resend.rows]?;
    let mut later_keepalive_rows = vec![in heap; Row::vacant(0); later.keepalive.rows]?;
    let mut wire = store::<Packet, O>(&mut wire_rows, setups.wire, PACKET);
    let mut resend = store::<Attempt, O>(&mut resend_rows, setups.resend, ATTEMPT);
    let mut keepalive = store::<u8, O>(&mut keepalive_rows, setups.keepalive, 0);
    let mut later_wire = store::<Packet, O>(&mut later_wire_rows, later.wire, PACKET);
    let mut later_resend = store::<Attempt, O>(&mut later_resend_rows, later.resend, ATTEMPT);
    let mut later_keepalive = store::<u8, O>(&mut later_keepalive_rows, later.keepalive, 0);
    match scenario.layers {
        Layers::Bare => play(
            heap,
            scenario,
            &mut wire,
            &mut resend,
            &mut keepalive,
            &mut later_wire,
            &mut later_resend,
            &mut later_keepalive,
        ),
        Layers::Wire => play(
            heap,
            scenario,
            &mut Quota::new(&mut wire, setups.wire.numbers),
            &mut resend,
            &mut keepalive,
            &mut Quota::new(&mut later_wire, later.wire.numbers),
            &mut later_resend,
            &mut later_keepalive,
        ),
        Layers::Quotas => play(
            heap,
            scenario,
            &mut Quota::new(&mut wire, setups.wire.numbers),
            &mut Quota::new(&mut resend, setups.resend.numbers),
            &mut Quota::new(&mut keepalive, setups.keepalive.numbers),
            &mut Quota::new(&mut later_wire, later.wire.numbers),
            &mut Quota::new(&mut later_resend, later.resend.numbers),
            &mut Quota::new(&mut later_keepalive, later.keepalive.numbers),
        ),
        Layers::Aged => play(
            heap,
            scenario,
            &mut Aged::new(&mut wire, setups.wire.given),
            &mut Aged::new(&mut resend, setups.resend.given),
            &mut Aged::new(&mut keepalive, setups.keepalive.given),
            &mut Aged::new(&mut later_wire, later.wire.given),
            &mut Aged::new(&mut later_resend, later.resend.given),
            &mut Aged::new(&mut later_keepalive, later.keepalive.given),
        ),
    }
}
