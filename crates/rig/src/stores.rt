ghost use Rattle.std.specs.Prelude.{◌≡◌};
ghost use Rattle.timer_order.specs.Idle.{idle};

use channel::record::Attempt;
use link::packet::Packet;
use timer::store::Store;
use timer_list::list::{self, ListOrder, SortedList};
use timer_order::order::Order;
use timer_order::row_store::RowStore;
use timer_rows::row::Row;
use timer_wheel::wheel::{self, LAST_TICK, Wheel, WheelOrder};
use trace::action::Segment;

/// How many rows the wire has.
pub const WIRE_ROWS: usize = 512;

/// How many rows the resend timers have.
pub const RESEND_ROWS: usize = 256;

/// How many rows the keepalive timers have.
pub const KEEPALIVE_ROWS: usize = 64;

/// What a vacant row of the wire holds.
pub const PACKET: Packet = Packet::Keepalive { sequence: 0 };

/// What a vacant row of the resend timers holds.
pub const ATTEMPT: Attempt = Attempt {
    segment: Segment {
        sequence: 0,
        word: 0,
    },
    tries: 0,
    sent: 0,
};

/// The three stores of a rig, all in one order.
#[derive(Drop)]
pub struct Stores<'a, O: Order<Packet> + Order<Attempt> + Order<u8>> {
    /// The packets that are under way.
    pub wire: RowStore<'a, Packet, O>,
    /// The timers of the words that are not acknowledged.
    pub resend: RowStore<'a, Attempt, O>,
    /// The timers of the signs of life.
    pub keepalive: RowStore<'a, u8, O>,
}

impl<'a> Stores<'a, WheelOrder> {
    /// Wheels at tick 0.
    pub fn wheels(
        wire: &'a mut [Row<Packet>; WIRE_ROWS],
        resend: &'a mut [Row<Attempt>; RESEND_ROWS],
        keepalive: &'a mut [Row<u8>; KEEPALIVE_ROWS],
    ) -> Self
        ensures wire { ⟦<Wheel<'a, Packet> as Store<Packet>>⟧.meaning result.wire ≡ idle 0 LAST_TICK 512 }
        ensures resend { ⟦<Wheel<'a, Attempt> as Store<Attempt>>⟧.meaning result.resend ≡ idle 0 LAST_TICK 256 }
        ensures keepalive { ⟦<Wheel<'a, u8> as Store<u8>>⟧.meaning result.keepalive ≡ idle 0 LAST_TICK 64 }
    {
        Stores {
            wire: wheel::over(wire, 0),
            resend: wheel::over(resend, 0),
            keepalive: wheel::over(keepalive, 0),
        }
    }
}

impl<'a> Stores<'a, ListOrder> {
    /// Lists at tick 0, with the last tick of the wheels.
    pub fn lists(
        wire: &'a mut [Row<Packet>; WIRE_ROWS],
        resend: &'a mut [Row<Attempt>; RESEND_ROWS],
        keepalive: &'a mut [Row<u8>; KEEPALIVE_ROWS],
    ) -> Self
        ensures wire { ⟦<SortedList<'a, Packet> as Store<Packet>>⟧.meaning result.wire ≡ idle 0 LAST_TICK 512 }
        ensures resend { ⟦<SortedList<'a, Attempt> as Store<Attempt>>⟧.meaning result.resend ≡ idle 0 LAST_TICK 256 }
        ensures keepalive { ⟦<SortedList<'a, u8> as Store<u8>>⟧.meaning result.keepalive ≡ idle 0 LAST_TICK 64 }
    {
        Stores {
            wire: list::over(wire, 0, LAST_TICK),
            resend: list::over(resend, 0, LAST_TICK),
            keepalive: list::over(keepalive, 0, LAST_TICK),
        }
    }
}
