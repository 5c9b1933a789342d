use crate::called::Called;
use crate::workloads::Workload;
use std::alloc::{AllocError, Global};
use timer_heap::heap;
use timer_list::list;
use timer_rows::row::Row;
use timer_wheel::wheel::{self, LAST_TICK};

/// A kind of timer store.
#[derive(Clone, Copy)]
pub enum Kind {
    /// The timing wheel.
    Wheel,
    /// The binary heap.
    Heap,
    /// The sorted list.
    List,
    /// The timing wheel, whose calls stay calls.
    CalledWheel,
    /// The binary heap, whose calls stay calls.
    CalledHeap,
}

impl Kind {
    /// The kind that a number stands for: 0 the wheel, 1 the heap, 3 and 4 these two with calls that stay calls, any other the list.
    pub fn numbered(number: u32) -> Kind {
        match number {
            0 => Kind::Wheel,
            1 => Kind::Heap,
            3 => Kind::CalledWheel,
            4 => Kind::CalledHeap,
            _ => Kind::List,
        }
    }
}

// The payload of stores whose calls stay calls. For a type of its own the compiler makes functions of the store of their own, and leaves those of the other stores as they are.
#[derive(Clone, Copy)]
struct Numbered {
    number: u32,
}

impl From<u32> for Numbered {
    fn from(number: u32) -> Numbered {
        Numbered { number }
    }
}

impl From<Numbered> for u32 {
    fn from(payload: Numbered) -> u32 {
        payload.number
    }
}

// As many vacant rows as a workload needs.
fn vacant<P: Copy + From<u32>>(
    memory: Global,
    workload: Workload,
) -> Result<Vec<Row<P>>, AllocError> {
    vec![in memory; Row::vacant(P::from(0)); workload.rows()]
}

/// The sum of a workload over a store of a kind, which begins at tick 0.
pub fn run(memory: Global, kind: Kind, workload: Workload) -> Result<u64, AllocError> {
    match kind {
        Kind::Wheel => {
            let mut rows = vacant::<u32>(memory, workload)?;
            workload.run(memory, &mut wheel::over(&mut rows, 0))
        }
        Kind::Heap => {
            let mut rows = vacant::<u32>(memory, workload)?;
            workload.run(memory, &mut heap::over(&mut rows, 0, LAST_TICK))
        }
        Kind::List => {
            let mut rows = vacant::<u32>(memory, workload)?;
            workload.run(memory, &mut list::over(&mut rows, 0, LAST_TICK))
        }
        Kind::CalledWheel => {
            let mut rows = vacant::<Numbered>(memory, workload)?;
            let mut store = wheel::over(&mut rows, 0);
            workload.run(memory, &mut Called::new(&mut store))
        }
        Kind::CalledHeap => {
            let mut rows = vacant::<Numbered>(memory, workload)?;
            let mut store = heap::over(&mut rows, 0, LAST_TICK);
            workload.run(memory, &mut Called::new(&mut store))
        }
    }
}
