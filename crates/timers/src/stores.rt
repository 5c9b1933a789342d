ghost use Rattle.std.specs.Prelude.{◌≡◌, IsTrue, IfOk, length};
ghost use Rattle.journal.specs.Notes.{told};
ghost use Rattle.timer_order.specs.Idle.{idle};
ghost use Rattle.timer_rows.specs.Rows.{used, unused};

use crate::task::{self, BUDGET};
use journal::note::Note;
use journal::record::{tell, tell_alike};
use std::alloc::{AllocError, Global};
use timer::call::Call;
use timer::store::Store;
use timer_heap::heap;
use timer_list::list;
use timer_quota::quota::Quota;
use timer_rows::row::Row;
use timer_wheel::wheel::{self, LAST_TICK};

const ROWS: usize = 8;

/// The stores that are compared with the list.
#[derive(Clone, Copy)]
pub enum Kind {
    /// The heap.
    Heap,
    /// The wheel.
    Wheel,
}

/// How the task meets a store.
#[derive(Clone, Copy)]
pub enum Layer {
    /// As it is.
    Bare,
    /// Under the quota.
    Quota,
}

/// Vacant rows for a store of the task.
pub fn vacant() -> [Row<u32>; ROWS] {
    [Row::vacant(0); ROWS]
}

/// The notes of calls over the list, until nothing is pending or the budget is used up; rows past the 4,096th are left as they were.
pub fn notes_of(
    rows: &mut [Row<u32>],
    calls: &[Call<u32>],
    budget: u32,
    memory: Global,
) -> Result<Vec<Note>, AllocError>
    ensures notes { IfOk result (λ v. v.items ≡ told (idle 0 LAST_TICK (length (used rows.old))) calls.now budget) }
    ensures unused { unused rows.new ≡ unused rows.old }
{
    let mut store = list::over(rows, 0, LAST_TICK);
    tell(&mut store, calls, budget, memory)
}

/// The task's notes over the list under the quota.
pub fn limited_notes(memory: Global) -> Result<Vec<Note>, AllocError> {
    let mut rows = vacant();
    let mut store = list::over(&mut rows, 0, LAST_TICK);
    let mut limited = Quota::new(&mut store, task::numbers());
    tell(&mut limited, &task::calls(), BUDGET, memory)
}

// Whether the task has the same notes over two stores, as it has if these mean the same.
fn alike<S: Store<u32>, T: Store<u32>>(
    one: &mut S,
    other: &mut T,
    layer: Layer,
    memory: Global,
) -> Result<bool, AllocError>
    ensures { IfOk result (λ same. S.meaning one.old ≡ T.meaning other.old → IsTrue same) }
{
    match layer {
        Layer::Bare => tell_alike(one, other, &task::calls(), BUDGET, memory),
        Layer::Quota => limited_alike(one, other, memory),
    }
}

// The same under the quota.
fn limited_alike<S: Store<u32>, T: Store<u32>>(
    one: &mut S,
    other: &mut T,
    memory: Global,
) -> Result<bool, AllocError>
    ensures { IfOk result (λ same. S.meaning one.old ≡ T.meaning other.old → IsTrue same) }
{
    let numbers = task::numbers();
    let mut limited = Quota::new(one, numbers);
    let mut other_limited = Quota::new(other, numbers);
    let calls = task::calls();
    tell_alike(&mut limited, &mut other_limited, &calls, BUDGET, memory)
}

/// Whether the task has the same notes over the list and over another store, as it has.
pub fn agrees(kind: Kind, layer: Layer, memory: Global) -> Result<bool, AllocError>
    ensures { IfOk result (λ same. IsTrue same) }
{
    let mut rows = vacant();
    let mut other_rows = rows;
    let mut store = list::over(&mut rows, 0, LAST_TICK);
    match kind {
        Kind::Heap => {
            let mut other = heap::over(&mut other_rows, 0, LAST_TICK);
            alike(&mut store, &mut other, layer, memory)
        }
        Kind::Wheel => {
            let mut other = wheel::over(&mut other_rows, 0);
            alike(&mut store, &mut other, layer, memory)
        }
    }
}

/// Whether the task has the same notes under the quota and, over the wheel, under two that allow together what the one allows.
pub fn agrees_under_two(memory: Global) -> Result<bool, AllocError> {
    let mut rows = vacant();
    let mut other_rows = rows;
    let mut store = list::over(&mut rows, 0, LAST_TICK);
    let mut other = wheel::over(&mut other_rows, 0);
    let mut below = Quota::new(&mut other, [5; 64]);
    alike(&mut store, &mut below, Layer::Quota, memory)
}
