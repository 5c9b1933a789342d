use crate::log::Log;
use crate::over::{Made, over};
use crate::scenario::Scenario;
use crate::theirs;
use channel::record::Attempt;
use link::packet::Packet;
use std::alloc::{AllocError, Global};
use tally::Tally;
use timer_heap::heap::HeapOrder;
use timer_list::list::ListOrder;
use timer_wheel::wheel::WheelOrder;

// Compares what is seen over stores in an order with what is seen of the plain rig.
fn against<O: Made<Packet> + Made<Attempt> + Made<u8>>(
    heap: Global,
    scenario: &Scenario<'_>,
    plain: &Log,
    tally: &mut Tally,
) -> Result<(), AllocError> {
    let seen = over::<O>(heap, scenario)?;
    tally.compare(seen.numbers(), plain.numbers());
    Ok(())
}

/// Plays a scenario on the plain rig and over every store, and compares.
pub fn compare(heap: Global, scenario: &Scenario<'_>, tally: &mut Tally) -> Result<(), AllocError> {
    let plain = theirs::play(heap, scenario)?;
    against::<WheelOrder>(heap, scenario, &plain, tally)?;
    against::<ListOrder>(heap, scenario, &plain, tally)?;
    against::<HeapOrder>(heap, scenario, &plain, tally)
}

/// The same over the list and the heap, which alone can be given another last tick.
pub fn compare_shorter(
    heap: Global,
    scenario: &Scenario<'_>,
    tally: &mut Tally,
) -> Result<(), AllocError> {
    let plain = theirs::play(heap, scenario)?;
    against::<ListOrder>(heap, scenario, &plain, tally)?;
    against::<HeapOrder>(heap, scenario, &plain, tally)
}
