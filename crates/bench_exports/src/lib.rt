#![tactic(auto)]

mod called;
mod random;
mod rig;
mod stores;
mod sums;
mod workloads;

use crate::stores::Kind;
use crate::workloads::Workload;
use std::alloc::Global;

// Workloads that a program in C or in Rust can time. Each answers a sum that tells what fired and in which order, or 2^64 - 1 for want of memory.
// The store is 0 for the wheel, 1 for the heap, 3 and 4 for these two with calls that stay calls, and the list for any other number.

/// Stops and starts timers anew, with a tick after every eighth.
#[unsafe(no_mangle)]
pub extern "C" fn bench_restart(heap: Global, store: u32, operations: u64) -> u64 {
    let workload = Workload::Restart { operations };
    stores::run(heap, Kind::numbered(store), workload).unwrap_or(u64::MAX)
}

/// Starts timers and lets ticks pass until all have fired, so many rounds.
#[unsafe(no_mangle)]
pub extern "C" fn bench_fire(heap: Global, store: u32, timers: u32, rounds: u64) -> u64 {
    let workload = Workload::Fire { timers, rounds };
    stores::run(heap, Kind::numbered(store), workload).unwrap_or(u64::MAX)
}

/// Lets so many ticks pass, at most 10,000,000, while 64 timers wait.
#[unsafe(no_mangle)]
pub extern "C" fn bench_idle(heap: Global, store: u32, ticks: u64) -> u64 {
    let workload = Workload::Idle { ticks };
    stores::run(heap, Kind::numbered(store), workload).unwrap_or(u64::MAX)
}

/// Stops and starts timers anew while no tick passes; it sums the tickets.
#[unsafe(no_mangle)]
pub extern "C" fn bench_start_stop(heap: Global, store: u32, pending: u32, operations: u64) -> u64 {
    let workload = Workload::StartStop {
        pending,
        operations,
    };
    stores::run(heap, Kind::numbered(store), workload).unwrap_or(u64::MAX)
}

/// Stops some timers and then starts as many, so many times, in a store of so many rows, at most 4,096; it sums the tickets.
#[unsafe(no_mangle)]
pub extern "C" fn bench_bursts(
    heap: Global,
    store: u32,
    rows: u32,
    pending: u32,
    burst: u32,
    bursts: u64,
) -> u64 {
    let workload = Workload::Bursts {
        rows,
        pending,
        burst,
        bursts,
    };
    stores::run(heap, Kind::numbered(store), workload).unwrap_or(u64::MAX)
}

/// Makes so many steps of a rig that is kept busy on 64 channels; here 3 and 4 are simply the wheel and the heap.
#[unsafe(no_mangle)]
pub extern "C" fn bench_rig(heap: Global, store: u32, steps: u64) -> u64 {
    rig::run(heap, Kind::numbered(store), steps).unwrap_or(u64::MAX)
}
