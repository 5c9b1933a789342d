#![tactic(auto)]

mod commands;
mod compare;
mod edges;
mod generate;
mod log;
mod notes;
mod ours;
mod over;
mod pairs;
mod plain;
mod random;
mod scenario;
mod sessions;
mod stores;
mod structure;
mod theirs;
mod writer;

use crate::compare::compare;
use crate::generate::generate;
use std::alloc::{AllocError, Global};
use tally::Tally;

// How many sessions are made up.
const SESSIONS: u64 = 2_000;

fn main(rt: HostRuntime) -> anyhow::Result<()> {
    let heap = rt.alloc();
    print(&rt, "stores at their edges", stores::compare_edges(heap)?)?;
    print(&rt, "random stores", stores::compare_random(heap)?)?;
    print(
        &rt,
        "structures of stores",
        structure::compare_structures(heap)?,
    )?;
    print(&rt, "lines and buffers", writer::compare_lines(heap)?)?;
    print(&rt, "rigs at their edges", edges::compare_edges(heap)?)?;
    print(&rt, "random sessions", random_sessions(heap)?)?;
    print(&rt, "the session", sessions::compare_session(heap)?)?;
    print(&rt, "pairs of rigs", sessions::compare_sessions(heap)?)
}

fn print(rt: &HostRuntime, group: &str, tally: Tally) -> anyhow::Result<()> {
    println!(rt;
        "{group}: {} compared, {} differ",
        tally.cases, tally.differing
    )?;
    Ok(())
}

// Sessions that seeds decide.
fn random_sessions(heap: Global) -> Result<Tally, AllocError> {
    let mut tally = Tally::new();
    for seed in 0..SESSIONS {
        compare(heap, &generate(heap, seed)?.scenario(), &mut tally)?;
    }
    Ok(tally)
}
