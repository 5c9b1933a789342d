// Prints how many rows of its store a start and a stop look at, for stores of several sizes and loads, and for bursts of stops and as many starts.
#![tactic(auto)]

mod looks;
mod play;
mod tally;

use crate::play::{burst_case, filling_case};

const ROWS: [usize; 2] = [512, 4_096];

// How full the store is, in per cent.
const LOADS: [usize; 5] = [25, 50, 90, 99, 100];

const BURSTS: [u32; 5] = [1, 2, 4, 16, 64];

// How many bursts a case has.
const ROUNDS: u32 = 256;

fn main(rt: HostRuntime) -> anyhow::Result<()> {
    let heap = rt.alloc();
    println!(rt; "rows load burst starts looked worst stops looked worst")?;
    for rows in ROWS {
        let seen = filling_case(heap, rows)?;
        println!(rt; "{rows} 100 0 {} {}", seen.starts, seen.stops)?;
        for load in LOADS {
            for burst in BURSTS {
                let seen = burst_case(heap, rows, load, burst, ROUNDS)?;
                println!(rt; "{rows} {load} {burst} {} {}", seen.starts, seen.stops)?;
            }
        }
    }
    Ok(())
}
