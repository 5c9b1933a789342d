#![tactic(auto)]

mod play;
mod script;
mod stores;

use std::io::Write;

fn main(rt: HostRuntime) -> anyhow::Result<()> {
    run(&rt)
}

// Plays the session over wheels, silently beside it over lists, and prints what the wheels give.
fn run(rt: &HostRuntime) -> anyhow::Result<()> {
    let pair = play::over_wheels_and_lists(rt.alloc())?;
    let session = pair.first?;
    rt.stdout().write_all(&session.text)?;
    pair.second?;
    Ok(())
}
