//! Takes turns at a lock, in one thread and in two, and prints what came of it. With a number it only takes so many
//! turns in two threads, for `bench/lock.sh`.
#![tactic(auto)]

mod cases;
mod log;
mod pace;
mod threads;

use std::env;

fn main(rt: HostRuntime) -> anyhow::Result<()> {
    if let Some(count) = env::args(&rt)?.nth(1) {
        let taken = pace::turns(&rt, rt.alloc(), count.as_str().parse()?);
        println!(rt; "turns {taken}")?;
        return Ok(());
    }
    println!(rt; "turns of passes {:?}", cases::turns(&rt, rt.alloc()))?;
    println!(rt; "spent {:?}", cases::spent(&rt, rt.alloc()))?;
    println!(rt;
        "closed while a turn is out {:?}",
        cases::closed_early(&rt, rt.alloc())
    )?;
    println!(rt; "handed over {:?}", threads::handed_over(&rt, rt.alloc()))?;
    println!(rt; "waited {:?}", threads::waited(&rt, rt.alloc()))?;
    let both = threads::both(&rt, rt.alloc(), 5, 6);
    println!(rt; "both stand {}", both.is_some())?;
    println!(rt; "two hundred {:?}", threads::two_hundred(&rt, rt.alloc()))?;
    Ok(())
}
