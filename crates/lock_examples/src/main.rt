//! An example of each lock, as the guide shows it. What is printed does not hang on the order of
//! threads.
#![tactic(auto)]

mod meter;
mod outline;
mod queue;
mod settings;
mod tally;

use anyhow::Result;

fn main(rt: HostRuntime) -> Result<()> {
    println!(rt; "queue {}", queue::pass_on(&rt, rt.alloc())?)?;
    println!(rt; "meter {}", meter::read_twice(&rt, rt.alloc())?)?;
    println!(rt; "tally {}", tally::count(&rt, rt.alloc())?)?;
    println!(rt; "outline {}", outline::measure(&rt, rt.alloc())?)?;
    println!(rt; "settings {}", settings::turn_up(&rt, rt.alloc())?)?;
    Ok(())
}
