// Repeats calls of a job for measuring. Each line of standard input names a measurement and how often its call is repeated, and is answered with a sum of what the calls answered.
#![tactic(auto)]

mod measurements;
mod programs;

use anyhow::Context;
use measurements::measure;

fn main(rt: HostRuntime) -> anyhow::Result<()> {
    for line in rt.lines(rt.alloc()) {
        let line = line?;
        let (name, rounds) = line
            .split_once(' ')
            .context("a line is a name and a number")?;
        let rounds: u32 = rounds.parse().context("the second word is no number")?;
        let sum = measure(&rt, name, rounds)?.context("there is no such measurement")?;
        println!(rt; "{name} {rounds} {sum}")?;
    }
    Ok(())
}
