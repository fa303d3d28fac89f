// A tour of the part: a job of one CNOT from opening to listing, then two jobs of several labels that are listed, rehearsed in two orders and run directly, each action printed.
#![tactic(auto)]

mod amplitudes;
mod calls;
mod first_job;
mod reorder;
mod second_job;
mod show;
mod task;
mod third_job;
mod told;

use show::say;

fn main(rt: HostRuntime) -> anyhow::Result<()> {
    say(&rt, "FIRST JOB: one CNOT over two links")?;
    first_job::tour(&rt)?;
    say(&rt, "")?;
    say(&rt, "SECOND JOB: amplitudes")?;
    second_job::tour(&rt)?;
    say(&rt, "")?;
    say(&rt, "THIRD JOB: told numbers")?;
    third_job::tour(&rt)
}
