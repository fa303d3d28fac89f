// What this program prints of gates, cells, verdicts, operations and readings; no type's Display, since it is this program's own form.
use crate::task::Step;
use calibration::values::Calibration;
use circuit::operation::{Operation, Reading};
use plan::gate::AgendaEntry;
use refusal::Refusal;

// A line of fixed text.
pub(crate) fn say(rt: &HostRuntime, line: &str) -> anyhow::Result<()> {
    println!(rt; "{line}")?;
    Ok(())
}

// What is counted, and how many there are.
pub(crate) fn print_count(rt: &HostRuntime, what: &str, count: usize) -> anyhow::Result<()> {
    println!(rt; "{what}: {count}")?;
    Ok(())
}

pub(crate) fn print_gate(rt: &HostRuntime, gate: usize, step: &Step) -> anyhow::Result<()> {
    print!(rt; "gate {gate} is added: {} {}", step.letter, step.one)?;
    if step.letter == 'C' {
        print!(rt; " {}", step.two)?;
    }
    say(rt, "")?;
    Ok(())
}

pub(crate) fn print_cell(rt: &HostRuntime, cell: u32, values: &Calibration) -> anyhow::Result<()> {
    println!(rt;
        "cell {cell} is calibrated: single {}, read {}, window {}, east {}, south {}",
        values.single, values.read, values.window, values.east, values.south
    )?;
    Ok(())
}

pub(crate) fn print_home(rt: &HostRuntime, label: u32, home: u32) -> anyhow::Result<()> {
    println!(rt; "label {label} is placed on cell {home}")?;
    Ok(())
}

pub(crate) fn print_timing(rt: &HostRuntime, gate: u32, step: &Step) -> anyhow::Result<()> {
    println!(rt;
        "gate {gate} starts at {}, by route choice {}",
        step.start, step.choice
    )?;
    Ok(())
}

pub(crate) fn print_entry(rt: &HostRuntime, entry: &AgendaEntry) -> anyhow::Result<()> {
    println!(rt; "at {}: gate {}", entry.start, entry.gate)?;
    Ok(())
}

// A refusal by its number and its places.
pub(crate) fn print_refusal(rt: &HostRuntime, refusal: Refusal) -> anyhow::Result<()> {
    let shown = refusal.shown();
    println!(rt;
        "refused by {}, places {} and {}",
        shown.number, shown.first, shown.second
    )?;
    Ok(())
}

pub(crate) fn print_verdict(
    rt: &HostRuntime,
    what: &str,
    verdict: Result<u64, Refusal>,
) -> anyhow::Result<()> {
    print!(rt; "{what}: ")?;
    match verdict {
        Ok(end) => println!(rt; "it passes and ends at {end}")?,
        Err(refusal) => print_refusal(rt, refusal)?,
    }
    Ok(())
}

// An operation: its start, length, letter, first cell, second cell or -, and gate.
fn print_operation(rt: &HostRuntime, operation: &Operation) -> anyhow::Result<()> {
    let action = operation.action;
    print!(rt;
        "{} {} {} {}",
        operation.start,
        operation.length,
        action.letter(),
        action.first_wire()
    )?;
    match action.second_wire() {
        Some(second) => print!(rt; " {second}")?,
        None => print!(rt; " -")?,
    }
    println!(rt; " {}", operation.gate)?;
    Ok(())
}

pub(crate) fn print_operations(rt: &HostRuntime, operations: &[Operation]) -> anyhow::Result<()> {
    for operation in operations {
        print_operation(rt, operation)?;
    }
    Ok(())
}

pub(crate) fn print_readings(rt: &HostRuntime, readings: &[Reading]) -> anyhow::Result<()> {
    for reading in readings {
        println!(rt; "gate {} reads {}", reading.gate, reading.number)?;
    }
    Ok(())
}

// Whether two things that were compared agree.
pub(crate) fn print_agreement(rt: &HostRuntime, what: &str, agree: bool) -> anyhow::Result<()> {
    let answer = if agree { "yes" } else { "NO" };
    println!(rt; "{what}: {answer}")?;
    Ok(())
}
