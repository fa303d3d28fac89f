// What a list of operations is refused for on a register: each test on the whole list, one test after another.
#![tactic(auto)]

pub mod counts;

ghost use Rattle.std.specs.Prelude.{◌≡◌, ◌+◌, true, not, None, nat_lt};
ghost use Rattle.std.specs.Option.{option_map};
ghost use Rattle.refusal.specs.Refusals.{refuse_if, ok_unless};
ghost use Rattle.circuit.specs.Operations.{h_count, read_count};
ghost use Rattle.register.specs.Models.{is_taken};
ghost use Rattle.running.specs.Fitting.{unfit};
ghost use Rattle.register.specs.Runs.{capacity, is_off_wires, at_first, too_few, running_refusal, RunningFair};

use crate::counts::{count_h, count_reads};
use circuit::operation::Operation;
use refusal::Refusal;
use register::GateRegister;
use register::check::{is_off_wires, is_past, is_taken};

// The first operation that names a wire beyond the last, or is a CNOT with one wire twice.
fn first_off_wires<G: GateRegister>(register: &G, operations: &[Operation]) -> Option<usize>
    ensures { option_map Refusal.NotOnWires result ≡ at_first Refusal.NotOnWires (λ o. is_off_wires (G.GateRegister.model.size (G.GateRegister.state register.now)) o.action) 0 operations.now }
{
    let wires = register.wires();
    operations
        .iter()
        .position(|operation| is_off_wires(wires, operation.action))
}

// Refuses the first operation that is not on the wires.
fn check_wires<G: GateRegister>(register: &G, operations: &[Operation]) -> Result<(), Refusal>
    ensures { result ≡ ok_unless (at_first Refusal.NotOnWires (λ o. is_off_wires (G.GateRegister.model.size (G.GateRegister.state register.now)) o.action) 0 operations.now) tt }
{
    // A match, here and below: `map_or(Ok(()), ..)` would hide what is answered where nothing is found.
    match first_off_wires(register, operations) {
        Some(position) => Err(Refusal::NotOnWires(position)),
        None => Ok(()),
    }
}

// The first operation of a kind that the register does not take.
fn first_not_taken<G: GateRegister>(register: &G, operations: &[Operation]) -> Option<usize>
    ensures { option_map Refusal.KindNotTaken result ≡ at_first Refusal.KindNotTaken (λ o. not (is_taken G.GateRegister.model.takes o.action)) 0 operations.now }
{
    operations
        .iter()
        .position(|operation| !is_taken(register, operation.action))
}

// Refuses the first operation of a kind that is not taken.
fn check_kinds<G: GateRegister>(register: &G, operations: &[Operation]) -> Result<(), Refusal>
    ensures { result ≡ ok_unless (at_first Refusal.KindNotTaken (λ o. not (is_taken G.GateRegister.model.takes o.action)) 0 operations.now) tt }
{
    match first_not_taken(register, operations) {
        Some(position) => Err(Refusal::KindNotTaken(position)),
        None => Ok(()),
    }
}

// Whether each operation is on the wires and of a kind that is taken: one pass, where the two tests that name the first take one each.
fn are_taken<G: GateRegister>(register: &G, operations: &[Operation]) -> bool
    ensures { result ≡ true → unfit (G.GateRegister.model.size (G.GateRegister.state register.now)) G.GateRegister.model.takes operations.now ≡ None }
{
    let wires = register.wires();
    for operation in operations {
        if is_off_wires(wires, operation.action) || !is_taken(register, operation.action) {
            return false;
        }
    }
    true
}

// Refuses the first operation that is not on the wires, then the first of a kind that is not taken.
fn check_fit<G: GateRegister>(register: &G, operations: &[Operation]) -> Result<(), Refusal>
    ensures { result ≡ ok_unless (unfit (G.GateRegister.model.size (G.GateRegister.state register.now)) G.GateRegister.model.takes operations.now) tt }
{
    if are_taken(register, operations) {
        return Ok(());
    }
    check_wires(register, operations)?;
    check_kinds(register, operations)
}

// Refuses more H than the register may still do.
fn check_h<G: GateRegister>(register: &G, operations: &[Operation]) -> Result<(), Refusal>
    ensures { result ≡ ok_unless (refuse_if (nat_lt G.GateRegister.most (G.GateRegister.done register.now + h_count operations.now)) Refusal.TooManyH) tt }
{
    if is_past(register.h_done(), register.h_most(), count_h(operations)) {
        return Err(Refusal::TooManyH);
    }
    Ok(())
}

// Refuses fewer places than reads, where readings are written.
fn check_places(operations: &[Operation], places: Option<usize>) -> Result<(), Refusal>
    ensures { result ≡ ok_unless (too_few (read_count operations.now) places) tt }
{
    match places {
        Some(places) if places < count_reads(operations) => Err(Refusal::TooFewPlaces),
        _ => Ok(()),
    }
}

// The tests one after another. Apart from `check_run`, so that the law is proved of one value.
fn check_each<G: GateRegister>(
    register: &G,
    operations: &[Operation],
    places: Option<usize>,
) -> Result<(), Refusal>
    ensures { result ≡ ok_unless (running_refusal (capacity G.GateRegister.model G.GateRegister.most (G.GateRegister.state register.now) (G.GateRegister.done register.now) places) operations.now) tt }
{
    check_fit(register, operations)?;
    check_h(register, operations)?;
    check_places(operations, places)
}

// Why the register does not take the operations, with so many places for readings where it tells; or that it does. Every test is made on the whole list.
#[tactic(auto, using(crate::proofs::Fair::fair_rules))]
pub fn check_run<G: GateRegister>(
    register: &G,
    operations: &[Operation],
    places: Option<usize>,
) -> Result<(), Refusal>
    ensures answer { result ≡ ok_unless (running_refusal (capacity G.GateRegister.model G.GateRegister.most (G.GateRegister.state register.now) (G.GateRegister.done register.now) places) operations.now) tt }
    ensures fair { RunningFair }
{
    check_each(register, operations, places)
}
