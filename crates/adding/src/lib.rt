// What adding a gate to a program is refused for, and the gate that is added.
#![tactic(auto)]

pub mod labelled;
pub mod unread;

ghost use Rattle.std.specs.Prelude.{◌≡◌};
ghost use Rattle.refusal.specs.Refusals.{ok_unless};
ghost use Rattle.circuit.specs.Actions.{action_of, is_twice};
ghost use Rattle.book.specs.Books.{untimed};
ghost use Rattle.adding.specs.Additions.{program_refusal, new_gate};

use crate::labelled::labelled;
use crate::unread::check_unread;
use circuit::action::Action;
use plan::gate::Gate;
use refusal::Refusal;

// Whether a CNOT names one label twice.
fn is_twice(action: Action) -> bool
    ensures { result ≡ is_twice action }
{
    match action {
        Action::One(_, _) => false,
        Action::Cnot(control, target) => control == target,
    }
}

// Why a program takes no gate of this action: one label twice, a label that was read already, or no room.
fn check_program(action: Action, gates: &[Gate]) -> Result<(), Refusal>
    ensures { result ≡ ok_unless (program_refusal gates.now action) tt }
{
    if is_twice(action) {
        return Err(Refusal::SameLabel);
    }
    check_unread(action, gates)?;
    if gates.len() >= 256 {
        return Err(Refusal::ProgramFull);
    }
    Ok(())
}

// The gate of an action on labels of the program, without a timing; or why the program takes none.
fn gate_of(action: Action, gates: &[Gate]) -> Result<Gate, Refusal>
    ensures { result ≡ ok_unless (program_refusal gates.now action) (untimed action) }
{
    check_program(action, gates)?;
    Ok(Gate {
        action,
        timing: None,
    })
}

// The gate that adding to a program with so many labels makes, without a timing; or why it is refused.
#[tactic(auto, using(crate::proofs::Gates::new_gate_labelled))]
pub fn new_gate(
    letter: char,
    one: u32,
    two: u32,
    labels: u8,
    gates: &[Gate],
) -> Result<Gate, Refusal>
    ensures { result ≡ new_gate labels gates.now (action_of letter one two) }
{
    let action = labelled(letter, one, two, labels)?;
    gate_of(action, gates)
}
