// The action that a letter and labels name.
ghost use Rattle.std.specs.Prelude.{◌≡◌, nat_le};
ghost use Rattle.refusal.specs.Refusals.{refuse_if, ok_unless};
ghost use Rattle.circuit.specs.Actions.{action_of};
ghost use Rattle.adding.specs.Additions.{with_wires, labels_refusal, labelled};

use circuit::action::Action;
use refusal::Refusal;

// The label, where there are so many that it is one.
fn checked_label(label: u32, labels: u8) -> Result<u8, Refusal>
    ensures { result ≡ ok_unless (refuse_if (nat_le labels label) (Refusal.NoSuchLabel label)) label }
{
    if label >= u32::from(labels) {
        return Err(Refusal::NoSuchLabel(label as usize));
    }
    Ok(label as u8)
}

// An action of the same kind on these labels. A kind on one label ignores the second.
fn on_labels(kind: Action, one: u32, two: u32, labels: u8) -> Result<Action, Refusal>
    ensures { result ≡ ok_unless (labels_refusal labels (with_wires one two kind)) (with_wires one two kind) }
{
    match kind {
        Action::One(single, _) => {
            let label = checked_label(one, labels)?;
            Ok(Action::One(single, label))
        }
        Action::Cnot(_, _) => {
            let control = checked_label(one, labels)?;
            let target = checked_label(two, labels)?;
            Ok(Action::Cnot(control, target))
        }
    }
}

// The action of a letter's kind on labels, or that there is no such kind or label.
#[tactic(auto, using(crate::proofs::Wires::kind_then_wires))]
pub fn labelled(letter: char, one: u32, two: u32, labels: u8) -> Result<Action, Refusal>
    ensures { result ≡ labelled labels (action_of letter one two) }
{
    match Action::from_letter(letter, 0, 0) {
        Some(kind) => on_labels(kind, one, two, labels),
        None => Err(Refusal::UnknownKind),
    }
}
