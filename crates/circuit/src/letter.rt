ghost use Rattle.std.specs.Prelude.{◌≡◌, IfSome, Some};
ghost use Rattle.circuit.specs.Actions.{letter_of, action_of, first_wire, second_wire, target_or_zero};

use crate::action::{Action, Plain, Single};

// The letters are two tables by hand, one each way: by way of `Kind` there would be a third, from kinds to actions.
impl Action {
    // The action whose kind has the letter, or none. A kind on one wire ignores the second.
    pub fn from_letter(letter: char, first: u8, second: u8) -> Option<Action>
        ensures value { result ≡ action_of letter first second }
        ensures back { IfSome result (λ x. letter_of x ≡ letter) }
    {
        match letter {
            'H' => Some(Action::One(Single::H, first)),
            'X' => Some(Action::One(Single::Plain(Plain::X), first)),
            'Y' => Some(Action::One(Single::Plain(Plain::Y), first)),
            'Z' => Some(Action::One(Single::Plain(Plain::Z), first)),
            'S' => Some(Action::One(Single::Plain(Plain::S), first)),
            'T' => Some(Action::One(Single::Plain(Plain::T), first)),
            'C' => Some(Action::Cnot(first, second)),
            'R' => Some(Action::One(Single::Read, first)),
            _ => None,
        }
    }

    // The letter of the action's kind, by which `from_letter` finds it again.
    pub fn letter(self) -> char
        ensures value { result ≡ letter_of self }
        ensures back { action_of result (first_wire self) (target_or_zero self) ≡ Some self }
    {
        match self {
            Action::One(Single::H, _) => 'H',
            Action::One(Single::Plain(Plain::X), _) => 'X',
            Action::One(Single::Plain(Plain::Y), _) => 'Y',
            Action::One(Single::Plain(Plain::Z), _) => 'Z',
            Action::One(Single::Plain(Plain::S), _) => 'S',
            Action::One(Single::Plain(Plain::T), _) => 'T',
            Action::Cnot(_, _) => 'C',
            Action::One(Single::Read, _) => 'R',
        }
    }

    // The wire, or the control.
    pub fn first_wire(self) -> u8
        ensures { result ≡ first_wire self }
    {
        match self {
            Action::One(_, wire) => wire,
            Action::Cnot(control, _) => control,
        }
    }

    // The target, where the action is a CNOT.
    pub fn second_wire(self) -> Option<u8>
        ensures { result ≡ second_wire self }
    {
        match self {
            Action::One(_, _) => None,
            Action::Cnot(_, target) => Some(target),
        }
    }
}
