ghost use Rattle.std.specs.Prelude.{◌≡◌};
ghost use Rattle.circuit.specs.Actions.{wire_at, names as is_named, share};

use crate::action::Action;

impl Action {
    // The wire at a place: 0 is the wire or the control, 1 the target. By hand, since an action holds no list of wires to get it from.
    pub fn wire_at(self, place: usize) -> Option<u8>
        ensures { result ≡ wire_at place self }
    {
        match place {
            0 => Some(self.first_wire()),
            1 => self.second_wire(),
            _ => None,
        }
    }

    // Whether the action names a wire. By hand, as below: it is a case each for one wire and two.
    pub fn names(self, wire: usize) -> bool
        ensures { result ≡ is_named self wire }
    {
        match self {
            Action::One(_, a) => wire == a as usize,
            Action::Cnot(a, b) => wire == a as usize || wire == b as usize,
        }
    }

    // Whether the actions name a common wire.
    pub fn shares_wire(self, other: Action) -> bool
        ensures { result ≡ share self other }
    {
        match self {
            Action::One(_, a) => other.names(a as usize),
            Action::Cnot(a, b) => other.names(a as usize) || other.names(b as usize),
        }
    }
}
