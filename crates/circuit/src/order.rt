// The order of operations: start, first cell, length, kind, second cell, gate.
ghost use Rattle.std.specs.Prelude.{◌≡◌, ◌+◌, Some, Decides, refl};
ghost use Rattle.std.specs.Ordering.{is_eq, eq_by_cmp};
ghost use Rattle.orders.specs.Ranks.{compared, by_key};
ghost use Rattle.circuit.specs.Actions.{kind_place};
ghost use Rattle.circuit.specs.Operations.{later_fields, cell_and_later, operation_before, operation_end};
ghost use Rattle.std.specs.Cmp.{partial_equiv_from_equiv, eq_by_cmp_equiv, partial_order_from_agreeing_total};
ghost use Rattle.circuit.specs.Known.{operations_total, comparison_total};

use crate::action::{Action, Plain, Single};
use crate::operation::Operation;
use orders::Ranked;
use std::cmp::Ordering;

// The place of the action's kind among H, X, Y, Z, S, T, C, R.
fn kind_place(action: Action) -> u8
    ensures { result ≡ kind_place action }
{
    match action {
        Action::One(Single::H, _) => 0,
        Action::One(Single::Plain(Plain::X), _) => 1,
        Action::One(Single::Plain(Plain::Y), _) => 2,
        Action::One(Single::Plain(Plain::Z), _) => 3,
        Action::One(Single::Plain(Plain::S), _) => 4,
        Action::One(Single::Plain(Plain::T), _) => 5,
        Action::Cnot(_, _) => 6,
        Action::One(Single::Read, _) => 7,
    }
}

// How two operations compare that start at one time on one cell: by length, kind, second cell and gate.
fn compare_others(a: Operation, b: Operation) -> Ordering
    ensures { result ≡ compared (by_key later_fields) a b }
{
    let lengths = a.length.cmp(&b.length);
    let kinds = kind_place(a.action).cmp(&kind_place(b.action));
    let targets = a
        .action
        .second_wire()
        .unwrap_or(0)
        .cmp(&b.action.second_wire().unwrap_or(0));
    let gates = a.gate.cmp(&b.gate);
    lengths.then(kinds.then(targets.then(gates)))
}

// How two operations compare that start at one time: by first cell, then by the others.
fn compare_cells(a: Operation, b: Operation) -> Ordering
    ensures { result ≡ compared (by_key cell_and_later) a b }
{
    match a.action.first_wire().cmp(&b.action.first_wire()) {
        Ordering::Equal => compare_others(a, b),
        apart => apart,
    }
}

// How two operations compare, and when as equals. Field by field, and by functions, not by a key of all fields with a derived order: most operations differ in their starts, and a sort compares often.
fn compare(a: Operation, b: Operation) -> Ordering
    ensures value { result ≡ compared operation_before a b }
    ensures equal { Decides (is_eq result) (a ≡ b) }
{
    match a.start.cmp(&b.start) {
        Ordering::Equal => compare_cells(a, b),
        apart => apart,
    }
}

impl Operation {
    // When the operation is over.
    pub fn end(self) -> u64
        ensures { result ≡ operation_end self }
    {
        self.start as u64 + self.length as u64
    }
}

// By hand, here and below: a derive would compare the fields as they are declared, the length before the first cell. Equality agrees with the order, and promises that equal operations are one, which a derive's does not.
impl PartialEq for Operation {
    ghost eq = { eq_by_cmp (compared operation_before) };

    ghost laws = { partial_equiv_from_equiv (eq_by_cmp_equiv comparison_total) };

    fn eq(&self, other: &Operation) -> bool
        ensures value { result ≡ eq_by_cmp (compared operation_before) self.now other.now }
        ensures same { Decides result (self.now ≡ other.now) }
    {
        compare(*self, *other).is_eq()
    }
}

impl Eq for Operation {
    ghost laws = { eq_by_cmp_equiv comparison_total };
}

impl PartialOrd for Operation {
    ghost partial_cmp = { λ x y. Some (compared operation_before x y) };

    ghost laws = { partial_order_from_agreeing_total (compared operation_before) comparison_total (λ _ _. refl) (λ _ _. refl) };

    fn partial_cmp(&self, other: &Operation) -> Option<Ordering> {
        Some(compare(*self, *other))
    }
}

impl Ord for Operation {
    ghost cmp = { compared operation_before };

    ghost total = { comparison_total };

    ghost matches_partial_cmp = { λ _ _. refl };

    ghost matches_eq = { λ _ _. refl };

    fn cmp(&self, other: &Operation) -> Ordering {
        compare(*self, *other)
    }
}

impl Ranked for Operation {
    ghost before = { operation_before };

    ghost total = { operations_total };

    ghost answers = { λ _ _ _ e. e };
}
