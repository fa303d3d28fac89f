ghost use Rattle.std.specs.Prelude.{◌≡◌, ◌+◌, []};
ghost use Rattle.grid.specs.Members.{has};
ghost use Rattle.plan.specs.Plans.{start_or, choice_or};
ghost use Rattle.plan.specs.Durations.{duration_of, reserved_of};
ghost use Rattle.spans.specs.Layouts.{layout_plan};

use crate::layout::Layout;
use circuit::action::Action;
use grid::cell_set::CellSet;
use plan::gate::Gate;
use plan::timing::*;
use route::rule::RouteRule;

// A gate's action, when it starts and ends, and the cells that it reserves meanwhile.
#[derive(Clone, Copy, Debug, PartialEq, Eq)]
pub struct Span {
    pub action: Action,
    pub start: u32,
    pub end: u64,
    pub cells: CellSet,
}

impl Layout<'_> {
    // The span of a gate.
    pub fn span<R: RouteRule>(&self, rule: &R, gate: Gate) -> Span
        ensures acts { result.action ≡ gate.action }
        ensures starts { result.start ≡ start_or gate.timing }
        ensures ends { result.end ≡ start_or gate.timing + duration_of (layout_plan self.now []) (R.RouteRule.route rule.now) (choice_or gate.timing) gate.action }
        ensures reserves { has result.cells ≡ reserved_of (layout_plan self.now []) (R.RouteRule.route rule.now) (choice_or gate.timing) gate.action }
    {
        let start = gate.start();
        let choice = gate.choice();
        let length = self.duration_of(rule, choice, gate.action);
        Span {
            action: gate.action,
            start,
            end: start as u64 + length as u64,
            cells: self.reserved_of(rule, choice, gate.action),
        }
    }
}
