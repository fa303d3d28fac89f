ghost use Rattle.std.specs.Prelude.{◌≡◌, []};
ghost use Rattle.grid.specs.CellSets.{only_cell};
ghost use Rattle.grid.specs.Members.{has};
ghost use Rattle.plan.specs.Plans.{home};
ghost use Rattle.plan.specs.Durations.{reserved_of};
ghost use Rattle.spans.specs.Layouts.{layout_plan};

use crate::layout::Layout;
use circuit::action::Action;
use grid::cell_set::CellSet;
use route::rule::RouteRule;

impl Layout<'_> {
    // The home of a label alone.
    fn only_home(&self, label: u8) -> CellSet
        ensures { has result ≡ only_cell (home (layout_plan self.now []) label) }
    {
        CellSet::of_cells(&[self.cell_of(label)])
    }

    // The cells that an action on labels reserves under a route choice: its home, or what the rule reserves for a CNOT, which is none where the labels are not at two different cells.
    pub fn reserved_of<R: RouteRule>(&self, rule: &R, choice: u8, action: Action) -> CellSet
        ensures { has result ≡ reserved_of (layout_plan self.now []) (R.RouteRule.route rule.now) choice action }
    {
        match action {
            Action::One(_, label) => self.only_home(label),
            Action::Cnot(control, target) => self
                .ends_of(control, target)
                .map_or_else(CellSet::new, |ends| rule.reserved(ends, choice)),
        }
    }
}
