ghost use Rattle.std.specs.Prelude.{◌≡◌, []};
ghost use Rattle.calibration.specs.Calibrations.{values_at};
ghost use Rattle.calibration.specs.Tables.{table_values};
ghost use Rattle.plan.specs.Plans.{values_of, home};
ghost use Rattle.plan.specs.Durations.{single_time, duration_of};
ghost use Rattle.spans.specs.Layouts.{layout_plan};

use crate::layout::Layout;
use calibration::table::CalibrationTable;
use calibration::values::Calibration;
use circuit::action::{Action, Single};
use cnot::time::route_time;
use route::rule::RouteRule;

// How long an action on one wire lasts at a cell with these values.
fn single_time(kind: Single, values: Calibration) -> u32
    ensures { result ≡ single_time kind values }
{
    match kind {
        Single::Read => values.read,
        _ => values.single,
    }
}

// The values of a cell, all 0 where there is no such cell.
pub fn values_of(table: &CalibrationTable, cell: u8) -> Calibration
    ensures { result ≡ values_at (table_values table.now) cell }
{
    table.values(cell).unwrap_or_default()
}

impl Layout<'_> {
    // The values of a label's home.
    pub fn values_at_home(&self, label: u8) -> Calibration
        ensures { result ≡ values_of (layout_plan self.now []) (home (layout_plan self.now []) label) }
    {
        values_of(self.table, self.cell_of(label))
    }

    // How long an action on labels lasts at their homes under a route choice.
    pub fn duration_of<R: RouteRule>(&self, rule: &R, choice: u8, action: Action) -> u32
        ensures { result ≡ duration_of (layout_plan self.now []) (R.RouteRule.route rule.now) choice action }
    {
        match action {
            Action::One(kind, label) => single_time(kind, self.values_at_home(label)),
            Action::Cnot(control, target) => route_time(
                self.table,
                &self.path_of(rule, control, target, choice),
            ),
        }
    }
}
