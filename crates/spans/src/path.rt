ghost use Rattle.std.specs.Prelude.{◌≡◌, []};
ghost use Rattle.std.specs.Option.{option_map};
ghost use Rattle.grid.specs.Grids.{grid_of};
ghost use Rattle.calibration.specs.Tables.{table_grid};
ghost use Rattle.route.specs.Ends.{ends_of, apart_cells};
ghost use Rattle.route.specs.Paths.{path_cells};
ghost use Rattle.plan.specs.Plans.{home};
ghost use Rattle.plan.specs.Durations.{path_of};
ghost use Rattle.spans.specs.Layouts.{layout_plan};

use crate::layout::Layout;
use placement::homes::Homes;
use route::endpoints::Endpoints;
use route::path::Path;
use route::rule::RouteRule;

impl<'a> Layout<'a> {
    // The homes on the machine.
    pub fn homes_on_machine(&self) -> Homes<'a>
        ensures machine { grid_of result.machine ≡ table_grid self.now.table.now }
        ensures cells { result.cells.now ≡ self.now.homes.now }
    {
        Homes {
            machine: self.table.machine(),
            cells: self.homes,
        }
    }
}

impl Layout<'_> {
    // The home of a label, or cell 0 where it has none.
    pub fn cell_of(&self, label: u8) -> u8
        ensures { result ≡ home (layout_plan self.now []) label }
    {
        self.homes_on_machine().cell_of(label)
    }

    // The homes of two labels as the ends of a route, where they are two different cells.
    pub(crate) fn ends_of(&self, control: u8, target: u8) -> Option<Endpoints>
        ensures { option_map ends_of result ≡ apart_cells (table_grid self.now.table.now) (home (layout_plan self.now []) control) (home (layout_plan self.now []) target) }
    {
        Endpoints::new(
            self.table.machine(),
            self.cell_of(control),
            self.cell_of(target),
        )
    }

    // The path that a CNOT of two labels takes under a choice; it has no cells where the labels are not at two different cells.
    pub fn path_of<R: RouteRule>(&self, rule: &R, control: u8, target: u8, choice: u8) -> Path
        ensures { path_cells result ≡ path_of (layout_plan self.now []) (R.RouteRule.route rule.now) choice control target }
    {
        self.ends_of(control, target)
            .map_or_else(Path::new, |ends| rule.path(ends, choice))
    }
}
