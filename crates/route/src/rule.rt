ghost use Rattle.std.specs.Prelude.{◌≡◌};
ghost use Rattle.grid.specs.Members.{has};
ghost use Rattle.route.specs.Ends.{ends_of};
ghost use Rattle.route.specs.Paths.{path_cells};
ghost use Rattle.route.specs.Routes.{Route, RouteLawful, path_between, reserved_between};

use crate::endpoints::Endpoints;
use crate::path::Path;
use grid::cell_set::CellSet;

// A rule by which a CNOT is led from its control's home to its target's.
pub trait RouteRule {
    // The choices, paths and reserved cells that a value of the rule means.
    ghost route: { Self → Route };

    // How many choices there are, 1 to 256.
    fn choices(&self) -> u16
        ensures { result ≡ (route self.now).choices };

    // The path under a choice.
    fn path(&self, ends: Endpoints, choice: u8) -> Path
        ensures { path_cells result ≡ path_between (route self.now) (ends_of ends) choice };

    // The cells that a CNOT keeps for itself while it lasts.
    fn reserved(&self, ends: Endpoints, choice: u8) -> CellSet
        ensures { has result ≡ reserved_between (route self.now) (ends_of ends) choice };

    // Every offered choice leads from the one cell to the other by lawful steps.
    ghost lawful: { (x : Self) → RouteLawful (route x) };
}
