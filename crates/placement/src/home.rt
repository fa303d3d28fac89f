ghost use Rattle.std.specs.Prelude.{◌≡◌};
ghost use Rattle.std.specs.Option.{unwrap_or};
ghost use Rattle.grid.specs.Grids.{grid_of};
ghost use Rattle.plan.specs.Plans.{on_grid, home_among};

use crate::homes::Homes;

impl Homes<'_> {
    // The cell that is written for a label, where the machine has it.
    pub(super) fn on_machine(&self, cell: Option<u8>) -> Option<u8>
        ensures { result ≡ on_grid (grid_of self.now.machine) cell }
    {
        let cell = cell?;
        (cell < self.machine.cells()).then_some(cell)
    }

    // The home of a label: the cell that is written for it, where the machine has that cell.
    pub fn home(&self, label: usize) -> Option<u8>
        ensures { result ≡ home_among (grid_of self.now.machine) self.now.cells.now label }
    {
        self.on_machine(self.cells.get(label).copied().flatten())
    }

    // The home of a label, or cell 0 where it has none. No `Option`, since the definitions read a missing home so; `home` tells whether there is one.
    pub fn cell_of(&self, label: u8) -> u8
        ensures { result ≡ unwrap_or (home_among (grid_of self.now.machine) self.now.cells.now label) 0 }
    {
        self.home(label as usize).unwrap_or(0)
    }
}
