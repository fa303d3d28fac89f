ghost use Rattle.std.specs.Prelude.{◌≡◌};
ghost use Rattle.std.specs.Option.{option_map};
ghost use Rattle.grid.specs.Grids.{grid_of};
ghost use Rattle.route.specs.Ends.{ends_of, apart_cells};

use crate::endpoints::Endpoints;
use grid::machine::Machine;

impl Endpoints {
    // The two cells, or none where one is not the machine's or they are one.
    pub fn new(machine: Machine, from: u8, to: u8) -> Option<Endpoints>
        ensures { option_map ends_of result ≡ apart_cells (grid_of machine) from to }
    {
        let cells = machine.cells();
        if from >= cells || to >= cells || from == to {
            return None;
        }
        Some(Endpoints { machine, from, to })
    }

    // Readers for each field, since none may be written from outside.
    pub fn machine(self) -> Machine
        ensures { grid_of result ≡ (ends_of self).grid }
    {
        self.machine
    }

    pub fn from(self) -> u8
        ensures { result ≡ (ends_of self).from }
    {
        self.from
    }

    pub fn to(self) -> u8
        ensures { result ≡ (ends_of self).to }
    {
        self.to
    }
}
