ghost use Rattle.std.specs.Prelude.{◌≡◌, Bool, set as set_at, is_ok, if◌then◌else◌, Some, None, MatchResult, nat_lt};
ghost use Rattle.refusal.specs.Refusals.{ok_unless};
ghost use Rattle.grid.specs.Grids.{grid_of, cells as cells_of};
ghost use Rattle.calibration.specs.Calibrations.{has_east, has_south, link_ok, calibration_ok, first_values, first_calibration, values_at, calibrating_refusal};
ghost use Rattle.calibration.specs.Tables.{table_grid, table_values};

use crate::table::CalibrationTable;
use crate::values::Calibration;
use grid::machine::Machine;
use refusal::Refusal;
use std::alloc::Global;

// Whether the time may be that of a link that is there or not. A flag: an `Option` of a link would be made only to be taken apart here.
fn is_link_time(there: bool, time: u32) -> bool
    ensures { result ≡ link_ok there time }
{
    if there {
        (1..=1000).contains(&time)
    } else {
        time == 0
    }
}

// Whether a cell has a neighbour to the east, and whether to the south. A pair of answers, taken apart in the next line. A free function, here and below, since a method would have to stand in the crate of `Machine`.
fn neighbours_after(machine: Machine, cell: u8) -> (bool, bool)
    ensures { result ≡ (has_east (grid_of machine) cell, has_south (grid_of machine) cell) }
{
    let (x, y) = machine.place(cell);
    let (columns, rows) = machine.size();
    (x < columns - 1, y < rows - 1)
}

// Whether the values may be those of the cell.
fn is_in_range(machine: Machine, cell: u8, values: Calibration) -> bool
    ensures { result ≡ calibration_ok (grid_of machine) cell values }
{
    let (east, south) = neighbours_after(machine, cell);
    (1..=255).contains(&values.single)
        && (1..=65535).contains(&values.read)
        && (1..=1000000).contains(&values.window)
        && is_link_time(east, values.east)
        && is_link_time(south, values.south)
}

// The values of a cell at first.
fn values_at_first(machine: Machine, cell: u8) -> Calibration
    ensures { result ≡ first_values (grid_of machine) cell }
{
    let (east, south) = neighbours_after(machine, cell);
    Calibration {
        single: 1,
        read: 1,
        window: 1000000,
        east: u32::from(east),
        south: u32::from(south),
    }
}

// The values of all cells at first.
fn cells_at_first(heap: Global, machine: Machine) -> Result<Vec<Calibration>, Refusal>
    ensures { MatchResult result (λ v. v.items ≡ first_calibration (grid_of machine)) (λ e. e ≡ Refusal.NoMemory) }
{
    let cells = (0..machine.cells())
        .map(|cell| values_at_first(machine, cell))
        .collect(heap)?;
    Ok(cells)
}

impl CalibrationTable {
    // The table with which a machine begins: windows of 1,000,000, all other times 1, and 0 for a link that is missing. Only want of memory refuses it.
    pub fn new(heap: Global, machine: Machine) -> Result<CalibrationTable, Refusal>
        ensures { MatchResult result (λ t. (table_grid t ≡ grid_of machine) × (table_values t ≡ first_calibration (grid_of machine))) (λ e. e ≡ Refusal.NoMemory) }
    {
        let cells = cells_at_first(heap, machine)?;
        Ok(CalibrationTable { machine, cells })
    }

    pub fn machine(&self) -> Machine
        ensures { grid_of result ≡ table_grid self.now }
    {
        self.machine
    }

    // The values of a cell, or none where the machine has no such cell.
    pub fn values(&self, cell: u8) -> Option<Calibration>
        ensures { result ≡ (if nat_lt cell (cells_of (table_grid self.now)) then Some (values_at (table_values self.now) cell) else None) }
    {
        self.cells.get(cell as usize).copied()
    }

    // Why the values are refused for the cell: the machine has no such cell, or one is out of range.
    fn check(&self, cell: usize, values: Calibration) -> Result<(), Refusal>
        ensures { result ≡ ok_unless (calibrating_refusal (table_grid self.now) cell values) tt }
    {
        if cell >= self.machine.cells() as usize {
            return Err(Refusal::NoSuchCell(cell));
        }
        if !is_in_range(self.machine, cell as u8, values) {
            return Err(Refusal::ValueOutOfRange(cell));
        }
        Ok(())
    }

    // Gives a cell other values, which are not refused.
    fn put(&mut self, cell: usize, values: Calibration)
        requires { calibrating_refusal (table_grid self.old) cell values ≡ None }
        ensures grid { table_grid self.new ≡ table_grid self.old }
        ensures after { table_values self.new ≡ set_at (table_values self.old) cell values }
    {
        self.cells[cell] = values;
    }

    // Gives a cell other values, or refuses and changes nothing.
    pub fn set(&mut self, cell: usize, values: Calibration) -> Result<(), Refusal>
        ensures answer { result ≡ ok_unless (calibrating_refusal (table_grid self.old) cell values) tt }
        ensures grid { table_grid self.new ≡ table_grid self.old }
        ensures after { table_values self.new ≡ (if is_ok result then set_at (table_values self.old) cell values else table_values self.old) }
    {
        self.check(cell, values)?;
        self.put(cell, values);
        Ok(())
    }
}
