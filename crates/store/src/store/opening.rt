ghost use Rattle.std.specs.Prelude.{◌≡◌, ◌≤◌, ◌&&◌, not, replicate, None, MatchResult, nat_le};
ghost use Rattle.refusal.specs.Refusals.{refuse_if, ok_unless};
ghost use Rattle.grid.specs.Grids.{grid_of, between, cells as cells_of};
ghost use Rattle.book.specs.Books.{opening_plan};
ghost use Rattle.book.specs.Refusals.{opening_refusal};
ghost use Rattle.store.specs.Stores.{store_plan, OpensStore};

use crate::store::Store;
use calibration::table::CalibrationTable;
use grid::machine::Machine;
use refusal::Refusal;
use std::alloc::Global;

// The number of labels, from 1 to 32 and at most that of the cells.
fn checked_labels(labels: u32, machine: Machine) -> Result<u8, Refusal>
    ensures { result ≡ ok_unless (refuse_if (not (between 1 32 labels && nat_le labels (cells_of (grid_of machine)))) Refusal.LabelCount) labels }
{
    if !(1..=32).contains(&labels) || labels > u32::from(machine.cells()) {
        return Err(Refusal::LabelCount);
    }
    Ok(labels as u8)
}

// So many labels with no home.
fn no_homes(heap: Global, labels: u8) -> Result<Vec<Option<u8>>, Refusal>
    ensures { MatchResult result (λ v. v.items ≡ replicate labels None) (λ e. e ≡ Refusal.NoMemory) }
{
    let homes = Vec::from_elem(heap, None, labels as usize)?;
    Ok(homes)
}

impl Store {
    // A store with no gate and no home, and with the memory for all gates that will come.
    fn blank(heap: Global, machine: Machine, labels: u8) -> Result<Store, Refusal>
        requires { labels ≤ 32 }
        ensures { MatchResult result (λ s. store_plan s ≡ opening_plan (grid_of machine).columns (grid_of machine).rows labels) (λ e. e ≡ Refusal.NoMemory) }
    {
        let table = CalibrationTable::new(heap, machine)?;
        let homes = no_homes(heap, labels)?;
        let gates = Vec::with_capacity(heap, 256)?;
        Ok(Store {
            table,
            homes,
            gates,
        })
    }

    // A store for a machine of these columns and rows and a program on so many labels. It takes all the memory that a job will want; want of memory refuses it where nothing else does.
    pub fn new(heap: Global, columns: u32, rows: u32, labels: u32) -> Result<Store, Refusal>
        ensures { OpensStore (opening_refusal columns rows labels) (opening_plan columns rows labels) result }
    {
        let machine = Machine::new(columns as usize, rows as usize)?;
        let labels = checked_labels(labels, machine)?;
        Store::blank(heap, machine, labels)
    }
}
