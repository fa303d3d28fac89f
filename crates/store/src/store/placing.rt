ghost use Rattle.std.specs.Prelude.{◌≡◌, true};
ghost use Rattle.refusal.specs.Refusals.{ok_unless};
ghost use Rattle.book.specs.Calls.{calibrate, place};
ghost use Rattle.book.specs.Refusals.{placing_refusal};
ghost use Rattle.book.specs.Answers.{answer};
ghost use Rattle.book.specs.Histories.{fed};
ghost use Rattle.store.specs.Stores.{store_plan, store_book};

use crate::store::Store;
use calibration::values::Calibration;
use refusal::Refusal;

impl Store {
    // Why the label gets no home at the cell: there is no such label, or no such cell.
    fn check_placing(&self, label: u32, cell: u32) -> Result<(), Refusal>
        ensures { result ≡ ok_unless (placing_refusal (store_plan self.now) label cell) tt }
    {
        if label >= u32::from(self.labels()) {
            return Err(Refusal::NoSuchLabel(label as usize));
        }
        if cell >= u32::from(self.table.machine().cells()) {
            return Err(Refusal::NoSuchCell(cell as usize));
        }
        Ok(())
    }

    // Gives the label its home, and answers the label.
    pub fn place(&mut self, label: u32, cell: u32) -> Result<usize, Refusal>
        ensures answer { result ≡ answer (store_book true self.old) (place label cell) }
        ensures book { store_book true self.new ≡ fed (store_book true self.old) (place label cell) }
    {
        self.check_placing(label, cell)?;
        let label = label as usize;
        self.homes[label] = Some(cell as u8);
        Ok(label)
    }

    // Gives the cell other values, and answers the cell.
    #[tactic(auto, using(crate::proofs::Refused::refused_alike))]
    pub fn calibrate(&mut self, cell: u32, values: Calibration) -> Result<usize, Refusal>
        ensures answer { result ≡ answer (store_book true self.old) (calibrate cell values) }
        ensures book { store_book true self.new ≡ fed (store_book true self.old) (calibrate cell values) }
    {
        let cell = cell as usize;
        self.table.set(cell, values)?;
        Ok(cell)
    }
}
