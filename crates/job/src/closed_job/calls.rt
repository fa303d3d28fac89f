ghost use Rattle.std.specs.Prelude.{◌≡◌};
ghost use Rattle.plan.specs.Plans.{gate_count};
ghost use Rattle.book.specs.Calls.{calibrate, place, time};
ghost use Rattle.book.specs.Answers.{answer};
ghost use Rattle.book.specs.Histories.{fed};
ghost use Rattle.job.specs.Jobs.{closed_book};

use crate::closed_job::ClosedJob;
use calibration::values::Calibration;
use refusal::Refusal;

impl ClosedJob {
    // How many gates the program has.
    pub fn gate_count(&self) -> usize
        ensures { result ≡ gate_count (closed_book self.now).plan }
    {
        self.store.gates().len()
    }

    // Gives the cell other values, and answers the cell.
    #[tactic(auto, using(crate::proofs::Lives::calibrate_lives))]
    pub fn calibrate(&mut self, cell: u32, values: Calibration) -> Result<usize, Refusal>
        ensures answer { result ≡ answer (closed_book self.old) (calibrate cell values) }
        ensures book { closed_book self.new ≡ fed (closed_book self.old) (calibrate cell values) }
    {
        self.store.calibrate(cell, values)
    }

    // Gives the label its home, and answers the label.
    #[tactic(auto, using(crate::proofs::Lives::place_lives))]
    pub fn place(&mut self, label: u32, cell: u32) -> Result<usize, Refusal>
        ensures answer { result ≡ answer (closed_book self.old) (place label cell) }
        ensures book { closed_book self.new ≡ fed (closed_book self.old) (place label cell) }
    {
        self.store.place(label, cell)
    }

    // Gives the gate its start and choice, and answers the gate.
    #[tactic(auto, using(crate::proofs::Lives::time_lives))]
    pub fn time(&mut self, gate: u32, start: u32, choice: u32) -> Result<usize, Refusal>
        ensures answer { result ≡ answer (closed_book self.old) (time gate start choice) }
        ensures book { closed_book self.new ≡ fed (closed_book self.old) (time gate start choice) }
    {
        self.store.time(gate, start, choice)
    }
}
