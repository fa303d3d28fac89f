ghost use Rattle.std.specs.Prelude.{◌≡◌};
ghost use Rattle.grid.specs.Grids.{cells};
ghost use Rattle.plan.specs.Plans.{gate_count};
ghost use Rattle.plan.specs.Kept.{Kept};
ghost use Rattle.book.specs.Calls.{add, close};
ghost use Rattle.book.specs.Answers.{answer};
ghost use Rattle.book.specs.Histories.{fed};
ghost use Rattle.job.specs.Jobs.{open_book, closed_book};

use crate::closed_job::ClosedJob;
use crate::open_job::OpenJob;
use refusal::Refusal;

impl OpenJob {
    // How many cells the machine has.
    pub fn cells(&self) -> u8
        ensures { result ≡ cells (open_book self.now).plan.machine }
    {
        self.store.table.machine().cells()
    }

    // How many gates the program has.
    pub fn gate_count(&self) -> usize
        ensures { result ≡ gate_count (open_book self.now).plan }
    {
        self.store.gates().len()
    }

    // Adds a gate as the last of the program, and answers its number.
    #[tactic(auto, using(crate::proofs::Lives::add_lives))]
    pub fn add(&mut self, letter: char, one: u32, two: u32) -> Result<usize, Refusal>
        ensures answer { result ≡ answer (open_book self.old) (add letter one two) }
        ensures book { open_book self.new ≡ fed (open_book self.old) (add letter one two) }
    {
        self.store.add(letter, one, two)
    }

    // Closes the program. The job keeps what jobs keep.
    #[tactic(auto, using(crate::proofs::Lives::close_lives, crate::proofs::Lives::job_keeps))]
    pub fn close(self) -> ClosedJob
        ensures book { closed_book result ≡ fed (open_book self) close }
        ensures kept { Kept (closed_book result).plan }
    {
        let OpenJob { store } = self;
        ClosedJob { store }
    }
}
