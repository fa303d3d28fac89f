ghost use Rattle.std.specs.Prelude.{◌≡◌};
ghost use Rattle.plan.specs.Kept.{Kept};
ghost use Rattle.book.specs.Calls.{reopen};
ghost use Rattle.book.specs.Histories.{fed};
ghost use Rattle.job.specs.Jobs.{open_book, closed_book};

use crate::closed_job::ClosedJob;
use crate::open_job::OpenJob;

impl ClosedJob {
    // Opens the program again: each gate's timing is dropped. The job keeps what jobs keep.
    #[tactic(auto, using(crate::proofs::Lives::reopen_lives, crate::proofs::Lives::job_keeps))]
    pub fn reopen(self) -> OpenJob
        ensures book { open_book result ≡ fed (closed_book self) reopen }
        ensures kept { Kept (open_book result).plan }
    {
        let ClosedJob { mut store } = self;
        store.reopen();
        OpenJob { store }
    }
}
