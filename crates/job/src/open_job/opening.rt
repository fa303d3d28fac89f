ghost use Rattle.book.specs.Books.{opening};
ghost use Rattle.book.specs.Refusals.{opening_refusal};
ghost use Rattle.book.specs.Histories.{HistoriesKeep};
ghost use Rattle.job.specs.Jobs.{OpensJob};

use crate::open_job::OpenJob;
use refusal::Refusal;
use std::alloc::Global;
use store::store::Store;

impl OpenJob {
    // A job for a machine of these columns and rows and a program on so many labels, with no gate yet. It takes all the memory that the job will want; want of memory refuses it where nothing else does. Every history keeps what jobs keep.
    #[tactic(auto, using(crate::proofs::Lives::opening_lives))]
    pub fn new(heap: Global, columns: u32, rows: u32, labels: u32) -> Result<OpenJob, Refusal>
        ensures opened { OpensJob (opening_refusal columns rows labels) (opening columns rows labels) result }
        ensures law { HistoriesKeep }
    {
        let store = Store::new(heap, columns, rows, labels)?;
        Ok(OpenJob { store })
    }
}
