// Where a job begins.
ghost use Rattle.std.specs.Prelude.{◌≡◌};
ghost use Rattle.session.specs.Sessions.{Answered, begin, session_book};

use crate::session::Session;
use job::open_job::OpenJob;
use refusal::Refusal;
use std::alloc::Global;

impl Session {
    // Begins a new job in any state, and answers how many cells its machine has. A refused opening leaves the job that there was.
    pub fn open(
        &mut self,
        heap: Global,
        columns: u32,
        rows: u32,
        labels: u32,
    ) -> Result<u64, Refusal>
        ensures { Answered (session_book self.old) (begin columns rows labels) (session_book self.new) result }
    {
        *self = Session::Open(OpenJob::new(heap, columns, rows, labels)?);
        Ok(u64::from(columns) * u64::from(rows))
    }
}
