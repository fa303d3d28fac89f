ghost use Rattle.std.specs.Prelude.{◌≡◌, ◌++◌, length, drop, is_ok, if◌then◌else◌};
ghost use Rattle.orders.specs.Sorting.{Sorted};
ghost use Rattle.plan.specs.Entries.{entry_before};
ghost use Rattle.plan.specs.Listings.{entries, agenda as agenda_of};
ghost use Rattle.book.specs.Calls.{agenda};
ghost use Rattle.book.specs.Answers.{answer};
ghost use Rattle.book.specs.Histories.{fed};
ghost use Rattle.job.specs.Jobs.{closed_book};

use crate::closed_job::ClosedJob;
use agenda::write_agenda;
use plan::gate::AgendaEntry;
use refusal::Refusal;

impl ClosedJob {
    // Writes the agenda to the first places: the timed gates in order of start, then gate number; answers their count. Fewer places than timed gates are refused, and nothing is written then.
    #[tactic(auto, using(crate::proofs::Listings::agenda_answers))]
    pub fn agenda(&self, places: &mut [AgendaEntry]) -> Result<usize, Refusal>
        ensures answer { result ≡ answer (closed_book self.now) (agenda (length places.old)) }
        ensures book { closed_book self.now ≡ fed (closed_book self.now) (agenda (length places.old)) }
        ensures written { places.new ≡ (if is_ok result then agenda_of (closed_book self.now).plan ++ drop (length (agenda_of (closed_book self.now).plan)) places.old else places.old) }
        ensures in_order { Sorted entry_before (entries (closed_book self.now).plan) (agenda_of (closed_book self.now).plan) }
    {
        let (_, gates) = self.parts();
        write_agenda(gates, places)
    }
}
