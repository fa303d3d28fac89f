ghost use Rattle.std.specs.Prelude.{◌≡◌};
ghost use Rattle.spans.specs.Layouts.{layout_plan};
ghost use Rattle.job.specs.Jobs.{closed_book};

use crate::closed_job::ClosedJob;
use plan::gate::Gate;
use spans::layout::Layout;

impl ClosedJob {
    // The calibrated machine with the homes, to be read beside the gates.
    #[tactic(auto, using(crate::proofs::Views::layout_held))]
    pub fn layout(&self) -> Layout<'_>
        ensures { layout_plan result (closed_book self.now).plan.gates ≡ (closed_book self.now).plan }
    {
        self.store.layout()
    }

    // The gates of the program with their timings.
    pub fn gates(&self) -> &[Gate]
        ensures { result.now ≡ (closed_book self.now).plan.gates }
    {
        self.store.gates()
    }

    // Both, as calls on the whole plan take them.
    pub(super) fn parts(&self) -> (Layout<'_>, &[Gate])
        ensures { layout_plan result.0 result.1.now ≡ (closed_book self.now).plan }
    {
        (self.layout(), self.gates())
    }
}
