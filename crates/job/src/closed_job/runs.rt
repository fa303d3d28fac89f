ghost use Rattle.std.specs.Prelude.{◌≡◌, ◌+◌, ◌<◌, ℕ, true, is_ok, is_err, if◌then◌else◌, length, None, Some};
ghost use Rattle.circuit.specs.Operations.{h_count};
ghost use Rattle.plan.specs.Blocks.{direct};
ghost use Rattle.register.specs.Models.{after};
ghost use Rattle.register.specs.Numbers.{tells};
ghost use Rattle.register.specs.Runs.{capacity};
ghost use Rattle.rehearsal.specs.Rehearsals.{numbers_after, told_first};
ghost use Rattle.book.specs.Calls.{run};
ghost use Rattle.book.specs.Answers.{answer};
ghost use Rattle.book.specs.Histories.{fed};
ghost use Rattle.job.specs.Jobs.{closed_book};

use crate::closed_job::ClosedJob;
use circuit::operation::Reading;
use direct::{run_direct, run_direct_telling};
use refusal::Refusal;
use register::{GateRegister, TellingRegister};

impl ClosedJob {
    // Applies the program's gates to the register in program order, each at the homes of its labels, neighbours or not; answers the count of reads. Refused is a used label with no home, then a shared home, then what rehearsing refuses, with the gate's number; the register is as before then.
    #[tactic(auto, using(crate::proofs::Runs::runs_plan))]
    pub fn run<G: GateRegister>(&self, register: &mut G) -> Result<usize, Refusal>
        ensures answer { result ≡ answer (closed_book self.now) (run (capacity G.GateRegister.model G.GateRegister.most (G.GateRegister.state register.old) (G.GateRegister.done register.old) None)) }
        ensures book { closed_book self.now ≡ fed (closed_book self.now) (run (capacity G.GateRegister.model G.GateRegister.most (G.GateRegister.state register.old) (G.GateRegister.done register.old) None)) }
        ensures kept { is_err result ≡ true → register.new ≡ register.old }
        ensures acted { G.GateRegister.state register.new ≡ (if is_ok result then after G.GateRegister.model (direct (closed_book self.now).plan) (G.GateRegister.state register.old) else G.GateRegister.state register.old) }
        ensures counted { G.GateRegister.done register.new ≡ (if is_ok result then G.GateRegister.done register.old + h_count (direct (closed_book self.now).plan) else G.GateRegister.done register.old) }
    {
        let (layout, gates) = self.parts();
        run_direct(register, &layout.homes_on_machine(), gates)
    }

    // The same on a register that tells: also writes for each read its gate and the number told, from the first place on; fewer places than reads are refused last.
    #[tactic(auto, using(crate::proofs::Runs::runs_plan))]
    pub fn run_telling<T: TellingRegister>(
        &self,
        register: &mut T,
        places: &mut [Reading],
    ) -> Result<usize, Refusal>
        ensures answer { result ≡ answer (closed_book self.now) (run (capacity T.GateRegister.model T.GateRegister.most (T.GateRegister.state register.old) (T.GateRegister.done register.old) (Some (length places.old)))) }
        ensures book { closed_book self.now ≡ fed (closed_book self.now) (run (capacity T.GateRegister.model T.GateRegister.most (T.GateRegister.state register.old) (T.GateRegister.done register.old) (Some (length places.old)))) }
        ensures kept { is_err result ≡ true → (register.new ≡ register.old) × (places.new ≡ places.old) }
        ensures acted { T.GateRegister.state register.new ≡ (if is_ok result then after T.GateRegister.model (direct (closed_book self.now).plan) (T.GateRegister.state register.old) else T.GateRegister.state register.old) }
        ensures counted { T.GateRegister.done register.new ≡ (if is_ok result then T.GateRegister.done register.old + h_count (direct (closed_book self.now).plan) else T.GateRegister.done register.old) }
        ensures numbered { is_ok result ≡ true → (w : ℕ) → w < T.GateRegister.model.size (T.GateRegister.state register.old) → T.TellingRegister.numbers register.new w ≡ numbers_after T.TellingRegister.mark (direct (closed_book self.now).plan) (T.TellingRegister.numbers register.old) w }
        ensures written { places.new ≡ (if is_ok result then told_first places.old (tells T.TellingRegister.mark (direct (closed_book self.now).plan) (T.TellingRegister.numbers register.old)) else places.old) }
    {
        let (layout, gates) = self.parts();
        run_direct_telling(register, &layout.homes_on_machine(), gates, places)
    }
}
