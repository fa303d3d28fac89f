// The direct run: a program's gates in program order, each at the homes of its labels, neighbours or not.
#![tactic(auto)]

pub mod steps;

ghost use Rattle.std.specs.Prelude.{◌≡◌, ℕ, ◌+◌, ◌<◌, true, is_ok, is_err, if◌then◌else◌, length, nat_lt, Some, None};
ghost use Rattle.refusal.specs.Refusals.{refuse_if, ok_unless};
ghost use Rattle.circuit.specs.Operations.{h_count, read_count};
ghost use Rattle.plan.specs.Blocks.{direct};
ghost use Rattle.register.specs.Models.{after};
ghost use Rattle.register.specs.Numbers.{tells};
ghost use Rattle.register.specs.Runs.{capacity};
ghost use Rattle.rehearsal.specs.Rehearsals.{numbers_after, told_first};
ghost use Rattle.direct.specs.Directs.{placed_plan, direct_refusal};

use crate::steps::{no_step, write_steps};
use circuit::operation::Reading;
use placement::homes::Homes;
use plan::gate::Gate;
use refusal::Refusal;
use register::{GateRegister, TellingRegister};
use rehearsal::rehearse;
use rehearsal::telling::rehearse_telling;

// More than 256 gates are no program.
fn check_count(gates: &[Gate]) -> Result<(), Refusal>
    ensures { result ≡ ok_unless (refuse_if (nat_lt 256 (length gates.now)) Refusal.ProgramFull) tt }
{
    if gates.len() > 256 {
        return Err(Refusal::ProgramFull);
    }
    Ok(())
}

// Runs a program directly on a register, or refuses and changes nothing: more than 256 gates, then the homes, then as rehearsing. Answers the count of reads.
pub fn run_direct<G: GateRegister>(
    register: &mut G,
    homes: &Homes,
    gates: &[Gate],
) -> Result<usize, Refusal>
    ensures answer { result ≡ ok_unless (direct_refusal (capacity G.GateRegister.model G.GateRegister.most (G.GateRegister.state register.old) (G.GateRegister.done register.old) None) (placed_plan homes.now gates.now)) (read_count (direct (placed_plan homes.now gates.now))) }
    ensures kept { is_err result ≡ true → register.new ≡ register.old }
    ensures acted { G.GateRegister.state register.new ≡ (if is_ok result then after G.GateRegister.model (direct (placed_plan homes.now gates.now)) (G.GateRegister.state register.old) else G.GateRegister.state register.old) }
    ensures counted { G.GateRegister.done register.new ≡ (if is_ok result then G.GateRegister.done register.old + h_count (direct (placed_plan homes.now gates.now)) else G.GateRegister.done register.old) }
{
    check_count(gates)?;
    homes.check(gates)?;
    // An array of the greatest length: memory is fixed, and a run allocates nothing.
    let mut steps = [no_step(); 256];
    write_steps(homes, gates, &mut steps);
    rehearse(register, &steps[..gates.len()])
}

// The same on a register that tells: also writes for each read its gate and the number told, from the first place on.
pub fn run_direct_telling<T: TellingRegister>(
    register: &mut T,
    homes: &Homes,
    gates: &[Gate],
    places: &mut [Reading],
) -> Result<usize, Refusal>
    ensures answer { result ≡ ok_unless (direct_refusal (capacity T.GateRegister.model T.GateRegister.most (T.GateRegister.state register.old) (T.GateRegister.done register.old) (Some (length places.old))) (placed_plan homes.now gates.now)) (read_count (direct (placed_plan homes.now gates.now))) }
    ensures kept { is_err result ≡ true → (register.new ≡ register.old) × (places.new ≡ places.old) }
    ensures acted { T.GateRegister.state register.new ≡ (if is_ok result then after T.GateRegister.model (direct (placed_plan homes.now gates.now)) (T.GateRegister.state register.old) else T.GateRegister.state register.old) }
    ensures counted { T.GateRegister.done register.new ≡ (if is_ok result then T.GateRegister.done register.old + h_count (direct (placed_plan homes.now gates.now)) else T.GateRegister.done register.old) }
    ensures numbered { is_ok result ≡ true → (w : ℕ) → w < T.GateRegister.model.size (T.GateRegister.state register.old) → T.TellingRegister.numbers register.new w ≡ numbers_after T.TellingRegister.mark (direct (placed_plan homes.now gates.now)) (T.TellingRegister.numbers register.old) w }
    ensures written { places.new ≡ (if is_ok result then told_first places.old (tells T.TellingRegister.mark (direct (placed_plan homes.now gates.now)) (T.TellingRegister.numbers register.old)) else places.old) }
{
    check_count(gates)?;
    homes.check(gates)?;
    let mut steps = [no_step(); 256];
    write_steps(homes, gates, &mut steps);
    rehearse_telling(register, &steps[..gates.len()], places)
}
