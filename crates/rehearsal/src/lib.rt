// Rehearsing: a register is given a list of operations, in the order given.
#![tactic(auto)]

pub mod telling;

ghost use Rattle.std.specs.Prelude.{◌≡◌, ◌+◌, true, is_ok, is_err, if◌then◌else◌, None, Ok};
ghost use Rattle.refusal.specs.Refusals.{ok_unless};
ghost use Rattle.circuit.specs.Operations.{h_count, read_count};
ghost use Rattle.register.specs.Models.{after};
ghost use Rattle.register.specs.Runs.{capacity, running_refusal, Taken};
ghost use Rattle.rehearsal.specs.Rehearsals.{ForEachListing, RanDirectly};

use circuit::operation::Operation;
use refusal::Refusal;
use register::GateRegister;
use running::check_run;
use running::counts::count_reads;

// Applies operations that the register takes, in their order.
fn apply_all<G: GateRegister>(register: &mut G, operations: &[Operation]) -> Result<(), Refusal>
    requires { Taken (capacity G.GateRegister.model G.GateRegister.most (G.GateRegister.state register.old) (G.GateRegister.done register.old) None) operations.now }
    ensures answer { result ≡ Ok tt }
    ensures acted { G.GateRegister.state register.new ≡ after G.GateRegister.model operations.now (G.GateRegister.state register.old) }
    ensures counted { G.GateRegister.done register.new ≡ G.GateRegister.done register.old + h_count operations.now }
{
    for operation in operations {
        register.apply(operation.action)?;
    }
    Ok(())
}

// Applies the operations, or refuses and changes nothing. Apart from `rehearse`, so that what it promises of listings is proved of one value.
fn apply_checked<G: GateRegister>(
    register: &mut G,
    operations: &[Operation],
) -> Result<usize, Refusal>
    ensures answer { result ≡ ok_unless (running_refusal (capacity G.GateRegister.model G.GateRegister.most (G.GateRegister.state register.old) (G.GateRegister.done register.old) None) operations.now) (read_count operations.now) }
    ensures kept { is_err result ≡ true → register.new ≡ register.old }
    ensures acted { G.GateRegister.state register.new ≡ (if is_ok result then after G.GateRegister.model operations.now (G.GateRegister.state register.old) else G.GateRegister.state register.old) }
    ensures counted { G.GateRegister.done register.new ≡ (if is_ok result then G.GateRegister.done register.old + h_count operations.now else G.GateRegister.done register.old) }
{
    check_run(&*register, operations, None)?;
    apply_all(register, operations)?;
    Ok(count_reads(operations))
}

// Applies the operations in the order given, or refuses and changes nothing; answers the count of reads. In an allowed order of a listing the register ends as the direct run of the listing's program would leave it.
pub fn rehearse<G: GateRegister>(
    register: &mut G,
    operations: &[Operation],
) -> Result<usize, Refusal>
    ensures answer { result ≡ ok_unless (running_refusal (capacity G.GateRegister.model G.GateRegister.most (G.GateRegister.state register.old) (G.GateRegister.done register.old) None) operations.now) (read_count operations.now) }
    ensures kept { is_err result ≡ true → register.new ≡ register.old }
    ensures acted { G.GateRegister.state register.new ≡ (if is_ok result then after G.GateRegister.model operations.now (G.GateRegister.state register.old) else G.GateRegister.state register.old) }
    ensures counted { G.GateRegister.done register.new ≡ (if is_ok result then G.GateRegister.done register.old + h_count operations.now else G.GateRegister.done register.old) }
    ensures directly { is_ok result ≡ true → ForEachListing operations.now (λ b. RanDirectly G.GateRegister.model b.plan (G.GateRegister.state register.old) (G.GateRegister.done register.old) result (G.GateRegister.state register.new) (G.GateRegister.done register.new)) }
{
    apply_checked(register, operations)
}
