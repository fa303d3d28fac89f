// Rehearsing on a register that tells.
ghost use Rattle.std.specs.Prelude.{◌≡◌, ℕ, ◌+◌, ◌<◌, ◌≤◌, true, is_ok, is_err, is_some, if◌then◌else◌, length, take, Some, None, Ok};
ghost use Rattle.refusal.specs.Refusals.{ok_unless};
ghost use Rattle.orders.specs.Perms.{Perm};
ghost use Rattle.circuit.specs.Actions.{is_h, is_read};
ghost use Rattle.circuit.specs.Operations.{one_if, h_count, read_count};
ghost use Rattle.plan.specs.Blocks.{direct};
ghost use Rattle.register.specs.Models.{Fits, after};
ghost use Rattle.register.specs.Numbers.{tells};
ghost use Rattle.register.specs.Runs.{capacity, running_refusal, Taken};
ghost use Rattle.promise.specs.Promises.{ListingsStand};
ghost use Rattle.rehearsal.specs.Rehearsals.{numbers_after, told_first, reading_told, noted, ForEachListing, RanDirectly};

use circuit::action::{Action, Single};
use circuit::operation::{Operation, Reading};
use refusal::Refusal;
use register::{GateRegister, TellingRegister};
use running::check_run;

// What the register tells of a read, or none of any other operation.
fn reading<T: TellingRegister>(register: &T, operation: Operation) -> Option<Reading>
    requires { Fits T.GateRegister.model (T.GateRegister.model.size (T.GateRegister.state register.now)) operation }
    ensures { result ≡ reading_told (T.TellingRegister.numbers register.now) operation }
{
    let Action::One(Single::Read, wire) = operation.action else {
        return None;
    };
    let number = register.tell(wire)?;
    Some(Reading {
        gate: operation.gate,
        number,
    })
}

// Writes a reading, where there is one, at the place `told`, and answers the next free place.
fn note(reading: Option<Reading>, places: &mut [Reading], told: usize) -> usize
    requires { is_some reading ≡ true → told < length places.old }
    ensures count { result ≡ told + one_if (is_some reading) }
    ensures written { places.new ≡ noted reading places.old told }
{
    let Some(reading) = reading else {
        return told;
    };
    places[told] = reading;
    told + 1
}

// Notes what a read tells, and then applies the operation, which the register takes; answers the next free place.
#[tactic(auto, using(crate::proofs::Steps::turn))]
fn tell_one<T: TellingRegister>(
    register: &mut T,
    operation: Operation,
    places: &mut [Reading],
    told: usize,
) -> Result<usize, Refusal>
    requires fits { Fits T.GateRegister.model (T.GateRegister.model.size (T.GateRegister.state register.old)) operation }
    requires few { T.GateRegister.done register.old + one_if (is_h operation.action) ≤ T.GateRegister.most }
    requires room { is_read operation.action ≡ true → told < length places.old }
    ensures answer { result ≡ Ok (told + one_if (is_read operation.action)) }
    ensures acted { T.GateRegister.state register.new ≡ T.GateRegister.model.act operation.action (T.GateRegister.state register.old) }
    ensures counted { T.GateRegister.done register.new ≡ T.GateRegister.done register.old + one_if (is_h operation.action) }
    ensures written { places.new ≡ noted (reading_told (T.TellingRegister.numbers register.old) operation) places.old told }
{
    let next = note(reading(&*register, operation), places, told);
    register.apply(operation.action)?;
    Ok(next)
}

// Applies operations that the register takes, in their order, and writes what each read tells before it, from the first place on.
fn tell_all<T: TellingRegister>(
    register: &mut T,
    operations: &[Operation],
    places: &mut [Reading],
) -> Result<usize, Refusal>
    requires { Taken (capacity T.GateRegister.model T.GateRegister.most (T.GateRegister.state register.old) (T.GateRegister.done register.old) (Some (length places.old))) operations.now }
    ensures answer { result ≡ Ok (read_count operations.now) }
    ensures acted { T.GateRegister.state register.new ≡ after T.GateRegister.model operations.now (T.GateRegister.state register.old) }
    ensures counted { T.GateRegister.done register.new ≡ T.GateRegister.done register.old + h_count operations.now }
    ensures numbered { (w : ℕ) → w < T.GateRegister.model.size (T.GateRegister.state register.old) → T.TellingRegister.numbers register.new w ≡ numbers_after T.TellingRegister.mark operations.now (T.TellingRegister.numbers register.old) w }
    ensures written { places.new ≡ told_first places.old (tells T.TellingRegister.mark operations.now (T.TellingRegister.numbers register.old)) }
{
    // The law of the numbers stands on the mark's contract.
    let _mark = register.flip_mark();
    let mut told = 0;
    for operation in operations {
        told = tell_one(register, *operation, places, told)?;
    }
    Ok(told)
}

// Applies the operations and writes what reads tell, or refuses and changes nothing. Apart from `rehearse_telling`, so that what it promises of listings is proved of one value.
fn tell_checked<T: TellingRegister>(
    register: &mut T,
    operations: &[Operation],
    places: &mut [Reading],
) -> Result<usize, Refusal>
    ensures answer { result ≡ ok_unless (running_refusal (capacity T.GateRegister.model T.GateRegister.most (T.GateRegister.state register.old) (T.GateRegister.done register.old) (Some (length places.old))) operations.now) (read_count operations.now) }
    ensures kept { is_err result ≡ true → (register.new ≡ register.old) × (places.new ≡ places.old) }
    ensures acted { T.GateRegister.state register.new ≡ (if is_ok result then after T.GateRegister.model operations.now (T.GateRegister.state register.old) else T.GateRegister.state register.old) }
    ensures counted { T.GateRegister.done register.new ≡ (if is_ok result then T.GateRegister.done register.old + h_count operations.now else T.GateRegister.done register.old) }
    ensures numbered { is_ok result ≡ true → (w : ℕ) → w < T.GateRegister.model.size (T.GateRegister.state register.old) → T.TellingRegister.numbers register.new w ≡ numbers_after T.TellingRegister.mark operations.now (T.TellingRegister.numbers register.old) w }
    ensures written { places.new ≡ (if is_ok result then told_first places.old (tells T.TellingRegister.mark operations.now (T.TellingRegister.numbers register.old)) else places.old) }
{
    check_run(&*register, operations, Some(places.len()))?;
    tell_all(register, operations, places)
}

// Applies the operations in the order given and writes for each read its gate and the number told, from the first place on; or refuses and changes nothing. Answers the count of reads. In an allowed order of a listing the register ends as the direct run of the listing's program would leave it, and each read gate tells the same number.
pub fn rehearse_telling<T: TellingRegister>(
    register: &mut T,
    operations: &[Operation],
    places: &mut [Reading],
) -> Result<usize, Refusal>
    ensures answer { result ≡ ok_unless (running_refusal (capacity T.GateRegister.model T.GateRegister.most (T.GateRegister.state register.old) (T.GateRegister.done register.old) (Some (length places.old))) operations.now) (read_count operations.now) }
    ensures kept { is_err result ≡ true → (register.new ≡ register.old) × (places.new ≡ places.old) }
    ensures acted { T.GateRegister.state register.new ≡ (if is_ok result then after T.GateRegister.model operations.now (T.GateRegister.state register.old) else T.GateRegister.state register.old) }
    ensures counted { T.GateRegister.done register.new ≡ (if is_ok result then T.GateRegister.done register.old + h_count operations.now else T.GateRegister.done register.old) }
    ensures numbered { is_ok result ≡ true → (w : ℕ) → w < T.GateRegister.model.size (T.GateRegister.state register.old) → T.TellingRegister.numbers register.new w ≡ numbers_after T.TellingRegister.mark operations.now (T.TellingRegister.numbers register.old) w }
    ensures written { places.new ≡ (if is_ok result then told_first places.old (tells T.TellingRegister.mark operations.now (T.TellingRegister.numbers register.old)) else places.old) }
    ensures directly { is_ok result ≡ true → ForEachListing operations.now (λ b. RanDirectly T.GateRegister.model b.plan (T.GateRegister.state register.old) (T.GateRegister.done register.old) result (T.GateRegister.state register.new) (T.GateRegister.done register.new)) }
    ensures told_directly { is_ok result ≡ true → ForEachListing operations.now (λ b. Perm (take (read_count operations.now) places.new) (tells T.TellingRegister.mark (direct b.plan) (T.TellingRegister.numbers register.old))) }
    ensures stands { ListingsStand T.GateRegister.model T.GateRegister.most T.GateRegister.model T.GateRegister.most T.GateRegister.state T.TellingRegister.mark T.TellingRegister.numbers }
{
    tell_checked(register, operations, places)
}
