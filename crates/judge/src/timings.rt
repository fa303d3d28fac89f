// Every gate has a timing.
ghost use Rattle.std.specs.Prelude.{◌≡◌, is_none};
ghost use Rattle.refusal.specs.Refusals.{ok_unless};
ghost use Rattle.judge.specs.Judging.{untimed};

use plan::gate::Gate;
use refusal::Refusal;

// Whether a gate has no timing.
fn is_untimed(gate: &Gate) -> bool
    ensures { result ≡ is_none gate.now.timing }
{
    gate.timing.is_none()
}

// Refuses the first gate that has no timing.
pub(super) fn check_timings(gates: &[Gate]) -> Result<(), Refusal>
    ensures { result ≡ ok_unless (untimed gates.now) tt }
{
    // A match: `map_or(Ok(()), ..)` would hide what is answered where nothing is found.
    match gates.iter().position(is_untimed) {
        Some(gate) => Err(Refusal::NoTiming(gate)),
        None => Ok(()),
    }
}
