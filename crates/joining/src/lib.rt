// Several elements join a queue.
#![tactic(auto)]

ghost use Rattle.std.specs.Prelude.{◌≡◌};
ghost use Rattle.refusal.specs.Refusals.{ok_unless};
ghost use Rattle.joining.specs.Joined.{Joined, with_place, joining_refusal};

use orders::Ranked;
use queue::Queue;
use refusal::Refusal;

// The elements join one by one, and the first that finds no place is refused; those before it have joined then.
pub fn push_all<T: Ranked>(queue: &mut Queue<'_, T>, xs: &[T]) -> Result<(), Refusal>
    ensures answer { result ≡ ok_unless (joining_refusal queue.old xs.now) tt }
    ensures joined { Joined T.Ranked.before (with_place queue.old xs.now) queue.old queue.new }
{
    for x in xs {
        queue.push(*x)?;
    }
    Ok(())
}
