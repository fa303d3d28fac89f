// The agenda: the timed gates in order of start, then gate number.
#![tactic(auto)]

ghost use Rattle.std.specs.Prelude.{◌≡◌, ◌+◌, ◌<◌, ◌≤◌, [], ◌∷◌, ◌++◌, length, drop, is_ok, is_some, if◌then◌else◌, Ok, Some, IfOk};
ghost use Rattle.std.specs.List.{count_by};
ghost use Rattle.refusal.specs.Refusals.{ok_unless};
ghost use Rattle.orders.specs.Sorting.{Sorted};
ghost use Rattle.queue.specs.Held.{count, room};
ghost use Rattle.joining.specs.Joined.{Joined};
ghost use Rattle.plan.specs.Entries.{entry_before};
ghost use Rattle.plan.specs.Listings.{entry_of};
ghost use Rattle.agenda.specs.Agendas.{gate_entries, gate_agenda, agenda_refusal};

use plan::agenda::*;
use plan::gate::{AgendaEntry, Gate, Timing};
use queue::Queue;
use refusal::Refusal;

// How many gates have a timing.
fn timed_count(gates: &[Gate]) -> usize
    ensures { result ≡ count_by (λ g. is_some g.timing) gates.now }
{
    gates.iter().filter(|gate| gate.timing.is_some()).count()
}

// Why the agenda of these gates is not written to so many places. More than 256 gates are no program, and an entry has no number for some of them.
#[tactic(auto, using(crate::proofs::Entries::lengths))]
fn check(gates: &[Gate], places: usize) -> Result<(), Refusal>
    ensures few { IfOk result (λ _. length gates.now ≤ 256) }
    ensures fits { IfOk result (λ _. length (gate_entries gates.now) ≤ places) }
    ensures answer { result ≡ ok_unless (agenda_refusal gates.now places) tt }
{
    if gates.len() > 256 {
        return Err(Refusal::ProgramFull);
    }
    if places < timed_count(gates) {
        return Err(Refusal::TooFewPlaces);
    }
    Ok(())
}

// The entry of a gate with a timing.
fn entry(gate: usize, timing: Timing) -> AgendaEntry
    requires { gate < 256 }
    ensures { entry_of gate (Some timing) ≡ result ∷ [] }
{
    AgendaEntry {
        start: timing.start,
        gate: gate as u16,
    }
}

// The entry of each timed gate joins the queue, which has room for them.
fn push_entries(queue: &mut Queue<'_, AgendaEntry>, gates: &[Gate]) -> Result<(), Refusal>
    requires few { length gates.now ≤ 256 }
    requires room { count queue.old + length (gate_entries gates.now) ≤ room queue.old }
    ensures passes { result ≡ Ok tt }
    ensures joined { Joined entry_before (gate_entries gates.now) queue.old queue.new }
{
    for (i, gate) in gates.iter().enumerate() {
        if let Some(timing) = gate.timing {
            queue.push(entry(i, timing))?;
        }
    }
    Ok(())
}

// Writes the agenda to the first places: the timed gates in order of start, then gate number; answers their count. More than 256 gates or fewer places than timed gates are refused, and nothing is written then.
#[tactic(auto, using(crate::proofs::Entries::lengths))]
pub fn write_agenda(gates: &[Gate], places: &mut [AgendaEntry]) -> Result<usize, Refusal>
    ensures answer { result ≡ ok_unless (agenda_refusal gates.now (length places.old)) (length (gate_agenda gates.now)) }
    ensures written { places.new ≡ (if is_ok result then gate_agenda gates.now ++ drop (length (gate_agenda gates.now)) places.old else places.old) }
    ensures one { Sorted entry_before (gate_entries gates.now) (gate_agenda gates.now) }
{
    check(gates, places.len())?;
    let mut queue = Queue::new(places);
    push_entries(&mut queue, gates)?;
    Ok(queue.into_sorted())
}
