// A gate does not start before one that comes earlier in the program and shares a label with it ends.
ghost use Rattle.std.specs.Prelude.{◌≡◌, ◌≤◌, true, max, None, slice_set};
ghost use Rattle.refusal.specs.Refusals.{ok_unless};
ghost use Rattle.schedule.specs.Schedules.{starts_too_early, early};
ghost use Rattle.schedule.specs.Sweeps.{free_from, Taken};

use circuit::wires::*;
use refusal::Refusal;
use search::first_pair;
use spans::span::Span;

// Whether the second gate starts before the first, with which it shares a label, ends.
fn starts_too_early(first: &Span, second: &Span) -> bool
    ensures { result ≡ starts_too_early first.now second.now }
{
    (second.start as u64) < first.end && first.action.shares_wire(second.action)
}

// Whether a label is free when a gate starts; it is free again when that gate has ended.
fn take_label(free: &mut [u64; 256], label: u8, span: &Span) -> bool
    ensures waited { result ≡ true → free_from free.old label ≤ span.now.start }
    ensures after { free.new ≡ slice_set free.old label (max (free_from free.old label) span.now.end) }
{
    let at = free[label as usize];
    free[label as usize] = at.max(span.end);
    at <= span.start as u64
}

// The same of each label of a gate.
fn take_labels(free: &mut [u64; 256], span: &Span) -> bool
    ensures { Taken span.now free.old free.new result }
{
    let is_first_free = take_label(free, span.action.first_wire(), span);
    match span.action.second_wire() {
        Some(target) => take_label(free, target, span) && is_first_free,
        None => is_first_free,
    }
}

// Whether each gate in program order finds its labels free: then no two share a label and overlap. In one pass, where the search for the first two takes one for each gate.
fn come_in_turn(spans: &[Span]) -> bool
    ensures { result ≡ true → early spans.now ≡ None }
{
    let mut free = [0; 256];
    for span in spans {
        if !take_labels(&mut free, span) {
            return false;
        }
    }
    true
}

// Refuses the first two gates that share a label and of which the later starts before the other ends.
pub(super) fn check_early(spans: &[Span]) -> Result<(), Refusal>
    ensures { result ≡ ok_unless (early spans.now) tt }
{
    // Of few spans the search is done sooner than the pass, which clears a place for each label.
    if spans.len() > 16 && come_in_turn(spans) {
        return Ok(());
    }
    // A match: `map_or(Ok(()), ..)` would hide what is answered where nothing is found.
    match first_pair(spans, starts_too_early) {
        Some((first, second)) => Err(Refusal::TooEarly(first, second)),
        None => Ok(()),
    }
}
