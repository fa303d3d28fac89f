// Gates that reserve a common cell do not overlap.
ghost use Rattle.std.specs.Prelude.{◌≡◌, ℕ, ◌<◌, true, false, None, List, length, slice_index_or};
ghost use Rattle.std.specs.List.Sorted.{IsNonDecreasingBy};
ghost use Rattle.refusal.specs.Refusals.{ok_unless};
ghost use Rattle.schedule.specs.Schedules.{no_span, span_at, meeting, overlaps, overlap_at, overlapping};

use grid::cell_set::CellSet;
use refusal::Refusal;
use search::first_pair;
use spans::span::Span;

// Whether two sets have a common cell, by the test of the definitions. A function of its own: with `meets` inside the condition of `overlaps` the proof doesn't close.
fn have_common_cell(one: CellSet, other: CellSet) -> bool
    ensures { result ≡ meeting one other }
{
    one.meets(other)
}

// Whether two gates reserve a common cell and each starts before the other ends.
fn overlaps(first: &Span, second: &Span) -> bool
    ensures { result ≡ overlaps first.now second.now }
{
    (first.start as u64) < second.end
        && (second.start as u64) < first.end
        && have_common_cell(first.cells, second.cells)
}

// Whether a gate overlaps none of others that start later, in order of start: those from the first on that starts when it has ended are not looked at.
fn is_clear_of(first: &Span, later: &[Span]) -> bool
    requires { IsNonDecreasingBy (λ (s : Span). s.start) later.now }
    ensures { result ≡ true → (k : ℕ) → k < length later.now → overlaps first.now (span_at later.now k) ≡ false }
{
    for second in later {
        if first.end <= second.start as u64 {
            return true;
        }
        if have_common_cell(first.cells, second.cells) {
            return false;
        }
    }
    true
}

// Whether no two overlap of gates in order of start.
fn are_clear(spans: &[Span]) -> bool
    requires { IsNonDecreasingBy (λ (s : Span). s.start) spans.now }
    ensures { result ≡ true → (i j : ℕ) → i < j → j < length spans.now → overlaps (span_at spans.now i) (span_at spans.now j) ≡ false }
{
    for (i, first) in spans.iter().enumerate() {
        if !is_clear_of(first, &spans[i + 1..]) {
            return false;
        }
    }
    true
}

// Whether a copy of the spans in order of start shows that no two overlap. Not so of more than 256.
fn are_clear_by_start(spans: &[Span]) -> bool
    ensures { result ≡ true → overlapping spans.now ≡ None }
{
    let Some(first) = spans.first() else {
        return true;
    };
    let mut by_start = [*first; 256];
    let Some(places) = by_start.get_mut(..spans.len()) else {
        return false;
    };
    places.copy_from_slice(spans);
    places.sort_unstable_by_key(|span| span.start);
    are_clear(places)
}

// Refuses the first two gates that overlap on a reserved cell.
pub(super) fn check_overlap(spans: &[Span]) -> Result<(), Refusal>
    ensures { result ≡ ok_unless (overlapping spans.now) tt }
{
    // Of few spans the search is done sooner than the copy is made.
    if spans.len() > 16 && are_clear_by_start(spans) {
        return Ok(());
    }
    // A match: `map_or(Ok(()), ..)` would hide what is answered where nothing is found.
    match first_pair(spans, overlaps) {
        Some((first, second)) => Err(Refusal::Overlap(first, second)),
        None => Ok(()),
    }
}
