// A gate ends within the windows of the homes of its labels.
ghost use Rattle.std.specs.Prelude.{◌≡◌, Some, []};
ghost use Rattle.refusal.specs.Refusals.{ok_unless};
ghost use Rattle.plan.specs.Verdicts.{late_at};
ghost use Rattle.spans.specs.Layouts.{layout_plan};
ghost use Rattle.schedule.specs.Schedules.{late_label, first_late_label, late};

use circuit::wires::*;
use refusal::Refusal;
use spans::layout::Layout;
use spans::span::Span;

// Whether the window of a label's home is over at a time.
fn is_late(layout: &Layout, end: u64, label: u8) -> bool
    ensures { result ≡ late_at (layout_plan layout.now []) end (Some label) }
{
    (layout.values_at_home(label).window as u64) < end
}

// The label of a gate at a place, where its home's window is over when the gate ends. By place, as the definitions name the labels of a gate.
fn late_label(layout: &Layout, span: &Span, place: usize) -> Option<u8>
    ensures { result ≡ late_label (layout_plan layout.now []) span.now place }
{
    let label = span.action.wire_at(place)?;
    is_late(layout, span.end, label).then_some(label)
}

// The first such label: that of the control before that of the target.
fn first_late_label(layout: &Layout, span: &Span) -> Option<u8>
    ensures { result ≡ first_late_label (layout_plan layout.now []) span.now }
{
    let control = late_label(layout, span, 0);
    let target = late_label(layout, span, 1);
    control.or(target)
}

// Refuses the first gate that ends after a window, with the cell: the control's home before the target's.
pub(super) fn check_late(layout: &Layout, spans: &[Span]) -> Result<(), Refusal>
    ensures { result ≡ ok_unless (late (layout_plan layout.now []) spans.now) tt }
{
    for (gate, span) in spans.iter().enumerate() {
        if let Some(label) = first_late_label(layout, span) {
            return Err(Refusal::PastWindow(gate, layout.cell_of(label) as usize));
        }
    }
    Ok(())
}
