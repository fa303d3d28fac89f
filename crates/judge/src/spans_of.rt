// The spans of all gates, and the constraints on them.
ghost use Rattle.std.specs.Prelude.{◌≡◌, ◌≤◌, length, None};
ghost use Rattle.refusal.specs.Refusals.{ok_unless};
ghost use Rattle.plan.specs.Verdicts.{latest_end};
ghost use Rattle.spans.specs.Layouts.{layout_plan};
ghost use Rattle.judge.specs.Judging.{SpansOf, unoffered, last_three};

use circuit::action::Action;
use grid::cell_set::CellSet;
use plan::gate::Gate;
use refusal::Refusal;
use route::rule::RouteRule;
use schedule::check_schedule;
use spans::layout::Layout;
use spans::span::Span;

// What stands in a place before a span is written there.
fn no_span() -> Span {
    Span {
        action: Action::Cnot(0, 0),
        start: 0,
        end: 0,
        cells: CellSet::new(),
    }
}

// Writes the span of each gate. By index: after a loop over `out.iter_mut().zip(gates)` no proof knows what `out` holds.
fn write_spans<R: RouteRule>(rule: &R, layout: &Layout, gates: &[Gate], out: &mut [Span])
    requires { length gates.now ≤ length out.old }
    ensures { SpansOf (layout_plan layout.now gates.now) (R.RouteRule.route rule.now) (length gates.now) out.new }
{
    for (i, gate) in gates.iter().enumerate() {
        out[i] = layout.span(rule, *gate);
    }
}

// The latest end, or the first of the constraints on spans that is broken, where every choice is offered.
pub(super) fn check_spans<R: RouteRule>(
    rule: &R,
    layout: &Layout,
    gates: &[Gate],
) -> Result<u64, Refusal>
    requires few { length gates.now ≤ 256 }
    requires offered { unoffered (R.RouteRule.route rule.now).choices gates.now ≡ None }
    ensures { result ≡ ok_unless (last_three (layout_plan layout.now gates.now) (R.RouteRule.route rule.now)) (latest_end (layout_plan layout.now gates.now) (R.RouteRule.route rule.now)) }
{
    // An array of the greatest length, with the number of gates beside it: memory is fixed, and judging allocates nothing.
    let mut spans = [no_span(); 256];
    write_spans(rule, layout, gates, &mut spans);
    check_schedule(layout, &spans[..gates.len()])
}
