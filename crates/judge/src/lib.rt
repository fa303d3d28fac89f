// Judging a plan: whether it breaks a constraint, and if so the first.
#![tactic(auto)]

pub mod choices;
pub mod spans_of;
pub mod timings;

ghost use Rattle.std.specs.Prelude.{◌≡◌, ◌≤◌, length};
ghost use Rattle.refusal.specs.Refusals.{ok_unless};
ghost use Rattle.plan.specs.Verdicts.{latest_end, judged, Fair};
ghost use Rattle.spans.specs.Layouts.{layout_plan};
ghost use Rattle.judge.specs.Judging.{too_many, broken_by_parts};

use crate::choices::check_choices;
use crate::spans_of::check_spans;
use crate::timings::check_timings;
use plan::gate::Gate;
use refusal::Refusal;
use route::rule::RouteRule;
use spans::layout::Layout;

// More than 256 gates are no program.
fn check_count(gates: &[Gate]) -> Result<(), Refusal>
    ensures { result ≡ ok_unless (too_many gates.now) tt }
{
    if gates.len() > 256 {
        return Err(Refusal::ProgramFull);
    }
    Ok(())
}

// The tests one after another. Apart from `judge`, so that the law is proved of one value. The rule is no part of the layout: it may be another one at each call.
fn verdict_on<R: RouteRule>(rule: &R, layout: &Layout, gates: &[Gate]) -> Result<u64, Refusal>
    ensures { result ≡ ok_unless (broken_by_parts (layout_plan layout.now gates.now) (R.RouteRule.route rule.now)) (latest_end (layout_plan layout.now gates.now) (R.RouteRule.route rule.now)) }
{
    check_count(gates)?;
    layout.homes_on_machine().check(gates)?;
    check_timings(gates)?;
    check_choices(rule, gates)?;
    check_spans(rule, layout, gates)
}

// The latest end of all gates of a plan, 0 where there is none; or the first constraint that is broken, at its lowest places. More than 256 gates are refused before all else.
pub fn judge<R: RouteRule>(rule: &R, layout: &Layout, gates: &[Gate]) -> Result<u64, Refusal>
    ensures answer { result ≡ judged (layout_plan layout.now gates.now) (R.RouteRule.route rule.now) }
    ensures fair { length gates.now ≤ 256 → Fair (layout_plan layout.now gates.now) (R.RouteRule.route rule.now) result }
{
    verdict_on(rule, layout, gates)
}
