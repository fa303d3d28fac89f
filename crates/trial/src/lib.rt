// What judging would say if one gate had another timing.
#![tactic(auto)]

ghost use Rattle.std.specs.Prelude.{◌≡◌, ◌<◌, length, Some};
ghost use Rattle.plan.specs.Plans.{retimed_at};
ghost use Rattle.plan.specs.Verdicts.{judged};
ghost use Rattle.spans.specs.Layouts.{layout_plan};
ghost use Rattle.trial.specs.Trials.{judged_with};

use judge::judge;
use plan::gate::{Gate, Timing};
use plan::timing::*;
use refusal::Refusal;
use route::rule::RouteRule;
use spans::layout::Layout;

// The gate records while one gate has another timing. Its old one is written back when the trial ends, whichever way that is.
struct Trial<'a> {
    gates: &'a mut [Gate],
    gate: usize,
    old: Option<Timing>,
}

impl Drop for Trial<'_> {
    fn drop(self)
        requires { self.gate < length self.gates.now }
        ensures { self.exit.0.now ≡ retimed_at self.entry.gates.now self.entry.gate self.entry.old }
    {
        self.gates[self.gate].timing = self.old;
        let Trial {
            gates: _,
            gate: _,
            old: _,
        } = self;
    }
}

impl Trial<'_> {
    // What judging says of the records as they are.
    fn verdict<R: RouteRule>(&self, rule: &R, layout: &Layout) -> Result<u64, Refusal>
        ensures { result ≡ judged (layout_plan layout.now self.entry.now.gates.now) (R.RouteRule.route rule.now) }
    {
        judge(rule, layout, self.gates)
    }
}

// The verdict where a gate has the timing, with the records as they were afterwards.
fn verdict_with<R: RouteRule>(
    rule: &R,
    layout: &Layout,
    gates: &mut [Gate],
    gate: usize,
    timing: Timing,
) -> Result<u64, Refusal>
    requires { gate < length gates.old }
    ensures answer { result ≡ judged (layout_plan layout.now (retimed_at gates.old gate (Some timing))) (R.RouteRule.route rule.now) }
    ensures kept { gates.new ≡ gates.old }
{
    let old = gates[gate].timing;
    gates[gate].retime(timing);
    let trial = Trial { gates, gate, old };
    trial.verdict(rule, layout)
}

// What judging would say if the gate had the timing, or that there is no such gate. The gates are as they were afterwards.
pub fn try_timing<R: RouteRule>(
    rule: &R,
    layout: &Layout,
    gates: &mut [Gate],
    gate: usize,
    timing: Timing,
) -> Result<u64, Refusal>
    ensures answer { result ≡ judged_with (layout_plan layout.now gates.old) (R.RouteRule.route rule.now) gate timing }
    ensures kept { gates.new ≡ gates.old }
{
    if gate >= gates.len() {
        return Err(Refusal::NoSuchGate(gate));
    }
    verdict_with(rule, layout, gates, gate, timing)
}
