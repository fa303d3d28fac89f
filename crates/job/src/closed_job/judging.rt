ghost use Rattle.std.specs.Prelude.{◌≡◌};
ghost use Rattle.plan.specs.Plans.{plan_of};
ghost use Rattle.plan.specs.Verdicts.{judged, Fair};
ghost use Rattle.trial.specs.Trials.{judged_with};
ghost use Rattle.book.specs.Calls.{judge, try};
ghost use Rattle.book.specs.Answers.{answer};
ghost use Rattle.book.specs.Histories.{fed};
ghost use Rattle.job.specs.Jobs.{closed_book};

use crate::closed_job::ClosedJob;
use calibration::table::CalibrationTable;
use judge::judge;
use plan::gate::{Gate, Timing};
use refusal::Refusal;
use route::rule::RouteRule;
use spans::layout::Layout;
use trial::try_timing;

// What judging says of the plan of a table, homes and gates.
fn verdict<R: RouteRule>(
    rule: &R,
    table: &CalibrationTable,
    homes: &[Option<u8>],
    gates: &[Gate],
) -> Result<u64, Refusal>
    ensures { result ≡ judged (plan_of table.now homes.now gates.now) (R.RouteRule.route rule.now) }
{
    let layout = Layout { table, homes };
    judge(rule, &layout, gates)
}

// What judging says of the plan of a table, homes and gates where the gate has the timing. The gates are as they were afterwards.
fn verdict_with<R: RouteRule>(
    rule: &R,
    table: &CalibrationTable,
    homes: &[Option<u8>],
    gates: &mut [Gate],
    gate: usize,
    timing: Timing,
) -> Result<u64, Refusal>
    ensures answer { result ≡ judged_with (plan_of table.now homes.now gates.old) (R.RouteRule.route rule.now) gate timing }
    ensures kept { gates.new ≡ gates.old }
{
    let layout = Layout { table, homes };
    try_timing(rule, &layout, gates, gate, timing)
}

impl ClosedJob {
    // The latest end of all gates of the plan under the rule, 0 where there is none; or the first constraint that is broken, at its lowest places.
    pub fn judge<R: RouteRule>(&self, rule: &R) -> Result<u64, Refusal>
        ensures answer { result ≡ answer (closed_book self.now) (judge (R.RouteRule.route rule.now)) }
        ensures book { closed_book self.now ≡ fed (closed_book self.now) (judge (R.RouteRule.route rule.now)) }
        ensures fair { Fair (closed_book self.now).plan (R.RouteRule.route rule.now) result }
    {
        let store = &self.store;
        verdict(rule, &store.table, &store.homes, &store.gates)
    }

    // What judging would answer if the gate had the start and the choice; or why it may not have them. The plan is as it was afterwards.
    pub fn try_timing<R: RouteRule>(
        &mut self,
        rule: &R,
        gate: u32,
        start: u32,
        choice: u32,
    ) -> Result<u64, Refusal>
        ensures answer { result ≡ answer (closed_book self.old) (try (R.RouteRule.route rule.now) gate start choice) }
        ensures book { closed_book self.new ≡ fed (closed_book self.old) (try (R.RouteRule.route rule.now) gate start choice) }
    {
        let timing = self.store.timing(gate, start, choice)?;
        let store = &mut self.store;
        verdict_with(
            rule,
            &store.table,
            &store.homes,
            &mut store.gates,
            gate as usize,
            timing,
        )
    }
}
