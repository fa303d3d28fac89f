// The constraints on a schedule, which is a list of spans: gates that share a label come one after another, gates that reserve a common cell do not overlap, and each ends within the windows of its homes.
#![tactic(auto)]

pub mod early;
pub mod late;
pub mod overlap;

ghost use Rattle.std.specs.Prelude.{◌≡◌, []};
ghost use Rattle.refusal.specs.Refusals.{ok_unless};
ghost use Rattle.spans.specs.Layouts.{layout_plan};
ghost use Rattle.schedule.specs.Schedules.{schedule_broken, latest};

use crate::early::check_early;
use crate::late::check_late;
use crate::overlap::check_overlap;
use refusal::Refusal;
use spans::layout::Layout;
use spans::span::Span;

// The latest end of all spans, 0 where there is none.
fn latest_end(spans: &[Span]) -> u64
    ensures { result ≡ latest spans.now }
{
    spans.iter().map(|span| span.end).max().unwrap_or(0)
}

// The latest end of a schedule, or the first constraint that it breaks, at its lowest places.
pub fn check_schedule(layout: &Layout, spans: &[Span]) -> Result<u64, Refusal>
    ensures { result ≡ ok_unless (schedule_broken (layout_plan layout.now []) spans.now) (latest spans.now) }
{
    check_early(spans)?;
    check_overlap(spans)?;
    check_late(layout, spans)?;
    Ok(latest_end(spans))
}
