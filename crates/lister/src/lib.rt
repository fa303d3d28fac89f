// The listing of a plan that passes: every gate's operations in order.
#![tactic(auto)]

mod blocks;
mod counts;

ghost use Rattle.std.specs.Prelude.{◌≡◌, ◌<◌, ◌≤◌, ℕ, length, take, IfOk, nat_lt};
ghost use Rattle.refusal.specs.declared.Refusal.{Refusal};
ghost use Rattle.refusal.specs.Refusals.{refuse_if, ok_unless};
ghost use Rattle.plan.specs.Plans.{start_at};
ghost use Rattle.plan.specs.Kept.{Kept};
ghost use Rattle.plan.specs.Blocks.{blocks};
ghost use Rattle.plan.specs.Listings.{listing, WellListed};
ghost use Rattle.spans.specs.Layouts.{layout_plan};
ghost use Rattle.lister.specs.Blocks.{listed, places_listed};

use crate::blocks::push_gates;
use crate::counts::operation_total;
use circuit::operation::Operation;
use circuit::order::*;
use judge::judge;
use plan::gate::Gate;
use queue::Queue;
use refusal::Refusal;
use route::rule::RouteRule;
use spans::layout::Layout;

// How many operations a plan has, unless there are fewer places.
#[tactic(auto, using(crate::proofs::FirstBlocks::length_listing))]
fn check_places<R: RouteRule>(
    rule: &R,
    layout: &Layout,
    gates: &[Gate],
    places: usize,
) -> Result<usize, Refusal>
    requires { length gates.now ≤ 256 }
    ensures answer { result ≡ ok_unless (refuse_if (nat_lt places (length (listing (layout_plan layout.now gates.now) (R.RouteRule.route rule.now)))) Refusal.TooFewPlaces) (length (listing (layout_plan layout.now gates.now) (R.RouteRule.route rule.now))) }
    ensures fits { IfOk result (λ _. length (blocks (layout_plan layout.now gates.now) (R.RouteRule.route rule.now)) ≤ places) }
{
    let count = operation_total(rule, layout, gates);
    if places < count {
        return Err(Refusal::TooFewPlaces);
    }
    Ok(count)
}

// How many operations a plan has, unless judging refuses it or there are fewer places.
fn check<R: RouteRule>(
    rule: &R,
    layout: &Layout,
    gates: &[Gate],
    places: usize,
) -> Result<usize, Refusal>
    ensures answer { result ≡ listed (layout_plan layout.now gates.now) (R.RouteRule.route rule.now) places }
    ensures few { IfOk result (λ _. length gates.now ≤ 256) }
    ensures fits { IfOk result (λ _. length (blocks (layout_plan layout.now gates.now) (R.RouteRule.route rule.now)) ≤ places) }
    ensures early { IfOk result (λ _. (g : ℕ) → g < length gates.now → start_at (layout_plan layout.now gates.now) g ≤ 1000000) }
{
    judge(rule, layout, gates)?;
    check_places(rule, layout, gates, places)
}

// Writes the operations in order, or refuses. Apart from `write_listing`, so that what is said of a listing is proved of one value.
#[tactic(auto, using(crate::proofs::FirstBlocks::length_listing))]
fn write_in_order<R: RouteRule>(
    rule: &R,
    layout: &Layout,
    gates: &[Gate],
    places: &mut [Operation],
) -> Result<usize, Refusal>
    ensures answer { result ≡ listed (layout_plan layout.now gates.now) (R.RouteRule.route rule.now) (length places.old) }
    ensures written { places.new ≡ places_listed (layout_plan layout.now gates.now) (R.RouteRule.route rule.now) result places.old }
{
    check(rule, layout, gates, places.len())?;
    let mut queue = Queue::new(places);
    push_gates(rule, layout, gates, &mut queue)?;
    Ok(queue.into_sorted())
}

// Writes the listing to the first places: the operations of all gates, in order of start, first cell and the other fields; answers their count. Refused is what judging refuses, then fewer places than operations, and nothing is written then. What it lists of a plan that keeps what every job's plan keeps is well listed.
pub fn write_listing<R: RouteRule>(
    rule: &R,
    layout: &Layout,
    gates: &[Gate],
    places: &mut [Operation],
) -> Result<usize, Refusal>
    ensures answer { result ≡ listed (layout_plan layout.now gates.now) (R.RouteRule.route rule.now) (length places.old) }
    ensures written { places.new ≡ places_listed (layout_plan layout.now gates.now) (R.RouteRule.route rule.now) result places.old }
    ensures well { IfOk result (λ n. Kept (layout_plan layout.now gates.now) → WellListed (layout_plan layout.now gates.now) (R.RouteRule.route rule.now) (take n places.new)) }
{
    write_in_order(rule, layout, gates, places)
}
