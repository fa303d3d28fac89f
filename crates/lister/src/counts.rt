// How many operations gates have.
ghost use Rattle.std.specs.Prelude.{◌≡◌, ◌≤◌, ℕ, length};
ghost use Rattle.route.specs.Paths.{path_cells};
ghost use Rattle.cnot.specs.Links.{links};
ghost use Rattle.cnot.specs.Steps.{routed};
ghost use Rattle.plan.specs.Blocks.{blocks};
ghost use Rattle.spans.specs.Layouts.{layout_plan};
ghost use Rattle.lister.specs.Blocks.{gate_steps};

use circuit::action::Action;
use cnot::time::operation_count;
use plan::gate::Gate;
use plan::timing::*;
use route::path::Path;
use route::rule::RouteRule;
use spans::layout::Layout;

// How many operations a CNOT along the path has, which are at most 373, since a path has at most 64 cells.
fn count_along(path: &Path) -> usize
    ensures value { (time : ℕ → ℕ → ℕ) → result ≡ length (routed (links time (path_cells path.now))) }
    ensures few { result ≤ 373 }
{
    prove!(path.cells().len() <= 64);
    operation_count(path)
}

// How many operations a gate has.
fn gate_operations<R: RouteRule>(rule: &R, layout: &Layout, gate: &Gate) -> usize
    ensures value { result ≡ length (gate_steps layout.now (R.RouteRule.route rule.now) gate.now) }
    ensures few { result ≤ 373 }
{
    match gate.action {
        Action::One(_, _) => 1,
        Action::Cnot(control, target) => {
            count_along(&layout.path_of(rule, control, target, gate.choice()))
        }
    }
}

// How many operations all gates have.
#[tactic(auto, using(crate::proofs::FirstBlocks::counting))]
pub(super) fn operation_total<R: RouteRule>(rule: &R, layout: &Layout, gates: &[Gate]) -> usize
    requires { length gates.now ≤ 256 }
    ensures { result ≡ length (blocks (layout_plan layout.now gates.now) (R.RouteRule.route rule.now)) }
{
    let mut total = 0;
    for gate in gates {
        total += gate_operations(rule, layout, gate);
    }
    total
}
