// The operations of gates join a queue.
ghost use Rattle.std.specs.Prelude.{◌≡◌, ◌+◌, ◌<◌, ◌≤◌, ℕ, [], ◌∷◌, length, is_ok, if◌then◌else◌, Ok};
ghost use Rattle.refusal.specs.Refusals.{ok_unless};
ghost use Rattle.circuit.specs.declared.action.Action.{Action};
ghost use Rattle.circuit.specs.Operations.{operation_before};
ghost use Rattle.queue.specs.Held.{count, room};
ghost use Rattle.joining.specs.Joined.{Joined};
ghost use Rattle.cnot.specs.Steps.{placed, writing_refusal, written_first};
ghost use Rattle.plan.specs.Plans.{start_or, start_at};
ghost use Rattle.plan.specs.Blocks.{blocks};
ghost use Rattle.spans.specs.Layouts.{layout_plan};
ghost use Rattle.lister.specs.Blocks.{action_steps, gate_block};

use circuit::action::{Action, Single};
use circuit::operation::Operation;
use circuit::order::*;
use cnot::write::write_cnot;
use joining::push_all;
use plan::gate::Gate;
use plan::timing::*;
use queue::Queue;
use refusal::Refusal;
use route::rule::RouteRule;
use spans::layout::Layout;

// A gate's number, start and route choice.
#[derive(Clone, Copy, Debug, PartialEq, Eq)]
struct Place {
    gate: u16,
    start: u32,
    choice: u8,
}

// What stands in a place before an operation is written there.
fn no_operation() -> Operation {
    Operation {
        start: 0,
        length: 0,
        action: Action::Cnot(0, 0),
        gate: 0,
    }
}

// The operation of a gate on one label.
fn single_operation<R: RouteRule>(
    rule: &R,
    layout: &Layout,
    place: Place,
    kind: Single,
    label: u8,
) -> Operation
    ensures { placed place.gate place.start (action_steps layout.now (R.RouteRule.route rule.now) place.choice (Action.One kind label)) ≡ result ∷ [] }
{
    Operation {
        start: place.start,
        length: layout.duration_of(rule, place.choice, Action::One(kind, label)),
        action: Action::One(kind, layout.cell_of(label)),
        gate: place.gate,
    }
}

// Writes the operations of a CNOT to the first places of `out`; answers their count, which is at most 373, since a path has at most 64 cells.
#[tactic(auto, using(crate::proofs::FirstBlocks::routed_few))]
fn write_routed<R: RouteRule>(
    rule: &R,
    layout: &Layout,
    place: Place,
    control: u8,
    target: u8,
    out: &mut [Operation],
) -> Result<usize, Refusal>
    ensures few { length (action_steps layout.now (R.RouteRule.route rule.now) place.choice (Action.Cnot control target)) ≤ 373 }
    ensures answer { result ≡ ok_unless (writing_refusal place.start place.gate (length out.old) (length (action_steps layout.now (R.RouteRule.route rule.now) place.choice (Action.Cnot control target)))) (length (action_steps layout.now (R.RouteRule.route rule.now) place.choice (Action.Cnot control target))) }
    ensures written { out.new ≡ (if is_ok result then written_first out.old (placed place.gate place.start (action_steps layout.now (R.RouteRule.route rule.now) place.choice (Action.Cnot control target))) else out.old) }
{
    let path = layout.path_of(rule, control, target, place.choice);
    prove!(path.cells().len() <= 64);
    write_cnot(layout.table, &path, place.start, place.gate, out)
}

// The operations of a CNOT join the queue, which has room for them; they are written to the block before.
fn push_routed<R: RouteRule>(
    rule: &R,
    layout: &Layout,
    place: Place,
    control: u8,
    target: u8,
    block: &mut [Operation; 373],
    queue: &mut Queue<'_, Operation>,
) -> Result<(), Refusal>
    requires early { place.start ≤ 1000000 }
    requires room { count queue.old + length (action_steps layout.now (R.RouteRule.route rule.now) place.choice (Action.Cnot control target)) ≤ room queue.old }
    ensures passes { result ≡ Ok tt }
    ensures joined { Joined operation_before (placed place.gate place.start (action_steps layout.now (R.RouteRule.route rule.now) place.choice (Action.Cnot control target))) queue.old queue.new }
{
    let count = write_routed(rule, layout, place, control, target, block)?;
    push_all(queue, &block[..count])
}

// The operations of a gate join the queue, which has room for them; those of a CNOT are written to the block before.
fn push_gate<R: RouteRule>(
    rule: &R,
    layout: &Layout,
    number: u16,
    gate: &Gate,
    block: &mut [Operation; 373],
    queue: &mut Queue<'_, Operation>,
) -> Result<(), Refusal>
    requires early { start_or gate.now.timing ≤ 1000000 }
    requires room { count queue.old + length (gate_block layout.now (R.RouteRule.route rule.now) number gate.now) ≤ room queue.old }
    ensures passes { result ≡ Ok tt }
    ensures joined { Joined operation_before (gate_block layout.now (R.RouteRule.route rule.now) number gate.now) queue.old queue.new }
{
    let place = Place {
        gate: number,
        start: gate.start(),
        choice: gate.choice(),
    };
    match gate.action {
        Action::One(kind, label) => queue.push(single_operation(rule, layout, place, kind, label)),
        Action::Cnot(control, target) => push_routed(
            rule, layout, place, control, target, block, queue,
        ),
    }
}

// The operations of all gates join the queue, which has room for them.
pub(super) fn push_gates<R: RouteRule>(
    rule: &R,
    layout: &Layout,
    gates: &[Gate],
    queue: &mut Queue<'_, Operation>,
) -> Result<(), Refusal>
    requires few { length gates.now ≤ 256 }
    requires early { (g : ℕ) → g < length gates.now → start_at (layout_plan layout.now gates.now) g ≤ 1000000 }
    requires room { count queue.old + length (blocks (layout_plan layout.now gates.now) (R.RouteRule.route rule.now)) ≤ room queue.old }
    ensures passes { result ≡ Ok tt }
    ensures joined { Joined operation_before (blocks (layout_plan layout.now gates.now) (R.RouteRule.route rule.now)) queue.old queue.new }
{
    // One block for all gates, since to fill it takes longer than to write a CNOT to it.
    let mut block = [no_operation(); 373];
    for (i, gate) in gates.iter().enumerate() {
        push_gate(rule, layout, i as u16, gate, &mut block, queue)?;
    }
    Ok(())
}
