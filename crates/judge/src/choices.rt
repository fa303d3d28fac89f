// Every gate's route choice is offered.
ghost use Rattle.std.specs.Prelude.{◌≡◌};
ghost use Rattle.refusal.specs.Refusals.{ok_unless};
ghost use Rattle.plan.specs.Verdicts.{is_offered};
ghost use Rattle.judge.specs.Judging.{unoffered};

use circuit::action::Action;
use plan::gate::Gate;
use plan::timing::*;
use refusal::Refusal;
use route::rule::RouteRule;

// Whether a choice is offered: of an action on one label only 0 is.
fn is_offered(choices: u16, action: Action, choice: u8) -> bool
    ensures { result ≡ is_offered choices action choice }
{
    match action {
        Action::One(_, _) => choice == 0,
        Action::Cnot(_, _) => (choice as u16) < choices,
    }
}

// Refuses the first gate whose choice is not offered.
pub(super) fn check_choices<R: RouteRule>(rule: &R, gates: &[Gate]) -> Result<(), Refusal>
    ensures { result ≡ ok_unless (unoffered (R.RouteRule.route rule.now).choices gates.now) tt }
{
    let choices = rule.choices();
    // A match: `map_or(Ok(()), ..)` would hide what is answered where nothing is found.
    match gates
        .iter()
        .position(|gate| !is_offered(choices, gate.action, gate.choice()))
    {
        Some(gate) => Err(Refusal::ChoiceNotOffered(gate)),
        None => Ok(()),
    }
}
