// Worked examples, each computed from the definitions that the contracts use.
#![tactic(auto)]

ghost use Rattle.cases.specs.Cases.{CasesHold};

// The examples come out as written.
#[tactic(auto, using(crate::proofs::Scripts::distant_answered, crate::proofs::Histories::distant_handed_out))]
pub fn cases_hold()
    ensures { CasesHold }
{}
