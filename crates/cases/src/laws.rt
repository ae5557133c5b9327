// The worked cases come out as the table says.
ghost use Rattle.cases.specs.Cases.{CasesHold};

// Every case of the table holds.
#[tactic(auto, using(crate::proofs::Holding::cases_hold))]
pub fn cases_hold()
    ensures { CasesHold }
{}
