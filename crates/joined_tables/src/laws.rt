// The laws of joining tables, each the contract of a function.
ghost use Rattle.std.specs.Prelude.{◌≡◌, Bool};
ghost use Rattle.joined_tables.specs.Joined.{Decided, JoinsAreLawful, ChoicesBringAll};

use state_vector::standing::Standing;

// Where entries of one client that tie are equal, joining is associative, commutative and idempotent, and the empty table is neutral.
#[tactic(auto, using(crate::proofs::Gathering::joins_lawful))]
pub fn joins_are_lawful<E: Standing>()
    ensures { Decided E.Keyed.key E.Standing.above → (fine : E → Bool) → JoinsAreLawful E.Keyed.key E.Standing.above fine }
{}

// Joining what was chosen of a table is joining all of it, where the rest brings nothing new.
#[tactic(auto, using(crate::proofs::Choosing::choices_bring))]
pub fn choices_bring_all<E: Standing>()
    ensures { (fine : E → Bool) → ChoicesBringAll E.Keyed.key E.Standing.above fine }
{}
