//! What follows from the definitions alone.

ghost use Rattle.std.specs.Prelude.{◌≡◌, ◌∷◌, [], true, List, All};
ghost use Rattle.nc_tables.specs.State.{StateView, IsState};
ghost use Rattle.nc_fact.specs.declared.fact.Fact.{Fact};
ghost use Rattle.nc_rules.specs.Rules.{flow_of};
ghost use Rattle.nc_engine.specs.Cuts.{IsUncut};
ghost use Rattle.nc_engine.specs.File.{LoadedView};
ghost use Rattle.nc_engine.specs.Session.{GoesOn};

use nc_cut::{law_of_cuts_or_none, law_of_no_variable_kept};
use nc_diagram::law_of_all_but;
use nc_fact::{Fact, roots_are_those_that_hold};
use nc_graph::laws::{
    carrying_is_evaluation, closures_have_one_length, some_is_evaluation, strong_is_evaluation,
};
use nc_rules::{facts_need_elements, rules_make_a_flow};

/// The law of a session: whatever lines were answered, further lines can be, each with a reply.
pub fn sessions_go_on()
    ensures { (n : LoadedView) → IsState n.state → GoesOn n }
{
    rules_make_a_flow();
    closures_have_one_length::<Fact>();
    carrying_is_evaluation::<Fact>();
    law_of_all_but();
    strong_is_evaluation::<Fact>();
    some_is_evaluation::<Fact>();
    law_of_cuts_or_none();
    roots_are_those_that_hold();
}

/// The law of cuts: where no router is to be kept, facts that hold have a cut, so that the reply to `cut` without `keep` is
/// never that there is none.
pub fn cuts_exist_without_kept_routers()
    ensures { (s : StateView) → IsState s → (fact : Fact) (facts : List Fact)
        → All (λ f. (flow_of s).holds f ≡ true) (fact ∷ facts)
        → IsUncut (flow_of s) s.routers [] (fact ∷ facts) → ⊥ }
{
    rules_make_a_flow();
    carrying_is_evaluation::<Fact>();
    facts_need_elements();
    law_of_no_variable_kept();
}
