//! What the rules say of the elements that carry a fact.

ghost use Rattle.std.specs.Prelude.{◌≡◌, ◌<◌, ℕ, Bool, true, false};
ghost use Rattle.nc_types.specs.Network.{element_count};
ghost use Rattle.nc_tables.specs.State.{StateView, IsState};
ghost use Rattle.nc_graph.specs.Derivation.{carried};
ghost use Rattle.nc_fact.specs.declared.fact.Fact.{Fact};
ghost use Rattle.nc_rules.specs.Rules.{flow_of};

use crate::rules::rules_make_a_flow;

/// Facts that hold rest on elements, over every state of a network. It does nothing: a caller that
/// needs a law calls it.
pub fn facts_need_elements()
    // Without any element no fact is carried.
    ensures none { (s : StateView) → IsState s → (x : ℕ → Bool) → ((e : ℕ) → x e ≡ false)
        → (f : Fact) → (flow_of s).holds f ≡ true → carried (flow_of s) x f ≡ false }

    // What carries a fact is told by the elements of the network alone.
    ensures below { (s : StateView) → IsState s → (x y : ℕ → Bool)
        → ((e : ℕ) → e < element_count s.routers → x e ≡ y e)
        → (f : Fact) → (flow_of s).holds f ≡ true → carried (flow_of s) x f ≡ carried (flow_of s) y f }
{
    rules_make_a_flow();
}
