//! The laws of the rules.

ghost use Rattle.std.specs.Prelude.{◌≡◌, ◌<◌, ℕ, true, [], length, All};
ghost use Rattle.nc_tables.specs.State.{StateView, IsState};
ghost use Rattle.nc_graph.specs.declared.node.NodeKind.TheVariants.{Leaf, Any};
ghost use Rattle.nc_types.specs.declared.config.RouterId.{RouterId};
ghost use Rattle.nc_fact.specs.declared.fact.Fact.{Fact};
ghost use Rattle.nc_fact.specs.declared.fact.Fact.TheVariants.{Session};
ghost use Rattle.nc_fact.specs.Facts.{holds, rank};
ghost use Rattle.nc_rules_route.specs.Parents.{kind, parents};

/// The laws of the rules, over every state of a network. It does nothing: a caller that needs a law calls it.
pub fn rules_are_lawful()
    // Each parent of a fact that holds does too, and has a lower rank.
    ensures below { (s : StateView) → IsState s → (f : Fact) → holds s f ≡ true
        → All (λ p. (holds s p ≡ true) × (rank s p < rank s f)) (parents s f) }

    // What follows from any of its parents has one.
    ensures chosen { (s : StateView) → IsState s → (f : Fact) → holds s f
        ≡ true → kind f ≡ Any → 0 < length (parents s f) }

    // A session that is established follows from all that both its ends give.
    ensures whole { (s : StateView) → IsState s → (router : RouterId) (place : ℕ)
        → holds s (Session router place) ≡ true → length (parents s (Session router place)) ≡ 8 }

    // An element has none.
    ensures bare { (s : StateView) (f : Fact) (e : ℕ) → kind f ≡ Leaf e → parents s f ≡ [] }
{}
