//! The laws of what is drawn for a session: its diagrams, and the references known. Each is the
//! contract of a function that does nothing: a caller that needs a law calls the function at its
//! type of facts.
ghost use Rattle.std.specs.Prelude.{◌≡◌, ℕ, [], List, Option, Some, length, map, slice_get};
ghost use Rattle.nc_graph.specs.Flow.{Flow, IsFlow};
ghost use Rattle.nc_graph.specs.Nodes.{Nodes, node_flow, IsGraph, Mirrors, Extends, AreNodesOf};
ghost use Rattle.nc_graph.specs.declared.node.NodeId.{NodeId};
ghost use Rattle.nc_diagram.specs.Counter.{Implies, IsGreatest};
ghost use Rattle.nc_diagram.specs.Sets.{Members, Same};
ghost use Rattle.nc_diagram.specs.Diagrams.{Diagrams};
ghost use Rattle.nc_formula.specs.Parts.{carrying_each, IsBaseOfTest, IsBaseOfBoth, Gains, IsCrowdedBy};
ghost use Rattle.nc_formula.specs.Formulas.{AreFormulas};
ghost use Rattle.nc_formula.specs.Session.{Asked, with_test, with_question, AreDrawn, HasMoreParts};

/// What carries nodes carries their facts, so that a comparison of tests by their nodes is one by
/// their facts.
pub fn comparisons_are_of_facts<F>()
    ensures carrying { (g : Flow F) → IsFlow g → (n : Nodes F) → IsGraph n → Mirrors g n
        → (ids : List NodeId) (facts : List F) → AreNodesOf n ids facts
        → Same (carrying_each (node_flow n) (map (λ p. p.0) ids)) (carrying_each g facts) }
    ensures implies { (g : Flow F) → IsFlow g → (n : Nodes F) → IsGraph n → Mirrors g n
        → (first second : List NodeId) (left right : List F)
        → AreNodesOf n first left → AreNodesOf n second right
        → Implies (carrying_each (node_flow n) (map (λ p. p.0) first))
        (carrying_each (node_flow n) (map (λ p. p.0) second))
        → Implies (carrying_each g left) (carrying_each g right) }
    ensures greatest { (g : Flow F) → IsFlow g → (n : Nodes F) → IsGraph n → Mirrors g n
        → (first second : List NodeId) (left right : List F)
        → AreNodesOf n first left → AreNodesOf n second right → (s : Members)
        → IsGreatest (carrying_each (node_flow n) (map (λ p. p.0) first))
        (carrying_each (node_flow n) (map (λ p. p.0) second)) s
        → IsGreatest (carrying_each g left) (carrying_each g right) s }
{}

/// An empty store and no references are drawn for every session.
pub fn nothing_is_drawn<F>()
    ensures { (g : Flow F) (asked : Asked F) (n : Nodes F) (d : Diagrams)
        → d.nodes ≡ [] → AreDrawn g asked n d [] }
{}

/// What is drawn for a graph is drawn for one that extends it.
pub fn drawn_for_a_longer_graph<F>()
    ensures { (g : Flow F) (asked : Asked F) (old new : Nodes F)
        → IsGraph old → IsGraph new → Extends old new → (d : Diagrams) (table : List (Option ℕ))
        → AreDrawn g asked old d table → AreDrawn g asked new d table }
{}

/// What is drawn for a session is drawn for it with one more test.
pub fn drawn_with_a_test<F>()
    ensures { (g : Flow F) (asked : Asked F) (facts : List F) (n : Nodes F) (d : Diagrams)
        → (table : List (Option ℕ)) → AreDrawn g asked n d table
        → AreDrawn g (with_test asked facts) n d table }
{}

/// What is drawn for a session is drawn for it with one more question.
pub fn drawn_with_a_question<F>()
    ensures { (g : Flow F) (asked : Asked F) (i j : ℕ) (n : Nodes F) (d : Diagrams)
        → (table : List (Option ℕ)) → AreDrawn g asked n d table
        → AreDrawn g (with_question asked i j) n d table }
{}

/// The diagram of a test of the session, once it is asked for, leaves what is drawn for the session, at every answer.
pub fn drawn_by_a_test<F>()
    ensures { (g : Flow F) → IsFlow g → (n : Nodes F) → IsGraph n → Mirrors g n
        → (asked : Asked F) (i : ℕ) (facts : List F) → slice_get asked.tests i ≡ Some facts
        → (ids : List NodeId) → AreNodesOf n ids facts
        → (old new : Diagrams) (table more : List (Option ℕ)) → AreDrawn g asked n old table
        → Gains (IsBaseOfTest (node_flow n) (map (λ p. p.0) ids)) old new
        → AreFormulas (node_flow n) new.nodes more → AreDrawn g asked n new more }
{}

/// A comparison of two tests of the session leaves what is drawn for it, at every answer.
pub fn drawn_by_a_comparison<F>()
    ensures { (g : Flow F) → IsFlow g → (n : Nodes F) → IsGraph n → Mirrors g n
        → (asked : Asked F) (i j : ℕ) (left right : List F)
        → slice_get asked.tests i ≡ Some left → slice_get asked.tests j ≡ Some right
        → (first second : List NodeId) → AreNodesOf n first left → AreNodesOf n second right
        → (old new : Diagrams) (table more : List (Option ℕ)) → AreDrawn g asked n old table
        → Gains (IsBaseOfBoth (node_flow n) (map (λ p. p.0) first) (map (λ p. p.0) second)) old new
        → AreFormulas (node_flow n) new.nodes more → AreDrawn g asked n new more }
{}

/// Where a store is full at a comparison of two tests of the session, the session with this question
/// has more parts than the store's limit.
pub fn refused_for_its_parts<F>()
    ensures { (g : Flow F) → IsFlow g → (n : Nodes F) → IsGraph n → Mirrors g n
        → (asked : Asked F) (i j : ℕ) (left right : List F)
        → slice_get asked.tests i ≡ Some left → slice_get asked.tests j ≡ Some right
        → (first second : List NodeId) → AreNodesOf n first left → AreNodesOf n second right
        → (old : Diagrams) (table : List (Option ℕ)) → AreDrawn g asked n old table
        → IsCrowdedBy (IsBaseOfBoth (node_flow n) (map (λ p. p.0) first) (map (λ p. p.0) second)) old
        → HasMoreParts g (with_question asked i j) old.limit }
{}

/// Where a store is full at the diagram of a test of the session, the session has more parts than the
/// store's limit.
pub fn refused_for_the_parts_of_a_test<F>()
    ensures { (g : Flow F) → IsFlow g → (n : Nodes F) → IsGraph n → Mirrors g n
        → (asked : Asked F) (i : ℕ) (facts : List F) → slice_get asked.tests i ≡ Some facts
        → (ids : List NodeId) → AreNodesOf n ids facts
        → (old : Diagrams) (table : List (Option ℕ)) → AreDrawn g asked n old table
        → IsCrowdedBy (IsBaseOfTest (node_flow n) (map (λ p. p.0) ids)) old
        → HasMoreParts g asked old.limit }
{}
