//! The laws of suites and of dead elements. Each is the contract of a function that does nothing: a
//! caller that needs a law calls the function at its type of facts.
ghost use Rattle.std.specs.Prelude.{◌≡◌, ◌<◌, ℕ, All, Contains, List, length, map, Some, slice_get};
ghost use Rattle.std.specs.List.Sorted.{IsStrictlyIncreasing};
ghost use Rattle.nc_graph.specs.Closure.{IsClosure};
ghost use Rattle.nc_graph.specs.Flow.{Flow, IsFlow};
ghost use Rattle.nc_graph.specs.Nodes.{Nodes, node_flow, IsGraph, Mirrors};
ghost use Rattle.nc_graph.specs.declared.node.NodeId.{NodeId};
ghost use Rattle.nc_suite.specs.Dead.{HaveNoNode, AreDead};
ghost use Rattle.nc_suite.specs.Suite.{IsSuite, HasSameMarks, facts_of, tests_at, without};

/// A suite has places of tests, ascending.
pub fn suite_is_of_tests<F>()
    ensures ascends { (g : Flow F) (elements : ℕ) (tests : List (List F)) (suite : List ℕ)
        → IsSuite g elements tests suite → IsStrictlyIncreasing suite }
    ensures within { (g : Flow F) (elements : ℕ) (tests : List (List F)) (suite : List ℕ)
        → IsSuite g elements tests suite → All (λ place. place < length tests) suite }
{}

/// The marks by the tests of a suite are those by all tests.
pub fn suite_has_all_marks<F>()
    ensures { (g : Flow F) (elements : ℕ) (tests : List (List F)) (suite : List ℕ)
        → IsSuite g elements tests suite
        → HasSameMarks g elements (facts_of (tests_at tests suite)) (facts_of tests) }
{}

/// Without any one of its tests, a suite has not all marks of the tests.
pub fn suite_is_irreducible<F>()
    ensures { (g : Flow F) (elements : ℕ) (tests : List (List F)) (suite : List ℕ)
        → IsSuite g elements tests suite → (place : ℕ) → Contains suite place
        → HasSameMarks g elements (facts_of (tests_at tests (without place suite)))
        (facts_of tests) → ⊥ }
{}

/// A graph whose nodes are as a flow graph has their facts: a suite of tests by their nodes is the
/// suite of the tests by their facts.
pub fn suite_of_nodes_is_of_facts<F>()
    ensures { (g : Flow F) → IsFlow g → (n : Nodes F) → IsGraph n → Mirrors g n
        → (ids : List (List NodeId)) (tests : List (List F))
        → map (map (λ p. slice_get n.facts p.0)) ids ≡ map (map Some) tests
        → (elements : ℕ) (suite : List ℕ)
        → IsSuite (node_flow n) elements (map (map (λ p. p.0)) ids) suite
        → IsSuite g elements tests suite }
{}

/// A graph that is the closure of roots, whose nodes are as a flow graph has their facts: the elements
/// that no node is are those that stand in no derivation of a root.
pub fn no_node_is_dead<F>()
    ensures { (g : Flow F) → IsFlow g → (n : Nodes F) → IsGraph n → Mirrors g n
        → (roots : List F) → IsClosure g roots n.facts
        → (elements : ℕ) (listed : List ℕ)
        → HaveNoNode n elements listed → AreDead g roots elements listed }
{}
