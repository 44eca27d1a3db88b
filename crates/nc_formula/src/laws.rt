//! The laws of formulas. Each is the contract of a function that does nothing: a caller that needs a
//! law calls the function at its type of facts.
ghost use Rattle.std.specs.Prelude.{◌≡◌, ◌↔◌, ℕ, [], ◌∷◌, List, Option, Some, true, false, slice_get};
ghost use Rattle.nc_graph.specs.Flow.{Flow, IsFlow};
ghost use Rattle.nc_graph.specs.Derivation.{Carries, IsStrong};
ghost use Rattle.nc_graph.specs.Nodes.{Nodes, node_flow, IsGraph, Mirrors, Extends};
ghost use Rattle.nc_diagram.specs.declared.node.Node.{Node};
ghost use Rattle.nc_diagram.specs.Sets.{Members, Same, has, all_but};
ghost use Rattle.nc_diagram.specs.Diagrams.{Diagrams, Belongs, meaning};
ghost use Rattle.nc_formula.specs.Formulas.{known, AreFormulas};

/// Formulas of a graph are formulas of one that extends it.
pub fn formulas_of_an_extended_graph<F>()
    ensures { (old new : Nodes F) → IsGraph old → IsGraph new → Extends old new
        → (nodes : List Node) (table : List (Option ℕ))
        → AreFormulas (node_flow old) nodes table → AreFormulas (node_flow new) nodes table }
{}

/// Formulas in a store are formulas in one whose references kept their functions, as they do by
/// each operation of a store.
pub fn formulas_of_a_grown_store()
    ensures { (g : Flow ℕ) (old new : Diagrams)
        → ((r : ℕ) → Belongs old.nodes r
        → Belongs new.nodes r × Same (meaning new.nodes r) (meaning old.nodes r))
        → (table : List (Option ℕ)) → AreFormulas g old.nodes table → AreFormulas g new.nodes table }
{}

/// Where a graph's nodes are as a flow graph has their facts, the diagram of a node is true at just
/// the sets that carry its fact, and needs just the elements that are strong for it: those without
/// which, all others being there, it is false.
pub fn diagrams_are_of_facts<F>()
    ensures carries { (g : Flow F) → IsFlow g → (n : Nodes F) → IsGraph n → Mirrors g n
        → (nodes : List Node) (table : List (Option ℕ)) → AreFormulas (node_flow n) nodes table
        → (i r : ℕ) → known table i ≡ Some r → (f : F) → slice_get n.facts i ≡ Some f
        → (s : Members) → (meaning nodes r s ≡ true) ↔ Carries g (has s) f }
    ensures strong { (g : Flow F) → IsFlow g → (n : Nodes F) → IsGraph n → Mirrors g n
        → (nodes : List Node) (table : List (Option ℕ)) → AreFormulas (node_flow n) nodes table
        → (i r : ℕ) → known table i ≡ Some r → (f : F) → slice_get n.facts i ≡ Some f
        → (e : ℕ) → (meaning nodes r (all_but (e ∷ [])) ≡ false) ↔ IsStrong g e f }
{}
