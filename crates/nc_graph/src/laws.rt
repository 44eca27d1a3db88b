//! The laws of derivations, over every flow graph. Each is the contract of a function that does
//! nothing: a caller that needs a law calls the function at its type of facts.
ghost use Rattle.std.specs.Prelude.{◌≡◌, ◌↔◌, ℕ, ◌<◌, Bool, true, false, nat_eq, List, length, All, slice_get};
ghost use Rattle.std.specs.List.{list_any, list_all};
ghost use Rattle.nc_graph.specs.Closure.{IsClosure, ReachesMoreThan};
ghost use Rattle.nc_graph.specs.Flow.{Flow, IsFlow, by_kind};
ghost use Rattle.nc_graph.specs.Derivation.{Carries, carried, IsStrong, strong, IsInSome, occurs, all_but};
ghost use Rattle.nc_graph.specs.Nodes.{Nodes, node_flow, IsGraph, Mirrors};

/// Carrying is plain evaluation: the elements of `x` have a whole derivation of a fact among them
/// exactly where the fact comes out true when just the elements of `x` are.
pub fn carrying_is_evaluation<F>()
    ensures is { (g : Flow F) → IsFlow g → (x : ℕ → Bool) (f : F) → g.holds f ≡ true
        → Carries g x f ↔ (carried g x f ≡ true) }

    // Of a conjunctive fact all parents are carried, of a disjunctive one some parent.
    ensures through { (g : Flow F) → IsFlow g → (x : ℕ → Bool) (f : F) → g.holds f ≡ true
        → carried g x f ≡ by_kind (g.kind f) x
        (list_all (carried g x) (g.parents f)) (list_any (carried g x) (g.parents f)) }
{}

/// An element stands in every derivation of a fact exactly where the fact comes out false when all
/// elements but this one are true.
pub fn strong_is_evaluation<F>()
    ensures without { (g : Flow F) → IsFlow g → (e : ℕ) (f : F) → g.holds f ≡ true
        → IsStrong g e f ↔ (carried g (all_but e) f ≡ false) }
    ensures is { (g : Flow F) → IsFlow g → (e : ℕ) (f : F) → g.holds f ≡ true
        → IsStrong g e f ↔ (strong g e f ≡ true) }

    // It is strong for a conjunctive fact by some parent, for a disjunctive one by all parents.
    ensures through { (g : Flow F) → IsFlow g → (e : ℕ) (f : F) → g.holds f ≡ true
        → strong g e f ≡ by_kind (g.kind f) (nat_eq e)
        (list_any (strong g e) (g.parents f)) (list_all (strong g e) (g.parents f)) }
{}

/// An element stands in some derivation of a fact exactly where it is the element of a leaf from
/// which the fact is derived.
pub fn some_is_evaluation<F>()
    ensures is { (g : Flow F) → IsFlow g → (e : ℕ) (f : F) → g.holds f ≡ true
        → IsInSome g e f ↔ (occurs g e f ≡ true) }

    // Through a fact of either kind it is by some parent.
    ensures through { (g : Flow F) → IsFlow g → (e : ℕ) (f : F) → g.holds f ≡ true
        → occurs g e f ≡ by_kind (g.kind f) (nat_eq e)
        (list_any (occurs g e) (g.parents f)) (list_any (occurs g e) (g.parents f)) }
{}

/// A list of facts has a closure, and all its closures are as long: only so many facts are reached.
pub fn closures_have_one_length<F>()
    ensures exists { (g : Flow F) → IsFlow g → (fs : List F) → All (λ f. g.holds f ≡ true) fs
        → (xs : List F) × IsClosure g fs xs }
    ensures length { (g : Flow F) → IsFlow g → (fs xs ys : List F)
        → IsClosure g fs xs → IsClosure g fs ys → length xs ≡ length ys }
    ensures more { (g : Flow F) → IsFlow g → (n : ℕ) (fs xs : List F)
        → IsClosure g fs xs → ReachesMoreThan g n fs ↔ (n < length xs) }
{}

/// A graph whose nodes are as a flow graph has their facts is that flow graph: what is carried by,
/// strong for or in some derivation of a node is so of the node's fact.
pub fn nodes_are_facts<F>()
    ensures carries { (g : Flow F) → IsFlow g → (n : Nodes F) → IsGraph n → Mirrors g n
        → (x : ℕ → Bool) (i : ℕ) (f : F) → slice_get n.facts i ≡ Some f
        → Carries (node_flow n) x i ↔ Carries g x f }
    ensures strong { (g : Flow F) → IsFlow g → (n : Nodes F) → IsGraph n → Mirrors g n
        → (e i : ℕ) (f : F) → slice_get n.facts i ≡ Some f
        → IsStrong (node_flow n) e i ↔ IsStrong g e f }
    ensures some { (g : Flow F) → IsFlow g → (n : Nodes F) → IsGraph n → Mirrors g n
        → (e i : ℕ) (f : F) → slice_get n.facts i ≡ Some f
        → IsInSome (node_flow n) e i ↔ IsInSome g e f }
{}
