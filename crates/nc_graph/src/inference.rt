//! How the facts of a flow graph are inferred, one at a time and backward.
ghost use Rattle.std.specs.Prelude.{◌≡◌, ◌↔◌, ◌<◌, ◌^◌, ◌++◌, ℕ, true, is_ok, if◌then◌else◌, IfOk, IsTrue};
ghost use Rattle.nc_graph.specs.Flow.{Flow, IsFlow, raised};

use crate::node::NodeKind;
use std::alloc::AllocError;
use std::hash::Hash;

/// Rules that tell of a fact its kind and its parents.
pub trait Inference {
    /// A fact. Two facts that `==` calls equal are one value.
    type Fact: Copy + Eq + Hash;

    /// The flow graph that these rules give.
    ghost flow: { Self → Flow Self.Fact };

    /// What the rules are made of, as the state of a network. It stays as it is, whatever is
    /// inferred: rules of equal flow graphs may be made of different things.
    ghost Basis: { Type 0 };

    /// What these rules are made of.
    ghost basis: { Self → Self.Basis };

    /// How many facts were inferred so far, up to the largest `u64`, at which the count stays.
    ghost asked: { Self → ℕ };

    /// Appends the parents of a fact that holds, in their order, and answers its kind. The count of
    /// facts inferred is raised by one, also where memory is refused; `into` is then as before.
    fn infer(
        &mut self,
        fact: &Self::Fact,
        into: &mut Vec<Self::Fact>,
    ) -> Result<NodeKind, AllocError>
        requires { (flow self.old).holds fact.now ≡ true }
        ensures kind { IfOk result (λ kind. kind ≡ (flow self.old).kind fact.now) }
        ensures parents { into.new.items ≡ (if is_ok result
            then into.old.items ++ (flow self.old).parents fact.now else into.old.items) }
        ensures flow { flow self.new ≡ flow self.old }
        ensures basis { basis self.new ≡ basis self.old }
        ensures asked { asked self.new ≡ raised (asked self.old) 1 };

    /// The laws of a flow graph hold.
    ghost lawful: { (rules : Self) → IsFlow (flow rules) };

    /// The count is kept as a `u64`.
    ghost counted: { (rules : Self) → asked rules < 2 ^ 64 };

    /// Facts that `==` calls equal are the same value.
    ghost exact: { (x y : Self.Fact) → Self.Fact.eq x y ≡ true → x ≡ y };
}
