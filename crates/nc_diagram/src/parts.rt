// The parts of a function by the lowest variable on which it depends, and its place in the store.

ghost use Rattle.std.specs.Prelude.{◌≡◌, ◌<◌, ◌+◌, ◌↔◌, length, true, false, IsNone, IfSome};
ghost use Rattle.nc_diagram.specs.Sets.{Same};
ghost use Rattle.nc_diagram.specs.Diagrams.{Belongs, meaning};
ghost use Rattle.nc_diagram.specs.Splits.{IsConstant, Splits};

use crate::node::Ref;
use crate::store::Store;

/// The parts of a function that is not constant: the lowest variable on which it depends, and its
/// Shannon expansion by it, the function without the variable and the one with it.
#[derive(Clone, Copy)]
pub struct Split {
    /// The lowest variable on which the function depends.
    pub variable: u32,
    /// The function where the variable is not a member.
    pub low: Ref,
    /// The function where the variable is a member.
    pub high: Ref,
}

impl Store {
    /// The parts of a function by the lowest variable on which it depends; None just where it is
    /// constant. It takes no memory.
    pub fn split(&self, r: Ref) -> Option<Split>
        requires { Belongs self.now.nodes r }
        ensures place { IsNone result ↔ (r < 2) }
        ensures constant { IsNone result ↔ IsConstant (meaning self.now.nodes r) }
        ensures splits { IfSome result (Splits self.now.nodes r) }
    {
        self.checked();
        if r.0 < 2 {
            return None;
        }
        let node = self.node(r.0);
        Some(Split {
            variable: node.variable,
            low: Ref(node.low),
            high: Ref(node.high),
        })
    }

    /// The number of a function in the store: 0 for false, 1 for true, and lower for the parts of a
    /// function than for the function. Two references have one place just where they are equal. It
    /// takes no memory.
    pub fn place(&self, r: Ref) -> u32
        requires { Belongs self.now.nodes r }
        ensures place { result ≡ r }
        ensures within { result < length self.now.nodes + 2 }
        ensures never { (result ≡ 0) ↔ Same (meaning self.now.nodes r) (λ _. false) }
        ensures always { (result ≡ 1) ↔ Same (meaning self.now.nodes r) (λ _. true) }
    {
        self.checked();
        r.0
    }
}
