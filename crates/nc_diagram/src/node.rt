// Nodes and references.

use std::marker::Model;

/// A node: the variable that it asks for, and its ends, as places of references.
#[derive(Clone, Copy, PartialEq, Eq, Hash)]
pub(crate) struct Node {
    pub variable: u32,
    pub low: u32,
    pub high: u32,
}

/// A function, as a reference into the store that made it. A contract sees its place: 0 for false,
/// 1 for true, and k + 2 for the k-th node made.
#[derive(Clone, Copy)]
pub struct Ref(pub(crate) u32);

impl Model for Ref {
    ghost use Rattle.std.specs.Prelude.{ℕ};

    ghost Value = { ℕ };

    ghost view = { λ r. r.0 };

    ghost inverse = { λ n. record { 0 = n } };
}
