// Conjunction and disjunction: one loop with an explicit stack serves both.

ghost use Rattle.std.specs.Prelude.{◌≡◌, ◌≤◌, ◌==◌, if◌then◌else◌, IfOk, OnOk, OnErr, IsErrOf, MatchOption};
ghost use Rattle.nc_diagram.specs.Sets.{both, either};
ghost use Rattle.nc_diagram.specs.Diagrams.{Belongs, Means, Adds, IsCrowded, IsReduced, meaning};
ghost use Rattle.nc_diagram.specs.Operations.{joint, BothBelong, BothNodes, ordered, IsDecided, AreCofactors, Begins, Opens, absorbing};
ghost use Rattle.nc_diagram.specs.Table.{AreRight};

use crate::fault::StoreFault;
use crate::node::{Node, Ref};
use crate::store::Store;
use crate::table::{Table, home};
use std::alloc::{AllocError, Global};

/// What is made of two functions.
#[derive(Clone, Copy, PartialEq, Eq, Hash)]
pub(crate) enum Operator {
    And,
    Or,
}

/// Two references that an operator combines.
#[derive(Clone, Copy, PartialEq, Eq, Hash)]
pub(crate) struct Pair {
    pub left: u32,
    pub right: u32,
}

/// The cofactors of a pair: its lowest variable, and the pair without it and with it.
#[derive(Clone, Copy)]
pub(crate) struct Cofactors {
    pub variable: u32,
    pub low: Pair,
    pub high: Pair,
}

/// What waits for a result: a pair whose low side is worked on, or one whose high side is. Each knows
/// how many pairs done were loose when it was begun.
#[derive(Clone, Copy)]
pub(crate) enum Frame {
    Low {
        pair: Pair,
        variable: u32,
        high: Pair,
        begun: u32,
    },
    High {
        pair: Pair,
        variable: u32,
        low: u32,
        begun: u32,
    },
}

/// What the loop is at: a pair to work out, or a result to hand on.
#[derive(Clone, Copy)]
pub(crate) enum Focus {
    Work(Pair),
    Done(u32),
}

impl Pair {
    // The pair with the older reference first. Both operators have the same function for both.
    fn ordered(self) -> Pair
        ensures pair { result ≡ ordered self }
        ensures order { result.left ≤ result.right }
    {
        Pair {
            left: self.left.min(self.right),
            right: self.left.max(self.right),
        }
    }
}

impl Operator {
    // The constant that decides the result alone.
    fn absorbing(self) -> u32
        ensures { result ≡ absorbing self }
    {
        match self {
            Operator::And => 0,
            Operator::Or => 1,
        }
    }

    // The result, where one of the two references decides it. The older one is on the left.
    fn decided(self, pair: Pair) -> Option<u32>
        requires { pair.left ≤ pair.right }
        ensures { MatchOption result (BothNodes pair) (IsDecided self pair) }
    {
        if pair.left == pair.right {
            return Some(pair.left);
        }
        if pair.left >= 2 {
            return None;
        }
        if pair.left == self.absorbing() {
            return Some(pair.left);
        }
        Some(pair.right)
    }
}

// The ends of a node, or its own place twice where it asks for a later variable.
fn ends(node: Node, place: u32, variable: u32) -> (u32, u32)
    ensures low { result.0 ≡ (if node.variable == variable then node.low else place) }
    ensures high { result.1 ≡ (if node.variable == variable then node.high else place) }
{
    if node.variable == variable {
        (node.low, node.high)
    } else {
        (place, place)
    }
}

impl Store {
    // A pair's lowest variable, and the pair's cofactors by it.
    fn cofactors(&self, pair: Pair) -> Cofactors
        requires nodes { BothNodes pair }
        requires belong { BothBelong self.now.nodes pair }
        ensures { AreCofactors self.now.nodes pair result }
    {
        self.checked();
        let left = self.node(pair.left);
        let right = self.node(pair.right);
        let variable = left.variable.min(right.variable);
        let (low_left, high_left) = ends(left, pair.left, variable);
        let (low_right, high_right) = ends(right, pair.right, variable);
        Cofactors {
            variable,
            low: Pair {
                left: low_left,
                right: low_right,
            },
            high: Pair {
                left: high_left,
                right: high_right,
            },
        }
    }

    // Begins a pair of nodes, with a frame that waits for one of its sides: for the high one where a
    // constant decides the low one, or its two references are equal, else for the low one.
    fn descend(
        &self,
        operator: Operator,
        pair: Pair,
        frames: &mut Vec<Frame>,
    ) -> Result<Pair, AllocError>
        requires nodes { BothNodes pair }
        requires belong { BothBelong self.now.nodes pair }
        ensures { IfOk result (Begins operator self.now.nodes pair
            frames.old.items frames.new.items) }
    {
        let sides = self.cofactors(pair);
        let variable = sides.variable;
        let begun = self.loose;
        if let Some(decided) = operator.decided(sides.low.ordered()) {
            frames.push(Frame::High {
                pair,
                variable,
                low: decided,
                begun,
            })?;
            return Ok(sides.high);
        }
        frames.push(Frame::Low {
            pair,
            variable,
            high: sides.high,
            begun,
        })?;
        Ok(sides.low)
    }

    // Begins a pair: its reference where it is known, from this operation or an earlier one, else one
    // of its sides, with a frame that waits for it.
    fn open(
        &mut self,
        operator: Operator,
        pair: Pair,
        frames: &mut Vec<Frame>,
        known: &Table,
    ) -> Result<Focus, AllocError>
        requires belong { BothBelong self.old.nodes pair }
        requires right { AreRight self.old.nodes operator known.now.slots.items }
        ensures opens { IfOk result (Opens operator self.old.nodes (ordered pair)
            frames.old.items frames.new.items) }
        ensures unchanged { self.new ≡ self.old }
    {
        let pair = pair.ordered();
        if let Some(place) = operator.decided(pair) {
            return Ok(Focus::Done(place));
        }
        let home = home(pair);
        if let Some(place) = known.find(pair, home) {
            return Ok(Focus::Done(place));
        }
        if let Some(place) = self.recall(operator, pair, home) {
            return Ok(Focus::Done(place));
        }
        let next = self.descend(operator, pair, frames)?;
        Ok(Focus::Work(next))
    }
}

impl Store {
    /// The conjunction: the sets with both functions true. No pair of references is worked out twice,
    /// and references handed out before keep their functions. `Full` comes only where the functions of
    /// the nodes held and of the result with its lowest variables fixed, constants left out, are more
    /// than the limit, and `Memory` where none is found; the store is then as before.
    pub fn and(&mut self, a: Ref, b: Ref) -> Result<Ref, StoreFault>
        requires left { Belongs self.old.nodes a }
        requires right { Belongs self.old.nodes b }
        ensures means { IfOk result (λ r. Means self.new r
            (both (meaning self.old.nodes a) (meaning self.old.nodes b))) }
        ensures adds { OnOk result (Adds
            (both (meaning self.old.nodes a) (meaning self.old.nodes b)) self.old self.new) }
        ensures full { IsErrOf result StoreFault.Full
            → IsCrowded (both (meaning self.old.nodes a) (meaning self.old.nodes b)) self.old }
        ensures err { OnErr result (self.new ≡ self.old) }
    {
        match self.operate(
            Operator::And,
            Pair {
                left: a.0,
                right: b.0,
            },
        ) {
            Ok(place) => Ok(Ref(place)),
            Err(fault) => Err(fault),
        }
    }

    /// The disjunction: the sets with one of both functions true. All else is as for `and`.
    pub fn or(&mut self, a: Ref, b: Ref) -> Result<Ref, StoreFault>
        requires left { Belongs self.old.nodes a }
        requires right { Belongs self.old.nodes b }
        ensures means { IfOk result (λ r. Means self.new r
            (either (meaning self.old.nodes a) (meaning self.old.nodes b))) }
        ensures adds { OnOk result (Adds
            (either (meaning self.old.nodes a) (meaning self.old.nodes b)) self.old self.new) }
        ensures full { IsErrOf result StoreFault.Full
            → IsCrowded (either (meaning self.old.nodes a) (meaning self.old.nodes b)) self.old }
        ensures err { OnErr result (self.new ≡ self.old) }
    {
        match self.operate(
            Operator::Or,
            Pair {
                left: a.0,
                right: b.0,
            },
        ) {
            Ok(place) => Ok(Ref(place)),
            Err(fault) => Err(fault),
        }
    }

    // Combines a pair, and takes the nodes made back at a refusal.
    pub(crate) fn operate(&mut self, operator: Operator, pair: Pair) -> Result<u32, StoreFault>
        requires { BothBelong self.old.nodes pair }
        ensures means { IfOk result (λ r. Means self.new r
            (joint operator self.old.nodes pair)) }
        ensures adds { OnOk result (Adds (joint operator self.old.nodes pair) self.old self.new) }
        ensures full { IsErrOf result StoreFault.Full
            → IsCrowded (joint operator self.old.nodes pair) self.old }
        ensures err { OnErr result (self.new ≡ self.old) }
    {
        let alloc = self.alloc;
        let mark = self.len();
        let mut known = self.lend(operator);
        match self.apply(alloc, operator, pair, &mut known) {
            Ok(place) => {
                known.end(alloc);
                self.take_back(operator, known);
                Ok(place)
            }
            Err(fault) => {
                self.roll_back(mark);
                Err(fault)
            }
        }
    }

    // Combines a pair, node by node, and notes the answers. At a refusal the nodes made so far stay.
    fn apply(
        &mut self,
        alloc: Global,
        operator: Operator,
        pair: Pair,
        known: &mut Table,
    ) -> Result<u32, StoreFault>
        requires reduced { IsReduced self.old.nodes }
        requires belong { BothBelong self.old.nodes pair }
        requires right { AreRight self.old.nodes operator known.old.slots.items }
        ensures means { IfOk result (λ r. Means self.new r
            (joint operator self.old.nodes pair)) }
        ensures adds { Adds (joint operator self.old.nodes pair) self.old self.new }
        ensures full { IsErrOf result StoreFault.Full
            → IsCrowded (joint operator self.old.nodes pair) self.old }
        ensures right { OnOk result (AreRight self.new.nodes operator known.new.slots.items) }
    {
        let mut frames: Vec<Frame> = Vec::new(alloc);
        let mut focus = Focus::Work(pair);
        'combine: loop {
            focus = match focus {
                Focus::Work(pair) => self.open(operator, pair, &mut frames, known)?,
                Focus::Done(place) => match frames.pop() {
                    None => return Ok(place),
                    Some(
                        Frame::Low {
                            pair,
                            variable,
                            high,
                            begun,
                        },
                    ) => {
                        frames.push(Frame::High {
                            pair,
                            variable,
                            low: place,
                            begun,
                        })?;
                        Focus::Work(high)
                    }
                    Some(
                        Frame::High {
                            pair,
                            variable,
                            low,
                            begun,
                        },
                    ) => {
                        let made = match self.make(variable, low, place) {
                            Ok(made) => made,
                            Err(fault) => return Err(fault),
                        };
                        known.note(pair, made)?;
                        self.remember(operator, pair, made, begun);
                        Focus::Done(made)
                    }
                },
            };
        }
    }
}
