// The store of shared nodes, and the calls that add none.

ghost use Rattle.std.specs.Prelude.{◌≡◌, ◌≤◌, ◌<◌, ◌↔◌, [], ◌∷◌, length, false, IsTrue, IfOk, IfSome, OnOk, OnErr, IsErrOf, ◌≢◌, drop, ◌-◌};
ghost use Rattle.nc_diagram.specs.Sets.{among, all_but, has, Same};
ghost use Rattle.nc_diagram.specs.Diagrams.{IsReduced, IsNode, Belongs, Means, Adds, IsCrowded, meaning, level};
ghost use Rattle.nc_diagram.specs.Places.{IsNodeAt, Makes};
ghost use Rattle.nc_diagram.specs.Operations.{IsAnswer};
ghost use Rattle.nc_diagram.specs.Table.{AreRight};

use crate::apply::{Operator, Pair};
use crate::fault::StoreFault;
use crate::node::{Node, Ref};
use crate::nodes::Nodes;
use crate::recent::{LEAST, Marks, Question, Recent};
use crate::table::Table;
use std::alloc::Global;
use std::marker::Model;
use std::mem;

/// Shared decision diagrams with two constants and at most `limit` nodes.
#[derive(Drop)]
pub struct Store {
    pub(crate) alloc: Global,
    pub(crate) nodes: Nodes,
    pub(crate) limit: u32,
    // How many pairs of the call under way are done that are below no answer that is kept.
    pub(crate) loose: u32,
    recent: Recent,
    marks: Marks,
    conjunctions: Table,
    disjunctions: Table,
}

impl Model for Store {
    ghost use Rattle.std.specs.Prelude.{reverse};
    ghost use Rattle.nc_diagram.specs.Diagrams.{Diagrams, IsStore};
    ghost use Rattle.nc_diagram.specs.Recent.{AreKept};

    ghost Value = { Diagrams };

    ghost view = { λ s. record { nodes = reverse s.nodes; limit = s.limit } };

    ghost invariant = { λ s. IsStore (record { nodes = reverse s.nodes; limit = s.limit })
        × AreKept (reverse s.nodes) s.recent s.conjunctions.slots.items s.disjunctions.slots.items };
}

impl Store {
    /// A store with the constants alone, for at most `limit` nodes. It takes no memory. The limit leaves
    /// room for the two constants among references of 32 bits.
    pub fn new(alloc: Global, limit: u32) -> Store
        requires { limit ≤ 4294967293 }
        ensures constants_alone { result.nodes ≡ [] }
        ensures limit { result.limit ≡ limit }
    {
        let nodes = Nodes::new(alloc);
        let recent = Recent::new(alloc);
        let conjunctions = Table::new(alloc);
        let disjunctions = Table::new(alloc);
        Store {
            alloc,
            nodes,
            limit,
            loose: 0,
            recent,
            marks: Marks::new(alloc),
            conjunctions,
            disjunctions,
        }
    }

    /// The number of nodes apart from the constants. The nodes are ordered and reduced.
    pub fn len(&self) -> u32
        ensures nodes { result ≡ length self.now.nodes }
        ensures within { length self.now.nodes ≤ self.now.limit }
        ensures reduced { IsReduced self.now.nodes }
    {
        self.nodes.len() as u32
    }

    /// The constant function.
    pub fn constant(&self, value: bool) -> Ref
        ensures constant { Means self.now result (λ _. value) }
    {
        if value { Ref(1) } else { Ref(0) }
    }

    /// Whether two references mean one function.
    pub fn equal(&self, a: Ref, b: Ref) -> bool
        requires left { Belongs self.now.nodes a }
        requires right { Belongs self.now.nodes b }
        ensures { IsTrue result ↔ Same (meaning self.now.nodes a) (meaning self.now.nodes b) }
    {
        self.checked();
        a.0 == b.0
    }

    /// The value at the set of the places that are true; a variable past the slice is not a member.
    pub fn eval(&self, r: Ref, members: &[bool]) -> bool
        requires { Belongs self.now.nodes r }
        ensures { result ≡ meaning self.now.nodes r (among members.now) }
    {
        let mut place = r.0;
        'walk: while place >= 2 {
            let node = self.node(place);
            let index = node.variable as usize;
            place = if index < members.len() && members[index] {
                node.high
            } else {
                node.low
            };
        }
        place == 1
    }

    /// Whether the function needs the variable: its value is false at the set of all variables but this one.
    pub fn needs(&self, r: Ref, v: u32) -> bool
        requires { Belongs self.now.nodes r }
        ensures { IsTrue result ↔ (meaning self.now.nodes r (all_but (v ∷ [])) ≡ false) }
    {
        let mut place = r.0;
        'walk: while place >= 2 {
            let node = self.node(place);
            place = if node.variable == v {
                node.low
            } else {
                node.high
            };
        }
        place == 0
    }

    /// The function of one variable: the sets that it is a member of. Refusals are as for `and`.
    pub fn variable(&mut self, v: u32) -> Result<Ref, StoreFault>
        ensures means { IfOk result (λ r. Means self.new r (λ s. has s v)) }
        ensures adds { OnOk result (Adds (λ s. has s v) self.old self.new) }
        ensures full { IsErrOf result StoreFault.Full → IsCrowded (λ s. has s v) self.old }
        ensures err { OnErr result (self.new ≡ self.old) }
    {
        self.checked();
        match self.make(v, 0, 1) {
            Ok(place) => Ok(Ref(place)),
            Err(fault) => Err(fault),
        }
    }

    // Takes all nodes back but the first ones, as many as the mark. Answers of earlier operations may
    // refer to what goes, so none is kept.
    pub(crate) fn roll_back(&mut self, mark: u32)
        ensures nodes { self.new.nodes ≡ drop (length self.old.nodes - mark) self.old.nodes }
        ensures limit { self.new.limit ≡ self.old.limit }
    {
        self.recent.clear();
        self.conjunctions = Table::new(self.alloc);
        self.disjunctions = Table::new(self.alloc);
        self.marks = Marks::new(self.alloc);
        self.nodes.truncate(mark as usize);
    }

    // Takes the answers of an operator out, for a call of it. No pair is done yet.
    pub(crate) fn lend(&mut self, operator: Operator) -> Table
        ensures right { AreRight self.old.nodes operator result.slots.items }
        ensures unchanged { self.new ≡ self.old }
    {
        self.loose = 0;
        let none = Table::new(self.alloc);
        match operator {
            Operator::And => mem::replace(&mut self.conjunctions, none),
            Operator::Or => mem::replace(&mut self.disjunctions, none),
        }
    }

    // Keeps the answers of an operator for its next call.
    pub(crate) fn take_back(&mut self, operator: Operator, known: Table)
        requires { AreRight self.old.nodes operator known.slots.items }
        ensures { self.new ≡ self.old }
    {
        match operator {
            Operator::And => self.conjunctions = known,
            Operator::Or => self.disjunctions = known,
        }
    }

    // The result of an operation on a pair with this home, where it was kept not long ago.
    pub(crate) fn recall(&mut self, operator: Operator, pair: Pair, home: usize) -> Option<u32>
        ensures answer { IfSome result (IsAnswer self.old.nodes operator pair) }
        ensures unchanged { self.new ≡ self.old }
    {
        if !self.marks.has(home) {
            return None;
        }
        self.recent.find(Question { operator, pair })
    }

    // Takes note of a pair that is done, whose result is then kept where many pairs would be done for
    // it again. Those are the loose ones since it was begun: they aren't below a result that is kept.
    pub(crate) fn remember(&mut self, operator: Operator, pair: Pair, place: u32, begun: u32)
        requires { IsAnswer self.old.nodes operator pair place }
        ensures { self.new ≡ self.old }
    {
        self.loose = self.loose.saturating_add(1);
        if self.loose.saturating_sub(begun) >= LEAST {
            self.loose = begun;
            self.marks.mark(pair);
            self.recent.note(Question { operator, pair }, place);
        }
    }

    // Does nothing; a proof learns here that the nodes are ordered and reduced.
    pub(crate) fn checked(&self)
        ensures { IsReduced self.now.nodes }
    {
        let _ = &self.nodes;
    }

    // The node of a reference that is no constant.
    pub(crate) fn node(&self, place: u32) -> Node
        requires node { 2 ≤ place }
        requires belongs { Belongs self.now.nodes place }
        ensures { IsNodeAt self.now.nodes place result }
    {
        self.nodes.at((place - 2) as usize)
    }

    // The reference that chooses between two older ones by a variable above both.
    pub(crate) fn make(&mut self, variable: u32, low: u32, high: u32) -> Result<u32, StoreFault>
        requires low_older { Belongs self.old.nodes low }
        requires high_older { Belongs self.old.nodes high }
        requires low_later { variable < level self.old.nodes low }
        requires high_later { variable < level self.old.nodes high }
        ensures made { IfOk result (Makes variable low high self.old self.new) }
        ensures full { IsErrOf result StoreFault.Full → (self.old.limit ≤ length self.old.nodes)
            × IsNode self.old.nodes (record { variable = variable; low = low; high = high }) }
        ensures err { OnErr result (self.new ≡ self.old) }
    {
        if low == high {
            self.checked();
            return Ok(low);
        }
        self.share(Node {
            variable,
            low,
            high,
        })
    }

    // The place of a node, which is added where it isn't there yet.
    fn share(&mut self, node: Node) -> Result<u32, StoreFault>
        requires low_older { Belongs self.old.nodes node.low }
        requires high_older { Belongs self.old.nodes node.high }
        requires low_later { node.variable < level self.old.nodes node.low }
        requires high_later { node.variable < level self.old.nodes node.high }
        requires ends_differ { node.low ≢ node.high }
        ensures made { IfOk result (Makes node.variable node.low node.high self.old self.new) }
        ensures full { IsErrOf result StoreFault.Full → (self.old.limit ≤ length self.old.nodes)
            × IsNode self.old.nodes node }
        ensures err { OnErr result (self.new ≡ self.old) }
    {
        if let Some(index) = self.nodes.index_of(node) {
            return Ok(index as u32 + 2);
        }
        let count = self.nodes.len();
        if count >= self.limit as usize {
            return Err(StoreFault::Full);
        }
        self.nodes.add(node)?;
        Ok(count as u32 + 2)
    }
}
