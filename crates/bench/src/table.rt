//! A flow graph as a table: each fact is a number, with its kind and its parents, which are lower numbers.
ghost use Rattle.std.specs.Prelude.{◌≡◌, ◌<◌, ◌^◌, ◌++◌, ◌∷◌, [], true, length, All, IfOk, OnOk, OnErr, IfSome};
ghost use Rattle.std.proofs.lemmas.Bool.{eqb-true};
ghost use Rattle.nc_graph.specs.Flow.{IsFlow};
ghost use Rattle.bench.specs.Table.{no_rows, flow_of, IsRow};

use nc_graph::inference::Inference;
use nc_graph::node::NodeKind;
use std::alloc::{AllocError, Global};
use std::marker::Model;

/// The facts of a flow graph, numbered from 0.
#[derive(Drop)]
pub struct Table {
    kinds: Vec<NodeKind>,
    parents: Vec<Vec<u32>>,
}

impl Model for Table {
    ghost use Rattle.std.specs.Prelude.{map};
    ghost use Rattle.bench.specs.Table.{Rows, AreRows};

    ghost Value = { Rows };

    ghost view = { λ t. record {
      kinds = t.kinds.items;
      parents = map (λ ps. ps.items) t.parents.items;
    } };

    ghost invariant = { λ t. AreRows (record {
      kinds = t.kinds.items;
      parents = map (λ ps. ps.items) t.parents.items;
    }) };
}

// Whether a fact of this kind may have these parents, if it has this number.
fn is_row(kind: NodeKind, parents: &[u32], number: usize) -> bool
    ensures { result ≡ true → IsRow number kind parents.now }
{
    let shaped = match kind {
        NodeKind::Leaf(_) => parents.is_empty(),
        NodeKind::Every => true,
        NodeKind::Any => !parents.is_empty(),
    };
    shaped && parents.iter().all(|parent| (*parent as usize) < number)
}

impl Table {
    /// No facts.
    pub fn new(alloc: Global) -> Table
        ensures { result ≡ no_rows }
    {
        Table {
            kinds: Vec::new(alloc),
            parents: Vec::new(alloc),
        }
    }

    /// The numbers of all facts, but for those that are no `u32`.
    pub fn facts(&self, alloc: Global) -> Result<Vec<u32>, AllocError>
        ensures { IfOk result (λ facts. All (λ f. (flow_of self.now).holds f ≡ true) facts.items) }
    {
        let count = u32::try_from(self.kinds.len()).unwrap_or(u32::MAX);
        (0..count).collect(alloc)
    }

    /// The number of the last fact, if there is one; it has to be a `u32`.
    pub fn last(&self) -> Option<u32>
        ensures { IfSome result (λ f. (flow_of self.now).holds f ≡ true) }
    {
        let last = self.kinds.len().checked_sub(1)?;
        u32::try_from(last).ok()
    }

    // The kind and the parents of a fact.
    fn row(&self, fact: u32) -> (NodeKind, &[u32])
        requires { (flow_of self.now).holds fact ≡ true }
        ensures kind { result.0 ≡ (flow_of self.now).kind fact }
        ensures parents { result.1.now ≡ (flow_of self.now).parents fact }
    {
        let number = fact as usize;
        (self.kinds[number], self.parents[number].as_slice())
    }

    // The table is a lawful flow graph.
    fn is_lawful(&self)
        ensures { IsFlow (flow_of self.now) }
    {
        let _count = self.kinds.len();
    }

    /// Adds a fact, and says whether it may have this kind with these parents; else nothing changes.
    pub fn push(&mut self, kind: NodeKind, parents: Vec<u32>) -> Result<bool, AllocError> {
        if !is_row(kind, &parents, self.kinds.len()) {
            return Ok(false);
        }
        self.kinds.reserve(1)?;
        self.parents.reserve(1)?;
        self.kinds.push(kind).unwrap();
        self.parents.push(parents).unwrap();
        Ok(true)
    }
}

/// The rules that a table gives, and how many facts were asked for.
#[derive(Drop)]
pub struct TableRules<'a> {
    table: &'a Table,
    asked: u64,
    ghost lawful: { IsFlow (flow_of table.now) },
    ghost counted: { asked < 2 ^ 64 },
}

impl<'a> TableRules<'a> {
    /// The rules of this table; no fact was asked for yet.
    pub fn new(table: &'a Table) -> TableRules<'a>
        ensures { result.table.now ≡ table.now }
    {
        table.is_lawful();
        TableRules { table, asked: 0 }
    }
}

impl<'a> Inference for TableRules<'a> {
    ghost use Rattle.bench.specs.Table.{Rows};

    type Fact = u32;

    ghost flow = { λ rules. flow_of rules.table.now };

    ghost Basis = { Rows };

    ghost basis = { λ rules. rules.table.now };

    ghost asked = { λ rules. rules.asked };

    fn infer(&mut self, fact: &u32, into: &mut Vec<u32>) -> Result<NodeKind, AllocError> {
        self.asked = self.asked.saturating_add(1);
        let (kind, parents) = self.table.row(*fact);
        into.extend_from_slice(parents)?;
        Ok(kind)
    }

    ghost lawful = { λ rules. rules.lawful };

    ghost counted = { λ rules. rules.counted };

    ghost exact = { eqb-true };
}
