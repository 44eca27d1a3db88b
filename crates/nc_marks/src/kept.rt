//! Marks that grow with a graph: what was worked out for its nodes is kept, so that a further test
//! costs only what is new.
ghost use Rattle.std.specs.Prelude.{◌≡◌, ◌+◌, ◌<◌, ◌≤◌, ◌++◌, ◌||◌, ℕ, All, List, [], false, length, map, take, slice_index_or, IfOk, OnOk, OnErr};
ghost use Rattle.nc_graph.specs.Derivation.{strong};
ghost use Rattle.nc_graph.specs.Flow.{Flow};
ghost use Rattle.nc_graph.specs.Nodes.{node_flow, IsGraph};
ghost use Rattle.nc_marks.specs.Kept.{kept_nodes, strong_at, AreKept, TouchesOnly};
ghost use Rattle.nc_marks.specs.Marks.{marked_elements};
ghost use Rattle.nc_marks.specs.Reach.{AreReached, leaf_in};
ghost use Rattle.nc_marks.specs.Sets.{Grows, IsAt, ArePlaced, flag, has, has_node, in_some};

use crate::changed::changed;
use crate::evaluation::{place_of, strong_of};
use crate::gathered::Gathered;
use crate::mark::Marks;
use crate::raise::{lower_nodes, raise};
use crate::reach::{elements_reached, reach};
use crate::sets::Sets;
use nc_graph::graph::Graph;
use nc_graph::node::NodeId;
use std::alloc::{AllocError, Global};
use std::hash::Hash;
use std::marker::Model;

// What is kept of each node: the place of its strong elements, and whether a live one reaches it.
#[derive(Drop)]
struct KeptNodes {
    sets: Sets,
    gathered: Gathered,
    places: Vec<u32>,
    reached: Vec<bool>,
}

// What further tested nodes change: the nodes that they reach anew, and the elements that get
// another mark.
#[derive(Drop)]
struct News {
    raised: Vec<NodeId>,
    touched: Vec<u32>,
}

/// The marks for the live nodes of a graph that grows, those of tests so far; with the strong
/// elements of each of its nodes so far, and whether a live one reaches it.
#[derive(Drop)]
pub struct KeptMarks {
    nodes: KeptNodes,
    marks: Marks,
    alloc: Global,
}

impl Model for KeptMarks {
    ghost use Rattle.std.specs.Prelude.{◌≡◌, [], length, map, slice_index_or};
    ghost use Rattle.nc_marks.specs.Kept.{Kept};
    ghost use Rattle.nc_marks.specs.Marks.{marked_elements};
    ghost use Rattle.nc_marks.specs.Sets.{IsTable};

    ghost Value = { Kept };

    ghost view = { λ k. record {
      strong = map (λ place. slice_index_or k.nodes.sets.sets place []) k.nodes.places.items;
      reached = k.nodes.reached.items;
      marks = k.marks;
    } };

    ghost invariant = { λ k.
        IsTable k.nodes.sets k.nodes.gathered k.nodes.places.items (marked_elements k.marks)
        × (length k.nodes.reached.items ≡ length k.nodes.places.items) };
}

// Adds the place of the strong elements of each node that has none.
fn add_places<F: Copy + Eq + Hash>(
    graph: &Graph<F>,
    sets: &mut Sets,
    gathered: &mut Gathered,
    places: &mut Vec<u32>,
) -> Result<(), AllocError>
    requires len { length places.old.items ≤ length graph.now.facts }
    requires width { gathered.old.width ≡ sets.old.width }
    requires empty { IsAt sets.old 0 (λ _. false) }
    requires within { ArePlaced sets.old places.old.items }
    requires few { length sets.old.sets ≤ length places.old.items + 1 }
    ensures graph { IsGraph graph.now }
    ensures width { gathered.new.width ≡ gathered.old.width }
    ensures grows { Grows sets.old sets.new }
    ensures kept { take (length places.old.items) places.new.items ≡ places.old.items }
    ensures len { OnOk result (length places.new.items ≡ length graph.now.facts) }
    ensures within { ArePlaced sets.new places.new.items }
    ensures few { OnOk result (length sets.new.sets ≤ length places.new.items + 1) }
    ensures strong { OnOk result (((i : ℕ) → i < length places.old.items
        → IsAt sets.old (slice_index_or places.old.items i 0)
        (λ e. strong (node_flow graph.now) e i))
        → (i : ℕ) → i < length graph.now.facts
        → IsAt sets.new (slice_index_or places.new.items i 0)
        (λ e. strong (node_flow graph.now) e i)) }
{
    let len = graph.len();
    'nodes: for number in places.len() as u32..len {
        let place = place_of(graph, sets, gathered, places, NodeId(number))?;
        places.push(place)?;
    }
    Ok(())
}

// Adds a lowered flag for each node that has none.
fn add_flags(reached: &mut Vec<bool>, nodes: u32) -> Result<(), AllocError>
    requires { length reached.old.items ≤ nodes }
    ensures kept { take (length reached.old.items) reached.new.items ≡ reached.old.items }
    ensures len { OnOk result (length reached.new.items ≡ nodes) }
    ensures flags { (i : ℕ) → flag reached.new.items i ≡ flag reached.old.items i }
{
    'nodes: for _number in reached.len() as u32..nodes {
        reached.push(false)?;
    }
    Ok(())
}

// Raises the flags of what further nodes reach, and lists the elements that get another mark.
fn reach_more<F: Copy + Eq + Hash>(
    alloc: Global,
    graph: &Graph<F>,
    tested: &[NodeId],
    nodes: &mut KeptNodes,
    marks: &Marks,
) -> Result<News, AllocError>
    requires valid { All (λ p. p.0 < length graph.now.facts) tested.now }
    requires len { length nodes.old.reached.items ≡ length graph.now.facts }
    requires places { length nodes.old.places.items ≡ length graph.now.facts }
    requires placed { ArePlaced nodes.old.sets nodes.old.places.items }
    ensures sets { nodes.new.sets ≡ nodes.old.sets }
    ensures gathered { nodes.new.gathered ≡ nodes.old.gathered }
    ensures places { nodes.new.places ≡ nodes.old.places }
    ensures unchanged { OnErr result (nodes.new.reached.items ≡ nodes.old.reached.items) }
    ensures len { length nodes.new.reached.items ≡ length nodes.old.reached.items }
    ensures raised { IfOk result (λ news. (i : ℕ)
        → flag nodes.new.reached.items i
        ≡ (has_node news.raised.items i || flag nodes.old.reached.items i)) }
    ensures valid { IfOk result (λ news. All
        (λ p. p.0 < length graph.now.facts) news.raised.items) }
    ensures reached { OnOk result ((before : List ℕ)
        → AreReached (node_flow graph.now) before nodes.old.reached.items
        → AreReached (node_flow graph.now)
        (before ++ map (λ p. p.0) tested.now) nodes.new.reached.items) }
    ensures within { IfOk result (λ news. All
        (λ e. e < marked_elements marks.now) news.touched.items) }
    ensures some { IfOk result (λ news. (e : ℕ) → e < marked_elements marks.now
        → has news.touched.items e ≡ false
        → flag marks.now.some e ≡ false
        → leaf_in (node_flow graph.now) e news.raised.items ≡ false) }
    ensures strong { IfOk result (λ news. (e : ℕ) → e < marked_elements marks.now
        → has news.touched.items e ≡ false
        → flag marks.now.strong e ≡ false
        → in_some nodes.old.sets nodes.old.places.items tested.now e ≡ false) }
{
    let raised = raise(alloc, graph, tested, &mut nodes.reached)?;
    match marks.touched(alloc, graph, &raised, &nodes.sets, &nodes.places, tested) {
        Ok(touched) => Ok(News { raised, touched }),
        Err(error) => {
            lower_nodes(&mut nodes.reached, &raised);
            Err(error)
        }
    }
}

// Adds what is kept of the nodes that aren't yet, raises the flags of what further nodes reach, and
// lists the elements that get another mark.
fn extend<F: Copy + Eq + Hash>(
    alloc: Global,
    graph: &Graph<F>,
    tested: &[NodeId],
    nodes: &mut KeptNodes,
    marks: &Marks,
) -> Result<News, AllocError>
    requires valid { All (λ p. p.0 < length graph.now.facts) tested.now }
    requires grown { length nodes.old.places.items ≤ length graph.now.facts }
    requires flags { length nodes.old.reached.items ≡ length nodes.old.places.items }
    requires width { nodes.old.gathered.width ≡ nodes.old.sets.width }
    requires empty { IsAt nodes.old.sets 0 (λ _. false) }
    requires placed { ArePlaced nodes.old.sets nodes.old.places.items }
    requires few { length nodes.old.sets.sets ≤ length nodes.old.places.items + 1 }
    ensures graph { IsGraph graph.now }
    ensures width { nodes.new.gathered.width ≡ nodes.old.gathered.width }
    ensures grows { Grows nodes.old.sets nodes.new.sets }
    ensures places { take (length nodes.old.places.items) nodes.new.places.items
        ≡ nodes.old.places.items }
    ensures flags { OnErr result (take (length nodes.old.reached.items) nodes.new.reached.items
        ≡ nodes.old.reached.items) }
    ensures placed { ArePlaced nodes.new.sets nodes.new.places.items }
    ensures few { OnOk result
        (length nodes.new.sets.sets ≤ length nodes.new.places.items + 1) }
    ensures len { OnOk result (length nodes.new.places.items ≡ length graph.now.facts) }
    ensures all { OnOk result (length nodes.new.reached.items ≡ length graph.now.facts) }
    ensures sets { OnOk result (((i : ℕ) → i < length nodes.old.places.items
        → IsAt nodes.old.sets (slice_index_or nodes.old.places.items i 0)
        (λ e. strong (node_flow graph.now) e i))
        → (i : ℕ) → i < length graph.now.facts
        → IsAt nodes.new.sets (slice_index_or nodes.new.places.items i 0)
        (λ e. strong (node_flow graph.now) e i)) }
    ensures raised { IfOk result (λ news. (i : ℕ)
        → flag nodes.new.reached.items i
        ≡ (has_node news.raised.items i || flag nodes.old.reached.items i)) }
    ensures valid { IfOk result (λ news. All
        (λ p. p.0 < length graph.now.facts) news.raised.items) }
    ensures reached { OnOk result ((live : List ℕ)
        → AreReached (node_flow graph.now) live nodes.old.reached.items
        → AreReached (node_flow graph.now)
        (live ++ map (λ p. p.0) tested.now) nodes.new.reached.items) }
    ensures within { IfOk result (λ news. All
        (λ e. e < marked_elements marks.now) news.touched.items) }
    ensures some { IfOk result (λ news. (e : ℕ) → e < marked_elements marks.now
        → has news.touched.items e ≡ false
        → flag marks.now.some e ≡ false
        → leaf_in (node_flow graph.now) e news.raised.items ≡ false) }
    ensures strong { IfOk result (λ news. (e : ℕ) → e < marked_elements marks.now
        → has news.touched.items e ≡ false
        → flag marks.now.strong e ≡ false
        → in_some nodes.new.sets nodes.new.places.items tested.now e ≡ false) }
{
    add_places(
        graph,
        &mut nodes.sets,
        &mut nodes.gathered,
        &mut nodes.places,
    )?;
    add_flags(&mut nodes.reached, graph.len())?;
    let news = reach_more(alloc, graph, tested, nodes, marks)?;
    Ok(news)
}

impl KeptMarks {
    /// Nothing is kept of no node, and each element below `elements` is uncovered.
    ///
    /// # Errors
    ///
    /// That memory is refused.
    pub fn new(alloc: Global, elements: u32) -> Result<KeptMarks, AllocError>
        ensures kept { IfOk result (λ kept. (g : Flow ℕ) → AreKept g 0 [] elements kept) }
        ensures count { IfOk result (λ kept. kept_nodes kept ≡ 0) }
        ensures elements { IfOk result (λ kept. marked_elements kept.marks ≡ elements) }
    {
        let nodes = KeptNodes {
            sets: Sets::new(alloc, elements)?,
            gathered: Gathered::new(alloc, elements)?,
            places: Vec::new(alloc),
            reached: Vec::new(alloc),
        };
        Ok(KeptMarks {
            nodes,
            marks: Marks::none(alloc, elements)?,
            alloc,
        })
    }

    /// The marks for all live nodes.
    pub fn marks(&self) -> &Marks
        ensures { result.now ≡ self.now.marks }
    {
        &self.marks
    }

    /// How many elements have marks.
    pub fn elements(&self) -> u32
        ensures { result ≡ marked_elements self.now.marks }
    {
        self.nodes.sets.width()
    }

    /// The strong elements of a node that is kept.
    ///
    /// # Errors
    ///
    /// That memory is refused.
    pub fn strong_of(&self, node: NodeId) -> Result<Vec<u32>, AllocError>
        requires { node.0 < kept_nodes self.now }
        ensures { IfOk result (λ set. set.items ≡ strong_at self.now node.0) }
    {
        let set = self.nodes.sets.copy(self.nodes.places[node.0 as usize])?;
        Ok(set)
    }

    /// Adds tested nodes of a graph, whose first nodes are those that are kept, to the live ones,
    /// and answers the elements that may have another mark now; one may be listed twice. It takes
    /// time for the parents of the nodes that aren't kept yet and for the sets of these parents,
    /// for the parents of the nodes that no live one reached, and for the sets of the tested nodes.
    ///
    /// # Errors
    ///
    /// That memory is refused. All is then as it was before.
    pub fn add<F: Copy + Eq + Hash>(
        &mut self,
        graph: &Graph<F>,
        tested: &[NodeId],
    ) -> Result<Vec<u32>, AllocError>
        requires valid { All (λ p. p.0 < length graph.now.facts) tested.now }
        requires grown { kept_nodes self.old ≤ length graph.now.facts }

        // With what was kept of the first nodes for the live ones, it is what is kept of all nodes
        // for these and the tested ones.
        ensures kept { OnOk result ((count : ℕ) (live : List ℕ) (elements : ℕ)
            → AreKept (node_flow graph.now) count live elements self.old
            → AreKept (node_flow graph.now) (length graph.now.facts)
            (live ++ map (λ p. p.0) tested.now) elements self.new) }
        ensures touched { IfOk result
            (λ touched. TouchesOnly touched.items self.old.marks self.new.marks) }
        ensures count { OnOk result (kept_nodes self.new ≡ length graph.now.facts) }
        ensures elements { marked_elements self.new.marks ≡ marked_elements self.old.marks }
        ensures unchanged { OnErr result (self.new ≡ self.old) }
    {
        let count = self.nodes.places.len();
        let sets = self.nodes.sets.len();
        match extend(self.alloc, graph, tested, &mut self.nodes, &self.marks) {
            Ok(news) => {
                self.marks.add_leaves(graph, &news.raised);
                self.marks
                    .add_strong(&self.nodes.sets, &self.nodes.places, tested);
                Ok(news.touched)
            }
            Err(error) => {
                self.nodes.sets.truncate(sets);
                self.nodes.places.truncate(count);
                self.nodes.reached.truncate(count);
                Err(error)
            }
        }
    }

    /// Keeps the marks for these live nodes, those that are left where tests are forgotten, in place
    /// of the marks for the live nodes so far, and answers the elements that have another mark now,
    /// ascending. The strong elements of all nodes stay kept. It takes one pass over the graph, and
    /// time for the sets of the live nodes and for the elements.
    ///
    /// # Errors
    ///
    /// That memory is refused. All is then as it was before.
    pub fn forget<F: Copy + Eq + Hash>(
        &mut self,
        graph: &Graph<F>,
        live: &[NodeId],
    ) -> Result<Vec<u32>, AllocError>
        requires valid { All (λ p. p.0 < length graph.now.facts) live.now }
        requires all { kept_nodes self.old ≡ length graph.now.facts }

        // What was kept for the live nodes before is now kept for those that are live still.
        ensures kept { OnOk result ((before : List ℕ) (elements : ℕ)
            → AreKept (node_flow graph.now) (length graph.now.facts) before elements self.old
            → AreKept (node_flow graph.now) (length graph.now.facts)
            (map (λ p. p.0) live.now) elements self.new) }
        ensures touched { IfOk result
            (λ touched. TouchesOnly touched.items self.old.marks self.new.marks) }
        ensures count { OnOk result (kept_nodes self.new ≡ length graph.now.facts) }
        ensures elements { marked_elements self.new.marks ≡ marked_elements self.old.marks }
        ensures unchanged { OnErr result (self.new ≡ self.old) }
    {
        let elements = self.nodes.sets.width();
        let reached = reach(self.alloc, graph, live)?;
        let some = elements_reached(self.alloc, graph, elements, live, &reached)?;
        let strong = strong_of(self.alloc, &self.nodes.sets, &self.nodes.places, live)?;
        let marks = Marks::new(strong, some);
        let touched = changed(self.alloc, elements, &self.marks, &marks)?;
        self.nodes.reached = reached;
        self.marks = marks;
        Ok(touched)
    }
}
