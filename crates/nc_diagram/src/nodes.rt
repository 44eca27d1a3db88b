// The nodes of a store, each once, and where one is found by what it is.

ghost use Rattle.std.specs.Prelude.{◌≡◌, ◌+◌, ◌*◌, ◌^◌, ◌<◌, ◌≤◌, [], ◌∷◌, ◌++◌, length, take, get_or, slice_get, Contains, IfSome, IfNone, IfOk, OnOk, OnErr};
ghost use Rattle.nc_diagram.specs.Index.{home, next, numbered, IsIndexed, IsFree, IsFreeFrom, AreFor};

use crate::node::Node;
use std::alloc::{AllocError, Global};
use std::marker::Model;

/// How many slots there are at first.
const LEAST: usize = 64;

// Odd numbers that spread a node's variable and ends over 32 bits. Their sum is below 2^32.
const VARIABLE: u64 = 1_013_904_223;

const LOW: u64 = 739_982_445;

const HIGH: u64 = 695_872_825;

// How many numbers have 32 bits.
const NUMBERS: u64 = 4_294_967_296;

/// Nodes, the oldest first, none twice. A slot has the number of one of them, counted from 1, or is free:
/// it has 0, or a number past the last. A node is found on its way through the slots, before the first
/// free one, and those before its own have lower numbers. A quarter of the slots is kept free. It takes no
/// memory before the first node.
#[derive(Drop)]
pub(crate) struct Nodes {
    list: Vec<Node>,
    slots: Vec<u32>,
    alloc: Global,
}

impl Model for Nodes {
    ghost use Rattle.std.specs.Prelude.{List};
    ghost use Rattle.nc_diagram.specs.declared.node.Node.{Node};
    ghost use Rattle.nc_diagram.specs.Index.{AreFor};

    ghost Value = { List Node };

    ghost view = { λ n. n.list.items };

    ghost invariant = { λ n. AreFor n.slots.items n.list.items };
}

// The slot where a node's way begins, among so many.
#[tactic(auto, unfolding(crate::specs::Index::home))]
fn home(node: Node, count: usize) -> usize
    ensures { result ≡ home node count }
{
    let variable = u64::from(node.variable) * VARIABLE;
    let low = u64::from(node.low) * LOW;
    let high = u64::from(node.high) * HIGH;
    let spread = (variable + low + high) % NUMBERS;
    (spread.wrapping_mul(count as u64) / NUMBERS) as usize
}

// The slot behind another, among so many.
pub(crate) fn next(at: usize, count: usize) -> usize
    requires { at < 2 ^ 63 }
    ensures { result ≡ next count at }
{
    if at + 1 == count { 0 } else { at + 1 }
}

// The index of the node whose number a slot has, of so many nodes; None where the slot is free.
fn held(slots: &[u32], at: usize, count: usize) -> Option<usize>
    ensures free { IfNone result (IsFree slots.now count at) }
    ensures held { IfSome result (λ k. get_or slots.now at 0 ≡ k + 1) }
    ensures within { IfSome result (λ k. k < count) }
    ensures there { IfSome result (λ _. at < length slots.now) }
{
    if at >= slots.len() {
        return None;
    }
    let number = slots[at] as usize;
    if number == 0 {
        return None;
    }
    if number > count {
        return None;
    }
    Some(number - 1)
}

// The index of a node among those that the slots are for.
fn index_of(slots: &[u32], nodes: &[Node], node: Node) -> Option<usize>
    requires { IsIndexed slots.now nodes.now }
    ensures found { IfSome result (λ k. slice_get nodes.now k ≡ Some node) }
    ensures none { IfNone result (Contains nodes.now node → ⊥) }
{
    let mut at = home(node, slots.len());
    'slots: for _step in 0..slots.len() {
        let index = held(slots, at, nodes.len())?;
        if nodes[index] == node {
            return Some(index);
        }
        at = next(at, slots.len());
    }
    None
}

// The first free slot on the way that begins at one, of slots for so many nodes.
fn free_from(slots: &[u32], count: usize, from: usize) -> usize
    requires from { from < length slots.now }
    requires some { numbered slots.now < length slots.now }
    ensures within { result < length slots.now }
    ensures first { IsFreeFrom slots.now count from result }
{
    let mut at = from;
    'slots: for _step in 0..slots.len() {
        let Some(_index) = held(slots, at, count) else {
            return at;
        };
        at = next(at, slots.len());
    }
    unreachable!()
}

// Puts the number of the node with an index where it is found, behind the older ones.
fn put(slots: &mut Vec<u32>, nodes: &[Node], index: usize)
    requires within { index < length nodes.now }
    requires narrow { index + 1 < 2 ^ 32 }
    requires older { AreFor slots.old.items (take index nodes.now) }
    requires room { 4 * (index + 1) ≤ 3 * length slots.old.items }
    ensures are { AreFor slots.new.items (take (index + 1) nodes.now) }
    ensures as_many { length slots.new.items ≡ length slots.old.items }
{
    let at = free_from(slots, index, home(nodes[index], slots.len()));
    slots[at] = index as u32 + 1;
}

// So many slots for nodes, a quarter of which is free.
fn slots_for(alloc: Global, nodes: &[Node], room: usize) -> Result<Vec<u32>, AllocError>
    requires narrow { length nodes.now < 2 ^ 32 }
    requires room { 4 * length nodes.now ≤ 3 * room }
    ensures are { IfOk result (λ slots. AreFor slots.items nodes.now) }
    ensures as_many { IfOk result (λ slots. length slots.items ≡ room) }
{
    let mut slots = Vec::new(alloc);
    slots.resize(room, 0)?;
    'nodes: for index in 0..nodes.len() {
        put(&mut slots, nodes, index);
    }
    Ok(slots)
}

// Makes room for one more node: no more than half of the slots are in use. Each on a way has a node, which
// stands far from the others in memory and has to be looked at.
fn make_room(alloc: Global, slots: &mut Vec<u32>, nodes: &[Node]) -> Result<(), AllocError>
    requires narrow { length nodes.now < 2 ^ 32 }
    requires are { AreFor slots.old.items nodes.now }
    ensures are { AreFor slots.new.items nodes.now }
    ensures room { OnOk result (4 * (length nodes.now + 1) ≤ 3 * length slots.new.items) }
{
    let count = slots.len();
    if nodes.len() < count / 2 {
        return Ok(());
    }
    let more = count.saturating_mul(2).max(LEAST);
    *slots = slots_for(alloc, nodes, more)?;
    Ok(())
}

// The slot with a number on the way that begins at one.
fn slot_of(slots: &[u32], number: usize, from: usize) -> usize
    requires from { from < length slots.now }
    requires some { Contains slots.now number }
    ensures within { result < length slots.now }
    ensures there { get_or slots.now result 0 ≡ number }
{
    let mut at = from;
    'slots: for _step in 0..slots.len() {
        if slots[at] as usize == number {
            return at;
        }
        at = next(at, slots.len());
    }
    unreachable!()
}

// Frees the slot of the node with an index, the newest of those that the slots are for.
fn clear(slots: &mut Vec<u32>, nodes: &[Node], index: usize)
    requires within { index < length nodes.now }
    requires newest { AreFor slots.old.items (take (index + 1) nodes.now) }
    ensures { AreFor slots.new.items (take index nodes.now) }
{
    let at = slot_of(slots, index + 1, home(nodes[index], slots.len()));
    slots[at] = 0;
}

// Frees the slots of nodes from an index on, the newest first.
fn clear_from(slots: &mut Vec<u32>, nodes: &[Node], count: usize)
    requires { AreFor slots.old.items nodes.now }
    ensures { AreFor slots.new.items (take count nodes.now) }
{
    'nodes: for index in (count..nodes.len()).rev() {
        clear(slots, nodes, index);
    }
}

impl Nodes {
    // No nodes. It takes no memory.
    pub(crate) fn new(alloc: Global) -> Nodes
        ensures { result ≡ [] }
    {
        Nodes {
            list: Vec::new(alloc),
            slots: Vec::new(alloc),
            alloc,
        }
    }

    // How many nodes there are.
    pub(crate) fn len(&self) -> usize
        ensures { result ≡ length self.now }
    {
        self.list.len()
    }

    // The node with an index.
    pub(crate) fn at(&self, index: usize) -> Node
        requires { index < length self.now }
        ensures { slice_get self.now index ≡ Some result }
    {
        self.list[index]
    }

    // The index of a node, where it is one of these.
    pub(crate) fn index_of(&self, node: Node) -> Option<usize>
        ensures found { IfSome result (λ k. slice_get self.now k ≡ Some node) }
        ensures none { IfNone result (Contains self.now node → ⊥) }
    {
        index_of(&self.slots, &self.list, node)
    }

    // Adds a node that isn't one of these. At a refusal they stay as they are.
    pub(crate) fn add(&mut self, node: Node) -> Result<(), AllocError>
        requires { length self.old + 1 < 2 ^ 32 }
        ensures added { OnOk result (self.new ≡ self.old ++ node ∷ []) }
        ensures err { OnErr result (self.new ≡ self.old) }
    {
        make_room(self.alloc, &mut self.slots, &self.list)?;
        let count = self.list.len();
        self.list.push(node)?;
        put(&mut self.slots, &self.list, count);
        Ok(())
    }

    // Takes all nodes back but so many of the oldest.
    pub(crate) fn truncate(&mut self, count: usize)
        ensures { self.new ≡ take count self.old }
    {
        clear_from(&mut self.slots, &self.list, count);
        self.list.truncate(count);
    }
}
