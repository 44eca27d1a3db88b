//! The shapes of the graphs that are measured.

use crate::table::Table;
use nc_graph::node::NodeKind;
use std::alloc::{AllocError, Global};

/// The elements of the layers.
pub const LAYER_ELEMENTS: u32 = 1_000;

// The ways of a disjunctive fact of the layers, and the disjunctive facts of a layer.
const WAYS: u32 = 128;

const LAYER: u32 = 50;

// The numbers of one disjunctive fact with its ways, and of a whole layer.
const BLOCK: u32 = WAYS + 1;

const LAYER_BLOCKS: u32 = LAYER * BLOCK;

/// A shape: it gives each number its kind and its parents.
#[derive(Clone, Copy, PartialEq, Eq)]
pub enum Shape {
    /// Four leaves, and each other number from three lower ones; no derivation is deep.
    Fan,
    /// The same, but that the first parent is the number before, so that a chain leads through all.
    Chain,
    /// 1,000 leaves, and layers of 50 disjunctive facts with 128 ways each.
    Layers,
    /// So many leaves, and conjunctive facts over all of them.
    Wide(u32),
    /// Conjunctive hops, each over four leaves of its own and the hop before.
    Hops,
    /// Hops of two ways, each over two leaves of its own and the hop before.
    Pairs,
}

// The row of a number in a fan or a chain.
fn fan_row(alloc: Global, number: u32, first: u32) -> Result<(NodeKind, Vec<u32>), AllocError> {
    if number < 4 {
        return Ok((NodeKind::Leaf(number), Vec::new(alloc)));
    }
    let parents = vec![in alloc; first, number / 3, number / 4]?;
    Ok((NodeKind::Every, parents))
}

// The row of a number behind the leaves of the layers, counted from the first.
fn way_row(alloc: Global, place: u32) -> Result<(NodeKind, Vec<u32>), AllocError> {
    let number = LAYER_ELEMENTS.saturating_add(place);
    let way = place % BLOCK;
    if way == WAYS {
        let ways = (number.saturating_sub(WAYS)..number).collect(alloc)?;
        return Ok((NodeKind::Any, ways));
    }
    let mut parents = vec![in alloc; place / BLOCK, number % LAYER_ELEMENTS]?;
    if place >= LAYER_BLOCKS {
        // the disjunctive fact of the layer below under this one, and one beside it
        let under = number - way - LAYER_BLOCKS + WAYS;
        parents.extend_from_slice(&[under, under + BLOCK + BLOCK * (way % 8)])?;
    }
    Ok((NodeKind::Every, parents))
}

// The row of a number of the layers.
fn layer_row(alloc: Global, number: u32) -> Result<(NodeKind, Vec<u32>), AllocError> {
    if number < LAYER_ELEMENTS {
        return Ok((NodeKind::Leaf(number), Vec::new(alloc)));
    }
    way_row(alloc, number - LAYER_ELEMENTS)
}

// The row of a number where all that isn't a leaf is over all leaves.
fn wide_row(alloc: Global, leaves: u32, number: u32) -> Result<(NodeKind, Vec<u32>), AllocError> {
    if number < leaves {
        return Ok((NodeKind::Leaf(number), Vec::new(alloc)));
    }
    let parents = (0..leaves).collect(alloc)?;
    Ok((NodeKind::Every, parents))
}

// The row of a number of the conjunctive hops, five numbers a hop.
fn hop_row(alloc: Global, number: u32) -> Result<(NodeKind, Vec<u32>), AllocError> {
    let hop = number / 5;
    if number % 5 < 4 {
        return Ok((NodeKind::Leaf(number - hop), Vec::new(alloc)));
    }
    let mut parents: Vec<u32> = (5 * hop..number).collect(alloc)?;
    if hop > 0 {
        parents.push(number - 5)?;
    }
    Ok((NodeKind::Every, parents))
}

// The row of a number of the hops of two ways, seven numbers a hop: four leaves, two ways, the hop.
fn pair_row(alloc: Global, number: u32) -> Result<(NodeKind, Vec<u32>), AllocError> {
    let start = number / 7 * 7;
    let part = number % 7;
    if part < 4 {
        return Ok((NodeKind::Leaf(number - 3 * (number / 7)), Vec::new(alloc)));
    }
    if part == 6 {
        let ways = vec![in alloc; number - 2, number - 1]?;
        return Ok((NodeKind::Any, ways));
    }
    let leaf = start + 2 * (part - 4);
    let mut parents = vec![in alloc; leaf, leaf + 1]?;
    if start > 0 {
        parents.push(start - 1)?;
    }
    Ok((NodeKind::Every, parents))
}

impl Shape {
    // The kind and the parents of a number.
    fn row(self, alloc: Global, number: u32) -> Result<(NodeKind, Vec<u32>), AllocError> {
        match self {
            Shape::Fan => fan_row(alloc, number, number / 2),
            Shape::Chain => fan_row(alloc, number, number.saturating_sub(1)),
            Shape::Layers => layer_row(alloc, number),
            Shape::Wide(leaves) => wide_row(alloc, leaves, number),
            Shape::Hops => hop_row(alloc, number),
            Shape::Pairs => pair_row(alloc, number),
        }
    }

    /// A table of so many facts; it ends before the first number that has no lawful row.
    ///
    /// # Errors
    ///
    /// Memory that runs out.
    pub fn table(self, alloc: Global, count: u32) -> Result<Table, AllocError> {
        let mut table = Table::new(alloc);
        for number in 0..count {
            let (kind, parents) = self.row(alloc, number)?;
            if !table.push(kind, parents)? {
                break;
            }
        }
        Ok(table)
    }
}
