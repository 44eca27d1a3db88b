//! Flags of elements and of nodes, by their numbers.
ghost use Rattle.std.specs.Prelude.{◌≡◌, ◌||◌, ◌&&◌, ◌<◌, ℕ, All, length, true, nat_eq, slice_index_or, if◌then◌else◌, OnOk};
ghost use Rattle.std.specs.List.{filter};
ghost use Rattle.nc_marks.specs.Sets.{has, has_node, flag, in_some, Lists};

use crate::sets::Sets;
use nc_graph::node::NodeId;
use std::alloc::AllocError;

// Gives the flags of a set's elements a value. Elements that have no flag are passed over.
pub(crate) fn flag_set(flags: &mut [bool], set: &[u32], value: bool)
    ensures len { length flags.new ≡ length flags.old }
    ensures flags { (e : ℕ) → e < length flags.old
        → flag flags.new e ≡ (if has set.now e then value else flag flags.old e) }
{
    'elements: for element in set {
        let element = *element as usize;
        if element < flags.len() {
            flags[element] = value;
        }
    }
}

// Raises the flags of the elements of the sets of nodes.
pub(crate) fn flag_strong(sets: &Sets, places: &[u32], nodes: &[NodeId], flags: &mut [bool])
    requires within { All (λ p. p.0 < length places.now) nodes.now }
    requires placed { All (λ p. slice_index_or places.now p.0 0 < length sets.now.sets) nodes.now }
    ensures len { length flags.new ≡ length flags.old }
    ensures flags { (e : ℕ) → e < length flags.old
        → flag flags.new e ≡ (in_some sets.now places.now nodes.now e || flag flags.old e) }
{
    'nodes: for node in nodes {
        sets.flag(places[node.0 as usize], flags, true);
    }
}

// Raises the flags of nodes.
pub(crate) fn flag_nodes(flags: &mut [bool], nodes: &[NodeId])
    requires { All (λ p. p.0 < length flags.old) nodes.now }
    ensures len { length flags.new ≡ length flags.old }
    ensures flags { (i : ℕ) → flag flags.new i ≡ (has_node nodes.now i || flag flags.old i) }
{
    'nodes: for node in nodes {
        flags[node.0 as usize] = true;
    }
}

// Whether an element has a raised flag.
fn is_flagged(flags: &[bool], element: u32) -> bool
    ensures { result ≡ flag flags.now element }
{
    let element = element as usize;
    element < flags.len() && flags[element]
}

// Lists an element, if its flag is lowered. An element that has no flag is passed over.
pub(crate) fn list_lowered(
    flags: &[bool],
    element: u32,
    list: &mut Vec<u32>,
) -> Result<(), AllocError>
    ensures { OnOk result (Lists flags.now (λ e. nat_eq e element) list.old.items list.new.items) }
{
    let place = element as usize;
    if place < flags.len() && !flags[place] {
        list.push(element)?;
    }
    Ok(())
}

// Lists the elements of a set whose flags are lowered.
fn list_set(flags: &[bool], set: &[u32], list: &mut Vec<u32>) -> Result<(), AllocError>
    ensures { OnOk result (Lists flags.now (has set.now) list.old.items list.new.items) }
{
    'elements: for element in set {
        list_lowered(flags, *element, list)?;
    }
    Ok(())
}

// Lists the elements of the sets of nodes whose flags are lowered.
pub(crate) fn list_sets(
    sets: &Sets,
    places: &[u32],
    nodes: &[NodeId],
    flags: &[bool],
    list: &mut Vec<u32>,
) -> Result<(), AllocError>
    requires within { All (λ p. p.0 < length places.now) nodes.now }
    requires placed { All (λ p. slice_index_or places.now p.0 0 < length sets.now.sets) nodes.now }
    ensures { OnOk result (Lists flags.now
        (in_some sets.now places.now nodes.now) list.old.items list.new.items) }
{
    let mut set = sets.new_list();
    'nodes: for node in nodes {
        sets.list(places[node.0 as usize], &mut set)?;
        list_set(flags, &set, list)?;
    }
    Ok(())
}

// Keeps the elements of a list that have a raised flag.
pub(crate) fn keep_flagged(flags: &[bool], elements: &mut Vec<u32>)
    ensures { elements.new.items ≡ filter (flag flags.now) elements.old.items }
{
    elements.retain(|element| is_flagged(flags, *element));
}

// Keeps the elements of a list that a set has too. The flags tell the list, before and afterwards.
pub(crate) fn keep_common(flags: &mut [bool], elements: &mut Vec<u32>, set: &[u32])
    requires told { (e : ℕ) → e < length flags.old → flag flags.old e ≡ has elements.old.items e }
    ensures len { length flags.new ≡ length flags.old }
    ensures told { (e : ℕ) → e < length flags.old → flag flags.new e ≡ has elements.new.items e }
    ensures common { (e : ℕ) → e < length flags.old
        → has elements.new.items e ≡ (has elements.old.items e && has set.now e) }
{
    flag_set(flags, elements, false);
    flag_set(flags, set, true);
    keep_flagged(flags, elements);
    flag_set(flags, set, false);
    flag_set(flags, elements, true);
}
