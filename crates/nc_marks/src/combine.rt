//! The union and the intersection of the sets of nodes, each of which adds at most its result to the table. What they
//! have of one set that is kept is found and not gone through: a union goes through the sets besides the largest, and
//! through this one where the others have many elements; an intersection goes through what its sets have besides the
//! set of which they all are.
ghost use Rattle.std.specs.Prelude.{◌≡◌, ◌||◌, ◌&&◌, ◌+◌, ◌<◌, ◌≤◌, ◌^◌, ◌∷◌, ℕ, [], All, length, true, false, slice_index_or, IfOk, OnOk};
ghost use Rattle.nc_marks.specs.Sets.{has, has_at, Grows, IsAt, in_some, in_each};

use crate::gathered::Gathered;
use crate::sets::Sets;
use nc_graph::node::NodeId;
use std::alloc::AllocError;

// So many elements may stand in a set that the one that follows has too: they aren't sought there.
const FEW: usize = 16;

// The place of the largest of the sets of nodes, and 0 where there are none.
fn largest(sets: &Sets, places: &[u32], nodes: &[NodeId]) -> u32
    requires empty { IsAt sets.now 0 (λ _. false) }
    requires within { All (λ p. p.0 < length places.now) nodes.now }
    requires placed { All (λ p. slice_index_or places.now p.0 0 < length sets.now.sets) nodes.now }
    ensures placed { result < length sets.now.sets }
    ensures part { (e : ℕ) → e < sets.now.width → has_at sets.now result e ≡ true
        → in_some sets.now places.now nodes.now e ≡ true }
{
    let mut largest = 0;
    'nodes: for node in nodes {
        let place = places[node.0 as usize];
        if sets.size(place) > sets.size(largest) {
            largest = place;
        }
    }
    largest
}

// Gathers the elements of the sets of nodes but for the one at a place.
fn gather_others(
    gathered: &mut Gathered,
    sets: &Sets,
    places: &[u32],
    nodes: &[NodeId],
    but: u32,
) -> Result<(), AllocError>
    requires within { All (λ p. p.0 < length places.now) nodes.now }
    requires placed { All (λ p. slice_index_or places.now p.0 0 < length sets.now.sets) nodes.now }
    ensures width { gathered.new.width ≡ gathered.old.width }
    ensures union { OnOk result ((e : ℕ) → e < gathered.old.width
        → (has gathered.new.elements e || has_at sets.now but e)
        ≡ (has gathered.old.elements e || (in_some sets.now places.now nodes.now e || has_at sets.now but e))) }
{
    'nodes: for node in nodes {
        let place = places[node.0 as usize];
        if place != but {
            gathered.add_at(sets, place)?;
        }
    }
    Ok(())
}

// The place of the union of the sets of nodes, which is that of the largest where the others have no elements.
pub(crate) fn union_of(
    sets: &mut Sets,
    gathered: &mut Gathered,
    places: &[u32],
    nodes: &[NodeId],
) -> Result<u32, AllocError>
    requires width { gathered.old.width ≡ sets.old.width }
    requires empty { IsAt sets.old 0 (λ _. false) }
    requires within { All (λ p. p.0 < length places.now) nodes.now }
    requires placed { All (λ p. slice_index_or places.now p.0 0 < length sets.old.sets) nodes.now }
    requires room { length sets.old.sets < 2 ^ 32 }
    ensures width { gathered.new.width ≡ gathered.old.width }
    ensures grows { Grows sets.old sets.new }
    ensures most { length sets.new.sets ≤ length sets.old.sets + 1 }
    ensures union { IfOk result (λ place. IsAt sets.new place
        (in_some sets.old places.now nodes.now)) }
{
    let largest = largest(sets, places, nodes);
    gathered.clear();
    gather_others(gathered, sets, places, nodes, largest)?;
    if gathered.elements().len() > FEW {
        gathered.leave_out(sets, largest);
    }
    let place = sets.add(largest, gathered.elements())?;
    Ok(place)
}

// The number of the set that two sets have at their ends, given their numbers; 0 for none.
fn shared(sets: &Sets, one: usize, other: usize) -> usize
    requires one { one ≤ length sets.now.sets }
    requires other { other ≤ length sets.now.sets }
    ensures { result ≤ length sets.now.sets }
{
    let mut one = one;
    let mut other = other;
    'parts: while one != other {
        if one > other {
            one = sets.tail(one - 1);
        } else {
            other = sets.tail(other - 1);
        }
    }
    one
}

// The number of the set that the sets of nodes have at their ends, and this one too; 0 for none.
fn shared_by(sets: &Sets, places: &[u32], nodes: &[NodeId], first: usize) -> usize
    requires within { All (λ p. p.0 < length places.now) nodes.now }
    requires placed { All (λ p. slice_index_or places.now p.0 0 < length sets.now.sets) nodes.now }
    requires first { first ≤ length sets.now.sets }
    ensures { result ≤ length sets.now.sets }
{
    let mut tail = first;
    'nodes: for node in nodes {
        tail = shared(sets, tail, places[node.0 as usize] as usize + 1);
    }
    tail
}

// Keeps of the elements gathered those that the sets of nodes have before the set of a number. Says whether that follows
// in all of them. The list is for what each has there.
fn keep_before(
    gathered: &mut Gathered,
    sets: &Sets,
    places: &[u32],
    nodes: &[NodeId],
    tail: usize,
    front: &mut Vec<u32>,
) -> Result<bool, AllocError>
    requires within { All (λ p. p.0 < length places.now) nodes.now }
    requires placed { All (λ p. slice_index_or places.now p.0 0 < length sets.now.sets) nodes.now }
    ensures width { gathered.new.width ≡ gathered.old.width }
    ensures none { IfOk result (λ all. tail ≡ 0 → all ≡ true) }
    ensures intersection { IfOk result (λ all. all ≡ true → (e : ℕ) → e < gathered.old.width
        → (has gathered.new.elements e || has (slice_index_or ([] ∷ sets.now.sets) tail []) e)
        ≡ ((has gathered.old.elements e || has (slice_index_or ([] ∷ sets.now.sets) tail []) e)
        && in_each sets.now places.now nodes.now e)) }
{
    'nodes: for node in nodes {
        if sets.list_front(places[node.0 as usize], tail, front)? != tail {
            return Ok(false);
        }
        gathered.keep(front);
    }
    Ok(true)
}

// Gathers what the sets of nodes have in common before the set of a number, given one of them. Says whether that follows
// in all of them.
fn gather_common(
    gathered: &mut Gathered,
    sets: &Sets,
    places: &[u32],
    nodes: &[NodeId],
    first: u32,
    tail: usize,
) -> Result<bool, AllocError>
    requires within { All (λ p. p.0 < length places.now) nodes.now }
    requires placed { All (λ p. slice_index_or places.now p.0 0 < length sets.now.sets) nodes.now }
    requires first { first < length sets.now.sets }
    requires whole { (e : ℕ) → in_each sets.now places.now nodes.now e ≡ true
        → has_at sets.now first e ≡ true }
    ensures width { gathered.new.width ≡ gathered.old.width }
    ensures none { IfOk result (λ all. tail ≡ 0 → all ≡ true) }
    ensures intersection { IfOk result (λ all. all ≡ true → (e : ℕ) → e < gathered.old.width
        → (has gathered.new.elements e || has (slice_index_or ([] ∷ sets.now.sets) tail []) e)
        ≡ in_each sets.now places.now nodes.now e) }
{
    let mut front = sets.new_list();
    if sets.list_front(first, tail, &mut front)? != tail {
        return Ok(false);
    }
    gathered.clear();
    gathered.add_all(&front)?;
    let all = keep_before(gathered, sets, places, nodes, tail, &mut front)?;
    Ok(all)
}

// The place of the smallest of the sets of nodes, of which there is one.
fn smallest(sets: &Sets, places: &[u32], nodes: &[NodeId]) -> u32
    requires some { 0 < length nodes.now }
    requires within { All (λ p. p.0 < length places.now) nodes.now }
    requires placed { All (λ p. slice_index_or places.now p.0 0 < length sets.now.sets) nodes.now }
    ensures placed { result < length sets.now.sets }
    ensures whole { (e : ℕ) → in_each sets.now places.now nodes.now e ≡ true
        → has_at sets.now result e ≡ true }
{
    let mut smallest = places[nodes[0].0 as usize];
    'nodes: for node in nodes {
        let place = places[node.0 as usize];
        if sets.size(place) < sets.size(smallest) {
            smallest = place;
        }
    }
    smallest
}

// The place of the intersection of the sets of nodes, of which there is one. It is that of one of
// them where the others have all its elements.
pub(crate) fn intersection_of(
    sets: &mut Sets,
    gathered: &mut Gathered,
    places: &[u32],
    nodes: &[NodeId],
) -> Result<u32, AllocError>
    requires width { gathered.old.width ≡ sets.old.width }
    requires some { 0 < length nodes.now }
    requires empty { IsAt sets.old 0 (λ _. false) }
    requires within { All (λ p. p.0 < length places.now) nodes.now }
    requires placed { All (λ p. slice_index_or places.now p.0 0 < length sets.old.sets) nodes.now }
    requires room { length sets.old.sets < 2 ^ 32 }
    ensures width { gathered.new.width ≡ gathered.old.width }
    ensures grows { Grows sets.old sets.new }
    ensures most { length sets.new.sets ≤ length sets.old.sets + 1 }
    ensures intersection { IfOk result
        (λ place. IsAt sets.new place (in_each sets.old places.now nodes.now)) }
{
    let smallest = smallest(sets, places, nodes);
    let mut tail = shared_by(sets, places, nodes, smallest as usize + 1);
    if !gather_common(gathered, sets, places, nodes, smallest, tail)? {
        tail = 0;
        let _all = gather_common(gathered, sets, places, nodes, smallest, tail)?;
    }
    let place = sets.add(tail.saturating_sub(1) as u32, gathered.elements())?;
    Ok(place)
}
