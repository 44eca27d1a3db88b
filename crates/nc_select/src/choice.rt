//! The places of the candidates that are chosen.

ghost use Rattle.std.specs.Prelude.{◌≡◌, ◌<◌, ◌^◌, [], ◌∷◌, IfOk, filter, length, map, take};
ghost use Rattle.std.specs.List.{IsFirstBest};
ghost use Rattle.std.specs.Ordering.{is_lt};
ghost use Rattle.nc_tables.specs.Choice.{by_preference, choose, is_equal_to, preference_cmp};
ghost use Rattle.nc_select.specs.Senders.{senders_from};

use crate::candidate::Candidate;
use crate::preference::{is_equal_to, is_external, preference_cmp};
use nc_types::Addr;
use std::alloc::{AllocError, Global};

// Who sent a candidate, and the candidate's place.
#[derive(Clone, Copy, PartialEq, Eq, PartialOrd, Ord)]
struct Sender {
    // The router id of the sender.
    id: Addr,
    address: Addr,
    place: u32,
}

// The place of the first candidate to which no other one is preferred.
fn best_place<C: Candidate>(candidates: &[C]) -> usize
    requires { 0 < length candidates.now }
    ensures best { IsFirstBest (λ x y. is_lt (preference_cmp x y))
        (map C.candidate_of candidates.now) (length (map C.candidate_of candidates.now)) result }
    ensures within { result < length candidates.now }
{
    let mut best = 0;
    'candidates: for place in 1..candidates.len() {
        if preference_cmp(&candidates[place], &candidates[best]).is_lt() {
            best = place;
        }
    }
    best
}

// The senders of those candidates that are as good as the best, in the candidates' order.
fn senders_of<C: Candidate>(
    alloc: Global,
    candidates: &[C],
    best: &C,
    relax: bool,
) -> Result<Vec<Sender>, AllocError>
    requires { length candidates.now < 2 ^ 32 }
    ensures { IfOk result (λ senders. senders.items
        ≡ senders_from relax (C.candidate_of best.now) 0 (map C.candidate_of candidates.now)) }
{
    let mut senders = Vec::new(alloc);
    'candidates: for (place, candidate) in candidates.iter().enumerate() {
        if is_equal_to(relax, best, candidate) {
            senders.push(Sender {
                id: candidate.sender_id(),
                address: candidate.sender(),
                place: place as u32,
            })?;
        }
    }
    Ok(senders)
}

// The places of senders.
fn places_of(alloc: Global, senders: &[Sender]) -> Result<Vec<u32>, AllocError>
    ensures { IfOk result (λ places. places.items ≡ map (λ s. s.place) senders.now) }
{
    let places = senders.iter().map(|sender| sender.place).collect(alloc)?;
    Ok(places)
}

// The places of those candidates that are as good as the best, the preferred ones first, at most so
// many.
fn used_with<C: Candidate>(
    alloc: Global,
    candidates: &[C],
    best: &C,
    limit: u8,
    relax: bool,
) -> Result<Vec<u32>, AllocError>
    requires { length candidates.now < 2 ^ 32 }
    ensures { IfOk result (λ places. places.items ≡ map (λ x. x.place)
        (take limit (filter (λ x. is_equal_to relax (C.candidate_of best.now) x.candidate)
        (by_preference (map C.candidate_of candidates.now))))) }
{
    let mut senders = senders_of(alloc, candidates, best, relax)?;
    senders.sort_unstable();
    senders.truncate(limit as usize);
    let places = places_of(alloc, &senders)?;
    Ok(places)
}

// The list of one place.
fn alone(alloc: Global, place: u32) -> Result<Vec<u32>, AllocError>
    ensures { IfOk result (λ places. places.items ≡ place ∷ []) }
{
    let mut places = Vec::with_capacity(alloc, 1)?;
    places.push(place)?;
    Ok(places)
}

/// The places of those candidates of a prefix that are chosen, best first.
///
/// That is the best one by [`preference_cmp`], and, where it was learnt from another autonomous
/// system, those to which [`is_equal_to`] likens it, at most `limit` in all (`maximum-paths`).
/// There are fewer than 2^32 candidates. Where one candidate alone is there or may be used, or the
/// best was begun or learnt inside, no more memory is taken than the list of places needs.
///
/// # Errors
///
/// If there is no memory.
pub fn choose<C: Candidate>(
    alloc: Global,
    candidates: &[C],
    limit: u8,
    relax: bool,
) -> Result<Vec<u32>, AllocError>
    requires { length candidates.now < 2 ^ 32 }
    ensures { IfOk result (λ places. places.items
        ≡ choose (map C.candidate_of candidates.now) limit relax) }
{
    if candidates.is_empty() {
        return Ok(Vec::new(alloc));
    }
    if candidates.len() == 1 && limit > 0 {
        let only = alone(alloc, 0)?;
        return Ok(only);
    }
    let place = best_place(candidates);
    let best = &candidates[place];
    if limit == 1 {
        let single = alone(alloc, place as u32)?;
        return Ok(single);
    }
    if is_external(best) {
        let used = used_with(alloc, candidates, best, limit, relax)?;
        return Ok(used);
    }
    let first = alone(alloc, place as u32)?;
    Ok(first)
}
