//! Which of two candidates is preferred, and which are as good as each other.

ghost use Rattle.std.specs.Prelude.{◌≡◌};
ghost use Rattle.std.specs.Ordering.{nat_cmp, ordering_then};
ghost use Rattle.nc_tables.specs.Choice.{class_of, internal_rank, is_external, is_learnt};
ghost use Rattle.nc_tables.specs.Choice.{is_equal_to, origin_rank, preference_cmp, same_path};
ghost use Rattle.nc_select.specs.Tied.{tied_cmp};

use crate::candidate::Candidate;
use nc_tables::BgpFrom;
use nc_types::OriginCode;
use std::cmp::Ordering;

// Networks come first, then aggregates, then what was learnt.
fn class_of(from: BgpFrom) -> u8
    ensures { result ≡ class_of from }
{
    match from {
        BgpFrom::Origin(_) => 0,
        BgpFrom::Aggregate(_) => 1,
        BgpFrom::Entry(_) => 2,
    }
}

fn is_learnt(from: BgpFrom) -> bool
    ensures { result ≡ is_learnt from }
{
    matches!(from, BgpFrom::Entry(_))
}

fn origin_rank(origin: OriginCode) -> u8
    ensures { result ≡ origin_rank origin }
{
    match origin {
        OriginCode::Igp => 0,
        OriginCode::Incomplete => 1,
    }
}

fn internal_rank(internal: bool) -> u8
    ensures { result ≡ internal_rank internal }
{
    if internal { 1 } else { 0 }
}

// Which of two candidates is preferred by who sent it.
fn sender_cmp<C: Candidate>(a: &C, b: &C) -> Ordering
    ensures { result ≡ ordering_then
        (nat_cmp (C.candidate_of a.now).sender_id.0 (C.candidate_of b.now).sender_id.0)
        (nat_cmp (C.candidate_of a.now).sender.0 (C.candidate_of b.now).sender.0) }
{
    let id = a.sender_id().cmp(&b.sender_id());
    if id.is_ne() {
        return id;
    }
    a.sender().cmp(&b.sender())
}

// Which of two candidates is preferred that tie up to the lengths of their paths.
fn tied_cmp<C: Candidate>(a: &C, b: &C) -> Ordering
    ensures { result ≡ tied_cmp (C.candidate_of a.now) (C.candidate_of b.now) }
{
    let origin = origin_rank(a.origin()).cmp(&origin_rank(b.origin()));
    if origin.is_ne() {
        return origin;
    }
    let metric = a.metric().cmp(&b.metric());
    if metric.is_ne() {
        return metric;
    }
    let internal = internal_rank(a.is_internal()).cmp(&internal_rank(b.is_internal()));
    if internal.is_ne() {
        return internal;
    }
    sender_cmp(a, b)
}

/// Which of two candidates of a prefix is preferred: `Less` where the first one is (Cisco IOS,
/// BGP best path selection).
///
/// By the first of these that differs: a network before an aggregate before what was learnt, the
/// higher local preference, the shorter path, the origin IGP, the lower metric, what another
/// autonomous system sent, the lower router id of the sender, its lower address. What comes behind
/// one that differs isn't asked.
pub fn preference_cmp<C: Candidate>(a: &C, b: &C) -> Ordering
    ensures { result ≡ preference_cmp (C.candidate_of a.now) (C.candidate_of b.now) }
{
    let class = class_of(a.from()).cmp(&class_of(b.from()));
    if class.is_ne() {
        return class;
    }
    let preference = b.preference().cmp(&a.preference());
    if preference.is_ne() {
        return preference;
    }
    let path = a.path_length().cmp(&b.path_length());
    if path.is_ne() {
        return path;
    }
    tied_cmp(a, b)
}

/// Whether a candidate was learnt from another autonomous system.
pub(crate) fn is_external<C: Candidate>(x: &C) -> bool
    ensures { result ≡ is_external (C.candidate_of x.now) }
{
    is_learnt(x.from()) && !x.is_internal()
}

// Whether the paths of two candidates are equal, or equally long where the process is relaxed.
fn same_path<C: Candidate>(relax: bool, a: &C, b: &C) -> bool
    ensures { result ≡ same_path relax (C.candidate_of a.now).route.path
        (C.candidate_of b.now).route.path }
{
    if relax {
        a.path_length() == b.path_length()
    } else {
        a.has_same_path(b)
    }
}

/// Whether a candidate is used beside the best one: it was learnt from another autonomous system,
/// and is as good but for who sent it (Cisco IOS, BGP multipath).
///
/// `relax` is whether paths that are equally long count as equal (`bestpath as-path
/// multipath-relax`).
pub fn is_equal_to<C: Candidate>(relax: bool, best: &C, x: &C) -> bool
    ensures { result ≡ is_equal_to relax (C.candidate_of best.now) (C.candidate_of x.now) }
{
    is_external(x)
        && x.preference() == best.preference()
        && origin_rank(x.origin()) == origin_rank(best.origin())
        && x.metric() == best.metric()
        && same_path(relax, x, best)
}
