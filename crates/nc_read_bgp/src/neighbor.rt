//! What is behind `neighbor A`: its first word is told once, then what is behind it.

ghost use Rattle.std.specs.Prelude.{◌≡◌, ◌∷◌, codes};
ghost use Rattle.nc_lines.specs.Lines.{words_of};
ghost use Rattle.nc_read_bgp.specs.Statements.{neighbor_says};
ghost use Rattle.nc_read_bgp.specs.Readings.{neighbor_reading};

use crate::first::{NeighborFirst, read_neighbor_first};
use crate::numbers::{only_asn, only_positive};
use crate::statement::NeighborStatement;
use nc_lines::cut::cut_word;
use nc_lines::statement::{Reading, alone, is_word};
use nc_types::Cause;

// What is behind `remote-as`.
#[tactic(auto, unfolding(crate::specs::Statements::neighbor_says))]
fn behind_remote_as(rest: &[u8]) -> Reading<NeighborStatement<'_>>
    ensures { neighbor_reading result ≡ neighbor_says (codes "remote-as" ∷ words_of rest.now) }
{
    match only_asn(rest) {
        None => Reading::Faulty(Cause::Syntax),
        Some(asn) => Reading::Says(NeighborStatement::RemoteAs(asn)),
    }
}

// What is behind `update-source`.
#[tactic(auto, unfolding(crate::specs::Statements::neighbor_says))]
fn behind_source(rest: &[u8]) -> Reading<NeighborStatement<'_>>
    ensures { neighbor_reading result ≡ neighbor_says (codes "update-source" ∷ words_of rest.now) }
{
    let Some((name, rest)) = cut_word(rest) else {
        return Reading::Faulty(Cause::Syntax);
    };
    match cut_word(rest) {
        None => Reading::Says(NeighborStatement::Source(name)),
        Some(_) => Reading::Faulty(Cause::Syntax),
    }
}

// What is behind `ebgp-multihop`.
#[tactic(auto, unfolding(crate::specs::Statements::neighbor_says))]
fn behind_multihop(rest: &[u8]) -> Reading<NeighborStatement<'_>>
    ensures { neighbor_reading result ≡ neighbor_says (codes "ebgp-multihop" ∷ words_of rest.now) }
{
    if cut_word(rest).is_none() {
        return Reading::Says(NeighborStatement::Multihop);
    }
    match only_positive(rest, 255) {
        None => Reading::Faulty(Cause::Syntax),
        Some(_) => Reading::Says(NeighborStatement::Multihop),
    }
}

// What is behind `next-hop-self`.
#[tactic(auto, unfolding(crate::specs::Statements::neighbor_says))]
fn behind_self_hop(rest: &[u8]) -> Reading<NeighborStatement<'_>>
    ensures { neighbor_reading result ≡ neighbor_says (codes "next-hop-self" ∷ words_of rest.now) }
{
    match cut_word(rest) {
        None => Reading::Says(NeighborStatement::SelfHop),
        Some((word, _)) => {
            if is_word(word, "all") {
                Reading::Faulty(Cause::Unsupported)
            } else {
                Reading::Faulty(Cause::Syntax)
            }
        }
    }
}

// What is behind `route-map`.
#[tactic(auto, unfolding(crate::specs::Statements::neighbor_says))]
fn behind_map(rest: &[u8]) -> Reading<NeighborStatement<'_>>
    ensures { neighbor_reading result ≡ neighbor_says (codes "route-map" ∷ words_of rest.now) }
{
    let Some((name, rest)) = cut_word(rest) else {
        return Reading::Faulty(Cause::Syntax);
    };
    let Some((way, rest)) = cut_word(rest) else {
        return Reading::Faulty(Cause::Syntax);
    };
    if cut_word(rest).is_some() {
        return Reading::Faulty(Cause::Syntax);
    }
    if is_word(way, "in") {
        return Reading::Says(NeighborStatement::MapIn(name));
    }
    if is_word(way, "out") {
        return Reading::Says(NeighborStatement::MapOut(name));
    }
    Reading::Faulty(Cause::Syntax)
}

// What is behind `shutdown`.
#[tactic(auto, unfolding(crate::specs::Statements::neighbor_says))]
fn behind_shutdown(rest: &[u8]) -> Reading<NeighborStatement<'_>>
    ensures { neighbor_reading result ≡ neighbor_says (codes "shutdown" ∷ words_of rest.now) }
{
    match cut_word(rest) {
        None => Reading::Says(NeighborStatement::Shuts),
        Some(_) => Reading::Faulty(Cause::Syntax),
    }
}

// What is behind `activate`.
#[tactic(auto, unfolding(crate::specs::Statements::neighbor_says))]
fn behind_activate(rest: &[u8]) -> Reading<NeighborStatement<'_>>
    ensures { neighbor_reading result ≡ neighbor_says (codes "activate" ∷ words_of rest.now) }
{
    match cut_word(rest) {
        None => Reading::Says(NeighborStatement::Activates),
        Some(_) => Reading::Faulty(Cause::Syntax),
    }
}

// What is behind `send-community`.
#[tactic(auto, unfolding(crate::specs::Statements::neighbor_says))]
fn behind_communities(rest: &[u8]) -> Reading<NeighborStatement<'_>>
    ensures { neighbor_reading result ≡ neighbor_says (codes "send-community" ∷ words_of rest.now) }
{
    let Some((word, rest)) = cut_word(rest) else {
        return Reading::Says(NeighborStatement::SendsCommunities);
    };
    if cut_word(rest).is_some() {
        return Reading::Faulty(Cause::Syntax);
    }
    if is_word(word, "standard") || is_word(word, "both") {
        return Reading::Says(NeighborStatement::SendsCommunities);
    }
    if is_word(word, "extended") {
        return Reading::Outside;
    }
    Reading::Faulty(Cause::Syntax)
}

/// What is behind `neighbor A`.
#[tactic(auto, unfolding(crate::specs::Statements::neighbor_says))]
pub(crate) fn read_neighbor_statement(text: &[u8]) -> Reading<NeighborStatement<'_>>
    ensures { neighbor_reading result ≡ neighbor_says (words_of text.now) }
{
    let Some((word, rest)) = cut_word(text) else {
        return Reading::Outside;
    };
    match read_neighbor_first(word) {
        NeighborFirst::RemoteAs => behind_remote_as(rest),
        NeighborFirst::UpdateSource => behind_source(rest),
        NeighborFirst::EbgpMultihop => behind_multihop(rest),
        NeighborFirst::NextHopSelf => behind_self_hop(rest),
        NeighborFirst::RouteMap => behind_map(rest),
        NeighborFirst::Shutdown => behind_shutdown(rest),
        NeighborFirst::Activate => behind_activate(rest),
        NeighborFirst::SendCommunity => behind_communities(rest),
        NeighborFirst::Unsupported => Reading::Faulty(Cause::Unsupported),
        NeighborFirst::Other => Reading::Outside,
    }
}
