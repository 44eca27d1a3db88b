//! Which clauses of a map ask for communities.

ghost use Rattle.std.specs.Prelude.{◌≡◌, ◌<◌, ℕ, List, [], All, true, false, length, nat_eq, not, IfOk, IfSome, None, OnOk, Some, slice_get};
ghost use Rattle.nc_types.specs.Config.{ClauseView, config_view};
ghost use Rattle.nc_tables.specs.Policy.{community_place, met};
ghost use Rattle.nc_policy.specs.Indexes.{place_from};
ghost use Rattle.nc_policy.specs.Kept.{is_asked_by, AreAskers, IsUnmet};
ghost use Rattle.nc_policy.specs.Seen.{IsIndexed};
ghost use Rattle.nc_policy.specs.Views.{map_names};

use crate::askers::{Asker, Askers};
use crate::router_index::RouterIndex;
use nc_types::RouterConfig;
use std::alloc::{AllocError, Global};

// Adds the clause at a place, if it asks for communities, by those of which a route has to have one to
// meet it. Tells whether they are known.
fn add_clause(
    config: &RouterConfig,
    index: &RouterIndex,
    askers: &mut Vec<Asker>,
    place: usize,
) -> Result<bool, AllocError>
    requires indexed { IsIndexed (config_view config.now) index.now }
    ensures kept { OnOk result ((j : ℕ) (held : List ℕ) → is_asked_by askers.new.items j held ≡ false
        → is_asked_by askers.old.items j held ≡ false) }
    ensures own { OnOk result ((names : List (List ℕ)) (name : List ℕ) → slice_get names place ≡ Some name
        → All (λ a. slice_get names a.place ≡ Some name) askers.old.items
        → All (λ a. slice_get names a.place ≡ Some name) askers.new.items) }
    ensures clause { IfOk result (λ known. known ≡ true → (k : ClauseView)
        → slice_get (config_view config.now).clauses place ≡ Some k
        → not (nat_eq (length k.community_lists) 0) ≡ true
        → (held : List ℕ) → is_asked_by askers.new.items place held ≡ false
        → met (community_place (config_view config.now) held) k.community_lists ≡ None) }
{
    let Some(clause) = config.clauses.get(place) else {
        return Ok(false);
    };
    if clause.community_lists.is_empty() {
        return Ok(true);
    }
    let Some(guard) = index.guards.get(place) else {
        return Ok(false);
    };
    let known = guard.add_to(askers, place)?;
    Ok(known)
}

/// The clauses of a map that ask for communities; `None` where it isn't known of one without which
/// communities it is met by no route. The map's first clause stands at this place.
pub(crate) fn asked_by(
    alloc: Global,
    config: &RouterConfig,
    index: &RouterIndex,
    name: &[u8],
    first: usize,
) -> Result<Option<Askers>, AllocError>
    requires indexed { IsIndexed (config_view config.now) index.now }
    requires first { Some first ≡ place_from name.now 0 (map_names (config_view config.now)) }
    ensures askers { IfOk result (λ asked. IfSome asked (AreAskers (config_view config.now) name.now)) }
    ensures bare { IfOk result (λ asked. IfSome asked
        (λ askers. IsUnmet (config_view config.now) name.now [])) }
{
    let mut askers = Vec::new(alloc);
    let mut next = Some(first);
    'clauses: while let Some(place) = next {
        if !add_clause(config, index, &mut askers, place)? {
            return Ok(None);
        }
        next = index.maps.behind(place);
    }
    let askers = Askers::of(askers)?;
    Ok(Some(askers))
}
