//! How high a local preference the clauses of a map set.

ghost use Rattle.std.specs.Prelude.{◌≡◌, ◌<◌, ℕ, length, slice_index_or, unwrap_or, if◌then◌else◌, IfOk};
ghost use Rattle.nc_types.specs.Config.{config_view};
ghost use Rattle.nc_policy.specs.Indexes.{named_in};
ghost use Rattle.nc_policy.specs.Preferences.{higher_of, is_at_first, AreHighest};
ghost use Rattle.nc_policy.specs.Seen.{name_table, IsNameIndex};
ghost use Rattle.nc_policy.specs.Views.{map_names};

use crate::names::NameIndex;
use nc_types::{Clause, RouterConfig};
use std::alloc::{AllocError, Global};

// Raises what stands at the place of the first clause of a clause's map to what this sets.
fn raise(highest: &mut Vec<u32>, maps: &NameIndex, clause: &Clause)
    ensures count { length highest.new.items ≡ length highest.old.items }
    ensures raised { (k : ℕ) → k < length highest.old.items → slice_index_or highest.new.items k 0
        ≡ (if is_at_first (named_in (name_table maps.now) clause.now.map) k
        then higher_of (slice_index_or highest.old.items k 0) (unwrap_or clause.now.preference 0)
        else slice_index_or highest.old.items k 0) }
{
    let Some(preference) = clause.preference else {
        return;
    };
    let Some(first) = maps.place(clause.map.bytes()) else {
        return;
    };
    if first < highest.len() && highest[first] < preference {
        highest[first] = preference;
    }
}

/// The highest local preference that clauses of a map set, at the place of its first clause; 0 where
/// none sets one.
pub(crate) fn highest_preferences(
    alloc: Global,
    config: &RouterConfig,
    maps: &NameIndex,
) -> Result<Vec<u32>, AllocError>
    requires { IsNameIndex (map_names (config_view config.now)) maps.now }
    ensures { IfOk result (λ highest. AreHighest (config_view config.now) highest.items) }
{
    let count = config.clauses.len();
    let mut highest = vec![in alloc; 0u32; count]?;
    let mut place = count;
    'clauses: while place > 0 {
        place -= 1;
        raise(&mut highest, maps, &config.clauses[place]);
    }
    Ok(highest)
}
