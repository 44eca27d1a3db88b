//! Sets of communities in memory.

ghost use Rattle.std.specs.Prelude.{◌≡◌, IfOk};
ghost use Rattle.nc_types.specs.Communities as sets;

use crate::set::{gathered, united};
use nc_types::Communities;
use std::alloc::{AllocError, Global};

/// The set of these numbers; `None` where more than [`nc_types::COMMUNITY_LIMIT`] of them are
/// distinct.
///
/// # Errors
///
/// Memory that runs out.
pub fn gather(alloc: Global, values: &[u32]) -> Result<Option<Communities>, AllocError>
    ensures { IfOk result (λ set. set ≡ sets.gather values.now) }
{
    match gathered(values) {
        None => Ok(None),
        Some(set) => Ok(Some(set.communities(alloc)?)),
    }
}

/// The union of two sets; `None` where it has more than [`nc_types::COMMUNITY_LIMIT`] members.
///
/// # Errors
///
/// Memory that runs out.
pub fn union(
    alloc: Global,
    a: &Communities,
    b: &Communities,
) -> Result<Option<Communities>, AllocError>
    ensures { IfOk result (λ set. set ≡ sets.union a.now b.now) }
{
    match united(a.numbers(), b.numbers()) {
        None => Ok(None),
        Some(set) => Ok(Some(set.communities(alloc)?)),
    }
}
