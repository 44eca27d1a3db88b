//! Which router begins a prefix, where one alone does.

ghost use Rattle.std.specs.Prelude.{◌≡◌, ◌∷◌, ◌++◌, [], List, IfOk, length};
ghost use Rattle.nc_tables.specs.LocRibs.{Ascend};
ghost use Rattle.nc_round.specs.Keys.{Key};
ghost use Rattle.nc_round.specs.Likeness.{owner_with, AreOwners};

use nc_types::{Prefix, RouterId};
use std::alloc::{AllocError, Global};

/// By which routers a prefix is begun.
#[derive(Clone, Copy)]
pub(crate) enum Owner {
    None,
    One(RouterId),
    Several,
}

impl Owner {
    // The same with one more router.
    fn with(self, router: RouterId) -> Owner
        ensures { result ≡ owner_with self router }
    {
        match self {
            Owner::None => Owner::One(router),
            Owner::One(own) => {
                if own == router {
                    Owner::One(own)
                } else {
                    Owner::Several
                }
            }
            Owner::Several => Owner::Several,
        }
    }
}

// Notes that a router begins a prefix.
fn note(owners: &mut Vec<Owner>, all: &[Prefix], key: (RouterId, Prefix))
    requires ordered { Ascend all.now }
    requires count { length owners.old.items ≡ length all.now }
    ensures count { length owners.new.items ≡ length all.now }
    ensures owners { (seen : List Key) → AreOwners seen all.now owners.old.items
        → AreOwners (seen ++ key ∷ []) all.now owners.new.items }
{
    let (router, prefix) = key;
    if let Ok(number) = all.binary_search(&prefix) {
        owners[number] = owners[number].with(router);
    }
}

/// By which routers each of some prefixes in order is begun, given all that begin one.
///
/// # Errors
///
/// Memory that runs out.
pub(crate) fn owners_of(
    alloc: Global,
    all: &[Prefix],
    keys: &[(RouterId, Prefix)],
) -> Result<Vec<Owner>, AllocError>
    requires { Ascend all.now }
    ensures count { IfOk result (λ owners. length owners.items ≡ length all.now) }
    ensures owners { IfOk result (λ owners. AreOwners keys.now all.now owners.items) }
{
    let mut owners = Vec::new(alloc);
    owners.resize(all.len(), Owner::None)?;
    'keys: for key in keys {
        note(&mut owners, all, *key);
    }
    Ok(owners)
}
