//! What tables say of a prefix.

ghost use Rattle.std.specs.Prelude.{◌≡◌, ◌<◌, IfSome, length};
ghost use Rattle.std.specs.List.{list_any};
ghost use Rattle.std.specs.Option.{option_map};
ghost use Rattle.nc_tables.specs.Base.{same_prefix};
ghost use Rattle.nc_tables.specs.LocRibs.{IsNumbered};
ghost use Rattle.nc_tables.specs.Reach.{rows_of};
ghost use Rattle.nc_tables.specs.Rounds.{best_at};

use nc_tables::{BaseTables, LocRibs, Numbered, RibEntry};
use nc_types::{Prefix, RouterId};

/// Whether a router's base table has a row of a prefix.
pub(crate) fn has_row(base: &BaseTables, router: RouterId, prefix: Prefix) -> bool
    requires { router.0 < length base.now }
    ensures { result
        ≡ list_any (λ row. same_prefix row.prefix prefix) (rows_of base.now router.0) }
{
    let rows = base.rows_of(router, prefix);
    rows.from < rows.to
}

/// The best candidate that a router has chosen of a prefix, while the network settles.
pub(crate) fn best_of(ribs: &LocRibs, router: RouterId, of: Numbered) -> Option<&RibEntry>
    requires router { router.0 < length ribs.now.rows }
    requires number { IsNumbered ribs.now.prefixes of }
    ensures best { option_map (λ b. b.now) result ≡ best_at ribs.now.rows router.0 of.prefix }
    ensures own { IfSome result (λ b. b.now.route.prefix ≡ of.prefix) }
{
    ribs.chosen(router, of).first()
}
