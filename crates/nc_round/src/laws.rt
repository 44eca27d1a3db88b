//! What a row is made of.

ghost use Rattle.std.specs.Prelude.{◌≡◌, ℕ, List};
ghost use Rattle.nc_types.specs.Cidr.{Cidr};
ghost use Rattle.nc_types.specs.Config.{ConfigView};
ghost use Rattle.nc_tables.specs.declared.base.BaseRow.{BaseRow};
ghost use Rattle.nc_tables.specs.declared.bgp.SessionRow.{SessionRow};
ghost use Rattle.nc_tables.specs.Rounds.{BgpRowView, row_at};
ghost use Rattle.nc_round.specs.Changes.{HaveCandidates, ReadAlike};

/// The row of a prefix at a router in the next table comes from what peers choose of the prefix,
/// and from what the router chooses of longer prefixes inside its aggregates for it: where two
/// tables are alike there, the row is the same. It does nothing: a caller that needs the law calls
/// it.
pub fn rows_are_made_of_what_is_read()
    ensures alike { (routers : List ConfigView) (tables : List (List BaseRow))
        (sessions : List (List SessionRow)) (old new : List (List BgpRowView))
        (router : ℕ) (prefix : Cidr) → HaveCandidates old → HaveCandidates new
        → ReadAlike routers tables sessions old new router prefix
        → row_at routers tables sessions old router prefix
        ≡ row_at routers tables sessions new router prefix }
{}
