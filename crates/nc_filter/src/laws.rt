//! The law of wildcards.

ghost use Rattle.std.specs.Prelude.{◌≡◌, ◌↔◌, ℕ, true};
ghost use Rattle.nc_types.specs.declared.filters.AddrMatch.{AddrMatch};
ghost use Rattle.nc_tables.specs.Filters.{matches};
ghost use Rattle.nc_filter.specs.Agreement.{Agrees};

/// An address matches an entry exactly where it agrees with the entry's in every bit that is 0 in the wildcard.
pub fn matching_is_lawful()
    ensures { (entry : AddrMatch) (addr : ℕ) → (matches entry addr ≡ true) ↔ Agrees entry addr }
{}
