//! What follows from any of some rows of a base table.

ghost use Rattle.std.specs.Prelude.{◌≡◌, ◌++◌, length, take, OnOk};
ghost use Rattle.nc_fact.specs.declared.fact.Fact.TheVariants as fact;
ghost use Rattle.nc_rules_route.specs.Parents.{parents};

use nc_fact::{Fact, is_hit, longest_rows, rows_of_prefix};
use nc_tables::Stable;
use nc_types::{Addr, Prefix, RouterId};
use std::alloc::AllocError;

/// Appends what follows from any hit for an address: the hits.
#[tactic(auto, unfolding(crate::specs::Parents::parents))]
pub(crate) fn push_resolve(
    state: &Stable,
    router: RouterId,
    addr: Addr,
    into: &mut Vec<Fact>,
) -> Result<(), AllocError>
    ensures ok { OnOk result (into.new.items
        ≡ into.old.items ++ parents state.now (fact.Resolve router addr)) }
    ensures kept { take (length into.old.items) into.new.items ≡ into.old.items }
{
    let longest = longest_rows(state, router, addr);
    'rows: for place in longest.from..longest.to {
        let row = place as u32;
        if is_hit(state, router, row) {
            into.push(Fact::Base(router, row))?;
        }
    }
    Ok(())
}

/// Appends what follows from any row of a prefix: these rows.
#[tactic(auto, unfolding(crate::specs::Parents::parents))]
pub(crate) fn push_source(
    state: &Stable,
    router: RouterId,
    prefix: Prefix,
    into: &mut Vec<Fact>,
) -> Result<(), AllocError>
    ensures ok { OnOk result (into.new.items
        ≡ into.old.items ++ parents state.now (fact.NetSource router prefix)) }
    ensures kept { take (length into.old.items) into.new.items ≡ into.old.items }
{
    let rows = rows_of_prefix(state, router, prefix);
    'rows: for place in rows.from..rows.to {
        into.push(Fact::Base(router, place as u32))?;
    }
    Ok(())
}
