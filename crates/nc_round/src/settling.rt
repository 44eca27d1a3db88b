ghost use Rattle.std.specs.Prelude.{◌≡◌, ◌≤◌, ℕ, All, IfOk, MatchOption, length};
ghost use Rattle.nc_types.specs.Cidr.{Cidr};
ghost use Rattle.nc_types.specs.declared.TheConstants.{MULTIPATH_LIMIT};
ghost use Rattle.nc_tables.specs.LocRibs.{AreChosen};
ghost use Rattle.nc_tables.specs.Rounds.{chosen_at, IsStable, IsUnstable};
ghost use Rattle.nc_message.specs.Inputs.{AreRoutingInputs};
ghost use Rattle.nc_round.specs.Likeness.{IsLikeness, IsSpread};

use crate::expansion::expand;
use crate::likeness::{Likeness, likeness_of};
use crate::rounds::{first_by, next_by};
use nc_decision::NetworkPeerings;
use nc_message::RoutingInputs;
use nc_tables::{BgpTable, LocRibs, RecentAttributes};
use std::alloc::{AllocError, Global};

// The table of all prefixes, from what is chosen of those that stand for them.
fn table_of(
    alloc: Global,
    recent: &mut RecentAttributes,
    inputs: &RoutingInputs<'_>,
    likeness: Likeness,
    ribs: LocRibs,
) -> Result<BgpTable, AllocError>
    requires inputs { AreRoutingInputs inputs.now }
    requires likeness { IsLikeness inputs.now.network.now inputs.now.base.now likeness }
    requires ribs { length ribs.rows ≡ length inputs.now.network.now }
    requires standing { ribs.prefixes ≡ likeness.standing.items }
    requires few { (router : ℕ) (p : Cidr) → length (chosen_at ribs.rows router p) ≤ MULTIPATH_LIMIT }
    ensures rows { IfOk result (λ table. All AreChosen table) }
    ensures spread { IfOk result
        (λ table. IsSpread inputs.now.network.now likeness ribs.rows table) }
{
    let table = expand(alloc, recent, inputs, likeness, ribs)?;
    let _count = table.count();
    Ok(table)
}

/// The first table that no round changes, if no more than so many rounds show it; `None` where each
/// of so many rounds changes something. No more than so many rounds are made.
///
/// # Errors
///
/// Memory that runs out.
pub fn settle_table(
    alloc: Global,
    inputs: RoutingInputs<'_>,
    rounds: u32,
) -> Result<Option<BgpTable>, AllocError>
    requires inputs { AreRoutingInputs inputs }
    ensures { IfOk result (λ settled. MatchOption settled
        (IsUnstable inputs.entry.network.now inputs.entry.base.now inputs.entry.sessions.now rounds)
        (IsStable inputs.entry.network.now inputs.entry.base.now inputs.entry.sessions.now rounds)) }
{
    if rounds == 0 {
        return Ok(None);
    }
    let all = NetworkPeerings::of(alloc, &inputs)?;
    let mut recent = RecentAttributes::new(alloc)?;
    let likeness = likeness_of(alloc, &inputs)?;
    let _routers = inputs.network.routers();
    let standing = &likeness.standing;
    let (mut ribs, mut changed) = first_by(alloc, &mut recent, inputs, &all, standing)?;
    'rounds: for _more in 0..rounds - 1 {
        if changed.rows.is_empty() {
            let table = table_of(alloc, &mut recent, &inputs, likeness, ribs)?;
            return Ok(Some(table));
        }
        let next = next_by(alloc, &mut recent, inputs, &all, ribs, changed)?;
        (ribs, changed) = next;
    }
    if changed.rows.is_empty() {
        let table = table_of(alloc, &mut recent, &inputs, likeness, ribs)?;
        return Ok(Some(table));
    }
    Ok(None)
}
