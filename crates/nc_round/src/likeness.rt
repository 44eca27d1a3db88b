//! Prefixes that spread alike, so that one of them stands for the others while a network settles.

ghost use Rattle.std.specs.Prelude.{◌≡◌, ◌<◌, ◌∷◌, ◌++◌, [], true, All, Contains, List, IfOk, IfSome, OnOk, length, map, Some};
ghost use Rattle.std.specs.List.{list_any};
ghost use Rattle.nc_types.specs.Cidr.{Cidr};
ghost use Rattle.nc_types.specs.Config.{ConfigView, ProcessView, config_view, process_view};
ghost use Rattle.nc_tables.specs.declared.base.BaseRow.{BaseRow};
ghost use Rattle.nc_tables.specs.Base.{same_prefix};
ghost use Rattle.nc_tables.specs.LocRibs.{Ascend};
ghost use Rattle.nc_tables.specs.Reach.{rows_of};
ghost use Rattle.nc_tables.specs.Rounds.{prefixes};
ghost use Rattle.nc_message.specs.Inputs.{AreRoutingInputs};
ghost use Rattle.nc_round.specs.Keys.{Key};
ghost use Rattle.nc_round.specs.Likeness.{begins, ArePlain, BeginsAlone, IsDraft, IsLikeness, IsOwnerIn, IsPlain, AreOwners};
ghost use Rattle.nc_round.specs.Waking.{begun_from};

use crate::owners::{Owner, owners_of};
use crate::waking::begun;
use nc_main_rib::in_order;
use nc_message::RoutingInputs;
use nc_tables::BaseTables;
use nc_types::{Network, Prefix, Process, RouterConfig, RouterId};
use std::alloc::{AllocError, Global};

/// Which prefix stands for each that any router begins, while a network settles.
#[derive(Drop)]
pub(crate) struct Likeness {
    /// All prefixes, in order.
    pub(crate) all: Vec<Prefix>,
    /// Those that stand for some of them, in order.
    pub(crate) standing: Vec<Prefix>,
    /// For each of all, the place of the one that stands for it.
    pub(crate) places: Vec<usize>,
}

// Whether a process tells no prefix from another: it has no aggregate and no map.
fn is_plain(process: &Process) -> bool
    ensures { result ≡ true → IsPlain (process_view process.now) }
{
    let plain = process.neighbors.iter().all(|neighbor| neighbor.map_in.is_none()
        && neighbor.map_out.is_none());
    plain && process.aggregates.is_empty()
}

// Whether a router tells no prefix from another.
fn is_plain_at(config: &RouterConfig) -> bool
    ensures { result ≡ true → (p : ProcessView) → (config_view config.now).process ≡ Some p
        → IsPlain p }
{
    match &config.process {
        Some(process) => is_plain(process),
        None => true,
    }
}

// Whether no router tells a prefix from another.
fn are_plain(routers: &[RouterConfig]) -> bool
    ensures { result ≡ true → ArePlain (map config_view routers.now) }
{
    'routers: for config in routers {
        if !is_plain_at(config) {
            return false;
        }
    }
    true
}

// Whether a router's base table has a row of a prefix.
fn has_row(base: &BaseTables, router: RouterId, prefix: Prefix) -> bool
    requires { router.0 < length base.now }
    ensures { result
        ≡ list_any (λ row. same_prefix row.prefix prefix) (rows_of base.now router.0) }
{
    let rows = base.rows_of(router, prefix);
    rows.from < rows.to
}

// Whether a router begins a prefix: it has a network of it, and a row in its base table.
fn begins(inputs: &RoutingInputs<'_>, router: RouterId, prefix: Prefix) -> bool
    requires inputs { AreRoutingInputs inputs.now }
    requires router { router.0 < length inputs.now.network.now }
    ensures { result ≡ begins inputs.now.network.now inputs.now.base.now router.0 prefix }
{
    match inputs.policies.network_of(inputs.network, router, prefix) {
        Some(_) => has_row(inputs.base, router, prefix),
        None => false,
    }
}

// The router that begins a prefix alone, where it does.
fn sole_owner(inputs: &RoutingInputs<'_>, owner: Owner, prefix: Prefix) -> Option<RouterId>
    requires inputs { AreRoutingInputs inputs.now }
    requires known { Contains (prefixes inputs.now.network.now) prefix }
    requires owner { IsOwnerIn (begun_from 0 inputs.now.network.now) prefix owner }
    ensures alone { IfSome result
        (λ r. BeginsAlone inputs.now.network.now inputs.now.base.now prefix r.0) }
    ensures within { IfSome result (λ r. r.0 < length inputs.now.network.now) }
{
    let Owner::One(router) = owner else {
        return None;
    };
    if begins(inputs, router, prefix) {
        Some(router)
    } else {
        None
    }
}

// What stands for some prefixes, while they are gone through.
#[derive(Drop)]
struct Draft {
    standing: Vec<Prefix>,
    places: Vec<usize>,
    // For each router, the place of the prefix that stands for those that it begins alone.
    firsts: Vec<Option<usize>>,
}

impl Draft {
    // No prefix yet, of so many routers.
    fn new(alloc: Global, routers: usize) -> Result<Draft, AllocError>
        ensures draft { IfOk result (λ d. (cs : List ConfigView) (tables : List (List BaseRow))
            → IsDraft cs tables [] d) }
        ensures count { IfOk result (λ d. length d.firsts.items ≡ routers) }
    {
        let mut firsts = Vec::new(alloc);
        firsts.resize(routers, None)?;
        Ok(Draft {
            standing: Vec::new(alloc),
            places: Vec::new(alloc),
            firsts,
        })
    }

    // A prefix that stands for itself.
    fn stand(&mut self, prefix: Prefix) -> Result<usize, AllocError>
        ensures draft { OnOk result ((cs : List ConfigView) (tables : List (List BaseRow))
            (seen : List Cidr) → Ascend (seen ++ prefix ∷ []) → IsDraft cs tables seen self.old
            → IsDraft cs tables (seen ++ prefix ∷ []) self.new) }
        ensures standing { OnOk result
            (self.new.standing.items ≡ self.old.standing.items ++ prefix ∷ []) }
        ensures place { IfOk result (λ place. place ≡ length self.old.standing.items) }
        ensures firsts { self.new.firsts ≡ self.old.firsts }
    {
        let place = self.standing.len();
        self.standing.push(prefix)?;
        self.places.push(place)?;
        Ok(place)
    }

    // One more prefix, given the router that begins it alone.
    fn take(&mut self, prefix: Prefix, owner: Option<RouterId>) -> Result<(), AllocError>
        requires within { IfSome owner (λ r. r.0 < length self.old.firsts.items) }
        ensures draft { OnOk result ((cs : List ConfigView) (tables : List (List BaseRow))
            (seen : List Cidr) → Ascend (seen ++ prefix ∷ [])
            → IfSome owner (λ r. BeginsAlone cs tables prefix r.0)
            → IsDraft cs tables seen self.old
            → IsDraft cs tables (seen ++ prefix ∷ []) self.new) }
        ensures count { OnOk result
            (length self.new.firsts.items ≡ length self.old.firsts.items) }
    {
        let Some(router) = owner else {
            self.stand(prefix)?;
            return Ok(());
        };
        let router = router.0 as usize;
        if let Some(place) = self.firsts[router] {
            self.places.push(place)?;
            return Ok(());
        }
        let place = self.stand(prefix)?;
        self.firsts[router] = Some(place);
        Ok(())
    }
}

// Which prefix stands for each, where no router tells a prefix from another.
fn by_owner(
    alloc: Global,
    inputs: &RoutingInputs<'_>,
    all: Vec<Prefix>,
    owners: &[Owner],
) -> Result<Likeness, AllocError>
    requires inputs { AreRoutingInputs inputs.now }
    requires plain { ArePlain inputs.now.network.now }
    requires all { all.items ≡ prefixes inputs.now.network.now }
    requires count { length owners.now ≡ length all.items }
    requires owners { AreOwners (begun_from 0 inputs.now.network.now) all.items owners.now }
    ensures { IfOk result (IsLikeness inputs.now.network.now inputs.now.base.now) }
{
    let mut draft = Draft::new(alloc, inputs.network.routers().len())?;
    'prefixes: for number in 0..all.len() {
        let owner = sole_owner(inputs, owners[number], all[number]);
        draft.take(all[number], owner)?;
    }
    Ok(Likeness {
        all,
        standing: draft.standing,
        places: draft.places,
    })
}

// Each prefix stands for itself.
fn by_itself(alloc: Global, all: Vec<Prefix>) -> Result<Likeness, AllocError>
    ensures all { IfOk result (λ l. l.all.items ≡ all.items) }
    ensures standing { IfOk result (λ l. l.standing.items ≡ all.items) }
    ensures count { IfOk result (λ l. length l.places.items ≡ length all.items) }
    ensures within { IfOk result (λ l. All (λ place. place < length all.items) l.places.items) }
{
    let standing = Vec::from_slice(alloc, &all)?;
    let places = (0..all.len()).collect(alloc)?;
    Ok(Likeness {
        all,
        standing,
        places,
    })
}

// The prefixes of rows.
fn prefixes_of(alloc: Global, keys: &[(RouterId, Prefix)]) -> Result<Vec<Prefix>, AllocError>
    ensures { IfOk result (λ prefixes. prefixes.items ≡ map (λ (k : Key). k.1) keys.now) }
{
    let prefixes = keys.iter().map(|key| key.1).collect(alloc)?;
    Ok(prefixes)
}

/// Which prefix stands for each that any router begins: where no router tells prefixes apart, the first
/// of those that the same router begins alone, and else the prefix itself.
///
/// # Errors
///
/// Memory that runs out.
pub(crate) fn likeness_of(alloc: Global, inputs: &RoutingInputs<'_>) -> Result<Likeness, AllocError>
    requires { AreRoutingInputs inputs.now }
    ensures { IfOk result (IsLikeness inputs.now.network.now inputs.now.base.now) }
{
    let keys = begun(alloc, inputs.network)?;
    let all = in_order(prefixes_of(alloc, &keys)?)?;
    if !are_plain(inputs.network.routers()) {
        let likeness = by_itself(alloc, all)?;
        return Ok(likeness);
    }
    let owners = owners_of(alloc, &all, &keys)?;
    let likeness = by_owner(alloc, inputs, all, &owners)?;
    Ok(likeness)
}
