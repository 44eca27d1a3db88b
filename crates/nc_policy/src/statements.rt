//! Where the statement of a prefix stands among the networks or the aggregates of a process, by a
//! table; and where a prefix stands among those of a network.

ghost use Rattle.std.specs.Prelude.{◌≡◌, map, IfOk};
ghost use Rattle.nc_types.specs.Cidr.{Cidr};
ghost use Rattle.nc_types.specs.Config.{config_view};
ghost use Rattle.nc_policy.specs.Statements.{aggregates_in, networks_in};
ghost use Rattle.nc_policy.specs.Indexes.{placed_in};
ghost use Rattle.nc_policy.specs.Seen.{prefix_table, IsPrefixIndex};

use crate::prefix_places::{PlacedPrefix, PrefixPlaces};
use nc_tables::Numbered;
use nc_types::{AggregateStatement, NetworkStatement, Prefix, RouterConfig};
use std::alloc::{AllocError, Global};

/// What has a prefix.
pub(crate) trait Prefixed {
    ghost prefix_of: { Self → Cidr };

    fn prefix(&self) -> Prefix
        ensures { result ≡ prefix_of self.now };
}

impl Prefixed for NetworkStatement {
    ghost prefix_of = { λ network. network.prefix };

    fn prefix(&self) -> Prefix {
        self.prefix
    }
}

impl Prefixed for AggregateStatement {
    ghost prefix_of = { λ aggregate. aggregate.prefix };

    fn prefix(&self) -> Prefix {
        self.prefix
    }
}

/// The networks of a router; none where it has no process.
pub(crate) fn networks_in(config: &RouterConfig) -> &[NetworkStatement]
    ensures { result.now ≡ networks_in (config_view config.now) }
{
    match &config.process {
        Some(process) => &process.networks,
        None => &[],
    }
}

/// The aggregates of a router; none where it has no process.
pub(crate) fn aggregates_in(config: &RouterConfig) -> &[AggregateStatement]
    ensures { result.now ≡ aggregates_in (config_view config.now) }
{
    match &config.process {
        Some(process) => &process.aggregates,
        None => &[],
    }
}

// The prefixes of these.
fn prefixes_of<T: Prefixed>(alloc: Global, items: &[T]) -> Result<Vec<Prefix>, AllocError>
    ensures { IfOk result (λ prefixes. prefixes.items ≡ map T.prefix_of items.now) }
{
    let mut prefixes = Vec::with_capacity(alloc, items.len())?;
    'items: for item in items {
        prefixes.push(item.prefix())?;
    }
    Ok(prefixes)
}

/// A table of prefixes.
#[derive(Drop)]
pub(crate) struct PrefixIndex {
    /// The place of the first that has a prefix.
    pub(crate) first: PrefixPlaces,
}

impl PrefixIndex {
    /// The table of the prefixes of these.
    pub(crate) fn new<T: Prefixed>(alloc: Global, items: &[T]) -> Result<PrefixIndex, AllocError>
        ensures { IfOk result (IsPrefixIndex (map T.prefix_of items.now)) }
    {
        let prefixes = prefixes_of(alloc, items)?;
        let index = PrefixIndex::numbered(alloc, &prefixes)?;
        Ok(index)
    }

    /// The table of these prefixes.
    pub(crate) fn numbered(alloc: Global, prefixes: &[Prefix]) -> Result<PrefixIndex, AllocError>
        ensures { IfOk result (IsPrefixIndex prefixes.now) }
    {
        let mut placed = Vec::with_capacity(alloc, prefixes.len())?;
        'prefixes: for place in 0..prefixes.len() {
            let prefix = prefixes[place];
            placed.push(PlacedPrefix { prefix, place })?;
        }
        let first = PrefixPlaces::of(placed)?;
        Ok(PrefixIndex { first })
    }

    /// The place of the first that has a prefix. Takes no memory.
    pub(crate) fn place(&self, prefix: Prefix) -> Option<usize>
        ensures { result ≡ placed_in (prefix_table self.now) prefix }
    {
        self.first.get(prefix)
    }

    /// The same of a prefix with a number, which is looked for at its number first.
    pub(crate) fn place_near(&self, of: Numbered) -> Option<usize>
        ensures { result ≡ placed_in (prefix_table self.now) of.prefix }
    {
        self.first.get_near(of)
    }
}
