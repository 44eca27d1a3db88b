//! The names that a router defines.

ghost use Rattle.std.specs.Prelude.{◌≡◌, ◌||◌, ℕ, List, map, OnOk, IfOk};
ghost use Rattle.std.specs.List.{list_any};
ghost use Rattle.std.specs.Str.{bytes_eq};
ghost use Rattle.nc_types.specs.Config.{clause_view, community_list_view, config_view, list_view};
ghost use Rattle.nc_network.specs.Steps.{Knows, names_of};

use indexmap::IndexSet;
use nc_types::{Clause, CommunityList, Interface, PrefixList, RouterConfig, Text};
use std::alloc::{AllocError, Global};

/// A kind of lists: each kind has names of its own.
#[derive(Clone, Copy)]
pub(crate) enum ListKind {
    OfPrefixes,
    OfCommunities,
}

// Adds a name.
fn add(alloc: Global, names: &mut IndexSet<Text>, name: &Text) -> Result<(), AllocError>
    ensures { OnOk result ((q : List ℕ) → list_any (bytes_eq q) names.new.keys
        ≡ (list_any (bytes_eq q) names.old.keys || bytes_eq q name.now)) }
{
    names.insert(Text::new(alloc, name.bytes())?)?;
    Ok(())
}

/// The names of interfaces.
pub(crate) fn interface_names(
    alloc: Global,
    interfaces: &[Interface],
) -> Result<IndexSet<Text>, AllocError>
    ensures { IfOk result (λ names. Knows names.keys (map (λ i. i.name) interfaces.now)) }
{
    let mut names = IndexSet::new(alloc);
    'named: for item in interfaces {
        add(alloc, &mut names, &item.name)?;
    }
    Ok(names)
}

/// The names of the route maps of clauses.
pub(crate) fn map_names(alloc: Global, clauses: &[Clause]) -> Result<IndexSet<Text>, AllocError>
    ensures { IfOk result
        (λ names. Knows names.keys (map (λ k. k.map_name) (map clause_view clauses.now))) }
{
    let mut names = IndexSet::new(alloc);
    'named: for item in clauses {
        add(alloc, &mut names, &item.map)?;
    }
    Ok(names)
}

// The names of prefix lists.
fn prefix_list_names(alloc: Global, lists: &[PrefixList]) -> Result<IndexSet<Text>, AllocError>
    ensures { IfOk result
        (λ names. Knows names.keys (map (λ l. l.name) (map list_view lists.now))) }
{
    let mut names = IndexSet::new(alloc);
    'named: for item in lists {
        add(alloc, &mut names, &item.name)?;
    }
    Ok(names)
}

// The names of community lists.
fn community_list_names(
    alloc: Global,
    lists: &[CommunityList],
) -> Result<IndexSet<Text>, AllocError>
    ensures { IfOk result
        (λ names. Knows names.keys (map (λ l. l.name) (map community_list_view lists.now))) }
{
    let mut names = IndexSet::new(alloc);
    'named: for item in lists {
        add(alloc, &mut names, &item.name)?;
    }
    Ok(names)
}

/// The names of the lists of a kind that a router defines.
pub(crate) fn list_names(
    alloc: Global,
    kind: ListKind,
    config: &RouterConfig,
) -> Result<IndexSet<Text>, AllocError>
    ensures { IfOk result (λ names. Knows names.keys (names_of kind (config_view config.now))) }
{
    let names = match kind {
        ListKind::OfPrefixes => prefix_list_names(alloc, &config.lists)?,
        ListKind::OfCommunities => community_list_names(alloc, &config.community_lists)?,
    };
    Ok(names)
}
