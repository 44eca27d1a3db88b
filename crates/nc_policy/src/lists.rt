//! By which entries prefix lists and community lists permit.

ghost use Rattle.std.specs.Prelude.{◌≡◌, ◌<◌, IfSome, Some, length, map, slice_get};
ghost use Rattle.nc_types.specs.Config.{community_list_view, config_view, list_view};
ghost use Rattle.nc_types.specs.Config.{ConfigView, PrefixListView};
ghost use Rattle.nc_types.specs.WellFormed.{IsWellFormed};
ghost use Rattle.nc_tables.specs.Policy.{deciding_entry, is_of, permitting_prefix, prefix_place};
ghost use Rattle.nc_tables.specs.Policy.{permitting_community, community_place};
ghost use Rattle.nc_policy.specs.Views.{place_of, named_list};
ghost use Rattle.nc_policy.specs.Views.{community_place_of, named_community_list};
ghost use Rattle.nc_policy.specs.Seen.{IsIndexOf, IsIndexed};

use crate::index::ListIndex;
use crate::router_index::RouterIndex;
use nc_community::{Held, decide};
use nc_tables::Place;
use nc_types::{CommunityList, ListEntry, Prefix, PrefixList, Reference, RouterConfig};

// Whether an entry is of a prefix.
fn is_of(prefix: Prefix, entry: &ListEntry) -> bool
    ensures { result ≡ is_of prefix entry.now }
{
    entry.prefix.covers(prefix.addr()) && entry.low <= prefix.len() && prefix.len() <= entry.high
}

// The place of the first entry that is of a prefix.
fn first_of(prefix: Prefix, entries: &[ListEntry]) -> Option<usize>
    ensures { result ≡ deciding_entry (is_of prefix) entries.now }
{
    entries.iter().position(|entry| is_of(prefix, entry))
}

// The place of the entry that decides on a prefix: by the table of the list, if there is one.
fn deciding_entry(list: &PrefixList, index: Option<&ListIndex>, prefix: Prefix) -> Option<usize>
    requires indexed { IfSome index (λ x. IsIndexOf list.now.entries.items x.now) }
    ensures { result ≡ deciding_entry (is_of prefix) list.now.entries.items }
{
    match index {
        Some(index) => index.deciding(prefix),
        None => first_of(prefix, &list.entries),
    }
}

// The place of the entry by which a prefix list permits a prefix.
fn permitting_prefix(list: &PrefixList, index: Option<&ListIndex>, prefix: Prefix) -> Option<usize>
    requires indexed { IfSome index (λ x. IsIndexOf list.now.entries.items x.now) }
    ensures entry { result ≡ permitting_prefix prefix list.now.entries.items }
    ensures within { IfSome result (λ entry. entry < length list.now.entries.items) }
{
    let place = deciding_entry(list, index, prefix)?;
    let entry = list.entries.get(place)?;
    if entry.permit { Some(place) } else { None }
}

// The place of the entry by which a community list permits communities.
fn permitting_community(list: &CommunityList, held: &Held) -> Option<usize>
    ensures entry { result ≡ permitting_community held.now list.now.entries.items }
    ensures within { IfSome result (λ entry. entry < length list.now.entries.items) }
{
    let place = decide(list, held)?;
    let entry = list.entries.get(place)?;
    if entry.permit { Some(place) } else { None }
}

// The place of the first prefix list of a name.
fn first_list_named(lists: &[PrefixList], name: &[u8]) -> Option<usize>
    ensures { result ≡ place_of name.now (map list_view lists.now) }
{
    lists.iter().position(|list| name == list.name.bytes())
}

// The place of the first community list of a name.
fn first_community_list_named(lists: &[CommunityList], name: &[u8]) -> Option<usize>
    ensures { result ≡ community_place_of name.now (map community_list_view lists.now) }
{
    lists.iter().position(|list| name == list.name.bytes())
}

// The place of the prefix list of a name: by the router's table, if there is one.
fn list_named(config: &RouterConfig, index: Option<&RouterIndex>, name: &[u8]) -> Option<usize>
    requires indexed { IfSome index (λ x. IsIndexed (config_view config.now) x.now) }
    ensures { result ≡ named_list (config_view config.now) name.now }
{
    match index {
        Some(index) => index.names.place(name),
        None => first_list_named(&config.lists, name),
    }
}

// The place of the community list of a name.
fn community_list_named(
    config: &RouterConfig,
    index: Option<&RouterIndex>,
    name: &[u8],
) -> Option<usize>
    requires indexed { IfSome index (λ x. IsIndexed (config_view config.now) x.now) }
    ensures { result ≡ named_community_list (config_view config.now) name.now }
{
    match index {
        Some(index) => index.community_names.place(name),
        None => first_community_list_named(&config.community_lists, name),
    }
}

// The table of the prefix list at a place, if the router has tables.
fn index_of<'a>(index: Option<&'a RouterIndex>, place: usize) -> Option<&'a ListIndex>
    ensures { (config : ConfigView) (list : PrefixListView)
        → IfSome index.entry (λ x. IsIndexed config x.now)
        → slice_get config.lists place ≡ Some list
        → IfSome result (λ x. IsIndexOf list.entries x.now) }
{
    let index = index?;
    match index.lists.get(place) {
        Some(Some(table)) => Some(table),
        _ => None,
    }
}

// The place of a part of a configuration as a number: there are no more parts than elements, and no
// more elements than lines.
pub(crate) fn place_number(config: &RouterConfig, place: usize) -> u32
    requires { place < config.now.line_count }
    ensures { result ≡ place }
{
    let lines = config.line_count as usize;
    prove!(place < lines);
    place as u32
}

/// The entry by which the prefix list that a reference names permits a prefix.
pub(crate) fn prefix_place(
    config: &RouterConfig,
    index: Option<&RouterIndex>,
    prefix: Prefix,
    reference: &Reference,
) -> Option<Place>
    requires indexed { IfSome index (λ x. IsIndexed (config_view config.now) x.now) }
    requires formed { IsWellFormed (config_view config.now) }
    ensures { result ≡ prefix_place (config_view config.now) prefix reference.now }
{
    let list = list_named(config, index, reference.name.bytes())?;
    let found = config.lists.get(list)?;
    let entry = permitting_prefix(found, index_of(index, list), prefix)?;
    Some(Place {
        list: place_number(config, list),
        entry: place_number(config, entry),
    })
}

/// The entry by which the community list that a reference names permits communities.
pub(crate) fn community_place(
    config: &RouterConfig,
    index: Option<&RouterIndex>,
    held: &Held,
    reference: &Reference,
) -> Option<Place>
    requires indexed { IfSome index (λ x. IsIndexed (config_view config.now) x.now) }
    requires formed { IsWellFormed (config_view config.now) }
    ensures { result ≡ community_place (config_view config.now) held.now reference.now }
{
    let list = community_list_named(config, index, reference.name.bytes())?;
    let found = config.community_lists.get(list)?;
    let entry = permitting_community(found, held)?;
    Some(Place {
        list: place_number(config, list),
        entry: place_number(config, entry),
    })
}
