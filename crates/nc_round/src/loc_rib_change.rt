use nc_tables::{Numbered, RibEntries};
use nc_types::RouterId;

/// What is chosen anew of a prefix at a router, where it differs.
#[derive(Drop)]
pub(crate) struct LocRibChange {
    pub(crate) router: RouterId,
    pub(crate) of: Numbered,
    pub(crate) chosen: RibEntries,
}
