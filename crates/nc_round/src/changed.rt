use nc_tables::Numbered;
use nc_types::RouterId;

/// A row: that of a prefix, under its number, at a router.
#[derive(Clone, Copy)]
pub struct NumberedRow {
    pub router: RouterId,
    pub of: Numbered,
}

/// The rows in which two BGP tables differ, each by its router and its prefix: in that order, each
/// once.
#[derive(Drop)]
pub struct Changed {
    pub rows: Vec<NumberedRow>,
}
