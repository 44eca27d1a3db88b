/// An entry of a list, among a router's lists of its kind.
#[derive(Clone, Copy, PartialEq, Eq)]
pub struct Place {
    /// The place of the list.
    pub list: u32,
    /// The place of the entry in its list.
    pub entry: u32,
}

/// The entries by which a clause matched: of each kind of list the deciding entry of the first list, in order of
/// mention, that permits; `None` where the clause names no list of the kind.
#[derive(Clone, Copy, PartialEq, Eq)]
pub struct Names {
    /// That of a prefix list.
    pub entry: Option<Place>,
    /// That of a community list.
    pub community: Option<Place>,
}
