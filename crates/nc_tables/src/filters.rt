/// What the access list of an interface says of a packet that comes in by it, or goes out.
#[derive(Clone, Copy, PartialEq, Eq)]
pub enum Passing {
    /// There is no list, or one without entries: all pass (profile).
    Free,
    /// The entry that decides denies it, or none decides.
    Deny,
    /// The entry that decides permits it.
    By {
        /// The place of the interface's filter among the router's.
        group: u32,
        /// The place of the entry among the entries of all lists of the router.
        entry: u32,
    },
}
