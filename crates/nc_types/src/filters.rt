use crate::addr::Addr;
use crate::text::Text;

/// Addresses by one of them and its wildcard: those that agree with it in every bit that is 0 in the wildcard
/// (Cisco IOS command reference, `access-list`).
#[derive(Clone, Copy, PartialEq, Eq)]
pub struct AddrMatch {
    pub addr: Addr,
    pub wild: Addr,
}

/// An entry of an access list.
#[derive(Drop)]
pub struct FilterEntry {
    /// The name of its list, or its number as it is written.
    pub list: Text,
    pub permit: bool,
    /// Whether it is of every protocol; an entry of another one decides on no packet that is followed (profile).
    pub ip: bool,
    /// From where packets come on which it decides.
    pub from: AddrMatch,
    /// To where they go.
    pub to: AddrMatch,
    /// The place of its element in the router's elements.
    pub element: u32,
}

/// The access list that filters what comes in by an interface, or what goes out.
#[derive(Drop)]
pub struct Group {
    /// The name of the interface.
    pub iface: Text,
    /// Whether it filters what comes in.
    pub inward: bool,
    /// The name of the list.
    pub list: Text,
    /// The place of its element in the router's elements.
    pub element: u32,
}
