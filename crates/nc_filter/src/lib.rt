//! What the access lists of interfaces say of packets.
//!
//! The crate stands on `nc_types` for the network, and on `nc_tables` for the definition of what a list says. Its
//! contract promises that [`matches`] is agreement in every bit that is 0 in the wildcard, which
//! [`matching_is_lawful`] tells, that [`passing`] and [`passes`] answer by the definition what an interface says of a
//! packet that comes in or goes out, without memory, and that [`FilterTables`] answers the same. It is made once for
//! a network: of each router a table of the filters of its interfaces and an index of the entries of its lists by
//! their one source, or else their one destination, so that of a list only the entries are gone through, in its own
//! order until one decides, that may decide on the packet. What a list said of a packet is kept until another packet
//! is asked about.
#![tactic(auto)]

mod configs;
mod gates;
mod index;
mod kept;
mod laws;
mod matching;
mod names;
mod said;
mod spots;
mod tables;
mod walks;

pub use laws::matching_is_lawful;
pub use matching::matches;
pub use said::{passes, passing};
pub use tables::FilterTables;
