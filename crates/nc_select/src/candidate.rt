//! What decides of a candidate.

ghost use Rattle.std.specs.Prelude.{◌≡◌, false, length};
ghost use Rattle.nc_tables.specs.Choice.{same_path};
ghost use Rattle.nc_tables.specs.declared.bgp.Chosen.{Chosen};

use nc_tables::{BgpFrom, RibEntry};
use nc_types::{Addr, OriginCode};

/// A candidate of a prefix, by what decides between candidates: one in memory, or one that is told
/// without its route in memory.
pub trait Candidate {
    ghost candidate_of: { Self → Chosen };

    /// Where it comes from.
    fn from(&self) -> BgpFrom
        ensures { result ≡ (candidate_of self.now).from };

    /// The local preference: the higher one is preferred.
    fn preference(&self) -> u32
        ensures { result ≡ (candidate_of self.now).route.preference };

    /// How many numbers its path has.
    fn path_length(&self) -> usize
        ensures { result ≡ length (candidate_of self.now).route.path };

    /// The origin.
    fn origin(&self) -> OriginCode
        ensures { result ≡ (candidate_of self.now).route.origin };

    /// The multi-exit discriminator: the lower one is preferred.
    fn metric(&self) -> u32
        ensures { result ≡ (candidate_of self.now).route.metric };

    /// Whether it was learnt from a router of the same autonomous system.
    fn is_internal(&self) -> bool
        ensures { result ≡ (candidate_of self.now).internal };

    /// The router id of its sender; 0.0.0.0 where it wasn't learnt.
    fn sender_id(&self) -> Addr
        ensures { result ≡ (candidate_of self.now).sender_id };

    /// The address of its sender; 0.0.0.0 where it wasn't learnt.
    fn sender(&self) -> Addr
        ensures { result ≡ (candidate_of self.now).sender };

    /// Whether its path has the numbers of that of another candidate, in their order.
    fn has_same_path(&self, other: &Self) -> bool
        ensures { result ≡ same_path false (candidate_of self.now).route.path
            (candidate_of other.now).route.path };
}

impl Candidate for RibEntry {
    ghost candidate_of = { λ x. x };

    fn from(&self) -> BgpFrom {
        self.from()
    }

    fn preference(&self) -> u32 {
        self.preference()
    }

    fn path_length(&self) -> usize {
        self.path_length()
    }

    fn origin(&self) -> OriginCode {
        self.origin()
    }

    fn metric(&self) -> u32 {
        self.metric()
    }

    fn is_internal(&self) -> bool {
        self.is_internal()
    }

    fn sender_id(&self) -> Addr {
        self.sender_id()
    }

    fn sender(&self) -> Addr {
        self.sender()
    }

    fn has_same_path(&self, other: &Self) -> bool {
        self.path().is_same(other.path())
    }
}
