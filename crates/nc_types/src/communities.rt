ghost use Rattle.std.specs.Prelude.{◌≡◌, [], IfOk};
ghost use Rattle.nc_types.specs.Communities.{IsSmallSet};

use crate::text::Text;
use std::alloc::{AllocError, Global};
use std::marker::Model;

/// A set of communities, each a number of 32 bits, whose upper half is written before a colon and whose lower
/// half behind it (RFC 1997): ascending, and at most [`crate::COMMUNITY_LIMIT`].
#[derive(Drop)]
pub struct Communities {
    // None where there are none, as on most routes, which are so much smaller.
    numbers: Option<Box<Vec<u32>>>,
}

impl Model for Communities {
    ghost use Rattle.std.specs.Prelude.{List, ℕ, []};
    ghost use Rattle.std.specs.Option.{option_map_or};
    ghost use Rattle.nc_types.specs.Communities.{IsSmallSet};

    ghost Value = { List ℕ };

    ghost view = { λ c. option_map_or (λ numbers. numbers.value.items) c.numbers [] };

    ghost invariant = { λ c.
        IsSmallSet (option_map_or (λ numbers. numbers.value.items) c.numbers []) };
}

impl Communities {
    /// No communities. Takes no memory.
    pub fn new(_alloc: Global) -> Communities
        ensures { result ≡ [] }
    {
        Communities { numbers: None }
    }

    /// The communities of these numbers, which ascend and are at most [`crate::COMMUNITY_LIMIT`].
    ///
    /// # Errors
    ///
    /// Memory that runs out.
    pub fn of(alloc: Global, numbers: Vec<u32>) -> Result<Communities, AllocError>
        requires { IsSmallSet numbers.items }
        ensures { IfOk result (λ communities. communities ≡ numbers.items) }
    {
        if numbers.is_empty() {
            return Ok(Communities { numbers: None });
        }
        Ok(Communities {
            numbers: Some(Box::new(alloc, numbers)?),
        })
    }

    /// The numbers, ascending.
    pub fn numbers(&self) -> &[u32]
        ensures numbers { result.now ≡ self.now }
        ensures small { IsSmallSet self.now }
    {
        match &self.numbers {
            None => &[],
            Some(numbers) => numbers.as_slice(),
        }
    }
}

/// An entry of a community list.
#[derive(Drop)]
pub struct CommunityEntry {
    pub permit: bool,
    /// The communities that a route has to have, all of them, for the entry to decide on it.
    pub members: Communities,
    /// The place of its element in the router's elements.
    pub element: u32,
}

/// A community list.
#[derive(Drop)]
pub struct CommunityList {
    pub name: Text,
    /// The entries, in order of their lines.
    pub entries: Vec<CommunityEntry>,
}

/// What `set community` makes of the communities of a route.
#[derive(Drop)]
pub struct SetCommunity {
    pub values: Communities,
    /// Whether the values join those that the route has, or stand in their place.
    pub additive: bool,
}
