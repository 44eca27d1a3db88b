//! Which element has each line.

ghost use Rattle.std.specs.Prelude.{◌≡◌, ◌^◌, ◌<◌, ◌-◌, ◌∷◌, [], ℕ, All, length, map, IfOk, None, Some, slice_get};
ghost use Rattle.nc_types.specs.Config.{element_view, config_view};
ghost use Rattle.nc_types.specs.Tables.{AreOwners, AreAllOwners, owner_in, claimed};

use crate::config::{Element, RouterConfig};
use crate::network::owner::Owner;
use std::alloc::{AllocError, Global};

// Gives a line to the element at a place, if no element has it yet.
fn claim_line(owners: &mut [Owner], line: u32, place: u32)
    requires { place < 2 ^ 32 - 1 }
    ensures { (k : ℕ) → k < length owners.old
        → slice_get owners.new k ≡ Some (claimed place (line ∷ []) k (slice_get owners.old k)) }
{
    let line = line as usize;
    if line < owners.len() && owners[line].place().is_none() {
        owners[line] = Owner::of(place);
    }
}

// Gives the lines that no element has yet to the element at a place.
fn claim(owners: &mut [Owner], lines: &[u32], place: u32)
    requires { place < 2 ^ 32 - 1 }
    ensures { (k : ℕ) → k < length owners.old
        → slice_get owners.new k ≡ Some (claimed place lines.now k (slice_get owners.old k)) }
{
    'lines: for line in lines {
        claim_line(owners, *line, place);
    }
}

// Gives each element its lines, the elements in order.
fn claim_all(owners: &mut [Owner], elements: &[Element])
    requires few { length elements.now < 2 ^ 32 }
    requires free { (k : ℕ) → k < length owners.old → slice_get owners.old k ≡ Some None }
    ensures { (k : ℕ) → k < length owners.old
        → slice_get owners.new k ≡ Some (owner_in (map element_view elements.now) k) }
{
    'elements: for (place, element) in elements.iter().enumerate() {
        claim(owners, element.lines.as_slice(), place as u32);
    }
}

// The owner of each line of a router.
fn owners_in(alloc: Global, config: &RouterConfig) -> Result<Vec<Owner>, AllocError>
    requires { length config.now.elements.items < 2 ^ 32 }
    ensures { IfOk result (λ owners. AreOwners (config_view config.now) owners.items) }
{
    let mut owners = vec![in alloc; Owner::none(); config.line_count as usize + 1]?;
    claim_all(&mut owners, &config.elements);
    Ok(owners)
}

/// The owner of each line of each router.
pub(crate) fn line_owners(
    alloc: Global,
    routers: &[RouterConfig],
) -> Result<Vec<Vec<Owner>>, AllocError>
    requires { All (λ c. length c.elements.items < 2 ^ 32) routers.now }
    ensures { IfOk result (λ owners. AreAllOwners (map config_view routers.now) (length routers.now) owners.items) }
{
    let mut owners = Vec::new(alloc);
    'routers: for config in routers {
        owners.push(owners_in(alloc, config)?)?;
    }
    Ok(owners)
}
