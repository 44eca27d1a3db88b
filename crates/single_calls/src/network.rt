//! The network of one router that is asked.

ghost use Rattle.std.specs.Prelude.{◌≡◌, ◌≤◌, [], ◌∷◌, length, IfOk, IfSome};
ghost use Rattle.nc_types.specs.Config.{config_view};
ghost use Rattle.nc_types.specs.WellFormed.{IsWellFormed};
ghost use Rattle.nc_types.specs.declared.TheConstants.{LINE_LIMIT};

use nc_lines::Lines;
use nc_lines::split::split_lines;
use nc_network::join;
use nc_reader::read_config;
use nc_types::{LINE_LIMIT, Network, RouterConfig};
use std::alloc::{AllocError, Global};

/// The file of the router: two interfaces, a route over each to one prefix, and a map over a prefix list.
pub const TEXT: &[u8] = b"hostname r1\ninterface Ethernet0\n ip address 10.0.0.1 255.255.255.0\n\
    interface Ethernet1\n ip address 10.0.1.1 255.255.255.0\nip route 10.9.0.0 255.255.0.0 10.0.0.2\n\
    ip route 10.9.0.0 255.255.0.0 10.0.1.2\nip prefix-list LAN seq 5 permit 10.9.0.0/16 le 24\n\
    route-map OUT permit 10\n match ip address prefix-list LAN\n set metric 50\n";

/// The lines of a text, which has fewer bytes than a `u32` counts.
///
/// # Errors
///
/// Memory that runs out.
pub fn lines_of(alloc: Global, text: &[u8]) -> Result<Option<Lines>, AllocError> {
    if text.len() > 1_000_000 {
        return Ok(None);
    }
    let lines = split_lines(alloc, Vec::from_slice(alloc, text)?)?;
    Ok(Some(lines))
}

/// The router's configuration; `None` where it can't be read.
///
/// # Errors
///
/// Memory that runs out.
pub fn config(alloc: Global) -> Result<Option<RouterConfig>, AllocError>
    ensures formed { IfOk result
        (λ read. IfSome read (λ c. IsWellFormed (config_view c))) }
    ensures short { IfOk result (λ read. IfSome read (λ c. c.line_count ≤ LINE_LIMIT)) }
{
    let Some(lines) = lines_of(alloc, TEXT)? else {
        return Ok(None);
    };
    match read_config(alloc, &lines) {
        Ok(config) if config.line_count <= LINE_LIMIT => Ok(Some(config)),
        _ => Ok(None),
    }
}

/// The network of the router alone; `None` where there is none.
///
/// # Errors
///
/// Memory that runs out.
pub fn network(alloc: Global) -> Result<Option<Network>, AllocError> {
    let Some(config) = config(alloc)? else {
        return Ok(None);
    };
    let mut configs = Vec::new(alloc);
    configs.push(config)?;
    Ok(join(alloc, configs).ok())
}
