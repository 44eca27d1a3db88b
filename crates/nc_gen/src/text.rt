//! The lines of a configuration file, as text.

ghost use Rattle.std.specs.Prelude.{◌≡◌, ◌<◌, ◌++◌, ◌∷◌, [], string_bytes, OnOk, IfOk};
ghost use Rattle.nc_gen.specs.Files.{address_line, every_line, file_name, hostname_line, interface_line, name_of, neighbor_line, network_line, paths_line, reach_line, system_line, text_of};

use crate::ports::{Port, system_of};
use crate::tree::Router;
use nc_types::Addr;
use std::alloc::{AllocError, Global};
use std::fmt::Write;

// Room for a line: none that is written here is longer.
const LINE_ROOM: usize = 64;

/// Appends a line.
#[tactic(auto, unfolding(crate::specs::Files::text_of))]
pub(crate) fn push_line(out: &mut Vec<u8>, line: &[u8]) -> Result<(), AllocError>
    ensures { OnOk result (out.new.items ≡ out.old.items ++ text_of (line.now ∷ [])) }
{
    out.extend_from_slice(line)?;
    out.push(b'\n')?;
    Ok(())
}

/// The name of a router.
#[tactic(auto, unfolding(crate::specs::Files::name_of))]
pub(crate) fn name_of(alloc: Global, router: Router) -> Result<String, AllocError>
    ensures { IfOk result (λ name. string_bytes name ≡ name_of router) }
{
    match router {
        Router::Core(core) => format!(in alloc; "c{core}"),
        Router::Aggregation(pod, place) => format!(in alloc; "a{pod}_{place}"),
        Router::Edge(pod, place) => format!(in alloc; "e{pod}_{place}"),
    }
}

/// The name of the file of a router.
#[tactic(auto, unfolding(crate::specs::Files::file_name))]
pub(crate) fn file_name(alloc: Global, name: &str) -> Result<String, AllocError>
    ensures { IfOk result (λ text. string_bytes text ≡ file_name name.now) }
{
    format!(in alloc; "{name}.cfg")
}

/// The line that gives a router its name.
#[tactic(auto, unfolding(crate::specs::Files::hostname_line))]
pub(crate) fn hostname_line(alloc: Global, name: &str) -> Result<String, AllocError>
    ensures { IfOk result (λ line. string_bytes line ≡ hostname_line name.now) }
{
    let mut line = String::with_capacity(alloc, LINE_ROOM)?;
    write!(line, "hostname {name}")?;
    Ok(line)
}

/// The line that opens the interface of a place.
#[tactic(auto, unfolding(crate::specs::Files::interface_line))]
pub(crate) fn interface_line(alloc: Global, place: usize) -> Result<String, AllocError>
    ensures { IfOk result (λ line. string_bytes line ≡ interface_line place) }
{
    let mut line = String::with_capacity(alloc, LINE_ROOM)?;
    write!(line, "interface Ethernet{place}")?;
    Ok(line)
}

/// The line that gives an interface its address.
#[tactic(auto, unfolding(crate::specs::Files::address_line))]
pub(crate) fn address_line(alloc: Global, addr: Addr, mask: &str) -> Result<String, AllocError>
    ensures { IfOk result (λ line. string_bytes line ≡ address_line addr.0 mask.now) }
{
    let addr = addr.dotted(alloc)?;
    let mut line = String::with_capacity(alloc, LINE_ROOM)?;
    write!(line, " ip address {addr} {mask}")?;
    Ok(line)
}

/// The line that has a local network routed.
#[tactic(auto, unfolding(crate::specs::Files::network_line))]
pub(crate) fn network_line(alloc: Global, start: Addr) -> Result<String, AllocError>
    ensures { IfOk result (λ line. string_bytes line ≡ network_line start.0) }
{
    let start = start.dotted(alloc)?;
    let mut line = String::with_capacity(alloc, LINE_ROOM)?;
    write!(line, " network {start} mask 255.255.255.0")?;
    Ok(line)
}

/// The line that opens the BGP process of a router.
#[tactic(auto, unfolding(crate::specs::Files::system_line))]
pub(crate) fn system_line(alloc: Global, number: u32) -> Result<String, AllocError>
    requires { number < 256 }
    ensures { IfOk result (λ line. string_bytes line ≡ system_line number) }
{
    let system = system_of(number);
    let mut line = String::with_capacity(alloc, LINE_ROOM)?;
    write!(line, "router bgp {system}")?;
    Ok(line)
}

/// The line that has so many paths used at once.
#[tactic(auto, unfolding(crate::specs::Files::paths_line))]
pub(crate) fn paths_line(alloc: Global, most: u32) -> Result<String, AllocError>
    ensures { IfOk result (λ line. string_bytes line ≡ paths_line most) }
{
    let mut line = String::with_capacity(alloc, LINE_ROOM)?;
    write!(line, " maximum-paths {most}")?;
    Ok(line)
}

/// The line of a neighbor at the other end of a port.
#[tactic(auto, unfolding(crate::specs::Files::neighbor_line))]
pub(crate) fn neighbor_line(alloc: Global, port: Port) -> Result<String, AllocError>
    ensures { IfOk result (λ line. string_bytes line ≡ neighbor_line port) }
{
    let peer = port.peer.dotted(alloc)?;
    let system = port.peer_system;
    let mut line = String::with_capacity(alloc, LINE_ROOM)?;
    write!(line, " neighbor {peer} remote-as {system}")?;
    Ok(line)
}

/// The test that an address is reached from the first edge router by some path.
#[tactic(auto, unfolding(crate::specs::Files::reach_line))]
pub(crate) fn reach_line(alloc: Global, addr: Addr) -> Result<String, AllocError>
    ensures { IfOk result (λ line. string_bytes line ≡ reach_line addr.0) }
{
    let addr = addr.dotted(alloc)?;
    let mut line = String::with_capacity(alloc, LINE_ROOM)?;
    write!(line, "reach e0_0 {addr}")?;
    Ok(line)
}

/// The test that it is reached by every path.
#[tactic(auto, unfolding(crate::specs::Files::every_line))]
pub(crate) fn every_line(alloc: Global, addr: Addr) -> Result<String, AllocError>
    ensures { IfOk result (λ line. string_bytes line ≡ every_line addr.0) }
{
    let addr = addr.dotted(alloc)?;
    let mut line = String::with_capacity(alloc, LINE_ROOM)?;
    write!(line, "every e0_0 {addr}")?;
    Ok(line)
}
