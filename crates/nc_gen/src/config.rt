//! The configuration file of a router.

ghost use Rattle.std.specs.Prelude.{◌≡◌, ◌<◌, ◌^◌, ◌++◌, length, map, OnOk, IfOk};
ghost use Rattle.nc_gen.specs.Files.{config_lines, interface_lines, lan_lines, lan_start, name_of, neighbor_line, network_lines, port_lines, process_lines, text_of};
ghost use Rattle.nc_gen.specs.Shape.{IsNumbered, IsPlaced, IsTree};

use crate::ports::Port;
use crate::text::{
    address_line, hostname_line, interface_line, neighbor_line, network_line, paths_line,
    push_line, system_line,
};
use crate::tree::{Router, Tree};
use nc_types::Addr;
use std::alloc::{AllocError, Global};

// Room for the text of a file of a small tree; a longer one grows.
const FILE_ROOM: usize = 1024;

// The masks of links and of local networks.
const LINK_MASK: &str = "255.255.255.252";

const LAN_MASK: &str = "255.255.255.0";

// The address at which the local networks begin: 10.0.0.0.
const LAN_START: u32 = 0x0a00_0000;

/// The first address of the local network of an edge router.
pub(crate) fn lan_start(tree: Tree, pod: u32, place: u32) -> Addr
    requires tree { IsTree tree }
    requires pod { pod < 256 }
    requires place { place < 256 }
    ensures start { result.0 ≡ lan_start tree pod place }
    ensures room { result.0 < 2 ^ 31 }
{
    Addr(LAN_START + 256 * (pod * tree.half + place))
}

// Appends the lines of an interface.
fn push_interface(
    alloc: Global,
    out: &mut Vec<u8>,
    place: usize,
    addr: Addr,
    mask: &str,
) -> Result<(), AllocError>
    ensures { OnOk result (out.new.items
        ≡ out.old.items ++ text_of (interface_lines place addr.0 mask.now)) }
{
    let head = interface_line(alloc, place)?;
    push_line(out, head.as_bytes())?;
    let address = address_line(alloc, addr, mask)?;
    push_line(out, address.as_bytes())?;
    Ok(())
}

// Appends the interfaces of the ports.
fn push_ports(alloc: Global, out: &mut Vec<u8>, ports: &[Port]) -> Result<(), AllocError>
    ensures { OnOk result (out.new.items ≡ out.old.items ++ text_of (port_lines 0 ports.now)) }
{
    'ports: for (place, port) in ports.iter().enumerate() {
        push_interface(alloc, out, place, port.own, LINK_MASK)?;
    }
    Ok(())
}

// Appends the interface of an edge router's local network.
fn push_lan(
    alloc: Global,
    out: &mut Vec<u8>,
    tree: Tree,
    at: usize,
    router: Router,
) -> Result<(), AllocError>
    requires tree { IsTree tree }
    requires placed { IsPlaced router }
    ensures { OnOk result (out.new.items ≡ out.old.items ++ text_of (lan_lines tree at router)) }
{
    match router {
        Router::Core(_) => Ok(()),
        Router::Aggregation(_, _) => Ok(()),
        Router::Edge(pod, place) => {
            let start = lan_start(tree, pod, place);
            push_interface(alloc, out, at, Addr(start.0 + 1), LAN_MASK)?;
            Ok(())
        }
    }
}

// Appends the statement that has an edge router's local network routed.
fn push_network(
    alloc: Global,
    out: &mut Vec<u8>,
    tree: Tree,
    router: Router,
) -> Result<(), AllocError>
    requires tree { IsTree tree }
    requires placed { IsPlaced router }
    ensures { OnOk result (out.new.items ≡ out.old.items ++ text_of (network_lines tree router)) }
{
    match router {
        Router::Core(_) => Ok(()),
        Router::Aggregation(_, _) => Ok(()),
        Router::Edge(pod, place) => {
            let network = network_line(alloc, lan_start(tree, pod, place))?;
            push_line(out, network.as_bytes())?;
            Ok(())
        }
    }
}

// Appends the neighbors at the other ends of the ports.
fn push_neighbors(alloc: Global, out: &mut Vec<u8>, ports: &[Port]) -> Result<(), AllocError>
    ensures { OnOk result (out.new.items ≡ out.old.items ++ text_of (map neighbor_line ports.now)) }
{
    'ports: for port in ports {
        let neighbor = neighbor_line(alloc, *port)?;
        push_line(out, neighbor.as_bytes())?;
    }
    Ok(())
}

// Appends the lines of the BGP process.
fn push_process(
    alloc: Global,
    out: &mut Vec<u8>,
    tree: Tree,
    number: u32,
    router: Router,
    ports: &[Port],
) -> Result<(), AllocError>
    requires tree { IsTree tree }
    requires numbered { IsNumbered tree number router }
    ensures { OnOk result (out.new.items
        ≡ out.old.items ++ text_of (process_lines tree router ports.now)) }
{
    let system = system_line(alloc, number)?;
    push_line(out, system.as_bytes())?;
    push_line(out, b" bgp bestpath as-path multipath-relax")?;
    let paths = paths_line(alloc, tree.half)?;
    push_line(out, paths.as_bytes())?;
    push_network(alloc, out, tree, router)?;
    push_neighbors(alloc, out, ports)?;
    Ok(())
}

/// The text of the file of a router of this number and name, which has these ports.
pub(crate) fn config_text(
    alloc: Global,
    tree: Tree,
    number: u32,
    router: Router,
    name: &str,
    ports: &[Port],
) -> Result<Vec<u8>, AllocError>
    requires tree { IsTree tree }
    requires numbered { IsNumbered tree number router }
    requires name { name.now ≡ name_of router }
    ensures { IfOk result (λ text. text.items ≡ text_of (config_lines tree router ports.now)) }
{
    let mut out = Vec::with_capacity(alloc, FILE_ROOM)?;
    let hostname = hostname_line(alloc, name)?;
    push_line(&mut out, hostname.as_bytes())?;
    push_ports(alloc, &mut out, ports)?;
    push_lan(alloc, &mut out, tree, ports.len(), router)?;
    push_process(alloc, &mut out, tree, number, router, ports)?;
    Ok(out)
}
