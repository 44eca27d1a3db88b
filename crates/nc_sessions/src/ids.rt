ghost use Rattle.std.specs.Prelude.{◌≡◌, option_and_then};
ghost use Rattle.std.specs.Option.{option_map};
ghost use Rattle.nc_types.specs.Config.{config_view};
ghost use Rattle.nc_tables.specs.Sessions.{is_loopback, router_id};
ghost use Rattle.nc_sessions.specs.Ids.{counted, higher, highest};

use nc_types::{Addr, Interface, RouterConfig};

// Whether an interface is a loopback, by its name; letters count.
fn is_loopback(interface: &Interface) -> bool
    ensures { result ≡ is_loopback interface.now }
{
    interface.name.bytes().starts_with(b"Loopback")
}

// The address of an interface that is up; of a loopback alone, where only loopbacks count.
fn counted(interface: &Interface, loopbacks: bool) -> Option<Addr>
    ensures { option_map (λ a. a.0) result ≡ counted loopbacks interface.now }
{
    if loopbacks && !is_loopback(interface) {
        return None;
    }
    let address = interface.up()?;
    Some(address.addr)
}

// The higher one of two addresses, where there are two.
fn higher(most: Option<Addr>, other: Option<Addr>) -> Option<Addr>
    ensures { option_map (λ a. a.0) result
        ≡ higher (option_map (λ a. a.0) most) (option_map (λ a. a.0) other) }
{
    match (most, other) {
        (Some(most), Some(other)) if most < other => Some(other),
        (None, other) => other,
        (most, _) => most,
    }
}

// The highest address of interfaces that are up; of loopbacks alone, where only these count.
fn highest(interfaces: &[Interface], loopbacks: bool) -> Option<Addr>
    ensures { option_map (λ a. a.0) result ≡ highest loopbacks interfaces.now }
{
    let mut most = None;
    'interfaces: for interface in interfaces {
        most = higher(most, counted(interface, loopbacks));
    }
    most
}

// The router id that a statement gives.
fn written(config: &RouterConfig) -> Option<Addr>
    ensures { result ≡ option_and_then (λ p. p.router_id) (config_view config.now).process }
{
    let process = config.process.as_ref()?;
    process.router_id
}

/// The id of a router: the one that is written, else the highest address of a loopback that is up,
/// else that of any interface that is up, else 0.0.0.0 (Cisco IOS command reference, `bgp
/// router-id`).
pub fn router_id(config: &RouterConfig) -> Addr
    ensures { result.0 ≡ router_id (config_view config.now) }
{
    written(config)
        .or(highest(&config.interfaces, true))
        .or(highest(&config.interfaces, false))
        .unwrap_or(Addr(0))
}
