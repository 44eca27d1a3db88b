//! The words with which the statements of a process begin, and those behind `neighbor A`.

ghost use Rattle.std.specs.Prelude.{◌≡◌};
ghost use Rattle.nc_read_bgp.specs.Firsts.{IsFirst, IsNeighborFirst};
ghost use Rattle.nc_read_bgp.specs.Statements.{is_one_of, unsupported_firsts, unsupported_of_bgp};
ghost use Rattle.nc_read_bgp.specs.Statements.{unsupported_filters, unsupported_sessions};

use nc_lines::statement::is_word;

/// What the first word of an indented line is.
#[derive(Clone, Copy)]
pub(crate) enum First {
    Bgp,
    MaximumPaths,
    AddressFamily,
    ExitAddressFamily,
    Network,
    AggregateAddress,
    Neighbor,
    No,
    /// A word with which only statements begin that aren't supported.
    Unsupported,
    /// A word with which no statement begins that is read or refused.
    Other,
}

/// What the first word behind `neighbor A` is.
#[derive(Clone, Copy)]
pub(crate) enum NeighborFirst {
    RemoteAs,
    UpdateSource,
    EbgpMultihop,
    NextHopSelf,
    RouteMap,
    Shutdown,
    Activate,
    SendCommunity,
    /// A word with which only statements begin that aren't supported.
    Unsupported,
    /// A word with which no statement begins that is read or refused.
    Other,
}

// Whether statements that begin with this word aren't supported.
fn is_unsupported_first(word: &[u8]) -> bool
    ensures { result ≡ is_one_of unsupported_firsts word.now }
{
    is_word(word, "redistribute")
        || is_word(word, "distance")
        || is_word(word, "default-information")
        || is_word(word, "table-map")
        || is_word(word, "distribute-list")
        || is_word(word, "synchronization")
        || is_word(word, "auto-summary")
        || is_word(word, "template")
        || is_word(word, "scope")
}

/// Whether statements that have this word behind `bgp` aren't supported.
pub(crate) fn is_unsupported_of_bgp(word: &[u8]) -> bool
    ensures { result ≡ is_one_of unsupported_of_bgp word.now }
{
    is_word(word, "default")
        || is_word(word, "confederation")
        || is_word(word, "dampening")
        || is_word(word, "inject-map")
        || is_word(word, "additional-paths")
        || is_word(word, "advertise-best-external")
}

// Whether a word behind `neighbor A` filters or changes routes in a way that isn't supported.
fn is_unsupported_filter(word: &[u8]) -> bool
    ensures { result ≡ is_one_of unsupported_filters word.now }
{
    is_word(word, "weight")
        || is_word(word, "default-originate")
        || is_word(word, "allowas-in")
        || is_word(word, "as-override")
        || is_word(word, "remove-private-as")
        || is_word(word, "prefix-list")
        || is_word(word, "distribute-list")
        || is_word(word, "filter-list")
        || is_word(word, "unsuppress-map")
        || is_word(word, "advertise-map")
        || is_word(word, "soo")
}

// Whether a word behind `neighbor A` changes the session in a way that isn't supported.
fn is_unsupported_session(word: &[u8]) -> bool
    ensures { result ≡ is_one_of unsupported_sessions word.now }
{
    is_word(word, "peer-group")
        || is_word(word, "inherit")
        || is_word(word, "route-reflector-client")
        || is_word(word, "local-as")
        || is_word(word, "ttl-security")
        || is_word(word, "disable-connected-check")
        || is_word(word, "next-hop-unchanged")
        || is_word(word, "additional-paths")
}

/// What this word is as a line's first.
#[tactic(auto, unfolding(crate::specs::Statements::statement_says))]
pub(crate) fn read_first(word: &[u8]) -> First
    ensures { IsFirst result word.now }
{
    if is_word(word, "bgp") {
        First::Bgp
    } else if is_word(word, "neighbor") {
        First::Neighbor
    } else if is_word(word, "network") {
        First::Network
    } else if is_word(word, "aggregate-address") {
        First::AggregateAddress
    } else if is_word(word, "maximum-paths") {
        First::MaximumPaths
    } else if is_word(word, "address-family") {
        First::AddressFamily
    } else if is_word(word, "exit-address-family") {
        First::ExitAddressFamily
    } else if is_word(word, "no") {
        First::No
    } else if is_unsupported_first(word) {
        First::Unsupported
    } else {
        First::Other
    }
}

/// What this word is as the first behind `neighbor A`.
#[tactic(auto, unfolding(crate::specs::Statements::neighbor_says))]
pub(crate) fn read_neighbor_first(word: &[u8]) -> NeighborFirst
    ensures { IsNeighborFirst result word.now }
{
    if is_word(word, "remote-as") {
        NeighborFirst::RemoteAs
    } else if is_word(word, "update-source") {
        NeighborFirst::UpdateSource
    } else if is_word(word, "ebgp-multihop") {
        NeighborFirst::EbgpMultihop
    } else if is_word(word, "next-hop-self") {
        NeighborFirst::NextHopSelf
    } else if is_word(word, "route-map") {
        NeighborFirst::RouteMap
    } else if is_word(word, "shutdown") {
        NeighborFirst::Shutdown
    } else if is_word(word, "activate") {
        NeighborFirst::Activate
    } else if is_word(word, "send-community") {
        NeighborFirst::SendCommunity
    } else if is_unsupported_filter(word) || is_unsupported_session(word) {
        NeighborFirst::Unsupported
    } else {
        NeighborFirst::Other
    }
}
