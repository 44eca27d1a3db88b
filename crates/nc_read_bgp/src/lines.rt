//! What an indented line of a process says: its first word is told once, then what is behind it.

ghost use Rattle.std.specs.Prelude.{◌≡◌, ◌∷◌, codes};
ghost use Rattle.std.specs.List.{list_any};
ghost use Rattle.nc_lines.specs.Lines.{words_of};
ghost use Rattle.nc_lines.specs.Statements.{alone_says, said_as};
ghost use Rattle.nc_read_bgp.specs.Statements.{Opens, Agrees, header_says};
ghost use Rattle.nc_read_bgp.specs.Statements.{statement_says, text_says};
ghost use Rattle.nc_read_bgp.specs.Statements.{is_aggregate_option, is_inactive};
ghost use Rattle.nc_read_bgp.specs.Statements.{originates, summary_says};
ghost use Rattle.nc_read_bgp.specs.Readings.{statement_reading};

use crate::first::{First, is_unsupported_of_bgp, read_first};
use crate::header::read_process_header;
use crate::neighbor::read_neighbor_statement;
use crate::numbers::only_positive;
use crate::prefixes::class_prefix;
use crate::statement::BgpStatement;
use nc_lines::cut::{cut_word, is_indented};
use nc_lines::numbers::{read_address, read_masked_prefix};
use nc_lines::statement::{Reading, after_one, begins_one, is_word};
use nc_types::{Cause, MULTIPATH_LIMIT, Prefix};

// What is behind `bgp router-id`.
#[tactic(auto, unfolding(crate::specs::Statements::statement_says))]
fn behind_router_id(rest: &[u8]) -> Reading<BgpStatement<'_>>
    ensures { statement_reading result
        ≡ statement_says (codes "bgp" ∷ codes "router-id" ∷ words_of rest.now) }
{
    let Some((word, rest)) = cut_word(rest) else {
        return Reading::Faulty(Cause::Syntax);
    };
    if cut_word(rest).is_some() {
        return Reading::Faulty(Cause::Syntax);
    }
    match read_address(word) {
        None => Reading::Faulty(Cause::Syntax),
        Some(addr) => Reading::Says(BgpStatement::RouterId(addr)),
    }
}

// What says what holds here anyway, and takes no further words.
fn agrees(rest: &[u8]) -> Reading<BgpStatement<'_>>
    ensures { statement_reading result ≡ alone_says Agrees (words_of rest.now) }
{
    match cut_word(rest) {
        None => Reading::Says(BgpStatement::Agrees),
        Some(_) => Reading::Faulty(Cause::Syntax),
    }
}

// What is behind `bgp bestpath`: the whole of each form is looked at.
#[tactic(auto, unfolding(crate::specs::Statements::statement_says))]
fn behind_bestpath(rest: &[u8]) -> Reading<BgpStatement<'_>>
    ensures { statement_reading result
        ≡ statement_says (codes "bgp" ∷ codes "bestpath" ∷ words_of rest.now) }
{
    let Some((first, rest)) = cut_word(rest) else {
        return Reading::Faulty(Cause::Unsupported);
    };
    let Some((second, rest)) = cut_word(rest) else {
        if is_word(first, "compare-routerid") {
            return Reading::Outside;
        }
        return Reading::Faulty(Cause::Unsupported);
    };
    if cut_word(rest).is_some() {
        return Reading::Faulty(Cause::Unsupported);
    }
    if is_word(first, "as-path") && is_word(second, "multipath-relax") {
        return Reading::Says(BgpStatement::Relax);
    }
    Reading::Faulty(Cause::Unsupported)
}

// What is behind `bgp`.
#[tactic(auto, unfolding(crate::specs::Statements::statement_says))]
fn behind_bgp(rest: &[u8]) -> Reading<BgpStatement<'_>>
    ensures { statement_reading result ≡ statement_says (codes "bgp" ∷ words_of rest.now) }
{
    let Some((word, rest)) = cut_word(rest) else {
        return Reading::Outside;
    };
    if is_word(word, "router-id") {
        return behind_router_id(rest);
    }
    if is_word(word, "always-compare-med") {
        return agrees(rest);
    }
    if is_word(word, "bestpath") {
        return behind_bestpath(rest);
    }
    if is_unsupported_of_bgp(word) {
        return Reading::Faulty(Cause::Unsupported);
    }
    Reading::Outside
}

// What is behind `maximum-paths`.
#[tactic(auto, unfolding(crate::specs::Statements::statement_says))]
fn behind_max_paths(rest: &[u8]) -> Reading<BgpStatement<'_>>
    ensures { statement_reading result
        ≡ statement_says (codes "maximum-paths" ∷ words_of rest.now) }
{
    match only_positive(rest, u32::from(MULTIPATH_LIMIT)) {
        None => Reading::Faulty(Cause::Unsupported),
        Some(number) => Reading::Says(BgpStatement::MaxPaths(number as u8)),
    }
}

// What is behind `address-family`: IPv4 unicast alone is supported.
#[tactic(auto, unfolding(crate::specs::Statements::statement_says))]
fn behind_family(rest: &[u8]) -> Reading<BgpStatement<'_>>
    ensures { statement_reading result
        ≡ statement_says (codes "address-family" ∷ words_of rest.now) }
{
    let Some(rest) = after_one(rest, "ipv4") else {
        return Reading::Faulty(Cause::Unsupported);
    };
    let Some((word, rest)) = cut_word(rest) else {
        return Reading::Says(BgpStatement::Agrees);
    };
    if is_word(word, "unicast") && cut_word(rest).is_none() {
        Reading::Says(BgpStatement::Agrees)
    } else {
        Reading::Faulty(Cause::Unsupported)
    }
}

// What is behind `exit-address-family`.
#[tactic(auto, unfolding(crate::specs::Statements::statement_says))]
fn behind_exit(rest: &[u8]) -> Reading<BgpStatement<'_>>
    ensures { statement_reading result
        ≡ statement_says (codes "exit-address-family" ∷ words_of rest.now) }
{
    agrees(rest)
}

// A network's prefix, where it is whole, and what is behind it.
fn originates(prefix: Option<Prefix>, rest: &[u8]) -> Reading<BgpStatement<'_>>
    ensures { statement_reading result ≡ originates prefix (words_of rest.now) }
{
    let Some(prefix) = prefix else {
        return Reading::Faulty(Cause::Syntax);
    };
    let Some((word, _)) = cut_word(rest) else {
        return Reading::Says(BgpStatement::Network(prefix));
    };
    if is_word(word, "route-map") || is_word(word, "backdoor") {
        Reading::Faulty(Cause::Unsupported)
    } else {
        Reading::Faulty(Cause::Syntax)
    }
}

// What is behind `network`.
#[tactic(auto, unfolding(crate::specs::Statements::statement_says))]
fn behind_network(rest: &[u8]) -> Reading<BgpStatement<'_>>
    ensures { statement_reading result ≡ statement_says (codes "network" ∷ words_of rest.now) }
{
    let Some((address, rest)) = cut_word(rest) else {
        return Reading::Faulty(Cause::Syntax);
    };
    let Some(behind) = after_one(rest, "mask") else {
        return originates(class_prefix(address), rest);
    };
    match cut_word(behind) {
        None => Reading::Faulty(Cause::Syntax),
        Some((mask, rest)) => originates(read_masked_prefix(address, mask), rest),
    }
}

// Whether an option of `aggregate-address` isn't supported.
fn is_aggregate_option(word: &[u8]) -> bool
    ensures { result ≡ is_aggregate_option word.now }
{
    is_word(word, "as-set")
        || is_word(word, "suppress-map")
        || is_word(word, "attribute-map")
        || is_word(word, "advertise-map")
}

// Whether one of the words is such an option.
fn has_aggregate_option(text: &[u8]) -> bool
    ensures { result ≡ list_any is_aggregate_option (words_of text.now) }
{
    let mut rest = text;
    'words: while let Some((word, behind)) = cut_word(rest) {
        if is_aggregate_option(word) {
            return true;
        }
        rest = behind;
    }
    false
}

// What is behind an aggregate's prefix.
fn summary(prefix: Prefix, rest: &[u8]) -> Reading<BgpStatement<'_>>
    ensures { statement_reading result ≡ summary_says prefix (words_of rest.now) }
{
    let Some((word, rest)) = cut_word(rest) else {
        return Reading::Says(BgpStatement::Aggregate(prefix, false));
    };
    if is_word(word, "summary-only") && cut_word(rest).is_none() {
        Reading::Says(BgpStatement::Aggregate(prefix, true))
    } else {
        Reading::Faulty(Cause::Syntax)
    }
}

// What is behind `aggregate-address`.
#[tactic(auto, unfolding(crate::specs::Statements::statement_says))]
fn behind_aggregate(rest: &[u8]) -> Reading<BgpStatement<'_>>
    ensures { statement_reading result
        ≡ statement_says (codes "aggregate-address" ∷ words_of rest.now) }
{
    let Some((address, rest)) = cut_word(rest) else {
        return Reading::Faulty(Cause::Syntax);
    };
    let Some((mask, rest)) = cut_word(rest) else {
        return Reading::Faulty(Cause::Syntax);
    };
    let Some(prefix) = read_masked_prefix(address, mask) else {
        return Reading::Faulty(Cause::Syntax);
    };
    if has_aggregate_option(rest) {
        return Reading::Faulty(Cause::Unsupported);
    }
    summary(prefix, rest)
}

// What is behind `neighbor`.
#[tactic(auto, unfolding(crate::specs::Statements::statement_says))]
fn behind_neighbor(rest: &[u8]) -> Reading<BgpStatement<'_>>
    ensures { statement_reading result ≡ statement_says (codes "neighbor" ∷ words_of rest.now) }
{
    let Some((word, rest)) = cut_word(rest) else {
        return Reading::Outside;
    };
    let Some(addr) = read_address(word) else {
        return Reading::Faulty(Cause::Unsupported);
    };
    match read_neighbor_statement(rest) {
        Reading::Outside => Reading::Outside,
        Reading::Faulty(cause) => Reading::Faulty(cause),
        Reading::Says(says) => Reading::Says(BgpStatement::Neighbor(addr, says)),
    }
}

// Whether an address and `activate` follow `no neighbor`.
fn is_inactive(text: &[u8]) -> bool
    ensures { result ≡ is_inactive (words_of text.now) }
{
    let Some((address, rest)) = cut_word(text) else {
        return false;
    };
    let Some((word, _)) = cut_word(rest) else {
        return false;
    };
    read_address(address).is_some() && is_word(word, "activate")
}

// What is behind `no`: nothing is taken back.
#[tactic(auto, unfolding(crate::specs::Statements::statement_says))]
fn behind_no(rest: &[u8]) -> Reading<BgpStatement<'_>>
    ensures { statement_reading result ≡ statement_says (codes "no" ∷ words_of rest.now) }
{
    let Some((word, rest)) = cut_word(rest) else {
        return Reading::Outside;
    };
    if is_word(word, "bgp") && begins_one(rest, "default") {
        return Reading::Faulty(Cause::Unsupported);
    }
    if is_word(word, "neighbor") && is_inactive(rest) {
        return Reading::Faulty(Cause::Unsupported);
    }
    Reading::Outside
}

// What an indented line says.
#[tactic(auto, unfolding(crate::specs::Statements::statement_says))]
fn statement(line: &[u8]) -> Reading<BgpStatement<'_>>
    ensures { statement_reading result ≡ statement_says (words_of line.now) }
{
    let Some((word, rest)) = cut_word(line) else {
        return Reading::Outside;
    };
    match read_first(word) {
        First::Bgp => behind_bgp(rest),
        First::MaximumPaths => behind_max_paths(rest),
        First::AddressFamily => behind_family(rest),
        First::ExitAddressFamily => behind_exit(rest),
        First::Network => behind_network(rest),
        First::AggregateAddress => behind_aggregate(rest),
        First::Neighbor => behind_neighbor(rest),
        First::No => behind_no(rest),
        First::Unsupported => Reading::Faulty(Cause::Unsupported),
        First::Other => Reading::Outside,
    }
}

// What an unindented line says: it may be a header.
fn opening(line: &[u8]) -> Reading<BgpStatement<'_>>
    ensures { statement_reading result ≡ said_as (λ n. Opens n) (header_says (words_of line.now)) }
{
    match read_process_header(line) {
        Reading::Outside => Reading::Outside,
        Reading::Faulty(cause) => Reading::Faulty(cause),
        Reading::Says(asn) => Reading::Says(BgpStatement::Opens(asn)),
    }
}

/// What a line of a process says: the statements that are read are looked at first, then what isn't
/// supported, and all else is outside.
pub fn read_bgp_statement(line: &[u8]) -> Reading<BgpStatement<'_>>
    ensures { statement_reading result ≡ text_says line.now }
{
    if is_indented(line) {
        statement(line)
    } else {
        opening(line)
    }
}
