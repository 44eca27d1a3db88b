//! What an unindented statement is: its first word is told once, then what is behind it.

ghost use Rattle.std.specs.Prelude.{◌≡◌, ◌∷◌, [], List, ℕ, MatchOption, ◌&&◌, nat_le, codes};
ghost use Rattle.std.specs.List.{list_all};
ghost use Rattle.nc_types.specs.WellFormed.{is_name};
ghost use Rattle.nc_lines.specs.Lines.{words_of};
ghost use Rattle.nc_read_policy.specs.Lists.{list_name_says};
ghost use Rattle.nc_read_policy.specs.CommunityEntries.{community_name_says};
ghost use Rattle.nc_reader.specs.declared.topic.Topic.TheVariants as topics;
ghost use Rattle.nc_read_filter.specs.Lists.{opens_list};
ghost use Rattle.nc_reader.specs.Roles.{filter_role, said_role, header_role};
ghost use Rattle.nc_reader.specs.Readings.{role_of_header};

use crate::first::{First, read_first};
use crate::topic::Subject;
use nc_lines::cut::cut_word;
use nc_lines::statement::{Reading, begins_one, is_word};
use nc_read_bgp::read_process_header;
use nc_read_filter::{begins_entry, opens_list};
use nc_read_policy::{read_clause_header, read_community_name, read_list_name};
use nc_types::{Cause, NAME_LIMIT};

/// What an unindented statement is.
#[derive(Clone, Copy)]
pub(crate) enum Header<'a> {
    /// It configures no route.
    Passed,
    Wrong(Cause),
    /// The router's name.
    Names(&'a [u8]),
    /// A statement on this topic.
    Speaks(Subject<'a>),
}

// The one word of a line that has one.
fn only_word(line: &[u8]) -> Option<&[u8]>
    ensures { MatchOption result ((word : List ℕ) → words_of line.now ≡ word ∷ [] → ⊥)
        (λ word. words_of line.now ≡ word.now ∷ []) }
{
    let (word, rest) = cut_word(line)?;
    match cut_word(rest) {
        Some(_) => None,
        None => Some(word),
    }
}

// Whether each byte of a word is printed.
fn is_printed(word: &[u8]) -> bool
    ensures { result ≡ list_all (λ b. nat_le 33 b && nat_le b 126) word.now }
{
    word.iter().all(|b| 33 <= *b && *b <= 126)
}

// Whether a word can name a router.
fn can_name(word: &[u8]) -> bool
    ensures { result ≡ is_name word.now }
{
    let len = word.len();
    1 <= len && len <= NAME_LIMIT && is_printed(word)
}

// What is behind `hostname`: one word that can name a router.
#[tactic(auto, unfolding(crate::specs::Roles::is_unsupported, crate::specs::Roles::read_role))]
fn behind_hostname(rest: &[u8]) -> Header<'_>
    ensures { role_of_header result ≡ header_role (codes "hostname" ∷ words_of rest.now) }
{
    match only_word(rest) {
        None => Header::Wrong(Cause::Syntax),
        Some(name) => {
            if can_name(name) {
                Header::Names(name)
            } else {
                Header::Wrong(Cause::Syntax)
            }
        }
    }
}

/// What is behind `interface`: its name.
#[tactic(auto, unfolding(crate::specs::Roles::is_unsupported, crate::specs::Roles::read_role))]
pub(crate) fn behind_interface(rest: &[u8]) -> Header<'_>
    ensures { role_of_header result ≡ header_role (codes "interface" ∷ words_of rest.now) }
{
    match cut_word(rest) {
        None => Header::Wrong(Cause::Syntax),
        Some((name, _)) => Header::Speaks(Subject::Interface(name)),
    }
}

// What a line is that begins with `router`: the header of a BGP process; no other routing protocol
// is supported.
#[tactic(auto, unfolding(crate::specs::Roles::is_unsupported, crate::specs::Roles::read_role))]
fn router<'a>(line: &'a [u8], rest: &[u8]) -> Header<'a>
    requires { words_of line.now ≡ codes "router" ∷ words_of rest.now }
    ensures { role_of_header result ≡ header_role (codes "router" ∷ words_of rest.now) }
{
    let Some((protocol, _)) = cut_word(rest) else {
        return Header::Passed;
    };
    if !is_word(protocol, "bgp") {
        return Header::Wrong(Cause::Unsupported);
    }
    match read_process_header(line) {
        Reading::Outside => Header::Passed,
        Reading::Faulty(cause) => Header::Wrong(cause),
        Reading::Says(asn) => Header::Speaks(Subject::Process(asn)),
    }
}

// What a line is that begins with `route-map`: the header of a clause.
#[tactic(auto, unfolding(crate::specs::Roles::is_unsupported, crate::specs::Roles::read_role))]
fn route_map<'a>(line: &'a [u8], rest: &[u8]) -> Header<'a>
    requires { words_of line.now ≡ codes "route-map" ∷ words_of rest.now }
    ensures { role_of_header result ≡ header_role (codes "route-map" ∷ words_of rest.now) }
{
    let _behind = rest;
    match read_clause_header(line) {
        Reading::Outside => Header::Passed,
        Reading::Faulty(cause) => Header::Wrong(cause),
        Reading::Says(header) => Header::Speaks(Subject::Clause(header.map, header.number)),
    }
}

// What is behind `no`.
#[tactic(auto, unfolding(crate::specs::Roles::is_unsupported, crate::specs::Roles::read_role))]
fn behind_no(rest: &[u8]) -> Header<'_>
    ensures { role_of_header result ≡ header_role (codes "no" ∷ words_of rest.now) }
{
    let Some((word, rest)) = cut_word(rest) else {
        return Header::Passed;
    };
    if is_word(word, "ip") && begins_one(rest, "routing") {
        return Header::Wrong(Cause::Unsupported);
    }
    Header::Passed
}

/// What is behind `ip prefix-list`: an entry of a list.
pub(crate) fn prefix_list(rest: &[u8]) -> Header<'_>
    ensures { role_of_header result ≡ said_role topics.List (list_name_says (words_of rest.now)) }
{
    match read_list_name(rest) {
        Reading::Outside => Header::Passed,
        Reading::Faulty(cause) => Header::Wrong(cause),
        Reading::Says(name) => Header::Speaks(Subject::List(name)),
    }
}

// What is behind `ip community-list`: an entry of a list.
fn community_list(rest: &[u8]) -> Header<'_>
    ensures { role_of_header result
        ≡ said_role topics.Communities (community_name_says (words_of rest.now)) }
{
    match read_community_name(rest) {
        Reading::Outside => Header::Passed,
        Reading::Faulty(cause) => Header::Wrong(cause),
        Reading::Says(name) => Header::Speaks(Subject::Communities(name)),
    }
}

// What is behind `ip access-list`: the header of a list.
fn access_list(rest: &[u8]) -> Header<'_>
    ensures { role_of_header result ≡ filter_role (opens_list (words_of rest.now)) }
{
    if opens_list(rest) {
        Header::Speaks(Subject::Filters)
    } else {
        Header::Passed
    }
}

// What is behind `access-list`: an entry of the list of a number.
#[tactic(auto, unfolding(crate::specs::Roles::is_unsupported, crate::specs::Roles::read_role))]
fn behind_access_list(rest: &[u8]) -> Header<'_>
    ensures { role_of_header result ≡ header_role (codes "access-list" ∷ words_of rest.now) }
{
    if begins_entry(rest) {
        Header::Speaks(Subject::Filters)
    } else {
        Header::Passed
    }
}

// What is behind `ip`.
#[tactic(auto, unfolding(crate::specs::Roles::is_unsupported, crate::specs::Roles::read_role))]
fn behind_ip(rest: &[u8]) -> Header<'_>
    ensures { role_of_header result ≡ header_role (codes "ip" ∷ words_of rest.now) }
{
    let Some((word, rest)) = cut_word(rest) else {
        return Header::Passed;
    };
    if is_word(word, "route") {
        return Header::Speaks(Subject::Statics);
    }
    if is_word(word, "prefix-list") {
        return prefix_list(rest);
    }
    if is_word(word, "community-list") {
        return community_list(rest);
    }
    if is_word(word, "access-list") {
        return access_list(rest);
    }
    if is_word(word, "default-network") || is_word(word, "nat") {
        return Header::Wrong(Cause::Unsupported);
    }
    if is_word(word, "local") && begins_one(rest, "policy") {
        return Header::Wrong(Cause::Unsupported);
    }
    Header::Passed
}

/// What an unindented statement of this first word is; what isn't supported is looked at first.
#[tactic(auto, unfolding(crate::specs::Roles::is_unsupported, crate::specs::Roles::read_role))]
pub(crate) fn read_header<'a>(line: &'a [u8], word: &[u8], rest: &'a [u8]) -> Header<'a>
    requires { words_of line.now ≡ word.now ∷ words_of rest.now }
    ensures { role_of_header result ≡ header_role (word.now ∷ words_of rest.now) }
{
    match read_first(word) {
        First::Interface => behind_interface(rest),
        First::Ip => behind_ip(rest),
        First::Hostname => behind_hostname(rest),
        First::Router => router(line, rest),
        First::RouteMap => route_map(line, rest),
        First::No => behind_no(rest),
        First::AccessList => behind_access_list(rest),
        First::Other => Header::Passed,
    }
}
