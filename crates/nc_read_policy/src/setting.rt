//! What one line of a clause's block says, read by its words.

ghost use Rattle.std.specs.Prelude.{◌≡◌, ◌∷◌, [], None, Some, codes, MatchOption};
ghost use Rattle.std.specs.List.{list_any};
ghost use Rattle.std.specs.Option.{option_map};
ghost use Rattle.std.specs.Str.{bytes_eq};
ghost use Rattle.nc_lines.specs.Lines.{words_of, is_indented};
ghost use Rattle.nc_lines.specs.Statements.{after, alone_says, or_syntax, said_as};
ghost use Rattle.nc_read_policy.specs.Clauses.{SetsPreference, SetsMetric, SetsOrigin, Opens};
ghost use Rattle.nc_read_policy.specs.Clauses.{community_lists_say, sets_say, communities_say};
ghost use Rattle.nc_read_policy.specs.Clauses.{lists_say, value_of, prepend_says};
ghost use Rattle.nc_read_policy.specs.Clauses.{header_says, is_unsupported, statement_says};
ghost use Rattle.nc_read_policy.specs.Clauses.{text_says};
ghost use Rattle.nc_read_policy.specs.Readings.{statement_reading};

use crate::communities::members;
use crate::header::{ClauseHeader, read_clause_header};
use crate::values::{are_asns, value};
use nc_community::CommunitySet;
use nc_lines::cut::{cut_word, is_indented};
use nc_lines::statement::{Reading, after_one, after_three, after_two, begins_one, is_word};
use nc_types::{Cause, OriginCode};

/// What a line of a clause's block says.
#[derive(Drop)]
pub(crate) enum Setting<'a> {
    /// The header of the clause.
    Opens(ClauseHeader<'a>),
    /// `match ip address prefix-list W ..`: the names as they are written.
    Matches(&'a [u8]),
    /// `match community W ..`: the names as they are written.
    MatchesCommunities(&'a [u8]),
    /// `set local-preference N`
    Preference(u32),
    /// `set metric N`
    Metric(u32),
    /// `set as-path prepend N ..`: the numbers as they are written.
    Prepend(&'a [u8]),
    /// `set origin igp` or `set origin incomplete`
    Origin(OriginCode),
    /// `set community C ..`, and whether `additive` stands behind it.
    Communities(CommunitySet, bool),
}

// What follows `match ip address prefix-list`; `None` where a line begins otherwise.
fn after_match(line: &[u8]) -> Option<&[u8]>
    ensures { MatchOption result
        (after (codes "match" ∷ codes "ip" ∷ codes "address" ∷ codes "prefix-list" ∷ [])
        (words_of line.now) ≡ None)
        (λ rest. after (codes "match" ∷ codes "ip" ∷ codes "address" ∷ codes "prefix-list" ∷ [])
        (words_of line.now) ≡ Some (words_of rest.now)) }
{
    after_one(after_three(line, "match", "ip", "address")?, "prefix-list")
}

// What follows `match ip address prefix-list`: names.
fn lists(line: &[u8]) -> Reading<Setting<'_>>
    ensures { statement_reading result ≡ lists_say (words_of line.now) }
{
    match cut_word(line) {
        None => Reading::Faulty(Cause::Syntax),
        Some(_) => Reading::Says(Setting::Matches(line)),
    }
}

// What follows `set local-preference`: a number.
fn preference(line: &[u8]) -> Reading<Setting<'_>>
    ensures { statement_reading result
        ≡ or_syntax (option_map (λ n. SetsPreference n) (value_of (words_of line.now))) }
{
    match value(line) {
        None => Reading::Faulty(Cause::Syntax),
        Some(number) => Reading::Says(Setting::Preference(number)),
    }
}

// What follows `set metric`: a number.
fn metric(line: &[u8]) -> Reading<Setting<'_>>
    ensures { statement_reading result
        ≡ or_syntax (option_map (λ n. SetsMetric n) (value_of (words_of line.now))) }
{
    match value(line) {
        None => Reading::Faulty(Cause::Syntax),
        Some(number) => Reading::Says(Setting::Metric(number)),
    }
}

// What follows `set as-path prepend`: numbers of autonomous systems.
fn prepend(line: &[u8]) -> Reading<Setting<'_>>
    ensures { statement_reading result ≡ prepend_says (words_of line.now) }
{
    if are_asns(line) {
        Reading::Says(Setting::Prepend(line))
    } else {
        Reading::Faulty(Cause::Syntax)
    }
}

// What follows `set origin igp` or `set origin incomplete`: nothing.
fn origin(code: OriginCode, line: &[u8]) -> Reading<Setting<'_>>
    ensures { statement_reading result ≡ alone_says (SetsOrigin code) (words_of line.now) }
{
    match cut_word(line) {
        None => Reading::Says(Setting::Origin(code)),
        Some(_) => Reading::Faulty(Cause::Syntax),
    }
}

// Whether a word is `exact-match`.
fn is_exact(line: &[u8]) -> bool
    ensures { result ≡ list_any (λ word. bytes_eq word (codes "exact-match")) (words_of line.now) }
{
    let mut rest = line;
    'words: while let Some((word, behind)) = cut_word(rest) {
        if is_word(word, "exact-match") {
            return true;
        }
        rest = behind;
    }
    false
}

// What follows `match community`: names.
fn community_lists(line: &[u8]) -> Reading<Setting<'_>>
    ensures { statement_reading result ≡ community_lists_say (words_of line.now) }
{
    if is_exact(line) {
        return Reading::Faulty(Cause::Unsupported);
    }
    match cut_word(line) {
        None => Reading::Faulty(Cause::Syntax),
        Some(_) => Reading::Says(Setting::MatchesCommunities(line)),
    }
}

// What sets these communities.
fn sets<'a>(additive: bool, members: Option<CommunitySet>) -> Reading<Setting<'a>>
    ensures { statement_reading result ≡ sets_say additive members }
{
    match members {
        None => Reading::Faulty(Cause::Syntax),
        Some(set) => Reading::Says(Setting::Communities(set, additive)),
    }
}

// What follows `set community`: communities, and nothing or `additive` behind them.
fn communities(line: &[u8]) -> Reading<Setting<'_>>
    ensures { statement_reading result ≡ communities_say (words_of line.now) }
{
    let (members, rest) = members(line);
    let Some((word, rest)) = cut_word(rest) else {
        return sets(false, members);
    };
    if is_word(word, "additive") && cut_word(rest).is_none() {
        sets(true, members)
    } else {
        Reading::Faulty(Cause::Unsupported)
    }
}

// A statement that isn't supported.
fn is_unsupported(line: &[u8]) -> bool
    ensures { result ≡ is_unsupported (words_of line.now) }
{
    begins_one(line, "match") || begins_one(line, "set") || begins_one(line, "continue")
}

// What an indented line says: the statements that are read, and of the rest what isn't supported.
#[tactic(auto, unfolding(crate::specs::Clauses::statement_says))]
fn statement(line: &[u8]) -> Reading<Setting<'_>>
    ensures { statement_reading result ≡ statement_says (words_of line.now) }
{
    if let Some(rest) = after_match(line) {
        return lists(rest);
    }
    if let Some(rest) = after_two(line, "set", "local-preference") {
        return preference(rest);
    }
    if let Some(rest) = after_two(line, "set", "metric") {
        return metric(rest);
    }
    if let Some(rest) = after_three(line, "set", "as-path", "prepend") {
        return prepend(rest);
    }
    if let Some(rest) = after_three(line, "set", "origin", "igp") {
        return origin(OriginCode::Igp, rest);
    }
    if let Some(rest) = after_three(line, "set", "origin", "incomplete") {
        return origin(OriginCode::Incomplete, rest);
    }
    if let Some(rest) = after_two(line, "match", "community") {
        return community_lists(rest);
    }
    if let Some(rest) = after_two(line, "set", "community") {
        return communities(rest);
    }
    if is_unsupported(line) {
        return Reading::Faulty(Cause::Unsupported);
    }
    Reading::Outside
}

// What an unindented line says: it may be a header.
fn opening(line: &[u8]) -> Reading<Setting<'_>>
    ensures { statement_reading result ≡ said_as (λ h. Opens h) (header_says (words_of line.now)) }
{
    match read_clause_header(line) {
        Reading::Outside => Reading::Outside,
        Reading::Faulty(cause) => Reading::Faulty(cause),
        Reading::Says(header) => Reading::Says(Setting::Opens(header)),
    }
}

/// What a line of a clause's block says.
pub(crate) fn read_setting(text: &[u8]) -> Reading<Setting<'_>>
    ensures { statement_reading result ≡ text_says text.now }
{
    if is_indented(text) {
        statement(text)
    } else {
        opening(text)
    }
}
