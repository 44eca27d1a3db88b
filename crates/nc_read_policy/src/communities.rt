//! The `ip community-list` statement, and the communities that a statement names.

ghost use Rattle.std.specs.Prelude.{◌≡◌, ◌<◌, ◌≤◌, length};
ghost use Rattle.nc_lines.specs.Readings.{reading_of};
ghost use Rattle.nc_lines.specs.Lines.{words_of, line_at};
ghost use Rattle.nc_read_policy.specs.CommunityEntries.{is_list_number, standard_list, named_list};
ghost use Rattle.nc_read_policy.specs.CommunityEntries.{community_name_says, entry_with};
ghost use Rattle.nc_read_policy.specs.CommunityEntries.{community_entry_of, named_line};
ghost use Rattle.nc_read_policy.specs.CommunityEntries.{community_entry_at};
ghost use Rattle.nc_read_policy.specs.Results.{ok_map};
ghost use Rattle.nc_lines.specs.Statements.{said_as};
ghost use Rattle.nc_read_policy.specs.Communities.{members_in, behind_communities};
ghost use Rattle.nc_read_policy.specs.Outcomes.{IsCommunityEntry, IsEntryOf};

use crate::action::action;
use nc_community::{CommunitySet, read_community};
use nc_lines::Lines;
use nc_lines::cut::cut_word;
use nc_lines::numbers::read_number;
use nc_lines::statement::{Reading, after_two, is_word};
use nc_types::{Cause, CommunityEntry, ConfigFault, Text};
use std::alloc::Global;

// The communities that the first words write, where there are some and no more than a route
// carries, and the words behind them.
pub(crate) fn members(text: &[u8]) -> (Option<CommunitySet>, &[u8])
    ensures members { result.0 ≡ members_in (words_of text.now) }
    ensures rest { words_of result.1.now ≡ behind_communities (words_of text.now) }
{
    let mut set = CommunitySet::new();
    let mut full = false;
    let mut rest = text;
    'words: while let Some((word, behind)) = cut_word(rest) {
        let Some(number) = read_community(word) else {
            break 'words;
        };
        full = full || !set.put(number);
        rest = behind;
    }
    if full || set.numbers().is_empty() {
        (None, rest)
    } else {
        (Some(set), rest)
    }
}

// A number from 1 to 99.
fn is_list_number(word: &[u8]) -> bool
    ensures { result ≡ is_list_number word.now }
{
    match read_number(word, 99) {
        None => false,
        Some(number) => 1 <= number,
    }
}

// The name by what follows `standard`, and what is behind it.
fn standard(rest: &[u8]) -> Reading<(&[u8], &[u8])>
    ensures { said_as (λ named. (named.0.now, words_of named.1.now)) (reading_of result)
        ≡ standard_list (words_of rest.now) }
{
    match cut_word(rest) {
        None => Reading::Faulty(Cause::Syntax),
        Some((name, behind)) => Reading::Says((name, behind)),
    }
}

// The name by what follows `ip community-list`, and what is behind it.
fn named(rest: &[u8]) -> Reading<(&[u8], &[u8])>
    ensures { said_as (λ named. (named.0.now, words_of named.1.now)) (reading_of result)
        ≡ named_list (words_of rest.now) }
{
    let Some((word, behind)) = cut_word(rest) else {
        return Reading::Faulty(Cause::Syntax);
    };
    if is_word(word, "standard") {
        return standard(behind);
    }
    if is_list_number(word) {
        Reading::Says((word, behind))
    } else {
        Reading::Outside
    }
}

/// The name of the list by what follows `ip community-list`, by which its lines are gathered: the
/// word behind `standard`, or a number from 1 to 99; outside where another word stands there. What
/// is behind the name isn't looked at.
pub fn read_community_name(rest: &[u8]) -> Reading<&[u8]>
    ensures { said_as (λ name. name.now) (reading_of result)
        ≡ community_name_says (words_of rest.now) }
{
    match named(rest) {
        Reading::Outside => Reading::Outside,
        Reading::Faulty(cause) => Reading::Faulty(cause),
        Reading::Says((name, _)) => Reading::Says(name),
    }
}

// The members that an action is followed by.
fn entry_with(
    alloc: Global,
    line: u32,
    permit: bool,
    text: &[u8],
) -> Result<CommunityEntry, ConfigFault>
    ensures { IsEntryOf line result (entry_with permit
        (members_in (words_of text.now)) (behind_communities (words_of text.now))) }
{
    let (members, rest) = members(text);
    if cut_word(rest).is_some() {
        return Err(ConfigFault::Bad {
            line,
            cause: Cause::Unsupported,
        });
    }
    let Some(set) = members else {
        return Err(ConfigFault::Bad {
            line,
            cause: Cause::Syntax,
        });
    };
    Ok(CommunityEntry {
        permit,
        members: set.communities(alloc)?,
        element: 0,
    })
}

// The entry by what follows the name.
fn entry(alloc: Global, line: u32, text: &[u8]) -> Result<CommunityEntry, ConfigFault>
    ensures { IsEntryOf line result (community_entry_of (words_of text.now)) }
{
    let syntax = ConfigFault::Bad {
        line,
        cause: Cause::Syntax,
    };
    let Some((word, rest)) = cut_word(text) else {
        return Err(syntax);
    };
    match action(word) {
        None => Err(syntax),
        Some(permit) => entry_with(alloc, line, permit, rest),
    }
}

// The name and the rest of a line that begins with `ip community-list`.
fn line_named(text: &[u8]) -> Result<(&[u8], &[u8]), Cause>
    ensures { ok_map (λ named. (named.0.now, words_of named.1.now)) result
        ≡ named_line (words_of text.now) }
{
    let Some(rest) = after_two(text, "ip", "community-list") else {
        return Err(Cause::Syntax);
    };
    match named(rest) {
        Reading::Outside => Err(Cause::Syntax),
        Reading::Faulty(cause) => Err(cause),
        Reading::Says(named) => Ok(named),
    }
}

/// The entry of a line, which begins with `ip community-list`, and the name of its list. Its
/// element is 0, which the reader of the whole file fills in. Lines count from 1.
///
/// # Errors
///
/// The line, where it is faulty; memory that runs out.
#[tactic(auto, unfolding(crate::specs::CommunityEntries::community_entry_at))]
pub fn read_community_entry(
    alloc: Global,
    lines: &Lines,
    line: u32,
) -> Result<(Text, CommunityEntry), ConfigFault>
    requires first { 0 < line }
    requires last { line ≤ length lines.now }
    ensures { IsCommunityEntry result (community_entry_at line (line_at line lines.now)) }
{
    let (name, rest) = match line_named(lines.line(line)) {
        Err(cause) => return Err(ConfigFault::Bad { line, cause }),
        Ok(named) => named,
    };
    let entry = entry(alloc, line, rest)?;
    Ok((Text::new(alloc, name)?, entry))
}
