//! What each line of a file is, but for the block in which it stands.

ghost use Rattle.std.specs.Prelude.{◌≡◌, ◌<◌, ◌≤◌, ℕ, List, None, true, false, not, ◌&&◌, length, drop};
ghost use Rattle.std.specs.List.{list_any};
ghost use Rattle.nc_lines.specs.Lines.{line_at};
ghost use Rattle.nc_lines.specs.Blocks.{has_mark, leaves_open};
ghost use Rattle.nc_reader.specs.Firsts.{is_open};
ghost use Rattle.nc_reader.specs.Readings.{kind_of_role};
ghost use Rattle.nc_reader.specs.Steps.{Idle, Member, banner_fault, kind_of};

use crate::header::{Header, read_header};
use crate::known::known_header;
use nc_lines::Lines;
use nc_lines::banner::{has_mark, leaves_open};
use nc_lines::cut::{cut_word, first_byte, is_indented};
use nc_lines::statement::is_word;
use nc_read_filter::{GroupStatement, read_group};
use nc_types::Cause;

/// What a line is.
#[derive(Clone, Copy)]
pub(crate) enum Role<'a> {
    /// A line of a banner: whether it is open behind the line, and what is wrong.
    Banner(bool, Option<Cause>),
    /// A blank line or a comment.
    Idle,
    /// An indented line, and the access list that it applies if it stands in the block of an
    /// interface.
    Member(Option<GroupStatement<'a>>),
    /// An unindented statement.
    Heads(Header<'a>),
}

// Whether a line behind this one has a mark.
fn closes_later(lines: &Lines, number: u32) -> bool
    requires { number ≤ length lines.now }
    ensures { result ≡ list_any has_mark (drop number lines.now) }
{
    for behind in number..lines.count() {
        if has_mark(lines.line(behind + 1)) {
            return true;
        }
    }
    false
}

// Whether the banner that begins in a line is never closed.
fn stays_open(lines: &Lines, number: u32) -> bool
    requires first { 0 < number }
    requires last { number ≤ length lines.now }
    ensures { result ≡ (leaves_open (line_at number lines.now)
        && not (list_any has_mark (drop number lines.now))) }
{
    leaves_open(lines.line(number)) && !closes_later(lines, number)
}

// What is wrong with the first line of a banner.
fn banner_fault(lines: &Lines, number: u32) -> Option<Cause>
    requires first { 0 < number }
    requires last { number ≤ length lines.now }
    ensures { result ≡ banner_fault (line_at number lines.now) (drop number lines.now) }
{
    if !has_mark(lines.line(number)) {
        return Some(Cause::Unsupported);
    }
    if stays_open(lines, number) {
        return Some(Cause::Syntax);
    }
    None
}

// Whether the first byte of a line tells that it is a comment.
fn is_comment(line: &[u8]) -> bool
    ensures { result ≡ true → (later : List (List ℕ)) → kind_of false line.now later ≡ Idle }
{
    let Some((first, _)) = line.split_first() else {
        return false;
    };
    *first == b'!'
}

// Whether a word of this first byte may begin a comment or what applies a list, or it is a gap.
fn is_open(byte: u8) -> bool
    ensures { result ≡ is_open byte }
{
    byte == b'i' || byte == b'!' || byte == b' ' || byte == b'\t'
}

// Whether the second byte of a line tells that it is an indented one which applies no list.
fn is_plain(line: &[u8]) -> bool
    ensures { result ≡ true → (later : List (List ℕ)) → kind_of false line.now later
        ≡ Member None }
{
    let Some(byte) = line.get(1) else {
        return false;
    };
    if is_open(*byte) {
        return false;
    }
    is_indented(line)
}

/// What the line of a number is, where a banner is open or isn't.
#[tactic(auto, unfolding(crate::specs::Steps::kind_of))]
pub(crate) fn read_role(lines: &Lines, number: u32, in_banner: bool) -> Role<'_>
    requires first { 0 < number }
    requires last { number ≤ length lines.now }
    ensures { kind_of_role result
        ≡ kind_of in_banner (line_at number lines.now) (drop number lines.now) }
{
    let line = lines.line(number);
    if in_banner {
        return Role::Banner(!has_mark(line), None);
    }
    if is_comment(line) {
        return Role::Idle;
    }
    if is_plain(line) {
        return Role::Member(None);
    }
    if let Some(header) = known_header(line) {
        return Role::Heads(header);
    }
    if is_indented(line) {
        return match first_byte(line) {
            None => Role::Idle,
            Some(b'!') => Role::Idle,
            Some(_) => Role::Member(read_group(line)),
        };
    }
    let Some((word, rest)) = cut_word(line) else {
        return Role::Idle;
    };
    if is_word(word, "banner") {
        return Role::Banner(leaves_open(line), banner_fault(lines, number));
    }
    if word.first() == Some(&b'!') {
        return Role::Idle;
    }
    Role::Heads(read_header(line, word, rest))
}
