//! What a line of a session asks, read word by word.

ghost use Rattle.std.specs.Prelude.{◌≡◌, ℕ, ◌∷◌, List, Option, Some, IfOk, codes};
ghost use Rattle.std.specs.Option.{option_map};
ghost use Rattle.nc_lines.specs.Lines.{words_of};
ghost use Rattle.nc_command.specs.Command.{address_behind, prefix_test_of, address_test_of};
ghost use Rattle.nc_command.specs.Command.{flow_test_of, line_test_of, test_of, alone, show_by, forget_by, implies_by, kept_by, cut_by, command_by, command_of, IsRead};
ghost use Rattle.nc_types.specs.Cidr.{Cidr};
ghost use Rattle.nc_types.specs.declared.addr.Addr.{Addr};
ghost use Rattle.nc_types.specs.declared.command.TestCommand.{TestCommand};
ghost use Rattle.nc_types.specs.declared.command.TestCommand.TheVariants as command;

use crate::command::Command;
use crate::fault::CommandFault;
use crate::names::Names;
use crate::{LINE_LIMIT, MOST_NUMBER};
use nc_lines::cut::cut_word;
use nc_lines::numbers::{read_address, read_number, read_prefix};
use nc_types::{Addr, Prefix, TestCommand, Text};
use std::alloc::{AllocError, Global};

// What may stand at the end of a line: nothing, or a key word and an address. None where it is another
// thing.
fn read_behind(rest: &[u8], key: &[u8]) -> Option<Option<Addr>>
    ensures { result ≡ address_behind key.now (words_of rest.now) }
{
    let Some((word, rest)) = cut_word(rest) else {
        return Some(None);
    };
    let (address, rest) = cut_word(rest)?;
    if word != key || cut_word(rest).is_some() {
        return None;
    }
    let address = read_address(address)?;
    Some(Some(address))
}

// The name and the prefix behind a command for a prefix, and the address behind the key word, if one stands
// there; None where another thing stands there.
fn read_prefixed<'a>(rest: &'a [u8], key: &[u8]) -> Option<(&'a [u8], Prefix, Option<Addr>)>
    ensures { (make : List ℕ → Cidr → Option Addr → TestCommand)
        → option_map (λ asked. make asked.0.now asked.1 asked.2) result
        ≡ prefix_test_of make key.now (words_of rest.entry.now) }
{
    let (name, rest) = cut_word(rest)?;
    let (word, rest) = cut_word(rest)?;
    let prefix = read_prefix(word)?;
    let addr = read_behind(rest, key)?;
    Some((name, prefix, addr))
}

// The test that the words behind `rib` make, if they make one.
fn read_rib(alloc: Global, rest: &[u8]) -> Result<Option<TestCommand>, AllocError>
    ensures { IfOk result
        (λ test. test ≡ prefix_test_of command.Rib (codes "via") (words_of rest.now)) }
{
    let Some((name, prefix, via)) = read_prefixed(rest, b"via") else {
        return Ok(None);
    };
    let name = Text::new(alloc, name)?;
    Ok(Some(TestCommand::Rib(name, prefix, via)))
}

// The test that the words behind `bgp` make, if they make one.
fn read_bgp(alloc: Global, rest: &[u8]) -> Result<Option<TestCommand>, AllocError>
    ensures { IfOk result
        (λ test. test ≡ prefix_test_of command.Bgp (codes "from") (words_of rest.now)) }
{
    let Some((name, prefix, from)) = read_prefixed(rest, b"from") else {
        return Ok(None);
    };
    let name = Text::new(alloc, name)?;
    Ok(Some(TestCommand::Bgp(name, prefix, from)))
}

// The name and the address behind a command for an address; None where another thing stands there.
fn read_target(rest: &[u8]) -> Option<(&[u8], Addr)>
    ensures { (make : List ℕ → Addr → TestCommand)
        → option_map (λ target. make target.0.now target.1) result
        ≡ address_test_of make (words_of rest.now) }
{
    let (name, rest) = cut_word(rest)?;
    let (address, rest) = cut_word(rest)?;
    if cut_word(rest).is_some() {
        return None;
    }
    let address = read_address(address)?;
    Some((name, address))
}

// The test that the words behind `session` make, if they make one.
fn read_session(alloc: Global, rest: &[u8]) -> Result<Option<TestCommand>, AllocError>
    ensures { IfOk result (λ test. test ≡ address_test_of command.Session (words_of rest.now)) }
{
    let Some((name, addr)) = read_target(rest) else {
        return Ok(None);
    };
    let name = Text::new(alloc, name)?;
    Ok(Some(TestCommand::Session(name, addr)))
}

// The test that the words behind `reach` make, if they make one.
fn read_reach(alloc: Global, rest: &[u8]) -> Result<Option<TestCommand>, AllocError>
    ensures { IfOk result (λ test. test ≡ address_test_of command.Reach (words_of rest.now)) }
{
    let Some((name, addr)) = read_target(rest) else {
        return Ok(None);
    };
    let name = Text::new(alloc, name)?;
    Ok(Some(TestCommand::Reach(name, addr)))
}

// The test that the words behind `every` make, if they make one.
fn read_every(alloc: Global, rest: &[u8]) -> Result<Option<TestCommand>, AllocError>
    ensures { IfOk result (λ test. test ≡ address_test_of command.Every (words_of rest.now)) }
{
    let Some((name, addr)) = read_target(rest) else {
        return Ok(None);
    };
    let name = Text::new(alloc, name)?;
    Ok(Some(TestCommand::Every(name, addr)))
}

// The name and the two addresses behind a command for a flow; None where another thing stands there.
fn read_ends(rest: &[u8]) -> Option<(&[u8], Addr, Addr)>
    ensures { option_map (λ ends. command.Flow ends.0.now ends.1 ends.2) result
        ≡ flow_test_of (words_of rest.now) }
{
    let (name, rest) = cut_word(rest)?;
    let (source, rest) = cut_word(rest)?;
    let (target, behind) = cut_word(rest)?;
    if cut_word(behind).is_some() {
        return None;
    }
    let source = read_address(source)?;
    let target = read_address(target)?;
    Some((name, source, target))
}

// The test that the words behind `flow` make, if they make one.
fn read_flow(alloc: Global, rest: &[u8]) -> Result<Option<TestCommand>, AllocError>
    ensures { IfOk result (λ test. test ≡ flow_test_of (words_of rest.now)) }
{
    let Some((name, source, target)) = read_ends(rest) else {
        return Ok(None);
    };
    let name = Text::new(alloc, name)?;
    Ok(Some(TestCommand::Flow(name, source, target)))
}

// The name and the number behind a command for a line; None where another thing stands there.
fn read_numbered(rest: &[u8]) -> Option<(&[u8], u32)>
    ensures { (make : List ℕ → ℕ → TestCommand)
        → option_map (λ target. make target.0.now target.1) result
        ≡ line_test_of make (words_of rest.now) }
{
    let (name, rest) = cut_word(rest)?;
    let (word, behind) = cut_word(rest)?;
    if cut_word(behind).is_some() {
        return None;
    }
    let line = read_number(word, MOST_NUMBER)?;
    Some((name, line))
}

// The test that the words behind `element` make, if they make one.
fn read_element(alloc: Global, rest: &[u8]) -> Result<Option<TestCommand>, AllocError>
    ensures { IfOk result (λ test. test ≡ line_test_of command.Element (words_of rest.now)) }
{
    let Some((name, line)) = read_numbered(rest) else {
        return Ok(None);
    };
    let name = Text::new(alloc, name)?;
    Ok(Some(TestCommand::Element(name, line)))
}

// The test that a command's first word and the words behind it make, if they make one.
fn read_test(alloc: Global, word: &[u8], rest: &[u8]) -> Result<Option<TestCommand>, AllocError>
    ensures { IfOk result (λ test. test ≡ test_of word.now (words_of rest.now)) }
{
    if word == b"rib".as_slice() {
        return read_rib(alloc, rest);
    }
    if word == b"bgp".as_slice() {
        return read_bgp(alloc, rest);
    }
    if word == b"session".as_slice() {
        return read_session(alloc, rest);
    }
    if word == b"reach".as_slice() {
        return read_reach(alloc, rest);
    }
    if word == b"every".as_slice() {
        return read_every(alloc, rest);
    }
    if word == b"flow".as_slice() {
        return read_flow(alloc, rest);
    }
    if word == b"element".as_slice() {
        return read_element(alloc, rest);
    }
    Ok(None)
}

// A command that is one word, where nothing stands behind it.
fn alone(command: Command, rest: &[u8]) -> Option<Command>
    ensures { result ≡ alone command (words_of rest.now) }
{
    match cut_word(rest) {
        Some(_) => None,
        None => Some(command),
    }
}

// The command that the words behind `show` make, if they make one.
fn read_show(alloc: Global, rest: &[u8]) -> Result<Option<Command>, AllocError>
    ensures { IfOk result (λ command. command ≡ show_by (words_of rest.now)) }
{
    let Some((name, more)) = cut_word(rest) else {
        return Ok(None);
    };
    if cut_word(more).is_some() {
        return Ok(None);
    }
    let name = Text::new(alloc, name)?;
    Ok(Some(Command::Show(name)))
}

// The command that the words behind `forget` make, if they make one.
fn read_forget(rest: &[u8]) -> Option<Command>
    ensures { result ≡ forget_by (words_of rest.now) }
{
    let (word, behind) = cut_word(rest)?;
    if cut_word(behind).is_some() {
        return None;
    }
    let number = read_number(word, MOST_NUMBER)?;
    Some(Command::Forget(number))
}

// The command that the words behind `implies` make, if they make one.
fn read_implies(rest: &[u8]) -> Option<Command>
    ensures { result ≡ implies_by (words_of rest.now) }
{
    let (first, rest) = cut_word(rest)?;
    let (second, behind) = cut_word(rest)?;
    if cut_word(behind).is_some() {
        return None;
    }
    let first = read_number(first, MOST_NUMBER)?;
    let second = read_number(second, MOST_NUMBER)?;
    Some(Command::Implies(first, second))
}

// The names that stand on the rest of a line, behind a first one.
fn read_names(alloc: Global, first: &[u8], rest: &[u8]) -> Result<Names, AllocError>
    ensures { IfOk result (λ names. names ≡ first.now ∷ words_of rest.now) }
{
    let mut names = Vec::new(alloc);
    names.push(Text::new(alloc, first)?)?;
    let mut left = rest;
    'names: while let Some((name, behind)) = cut_word(left) {
        names.push(Text::new(alloc, name)?)?;
        left = behind;
    }
    Ok(Names { names })
}

// The routers to keep that the words behind the number of a test name, if they do.
fn read_kept(alloc: Global, rest: &[u8]) -> Result<Option<Names>, AllocError>
    ensures { IfOk result (λ names. names ≡ kept_by (words_of rest.now)) }
{
    let Some((word, rest)) = cut_word(rest) else {
        return Ok(Some(Names::none(alloc)));
    };
    let Some((first, behind)) = cut_word(rest) else {
        return Ok(None);
    };
    if word != b"keep".as_slice() {
        return Ok(None);
    }
    let names = read_names(alloc, first, behind)?;
    Ok(Some(names))
}

// The command that the words behind `cut` make, if they make one.
fn read_cut(alloc: Global, rest: &[u8]) -> Result<Option<Command>, AllocError>
    ensures { IfOk result (λ command. command ≡ cut_by (words_of rest.now)) }
{
    let Some((word, behind)) = cut_word(rest) else {
        return Ok(None);
    };
    let Some(number) = read_number(word, MOST_NUMBER) else {
        return Ok(None);
    };
    let Some(names) = read_kept(alloc, behind)? else {
        return Ok(None);
    };
    Ok(Some(Command::Cut(number, names)))
}

// The command that a first word and the words behind it make, if they make one.
fn read_words(alloc: Global, word: &[u8], rest: &[u8]) -> Result<Option<Command>, AllocError>
    ensures { IfOk result (λ command. command ≡ command_by word.now (words_of rest.now)) }
{
    if word == b"quit".as_slice() {
        return Ok(alone(Command::Quit, rest));
    }
    if word == b"show".as_slice() {
        return read_show(alloc, rest);
    }
    if word == b"lcov".as_slice() {
        return Ok(alone(Command::Lcov, rest));
    }
    if word == b"json".as_slice() {
        return Ok(alone(Command::Json, rest));
    }
    if word == b"suite".as_slice() {
        return Ok(alone(Command::Suite, rest));
    }
    if word == b"dead".as_slice() {
        return Ok(alone(Command::Dead, rest));
    }
    if word == b"forget".as_slice() {
        return Ok(read_forget(rest));
    }
    if word == b"implies".as_slice() {
        return Ok(read_implies(rest));
    }
    if word == b"cut".as_slice() {
        return read_cut(alloc, rest);
    }
    let Some(test) = read_test(alloc, word, rest)? else {
        return Ok(None);
    };
    Ok(Some(Command::Test(test)))
}

/// What a line asks, given without its line end; `None` where it is blank or its first word begins with
/// `#`, so that it is passed over.
///
/// # Errors
///
/// `Long` where the line has more than 4,096 bytes, whatever they are; `Syntax` where it is no command;
/// and `Memory` where memory is refused.
#[tactic(auto, unfolding(crate::specs::Command::command_of))]
pub fn read_command(alloc: Global, line: &[u8]) -> Result<Option<Command>, CommandFault>
    ensures { IsRead (command_of line.now) result }
{
    if line.len() > LINE_LIMIT {
        return Err(CommandFault::Long);
    }
    let Some((word, rest)) = cut_word(line) else {
        return Ok(None);
    };
    if word.first() == Some(&b'#') {
        return Ok(None);
    }
    let Some(command) = read_words(alloc, word, rest)? else {
        return Err(CommandFault::Syntax);
    };
    Ok(Some(command))
}
