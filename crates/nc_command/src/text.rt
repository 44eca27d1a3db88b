//! The text of a test: its words with single spaces between them.

ghost use Rattle.std.specs.Prelude.{◌≡◌, ◌++◌, ◌∷◌, IfOk, OnOk, string_bytes};
ghost use Rattle.std.specs.Fmt.{decimal};
ghost use Rattle.nc_types.specs.Dotted.{dotted};
ghost use Rattle.nc_command.specs.Command.{cidr_text, prefix_text, address_text, flow_text, line_text, text_of};

use nc_types::{Addr, Prefix, TestCommand, Text};
use std::alloc::{AllocError, Global};

// Appends a space and a word.
fn push_word(text: &mut Vec<u8>, word: &[u8]) -> Result<(), AllocError>
    ensures { OnOk result (text.new.items ≡ text.old.items ++ 32 ∷ word.now) }
{
    text.push(b' ')?;
    text.extend_from_slice(word)?;
    Ok(())
}

// A number in decimal digits.
fn number_text(alloc: Global, number: u32) -> Result<String, AllocError>
    ensures { IfOk result (λ text. string_bytes text ≡ decimal number) }
{
    format!(in alloc; "{number}")
}

// Appends a space and an address.
fn push_address(alloc: Global, text: &mut Vec<u8>, addr: Addr) -> Result<(), AllocError>
    ensures { OnOk result (text.new.items ≡ text.old.items ++ 32 ∷ dotted addr.0) }
{
    push_word(text, addr.dotted(alloc)?.as_bytes())
}

// Appends a space and a prefix.
fn push_prefix(alloc: Global, text: &mut Vec<u8>, prefix: Prefix) -> Result<(), AllocError>
    ensures { OnOk result (text.new.items ≡ text.old.items ++ 32 ∷ cidr_text prefix) }
{
    push_address(alloc, text, prefix.addr())?;
    text.push(b'/')?;
    text.extend_from_slice(number_text(alloc, u32::from(prefix.len()))?.as_bytes())?;
    Ok(())
}

// A command and the name of a router.
fn start(alloc: Global, command: &[u8], name: &Text) -> Result<Vec<u8>, AllocError>
    ensures { IfOk result (λ text. text.items ≡ command.now ++ 32 ∷ name.now) }
{
    let mut text = Vec::from_slice(alloc, command)?;
    push_word(&mut text, name.bytes())?;
    Ok(text)
}

// The text of a test for a prefix, and perhaps for an address behind a key word.
fn prefix_test(
    alloc: Global,
    command: &[u8],
    name: &Text,
    prefix: Prefix,
    key: &[u8],
    addr: Option<Addr>,
) -> Result<Vec<u8>, AllocError>
    ensures { IfOk result (λ text.
        text.items ≡ prefix_text command.now name.now prefix key.now addr) }
{
    let mut text = start(alloc, command, name)?;
    push_prefix(alloc, &mut text, prefix)?;
    if let Some(addr) = addr {
        push_word(&mut text, key)?;
        push_address(alloc, &mut text, addr)?;
    }
    Ok(text)
}

// The text of a test for an address.
fn address_test(
    alloc: Global,
    command: &[u8],
    name: &Text,
    addr: Addr,
) -> Result<Vec<u8>, AllocError>
    ensures { IfOk result (λ text. text.items ≡ address_text command.now name.now addr) }
{
    let mut text = start(alloc, command, name)?;
    push_address(alloc, &mut text, addr)?;
    Ok(text)
}

// The text of a test for a flow.
fn flow_test(alloc: Global, name: &Text, source: Addr, target: Addr) -> Result<Vec<u8>, AllocError>
    ensures { IfOk result (λ text. text.items ≡ flow_text name.now source target) }
{
    let mut text = start(alloc, b"flow", name)?;
    push_address(alloc, &mut text, source)?;
    push_address(alloc, &mut text, target)?;
    Ok(text)
}

// The text of a test for a line.
fn line_test(alloc: Global, command: &[u8], name: &Text, line: u32) -> Result<Vec<u8>, AllocError>
    ensures { IfOk result (λ text. text.items ≡ line_text command.now name.now line) }
{
    let mut text = start(alloc, command, name)?;
    push_word(&mut text, number_text(alloc, line)?.as_bytes())?;
    Ok(text)
}

/// The text of a test: its words with single spaces between them, addresses in dotted form and a prefix
/// with its length behind a slash.
///
/// # Errors
///
/// That memory is refused.
pub fn test_text(alloc: Global, test: &TestCommand) -> Result<Vec<u8>, AllocError>
    ensures { IfOk result (λ text. text.items ≡ text_of test.now) }
{
    match test {
        TestCommand::Rib(name, prefix, via) => {
            prefix_test(alloc, b"rib", name, *prefix, b"via", *via)
        }
        TestCommand::Bgp(name, prefix, from) => {
            prefix_test(alloc, b"bgp", name, *prefix, b"from", *from)
        }
        TestCommand::Session(name, addr) => address_test(alloc, b"session", name, *addr),
        TestCommand::Reach(name, addr) => address_test(alloc, b"reach", name, *addr),
        TestCommand::Every(name, addr) => address_test(alloc, b"every", name, *addr),
        TestCommand::Flow(name, source, target) => flow_test(alloc, name, *source, *target),
        TestCommand::Element(name, line) => line_test(alloc, b"element", name, *line),
    }
}
