//! Files and sessions of a given size.

use std::alloc::{AllocError, Global};

// How many bytes a note has in a long session, line feed included.
const NOTE: usize = 4_096;

/// How many such notes a session has at its limit.
pub const NOTES: usize = 4_096;

/// Adds one byte so many times.
///
/// # Errors
///
/// No memory for them.
pub fn fill(bytes: &mut Vec<u8>, byte: u8, times: usize) -> Result<(), AllocError> {
    for _ in 0..times {
        bytes.push(byte)?;
    }
    Ok(())
}

/// Bytes that begin so, and go on with one byte up to that size.
///
/// # Errors
///
/// No memory for them.
pub fn filled(alloc: Global, head: &[u8], byte: u8, size: usize) -> Result<Vec<u8>, AllocError> {
    let mut bytes = head.to_vec(alloc)?;
    fill(&mut bytes, byte, size.saturating_sub(head.len()))?;
    Ok(bytes)
}

/// The bytes of a first line, and then one line many times.
///
/// # Errors
///
/// No memory for it.
pub fn repeated(
    alloc: Global,
    first: &[u8],
    line: &[u8],
    times: usize,
) -> Result<Vec<u8>, AllocError> {
    let mut bytes = first.to_vec(alloc)?;
    for _ in 0..times {
        bytes.extend_from_slice(line)?;
    }
    Ok(bytes)
}

// Adds a static route of a prefix that no other number has.
fn add_route(alloc: Global, text: &mut Vec<u8>, number: usize) -> Result<(), AllocError> {
    let (high, low) = (number / 256, number % 256);
    let line = format!(in alloc; "ip route 10.{high}.{low}.0 255.255.255.0 Null0\n")?;
    text.extend_from_slice(line.as_str().as_bytes())?;
    Ok(())
}

/// A router with so many static routes of prefixes that differ.
///
/// # Errors
///
/// No memory for it.
pub fn with_routes(alloc: Global, count: usize) -> Result<Vec<u8>, AllocError> {
    let mut text = b"hostname r1\n".to_vec(alloc)?;
    for number in 0..count {
        add_route(alloc, &mut text, number)?;
    }
    Ok(text)
}

// Adds a network of a prefix that no other number has.
fn add_network(alloc: Global, text: &mut Vec<u8>, number: usize) -> Result<(), AllocError> {
    let (high, low) = (number / 256, number % 256);
    let line = format!(in alloc; " network 10.{high}.{low}.0 mask 255.255.255.0\n")?;
    text.extend_from_slice(line.as_str().as_bytes())?;
    Ok(())
}

/// A router with so many networks of prefixes that differ.
///
/// # Errors
///
/// No memory for it.
pub fn with_networks(alloc: Global, count: usize) -> Result<Vec<u8>, AllocError> {
    let mut text = b"hostname r1\nrouter bgp 1\n".to_vec(alloc)?;
    for number in 0..count {
        add_network(alloc, &mut text, number)?;
    }
    Ok(text)
}

// Adds a neighbor of an address that no other number has.
fn add_neighbor(alloc: Global, text: &mut Vec<u8>, number: usize) -> Result<(), AllocError> {
    let (high, low) = (number / 256, number % 256);
    let line = format!(in alloc; " neighbor 10.{high}.{low}.1 remote-as 2\n")?;
    text.extend_from_slice(line.as_str().as_bytes())?;
    Ok(())
}

// A router of this name with a BGP process that has no neighbor.
fn with_process(alloc: Global, name: &str) -> Result<Vec<u8>, AllocError> {
    let head = format!(in alloc; "hostname {name}\nrouter bgp 1\n")?;
    head.as_str().as_bytes().to_vec(alloc)
}

/// A router of this name with so many neighbors, the addresses of which differ.
///
/// # Errors
///
/// No memory for it.
pub fn with_neighbors(alloc: Global, name: &str, count: usize) -> Result<Vec<u8>, AllocError> {
    let mut text = with_process(alloc, name)?;
    for number in 0..count {
        add_neighbor(alloc, &mut text, number)?;
    }
    Ok(text)
}

/// A file of so many bytes.
///
/// # Errors
///
/// No memory for it.
pub fn with_bytes(alloc: Global, count: usize) -> Result<Vec<u8>, AllocError> {
    filled(alloc, b"hostname r1\n!", b'x', count)
}

/// A file of so many lines.
///
/// # Errors
///
/// No memory for it.
pub fn with_lines(alloc: Global, count: usize) -> Result<Vec<u8>, AllocError> {
    repeated(alloc, b"hostname r1", b"\n!", count.saturating_sub(1))
}

// A note of 4,096 bytes, line feed included.
fn note(alloc: Global) -> Result<Vec<u8>, AllocError> {
    let mut note = filled(alloc, b"#", b'x', NOTE - 1)?;
    note.push(b'\n')?;
    Ok(note)
}

/// A session of so many such notes, and then these bytes.
///
/// # Errors
///
/// No memory for it.
pub fn notes(alloc: Global, count: usize, last: &[u8]) -> Result<Vec<u8>, AllocError> {
    let mut session = repeated(alloc, b"", &note(alloc)?, count)?;
    session.extend_from_slice(last)?;
    Ok(session)
}

/// A session with a `quit` whose line feed is at this place, counted from 1, and a line behind it.
///
/// # Errors
///
/// No memory for it.
pub fn quit_at(alloc: Global, place: usize) -> Result<Vec<u8>, AllocError> {
    let mut session = notes(alloc, NOTES - 1, b"#")?;
    let behind = place.saturating_sub(session.len().saturating_add(6));
    fill(&mut session, b'x', behind)?;
    session.extend_from_slice(b"\nquit\nfrob\n")?;
    Ok(session)
}
