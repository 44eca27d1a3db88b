//! The cutter of a session, byte by byte.

use nc_command::{Cut, Cutter};
use std::alloc::{AllocError, Global};

/// Bytes that are pushed one by one are held up to a line feed, behind which they are cut off as a line.
///
/// # Errors
///
/// Memory that runs out.
pub fn cuts(alloc: Global) -> Result<bool, AllocError> {
    let mut cutter = Cutter::new(alloc);
    for byte in b"suite" {
        if cutter.push(*byte)?.is_some() {
            return Ok(false);
        }
    }
    match cutter.push(b'\n')? {
        Some(Cut::Line(line)) => Ok(line.bytes() == b"suite".as_slice()),
        _ => Ok(false),
    }
}
