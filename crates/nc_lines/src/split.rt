//! Splitting a file into its lines.

ghost use Rattle.std.specs.Prelude.{◌≡◌, ◌<◌, ◌≤◌, ◌^◌, ◌∷◌, [], All, drop, map, slice_range, length, IfOk, IfSome, MatchOption};
ghost use Rattle.nc_lines.specs.Lines.{lines_of};

use crate::cut::{place_of, trim_return};
use crate::lines::{Lines, Span};
use std::alloc::{AllocError, Global};

// Where the first line from a place on stands, and the place behind its line feed.
fn line_from(bytes: &[u8], from: usize) -> Option<(Span, usize)>
    requires begins { from ≤ length bytes.now }
    requires fits { length bytes.now < 2 ^ 32 }
    ensures line { MatchOption result (lines_of (drop from bytes.now) ≡ [])
        (λ cut. lines_of (drop from bytes.now) ≡ slice_range bytes.now cut.0.from cut.0.to ∷ lines_of (drop cut.1 bytes.now)) }
    ensures within { IfSome result (λ cut. (cut.0.from ≤ cut.0.to) × (cut.0.to ≤ length bytes.now)) }
    ensures further { IfSome result (λ cut. (from < cut.1) × (cut.1 ≤ length bytes.now)) }
{
    let (_, rest) = bytes.split_at(from);
    if rest.is_empty() {
        return None;
    }
    let end = place_of(rest, b'\n').unwrap_or(rest.len());
    let line = trim_return(rest.split_at(end).0);
    let span = Span {
        from: from as u32,
        to: (from + line.len()) as u32,
    };
    Some((span, (from + end + 1).min(bytes.len())))
}

// Where the lines of a file stand.
fn line_spans(alloc: Global, bytes: &[u8]) -> Result<Vec<Span>, AllocError>
    requires { length bytes.now < 2 ^ 32 }
    ensures lines { IfOk result (λ spans. map (λ s. slice_range bytes.now s.from s.to) spans.items ≡ lines_of bytes.now) }
    ensures within { IfOk result (λ spans. All (λ s. (s.from ≤ s.to) × (s.to ≤ length bytes.now)) spans.items) }
    ensures count { IfOk result (λ spans. length spans.items < 2 ^ 32) }
{
    let mut spans = Vec::new(alloc);
    let mut from = 0;
    'lines: while let Some((span, next)) = line_from(bytes, from) {
        spans.push(span)?;
        from = next;
    }
    Ok(spans)
}

/// Splits a file of fewer than 2^32 bytes into its lines.
///
/// # Errors
///
/// Memory that runs out.
pub fn split_lines(alloc: Global, bytes: Vec<u8>) -> Result<Lines, AllocError>
    requires { length bytes.items < 2 ^ 32 }
    ensures { IfOk result (λ lines. lines ≡ lines_of bytes.items) }
{
    let spans = line_spans(alloc, &bytes)?;
    Ok(Lines::new(bytes, spans))
}
