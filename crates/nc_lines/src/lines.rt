//! The lines of a file, kept in one piece.

ghost use Rattle.std.specs.Prelude.{◌≡◌, ◌<◌, ◌≤◌, ◌^◌, All, length, map, slice_range};
ghost use Rattle.nc_lines.specs.Lines.{line_at};

use std::marker::Model;

/// Where a line stands among the bytes of its file.
#[derive(Clone, Copy)]
pub(crate) struct Span {
    pub(crate) from: u32,
    pub(crate) to: u32,
}

/// The lines of a file, each without its line feed and the one carriage return before it.
#[derive(Drop)]
pub struct Lines {
    bytes: Vec<u8>,
    spans: Vec<Span>,
}

impl Model for Lines {
    ghost use Rattle.std.specs.Prelude.{List, ℕ, ◌≤◌, ◌<◌, ◌^◌, All, length, map, slice_range};

    ghost Value = { List (List ℕ) };

    ghost view = { λ l. map (λ s. slice_range l.bytes.items s.from s.to) l.spans.items };

    ghost invariant = { λ l. All (λ s. (s.from ≤ s.to) × (s.to ≤ length l.bytes.items)) l.spans.items × (length l.spans.items < 2 ^ 32) };
}

impl Lines {
    // The lines that stand at these places of a file.
    pub(crate) fn new(bytes: Vec<u8>, spans: Vec<Span>) -> Self
        requires within { All (λ s. (s.from ≤ s.to) × (s.to ≤ length bytes.items)) spans.items }
        requires count { length spans.items < 2 ^ 32 }
        ensures { result ≡ map (λ s. slice_range bytes.items s.from s.to) spans.items }
    {
        Lines { bytes, spans }
    }

    /// How many lines there are.
    pub fn count(&self) -> u32
        ensures { result ≡ length self.now }
    {
        self.spans.len() as u32
    }

    /// The line of this number, from 1 to the count, without its line end.
    pub fn line(&self, number: u32) -> &[u8]
        requires first { 0 < number }
        requires last { number ≤ length self.now }
        ensures { result.now ≡ line_at number self.now }
    {
        let span = self.spans[number as usize - 1];
        &self.bytes[span.from as usize..span.to as usize]
    }
}
