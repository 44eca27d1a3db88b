//! Cutting a session into its lines while it is read.

ghost use Rattle.std.specs.Prelude.{◌≡◌, ◌≤◌, ◌++◌, false, [], length, position, IfOk, OnOk, OnErr, MatchOption};
ghost use Rattle.std.specs.List.{list_any};
ghost use Rattle.nc_lines.specs.Lines.{is_feed};
ghost use Rattle.nc_command.specs.Cutting.{most_held_bytes, cut_of, front_of, IsAtFeed, Pushes, CutsFirst, HoldsAll, Ends};

use crate::{HELD_LIMIT, LINE_LIMIT};
use nc_lines::line_end::line_len;
use std::alloc::{AllocError, Global};
use std::marker::Model;
use std::mem;

/// A line of a session, without its line feed and the one carriage return before it; seen as its bytes.
#[derive(Drop)]
pub struct CutLine {
    bytes: Vec<u8>,
}

impl Model for CutLine {
    ghost use Rattle.std.specs.Prelude.{List, ℕ};

    ghost Value = { List ℕ };

    ghost view = { λ l. l.bytes.items };
}

impl CutLine {
    /// The bytes of the line.
    pub fn bytes(&self) -> &[u8]
        ensures { result.now ≡ self.now }
    {
        self.bytes.as_slice()
    }
}

/// What is cut off a session.
#[derive(Drop)]
pub enum Cut {
    /// A line of at most [`LINE_LIMIT`] bytes.
    Line(CutLine),
    /// A line of more bytes, which aren't kept.
    Long,
}

/// The line of a session that no line feed has ended so far, as far as it is held; seen as the bytes that are
/// held, [`HELD_LIMIT`] at most. A cutter that no byte was pushed into holds none.
#[derive(Drop)]
pub struct Cutter {
    alloc: Global,
    held: Vec<u8>,
}

impl Model for Cutter {
    ghost use Rattle.std.specs.Prelude.{List, ℕ, ◌≤◌, length};
    ghost use Rattle.nc_command.specs.Cutting.{most_held_bytes};

    ghost Value = { List ℕ };

    ghost view = { λ c. c.held.items };

    ghost invariant = { λ c. length c.held.items ≤ most_held_bytes };
}

// Where the first line feed of a piece is.
fn feed_place(piece: &[u8]) -> Option<usize>
    ensures { result ≡ position is_feed piece.now }
{
    piece.iter().position(|b| *b == b'\n')
}

/// The bytes of a piece before its first line feed, and those behind it; `None` where it has no line feed.
pub fn cut_at_feed(piece: &[u8]) -> Option<(&[u8], &[u8])>
    ensures { MatchOption result (list_any is_feed piece.now ≡ false)
        (λ cut. IsAtFeed piece.now cut.0.now cut.1.now) }
{
    let at = feed_place(piece)?;
    let (front, _) = piece.split_at(at);
    let (_, rest) = piece.split_at(at + 1);
    Some((front, rest))
}

impl Cutter {
    /// A cutter that took no byte.
    pub fn new(alloc: Global) -> Cutter
        ensures { result ≡ [] }
    {
        Cutter {
            alloc,
            held: Vec::new(alloc),
        }
    }

    /// How many bytes are held, at most [`HELD_LIMIT`].
    pub fn kept(&self) -> usize
        ensures count { result ≡ length self.now }
        ensures within { result ≤ most_held_bytes }
    {
        self.held.len()
    }

    // Takes bytes to the end of the line, as far as it is held.
    fn hold(&mut self, bytes: &[u8]) -> Result<(), AllocError>
        ensures held { OnOk result (self.new ≡ front_of (self.old ++ bytes.now)) }
        ensures unchanged { OnErr result (self.new ≡ self.old) }
    {
        let count = bytes.len().min(HELD_LIMIT - self.kept());
        self.held.extend_from_slice(bytes.split_at(count).0)?;
        Ok(())
    }

    // Cuts the line that is held.
    fn cut_held(&mut self) -> Cut
        ensures line { result ≡ cut_of self.old }
        ensures emptied { self.new ≡ [] }
    {
        let len = line_len(&self.held);
        let mut bytes = mem::replace(&mut self.held, Vec::new(self.alloc));
        if len > LINE_LIMIT {
            return Cut::Long;
        }
        bytes.truncate(len);
        Cut::Line(CutLine { bytes })
    }

    /// Takes a byte: a line feed ends the line, which is given as it is cut; any other byte goes to its end.
    ///
    /// # Errors
    ///
    /// Memory that runs out. The cutter is then as before.
    pub fn push(&mut self, byte: u8) -> Result<Option<Cut>, AllocError>
        ensures pushes { IfOk result (λ cut. Pushes byte self.old self.new cut) }
        ensures unchanged { OnErr result (self.new ≡ self.old) }
    {
        if byte == b'\n' {
            return Ok(Some(self.cut_held()));
        }
        self.hold(&[byte])?;
        Ok(None)
    }

    /// Takes the bytes of a piece through its first line feed, as [`Cutter::push`] takes each, and gives the
    /// line that ends there and the rest of the piece; `None` where there is no line feed: then the whole piece
    /// is taken.
    ///
    /// # Errors
    ///
    /// Memory that runs out. The cutter is then as before.
    pub fn push_line<'a>(&mut self, piece: &'a [u8]) -> Result<Option<(Cut, &'a [u8])>, AllocError>
        ensures pushes { IfOk result (λ next. MatchOption next (HoldsAll piece.now self.old self.new)
            (λ cut. CutsFirst piece.now self.old self.new cut.0 cut.1.now)) }
        ensures unchanged { OnErr result (self.new ≡ self.old) }
    {
        let Some((front, rest)) = cut_at_feed(piece) else {
            self.hold(piece)?;
            return Ok(None);
        };
        self.hold(front)?;
        Ok(Some((self.cut_held(), rest)))
    }

    /// The line that no line feed ended, as it is cut; `None` where nothing is held.
    pub fn end(self) -> Option<Cut>
        ensures { Ends self result }
    {
        let mut cutter = self;
        if cutter.kept() == 0 {
            return None;
        }
        Some(cutter.cut_held())
    }
}
