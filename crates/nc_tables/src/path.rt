//! The path of a route.

ghost use Rattle.std.specs.Prelude.{◌≡◌, ◌↔◌, ◌≤◌, ◌<◌, ◌+◌, ◌++◌, ◌==◌, ◌∷◌, [], true, false, IsTrue, IfOk, drop, length, slice_get};
ghost use Rattle.std.specs.List.{list_any};
ghost use Rattle.nc_types.specs.declared.TheConstants.{PATH_LIMIT};
ghost use Rattle.nc_tables.specs.Pieces.{own_numbers, piece_numbers, shared_numbers, IsPiece, ArePieces};
ghost use Rattle.nc_tables.specs.SystemBits.{AreBitsOf};
ghost use Rattle.nc_tables.specs.LearntView.{path_after};

use crate::system_bits::SystemBits;
use std::alloc::{AllocError, Global};
use std::marker::Model;
use std::rc::Rc;

// How many numbers of a path stand together. The paths of most routes are no longer and take no
// memory of their own, and a path has 48 bytes. Going over a longer one meets other memory once for
// so many numbers: more would make that faster, and each route larger.
const PIECE_LEN: usize = 8;

// Numbers in the middle of a path or at its end, and those behind them, which other paths may have
// too.
#[derive(Drop)]
struct Piece {
    numbers: [u32; PIECE_LEN],
    // Beside its numbers, for whoever goes along a path looks at both and not at the bits.
    rest: Option<Rc<Piece>>,
    // Those of its numbers and of all behind them.
    bits: SystemBits,
}

impl Piece {
    // The piece of these numbers before those that a path shares with others.
    fn before(numbers: [u32; PIECE_LEN], rest: Option<Rc<Piece>>) -> Piece
        requires full { length numbers ≡ PIECE_LEN }
        requires pieces { ArePieces rest }
        ensures numbers { piece_numbers result ≡ numbers ++ shared_numbers rest }
        ensures piece { IsPiece result }
    {
        let bits = shared_bits(&rest).with_all(&numbers);
        Piece {
            numbers,
            rest,
            bits,
        }
    }

    // Whether it has the same numbers, those behind it aside.
    fn is_like(&self, other: &Piece) -> bool
        ensures { IsTrue result ↔ (own_numbers self.now ≡ own_numbers other.now) }
    {
        self.numbers == other.numbers
    }
}

/// The autonomous systems through which a route came, the nearest first; at most
/// [`nc_types::PATH_LIMIT`] numbers. The nearest ones are its own, and it shares the others with
/// the paths that it was made of.
#[derive(Drop)]
pub struct Path {
    // The nearest numbers. They stand at the end; what stands before `start` says nothing.
    numbers: [u32; PIECE_LEN],
    start: u16,
    // How many numbers there are in all.
    count: u16,
    rest: Option<Rc<Piece>>,
}

impl Model for Path {
    ghost use Rattle.std.specs.Prelude.{List, ℕ, ◌++◌, drop};
    ghost use Rattle.nc_tables.specs.Pieces.{shared_numbers, IsPath};

    ghost Value = { List ℕ };

    ghost view = { λ p. drop p.start p.numbers ++ shared_numbers p.rest };

    ghost invariant = { λ p. IsPath p.numbers p.start p.count p.rest };
}

impl Path {
    /// The path of no number. Takes no memory.
    pub fn empty() -> Path
        ensures { result ≡ [] }
    {
        Path {
            numbers: [0; PIECE_LEN],
            start: PIECE_LEN as u16,
            count: 0,
            rest: None,
        }
    }

    /// How many numbers it has.
    pub fn len(&self) -> usize
        ensures count { result ≡ length self.now }
        ensures few { length self.now ≤ PATH_LIMIT }
    {
        self.count as usize
    }

    /// The numbers one after another, the nearest first.
    pub fn numbers(&self) -> Numbers<'_>
        ensures { result ≡ self.now }
    {
        Numbers {
            own: own(&self.numbers, self.start),
            rest: self.rest.as_ref(),
        }
    }

    /// A number that equal paths have in common, and others mostly don't.
    pub(crate) fn digest(&self) -> u64 {
        let own = mixed(self.count, sum_of(&self.numbers));
        own ^ shared_bits(&self.rest).digest()
    }

    /// That of the path with a number before it, where there is one.
    pub(crate) fn digest_after(&self, number: Option<u32>) -> u64 {
        let Some(number) = number else {
            return self.digest();
        };
        let bits = shared_bits(&self.rest);
        let start = self.start as usize;
        if start > 0 {
            let before = self.numbers[start - 1];
            let sum = sum_of(&self.numbers).wrapping_sub(before);
            return mixed(self.count + 1, sum.wrapping_add(number)) ^ bits.digest();
        }
        // all places are taken: the number stands alone before one more piece
        let sum = sum_of(&[number; PIECE_LEN]);
        mixed(self.count + 1, sum) ^ bits.with_all(&self.numbers).digest()
    }

    /// Whether a number is in it.
    pub fn contains(&self, number: u32) -> bool
        ensures { result ≡ list_any (λ n. n == number) self.now }
    {
        own(&self.numbers, self.start).contains(&number) || is_among(&self.rest, number)
    }

    /// Whether another path has the same numbers, in their order.
    pub fn is_same(&self, other: &Path) -> bool
        ensures { IsTrue result ↔ (self.now ≡ other.now) }
    {
        if self.count != other.count {
            return false;
        }
        // as many numbers leave as many that a path doesn't share
        if own(&self.numbers, self.start) != own(&other.numbers, other.start) {
            return false;
        }
        are_same(&self.rest, &other.rest)
    }

    // Whether it is another path with a number before it. Of the numbers that both share only as many are
    // compared as stand behind those of their own.
    fn is_longer_by(&self, number: u32, other: &Path) -> bool
        ensures { result ≡ true → self.now ≡ number ∷ other.now }
    {
        let Some((first, behind)) = own(&self.numbers, self.start).split_first() else {
            return false;
        };
        if *first != number {
            return false;
        }
        if other.start > 0 {
            return behind == own(&other.numbers, other.start) && are_same(&self.rest, &other.rest);
        }
        behind.is_empty() && begin_with(&self.rest, &other.numbers, &other.rest)
    }

    /// Whether it is another path, with a number before it where there is one.
    pub(crate) fn is_after(&self, number: Option<u32>, other: &Path) -> bool
        ensures { result ≡ true → self.now ≡ path_after number other.now }
    {
        match number {
            None => self.is_same(other),
            Some(number) => self.is_longer_by(number, other),
        }
    }

    /// The same path. It takes no memory, for it shares the numbers.
    ///
    /// # Errors
    ///
    /// Where more paths would share a number than memory can hold.
    pub fn share(&self) -> Result<Path, AllocError>
        ensures { IfOk result (λ path. path ≡ self.now) }
    {
        let rest = match &self.rest {
            None => None,
            Some(piece) => Some(piece.clone()?),
        };
        Ok(Path {
            numbers: self.numbers,
            start: self.start,
            count: self.count,
            rest,
        })
    }

    /// The same path with a number before it, where there is one.
    ///
    /// # Errors
    ///
    /// Memory that runs out.
    pub(crate) fn shared_after(
        &self,
        alloc: Global,
        number: Option<u32>,
    ) -> Result<Path, AllocError>
        requires { length (path_after number self.now) ≤ PATH_LIMIT }
        ensures { IfOk result (λ path. path ≡ path_after number self.now) }
    {
        let path = self.share()?;
        let Some(number) = number else {
            return Ok(path);
        };
        let path = path.behind(alloc, number)?;
        Ok(path)
    }

    /// The path with numbers before it, the first of them nearest.
    ///
    /// # Errors
    ///
    /// Memory that runs out.
    pub fn behind_all(self, alloc: Global, numbers: &[u32]) -> Result<Path, AllocError>
        requires { length numbers.now + length self ≤ PATH_LIMIT }
        ensures { IfOk result (λ path. path ≡ numbers.now ++ self) }
    {
        let mut path = self;
        let mut place = numbers.len();
        'numbers: while place > 0 {
            place -= 1;
            path = path.behind(alloc, numbers[place])?;
        }
        Ok(path)
    }

    /// The path with a number before it.
    ///
    /// # Errors
    ///
    /// Memory that runs out.
    pub fn behind(self, alloc: Global, number: u32) -> Result<Path, AllocError>
        requires { length self < PATH_LIMIT }
        ensures { IfOk result (λ path. path ≡ number ∷ self) }
    {
        let count = self.count + 1;
        if self.start > 0 {
            let mut numbers = self.numbers;
            let start = self.start - 1;
            numbers[start as usize] = number;
            return Ok(Path {
                numbers,
                start,
                count,
                rest: self.rest,
            });
        }
        let piece = Piece::before(self.numbers, self.rest);
        Ok(Path {
            numbers: [number; PIECE_LEN],
            start: PIECE_LEN as u16 - 1,
            count,
            rest: Some(Rc::new(alloc, piece)?),
        })
    }
}

// The numbers of a path that stand from a place on.
fn own(numbers: &[u32; PIECE_LEN], start: u16) -> &[u32]
    requires { start ≤ PIECE_LEN }
    ensures { result.now ≡ drop start numbers.now }
{
    &numbers[start as usize..]
}

// The sum of the numbers at all places, also at those that say nothing: paths that are made in the same
// way have the same there.
fn sum_of(numbers: &[u32; PIECE_LEN]) -> u32 {
    let mut sum = 0u32;
    'numbers: for number in numbers {
        sum = sum.wrapping_add(*number);
    }
    sum
}

// A number that equal counts and sums have in common.
fn mixed(count: u16, sum: u32) -> u64 {
    (u64::from(count) << 40) ^ u64::from(sum)
}

// Whether the first of some pieces has these numbers, and what is behind it is what a path shares with others.
fn begin_with(
    pieces: &Option<Rc<Piece>>,
    numbers: &[u32; PIECE_LEN],
    rest: &Option<Rc<Piece>>,
) -> bool
    requires pieces { ArePieces pieces.now }
    requires rest { ArePieces rest.now }
    ensures { result ≡ true → shared_numbers pieces.now ≡ numbers.now ++ shared_numbers rest.now }
{
    let Some(piece) = pieces else {
        return false;
    };
    piece.numbers == *numbers && are_same(&piece.rest, rest)
}

// The bits of the numbers that a path shares with others.
fn shared_bits(rest: &Option<Rc<Piece>>) -> SystemBits
    requires { ArePieces rest.now }
    ensures { AreBitsOf (shared_numbers rest.now) result }
{
    match rest {
        None => SystemBits::none(),
        Some(piece) => piece.bits,
    }
}

// Whether a number is among those that a path shares with others. Mostly the bits of the first
// piece tell that it isn't.
fn is_among(rest: &Option<Rc<Piece>>, number: u32) -> bool
    requires { ArePieces rest.now }
    ensures { result ≡ list_any (λ n. n == number) (shared_numbers rest.now) }
{
    let mut at = rest;
    'pieces: while let Some(piece) = at {
        if !piece.bits.has(number) {
            return false;
        }
        if piece.numbers.contains(&number) {
            return true;
        }
        at = &piece.rest;
    }
    false
}

// Whether what two paths share with others is the same.
fn are_same(left: &Option<Rc<Piece>>, right: &Option<Rc<Piece>>) -> bool
    requires left { ArePieces left.now }
    requires right { ArePieces right.now }
    ensures { IsTrue result ↔ (shared_numbers left.now ≡ shared_numbers right.now) }
{
    let mut left = left;
    let mut right = right;
    'pieces: while let Some(a) = left {
        match right {
            None => return false,
            Some(b) => {
                if !a.is_like(b) {
                    return false;
                }
                left = &a.rest;
                right = &b.rest;
            }
        }
    }
    match right {
        None => true,
        Some(_) => false,
    }
}

/// What is left of the numbers of a path, on the way along it.
#[derive(Drop)]
pub struct Numbers<'a> {
    own: &'a [u32],
    rest: Option<&'a Rc<Piece>>,
}

impl<'a> Model for Numbers<'a> {
    ghost use Rattle.std.specs.Prelude.{List, ℕ, ◌++◌, []};
    ghost use Rattle.std.specs.Option.{option_map_or, ForSome};
    ghost use Rattle.nc_tables.specs.Pieces.{piece_numbers, IsPiece};

    ghost Value = { List ℕ };

    ghost view = { λ n. n.own.now
        ++ option_map_or (λ piece. piece_numbers piece.now.value) n.rest [] };

    ghost invariant = { λ n. ForSome n.rest (λ piece. IsPiece piece.now.value) };
}

impl<'a> Numbers<'a> {
    /// Of no number.
    pub fn none() -> Numbers<'a>
        ensures { result ≡ [] }
    {
        Numbers {
            own: &[],
            rest: None,
        }
    }

    /// The next number, which is passed; `None` where none is left.
    pub fn pass(&mut self) -> Option<u32>
        ensures first { result ≡ slice_get self.old 0 }
        ensures left { self.new ≡ drop 1 self.old }
    {
        if let Some((first, others)) = self.own.split_first() {
            self.own = others;
            return Some(*first);
        }
        let Some(piece) = self.rest else {
            return None;
        };
        let piece: &Piece = piece;
        self.own = &piece.numbers[1..];
        self.rest = piece.rest.as_ref();
        Some(piece.numbers[0])
    }
}
