//! The things of a configuration, each with the lines that are its element.

ghost use Rattle.std.specs.Prelude.{◌≡◌, ◌∷◌, ◌++◌, [], IfOk};
ghost use Rattle.nc_reader.specs.Things.{first_in};

use crate::communities::CommunityLine;
use crate::routes::RouteLines;
use nc_read_filter::FilterLine;
use nc_read_policy::EntryLines;
use nc_types::{
    Clause, CommunityEntry, FilterEntry, Group, Interface, Lines, ListEntry, StaticRoute,
};
use std::alloc::{AllocError, Global};

/// A thing of a configuration with its lines, before it has the place of its element.
pub(crate) trait Piece: Drop {
    type Thing: Drop;

    ghost use Rattle.std.specs.Prelude.{List, ℕ};

    ghost lines_of: { Self → List ℕ };

    ghost placed: { ℕ → Self → Self.Thing };

    /// The first of the lines; 0 where there is none.
    fn first(&self) -> u32
        ensures { result ≡ first_in (lines_of self.now) };

    /// The thing with this place of its element, and the lines.
    fn split(self, alloc: Global, place: u32) -> Result<(Self::Thing, Lines), AllocError>
        ensures thing { IfOk result (λ r. r.0 ≡ placed place self) }
        ensures lines { IfOk result (λ r. r.1 ≡ lines_of self) };
}

/// The first of some lines; 0 where there is none.
pub(crate) fn first_in(lines: &[u32]) -> u32
    ensures { result ≡ first_in lines.now }
{
    match lines.first() {
        None => 0,
        Some(line) => *line,
    }
}

// Lines of which the last stands apart. Mostly it is the only one, which takes no memory.
fn with_last(alloc: Global, earlier: Vec<u32>, last: u32) -> Result<Lines, AllocError>
    ensures { IfOk result (λ lines. lines ≡ earlier.items ++ last ∷ []) }
{
    if earlier.is_empty() {
        return Ok(Lines::one(last));
    }
    let mut lines = earlier;
    lines.push(last)?;
    Ok(Lines::of(alloc, lines)?)
}

/// Lines alone, of a thing that gets the place of its element later.
impl Piece for Vec<u32> {
    type Thing = u32;

    ghost lines_of = { λ lines. lines.items };

    ghost placed = { λ place lines. place };

    fn first(&self) -> u32 {
        first_in(self)
    }

    fn split(self, alloc: Global, place: u32) -> Result<(u32, Lines), AllocError> {
        Ok((place, Lines::of(alloc, self)?))
    }
}

/// An interface with the lines of its statements, ascending from 1.
#[derive(Drop)]
pub(crate) struct InterfaceLines {
    pub(crate) interface: Interface,
    pub(crate) lines: Vec<u32>,
}

impl Piece for InterfaceLines {
    type Thing = Interface;

    ghost use Rattle.nc_reader.specs.Configuration.{with_place};

    ghost lines_of = { λ p. p.lines.items };

    ghost placed = { λ place p. with_place place p.interface };

    fn first(&self) -> u32 {
        first_in(&self.lines)
    }

    fn split(self, alloc: Global, place: u32) -> Result<(Interface, Lines), AllocError> {
        let InterfaceLines {
            mut interface,
            lines,
        } = self;
        interface.element = place;
        Ok((interface, Lines::of(alloc, lines)?))
    }
}

impl Piece for RouteLines {
    type Thing = StaticRoute;

    ghost use Rattle.nc_reader.specs.Configuration.{route_with_place};

    ghost lines_of = { λ p. p.lines.items };

    ghost placed = { λ place p. route_with_place place p.route };

    fn first(&self) -> u32 {
        first_in(&self.lines)
    }

    fn split(self, alloc: Global, place: u32) -> Result<(StaticRoute, Lines), AllocError> {
        let RouteLines { mut route, lines } = self;
        route.element = place;
        Ok((route, Lines::of(alloc, lines)?))
    }
}

/// A clause with the lines of its statements, ascending from 1.
#[derive(Drop)]
pub(crate) struct ClauseLines {
    pub(crate) clause: Clause,
    pub(crate) lines: Vec<u32>,
}

impl Piece for ClauseLines {
    type Thing = Clause;

    ghost use Rattle.nc_types.specs.declared.config.Clause.{Clause};

    ghost lines_of = { λ p. p.lines.items };

    ghost placed = { λ place p. record p.clause { element = place } };

    fn first(&self) -> u32 {
        first_in(&self.lines)
    }

    fn split(self, alloc: Global, place: u32) -> Result<(Clause, Lines), AllocError> {
        let ClauseLines { mut clause, lines } = self;
        clause.element = place;
        Ok((clause, Lines::of(alloc, lines)?))
    }
}

impl Piece for EntryLines {
    type Thing = ListEntry;

    ghost use Rattle.nc_reader.specs.Configuration.{entry_with_place};
    ghost use Rattle.nc_read_policy.specs.Outcomes.{entry_lines};

    ghost lines_of = { entry_lines };

    ghost placed = { λ place p. entry_with_place place p.entry };

    fn first(&self) -> u32 {
        match self.earlier.as_slice().first() {
            None => self.entry.line,
            Some(line) => *line,
        }
    }

    fn split(self, alloc: Global, place: u32) -> Result<(ListEntry, Lines), AllocError> {
        let EntryLines { mut entry, earlier } = self;
        entry.element = place;
        let lines = with_last(alloc, earlier, entry.line)?;
        Ok((entry, lines))
    }
}

impl Piece for CommunityLine {
    type Thing = CommunityEntry;

    ghost use Rattle.std.specs.Prelude.{[], ◌∷◌};
    ghost use Rattle.nc_reader.specs.Configuration.{community_with_place};

    ghost lines_of = { λ p. p.line ∷ [] };

    ghost placed = { λ place p. community_with_place place p.entry };

    fn first(&self) -> u32 {
        self.line
    }

    fn split(self, _alloc: Global, place: u32) -> Result<(CommunityEntry, Lines), AllocError> {
        let CommunityLine { mut entry, line } = self;
        entry.element = place;
        Ok((entry, Lines::one(line)))
    }
}

impl Piece for FilterLine {
    type Thing = FilterEntry;

    ghost use Rattle.std.specs.Prelude.{[], ◌∷◌};
    ghost use Rattle.nc_reader.specs.Configuration.{filter_with_place};

    ghost lines_of = { λ p. p.line ∷ [] };

    ghost placed = { λ place p. filter_with_place place p.entry };

    fn first(&self) -> u32 {
        self.line
    }

    fn split(self, _alloc: Global, place: u32) -> Result<(FilterEntry, Lines), AllocError> {
        let FilterLine { mut entry, line } = self;
        entry.element = place;
        Ok((entry, Lines::one(line)))
    }
}

/// What applies an access list to an interface with the lines of its statements, ascending from 1.
#[derive(Drop)]
pub(crate) struct GroupLines {
    pub(crate) group: Group,
    pub(crate) lines: Vec<u32>,
}

impl Piece for GroupLines {
    type Thing = Group;

    ghost use Rattle.nc_reader.specs.Configuration.{group_with_place};

    ghost lines_of = { λ p. p.lines.items };

    ghost placed = { λ place p. group_with_place place p.group };

    fn first(&self) -> u32 {
        first_in(&self.lines)
    }

    fn split(self, alloc: Global, place: u32) -> Result<(Group, Lines), AllocError> {
        let GroupLines { mut group, lines } = self;
        group.element = place;
        Ok((group, Lines::of(alloc, lines)?))
    }
}
