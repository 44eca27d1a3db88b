//! The lines of the routers as one text, in which letters are put in place.

ghost use Rattle.std.specs.Prelude.{◌≡◌, ◌-◌, ◌<◌, ◌≤◌, ◌++◌, drop, length, map, slice_index_or, take, IfSome, IfNone, IfOk, OnOk};
ghost use Rattle.std.specs.List.{flat_map};
ghost use Rattle.nc_report.specs.Listings.{place_at};
ghost use Rattle.nc_report.specs.Sheets.{sheet_view};
ghost use Rattle.nc_report.specs.Shown.{put_letter};
ghost use Rattle.nc_report.specs.Texts.{sheet_in, sheet_of};

use crate::report::{Sheet, push_line};
use std::alloc::{AllocError, Global};
use std::marker::Model;

// Where the line of a router begins, where its letters do, and where they end.
#[derive(Clone, Copy)]
struct Place {
    start: usize,
    letters: usize,
    end: usize,
}

/// The names and the letters of the routers, as they stand in a report.
#[derive(Drop)]
pub(crate) struct Listing {
    text: Vec<u8>,
    places: Vec<Place>,
}

impl Model for Listing {
    ghost use Rattle.std.specs.Prelude.{List, map};
    ghost use Rattle.nc_report.specs.Listings.{AreListed, sheet_between};
    ghost use Rattle.nc_report.specs.Texts.{Sheet};

    ghost Value = { List Sheet };

    ghost view = { λ l. map (sheet_between l.text.items) l.places.items };

    ghost invariant = { λ l. AreListed l.text.items l.places.items };
}

// Appends the line of a router, and says where it stands.
fn push_sheet(out: &mut Vec<u8>, sheet: &Sheet) -> Result<Place, AllocError>
    ensures text { OnOk result (out.new.items ≡ out.old.items ++ sheet_of (sheet_view sheet.now)) }
    ensures place { IfOk result (λ place. place
        ≡ place_at (length out.old.items) (sheet_view sheet.now)) }
{
    let start = out.len();
    out.extend_from_slice(&sheet.name)?;
    out.push(b' ')?;
    let letters = out.len();
    push_line(out, &sheet.letters)?;
    let end = letters + sheet.letters.len();
    Ok(Place {
        start,
        letters,
        end,
    })
}

// How many bytes the lines of the routers take together, if that is a number; it reserves and
// promises nothing.
fn room(sheets: &[Sheet]) -> usize {
    let mut room: usize = 0;
    'sheets: for sheet in sheets {
        let line = sheet.name.len().saturating_add(sheet.letters.len());
        room = room.saturating_add(line.saturating_add(2));
    }
    room
}

// What stands between two places of a text.
fn part(text: &[u8], start: usize, end: usize) -> &[u8]
    requires order { start ≤ end }
    requires within { end ≤ length text.now }
    ensures { result.now ≡ take (end - start) (drop start text.now) }
{
    &text[start..end]
}

impl Listing {
    /// The lines of the routers.
    pub(crate) fn new(alloc: Global, sheets: &[Sheet]) -> Result<Listing, AllocError>
        ensures { IfOk result (λ listing. listing ≡ map sheet_view sheets.now) }
    {
        let mut text = Vec::with_capacity(alloc, room(sheets))?;
        let mut places = Vec::with_capacity(alloc, sheets.len())?;
        'sheets: for sheet in sheets {
            places.push(push_sheet(&mut text, sheet)?)?;
        }
        Ok(Listing { text, places })
    }

    /// How many routers there are.
    pub(crate) fn len(&self) -> usize
        ensures { result ≡ length self.now }
    {
        self.places.len()
    }

    /// The text.
    pub(crate) fn text(&self) -> &[u8]
        ensures { result.now ≡ flat_map sheet_of self.now }
    {
        &self.text
    }

    /// The name of a router.
    pub(crate) fn name(&self, router: usize) -> &[u8]
        requires { router < length self.now }
        ensures { result.now ≡ (sheet_in self.now router).name }
    {
        let place = self.places[router];
        part(&self.text, place.start, place.letters - 1)
    }

    /// The letters of a router.
    pub(crate) fn letters(&self, router: usize) -> &[u8]
        requires { router < length self.now }
        ensures { result.now ≡ (sheet_in self.now router).letters }
    {
        let place = self.places[router];
        part(&self.text, place.letters, place.end)
    }

    /// Puts a letter at a place of a router's, if there is one, and gives the one that was there.
    pub(crate) fn put(&mut self, router: usize, place: usize, letter: u8) -> Option<u8>
        ensures put { self.new ≡ put_letter self.old router place letter }
        ensures there { IfSome result (λ before. router < length self.old) }
        ensures within { IfSome result (λ before.
            place < length (sheet_in self.old router).letters) }
        ensures before { IfSome result (λ before. before
            ≡ slice_index_or (sheet_in self.old router).letters place 0) }
        ensures none { IfNone result (self.new ≡ self.old) }
    {
        if router >= self.places.len() {
            return None;
        }
        let line = self.places[router];
        if place >= line.end - line.letters {
            return None;
        }
        let at = line.letters + place;
        let before = self.text[at];
        self.text[at] = letter;
        Some(before)
    }
}
