//! The report as it stands: it is kept from test to test, a test changes what changed, and a reply
//! lends the lines of the routers or copies them, in one form or another.

ghost use Rattle.std.specs.Prelude.{◌≡◌, ◌+◌, ◌<◌, ◌++◌, ◌&&◌, ◌^◌, ℕ, Bool, not, nat_eq, length, map, slice_index_or, string_bytes, IfOk, OnOk};
ghost use Rattle.std.specs.List.{flat_map};
ghost use Rattle.serde_json.specs.View.{view};
ghost use Rattle.nc_types.specs.Network.{element_count, owner_at};
ghost use Rattle.nc_marks.specs.Kept.{TouchesOnly};
ghost use Rattle.nc_marks.specs.Marks.{ElementMarks, marked_elements};
ghost use Rattle.nc_marks.specs.Sets.{has};
ghost use Rattle.nc_report.specs.Texts.{count_of, json_of, lcov_of, letters_of, object_text, report_of, sheet_in, sheet_of, show_of, totals_of};
ghost use Rattle.nc_report.specs.Sheets.{sheets_from};
ghost use Rattle.nc_report.specs.Shown.{AreFreshBut, is_owner, one, put_letter};
ghost use Rattle.nc_report.specs.Values.{report_data};
ghost use Rattle.nc_report.specs.Views.{file_view};

use crate::file::LoadedFile;
use crate::lcov::push_sections;
use crate::listing::Listing;
use crate::number::push_count;
use crate::object::router_values;
use crate::report::{all_letters, letter, push_line, sheets};
use crate::show::push_listing;
use nc_marks::mark::Marks;
use nc_types::{ElementId, Network, RouterId};
use serde_json::{Value, json};
use std::alloc::{AllocError, Global};
use std::marker::Model;

// More bytes than the counts of the marks take.
const TOTALS_ROOM: usize = 128;

/// A name and the letters of the lines for each router: `S` is a strong line, `W` a weak one, `U`
/// one that isn't covered, and a dot one outside.
#[derive(Drop)]
pub struct Shown {
    listing: Listing,
    // how often each letter is in them, by its byte
    counts: Vec<usize>,
}

impl Model for Shown {
    ghost use Rattle.std.specs.Prelude.{List};
    ghost use Rattle.nc_report.specs.Texts.{Sheet};
    ghost use Rattle.nc_report.specs.Shown.{AreKept};

    ghost Value = { List Sheet };

    ghost view = { λ s. s.listing };

    ghost invariant = { λ s. AreKept s.listing s.counts.items };
}

// How often each byte is among letters.
fn counts_of(alloc: Global, letters: &[u8]) -> Result<Vec<usize>, AllocError>
    ensures len { IfOk result (λ counts. length counts.items ≡ 256) }
    ensures each { IfOk result (λ counts. (sign : ℕ) → sign < 256
        → slice_index_or counts.items sign 0 ≡ count_of sign letters.now) }
    ensures few { length letters.now < 2 ^ 63 }
{
    let mut counts = vec![in alloc; 0; 256]?;
    'letters: for sign in letters {
        counts[*sign as usize] += 1;
    }
    Ok(counts)
}

// Counts a letter in place of another.
fn recount(counts: &mut Vec<usize>, before: u8, letter: u8)
    requires len { length counts.old.items ≡ 256 }
    requires some { 0 < slice_index_or counts.old.items before 0 }
    requires room { slice_index_or counts.old.items letter 0 < 2 ^ 63 }
    ensures len { length counts.new.items ≡ 256 }
    ensures each { (sign : ℕ) → sign < 256
        → slice_index_or counts.new.items sign 0 + one sign before
        ≡ slice_index_or counts.old.items sign 0 + one sign letter }
{
    counts[before as usize] -= 1;
    counts[letter as usize] += 1;
}

impl Shown {
    /// The report on the marks of the elements of a network.
    ///
    /// # Errors
    ///
    /// That memory is refused.
    pub fn new(alloc: Global, network: &Network, marks: &Marks) -> Result<Shown, AllocError>
        requires { marked_elements marks.now ≡ element_count network.now }
        ensures { IfOk result (λ shown. shown ≡ sheets_from network.now marks.now 0 network.now) }
    {
        let sheets = sheets(alloc, network, marks)?;
        let letters = all_letters(alloc, &sheets)?;
        let counts = counts_of(alloc, &letters)?;
        let listing = Listing::new(alloc, &sheets)?;
        Ok(Shown { listing, counts })
    }

    // Puts a letter at a place of a router's, if there is one.
    fn put(&mut self, router: usize, place: usize, letter: u8)
        requires { letter < 128 }
        ensures { self.new ≡ put_letter self.old router place letter }
    {
        let Some(before) = self.listing.put(router, place, letter) else {
            return;
        };
        recount(&mut self.counts, before, letter);
    }

    // Puts the letter of a line.
    fn put_line(&mut self, network: &Network, marks: &Marks, router: RouterId, line: u32)
        requires { marked_elements marks.now ≡ element_count network.now }
        ensures { (due : ℕ → ℕ → Bool) → AreFreshBut network.now marks.now due self.old
            → AreFreshBut network.now marks.now
            (λ r k. due r k && not (nat_eq r router.0 && nat_eq (k + 1) line)) self.new }
    {
        if line == 0 {
            return;
        }
        let letter = letter(marks.of_line(network, router, line));
        self.put(router.0 as usize, line as usize - 1, letter);
    }

    // Puts the letters of lines of a router.
    fn put_lines(&mut self, network: &Network, marks: &Marks, router: RouterId, lines: &[u32])
        requires { marked_elements marks.now ≡ element_count network.now }
        ensures { (due : ℕ → ℕ → Bool) → AreFreshBut network.now marks.now due self.old
            → AreFreshBut network.now marks.now
            (λ r k. due r k && not (nat_eq r router.0 && has lines.now (k + 1))) self.new }
    {
        'lines: for line in lines {
            self.put_line(network, marks, router, *line);
        }
    }

    // Puts the letters of the lines of an element.
    fn put_element(&mut self, network: &Network, marks: &Marks, element: ElementId)
        requires { marked_elements marks.now ≡ element_count network.now }
        ensures { (due : ℕ → ℕ → Bool) → AreFreshBut network.now marks.now due self.old
            → AreFreshBut network.now marks.now
            (λ r k. due r k && not (is_owner element.0
            (owner_at network.now r (k + 1)))) self.new }
    {
        let Some((router, element)) = network.element(element) else {
            return;
        };
        self.put_lines(network, marks, router, element.lines.as_slice());
    }

    /// Makes the report that on new marks, where only the marks of touched elements are others than
    /// before.
    pub fn refresh(&mut self, network: &Network, marks: &Marks, touched: &[u32])
        requires { marked_elements marks.now ≡ element_count network.now }
        ensures { (before : ElementMarks) → marked_elements before ≡ element_count network.now
            → TouchesOnly touched.now before marks.now
            → self.old ≡ sheets_from network.now before 0 network.now
            → self.new ≡ sheets_from network.now marks.now 0 network.now }
    {
        'touched: for element in touched {
            self.put_element(network, marks, ElementId(*element));
        }
    }

    // How often a letter is in the report.
    fn count(&self, sign: u8) -> usize
        ensures { result ≡ count_of sign (letters_of self.now) }
    {
        self.counts[sign as usize]
    }

    /// The lines of the routers, which end the report: of each its name and a letter a line.
    pub fn lines(&self) -> &[u8]
        ensures { result.now ≡ flat_map sheet_of self.now }
    {
        self.listing.text()
    }

    /// Appends the report: the counts of the marks of all lines, then the lines of the routers.
    ///
    /// # Errors
    ///
    /// That memory is refused, as with each of the forms.
    pub fn push_report(&self, alloc: Global, out: &mut Vec<u8>) -> Result<(), AllocError>
        ensures { OnOk result (out.new.items ≡ out.old.items ++ report_of self.now) }
    {
        let lines = self.lines();
        out.reserve(lines.len().saturating_add(TOTALS_ROOM))?;
        self.push_totals(alloc, out)?;
        out.extend_from_slice(lines)?;
        Ok(())
    }

    /// Appends the counts of the marks of all lines, with which a report begins.
    ///
    /// # Errors
    ///
    /// That memory is refused.
    pub fn push_totals(&self, _alloc: Global, out: &mut Vec<u8>) -> Result<(), AllocError>
        ensures { OnOk result (out.new.items ≡ out.old.items ++ totals_of self.now) }
    {
        push_count(out, b"strong ", self.count(b'S'))?;
        push_count(out, b" weak ", self.count(b'W'))?;
        push_count(out, b" uncovered ", self.count(b'U'))?;
        push_count(out, b" outside ", self.count(b'.'))?;
        out.push(b'\n')?;
        Ok(())
    }

    // The letters of a router, none where it isn't there.
    fn letters(&self, router: RouterId) -> &[u8]
        ensures { result.now ≡ (sheet_in self.now router.0).letters }
    {
        if router.0 as usize >= self.listing.len() {
            return &[];
        }
        self.listing.letters(router.0 as usize)
    }

    /// Appends a listing of a router's file: each line behind its letter, its number and a space
    /// each. A line stands as it was read, without the carriage return at its end.
    pub fn push_show(
        &self,
        alloc: Global,
        router: RouterId,
        file: &LoadedFile,
        out: &mut Vec<u8>,
    ) -> Result<(), AllocError>
        ensures { OnOk result (out.new.items ≡ out.old.items
            ++ show_of (sheet_in self.now router.0).letters (file_view file.now).lines) }
    {
        push_listing(alloc, out, self.letters(router), &file.lines)?;
        Ok(())
    }

    /// Appends a tracefile of the files of the routers, which are in order: a strong or weak line
    /// was hit once, one that isn't covered never, and lines outside aren't counted. A file's name
    /// stands as it was given.
    pub fn push_lcov(
        &self,
        alloc: Global,
        files: &[LoadedFile],
        out: &mut Vec<u8>,
    ) -> Result<(), AllocError>
        ensures { OnOk result (out.new.items
            ≡ out.old.items ++ lcov_of self.now (map file_view files.now)) }
    {
        push_sections(alloc, out, &self.listing, files)?;
        Ok(())
    }

    // The object of the network.
    #[tactic(auto, unfolding(crate::specs::Values::report_data))]
    fn value(&self, alloc: Global) -> Result<Value, AllocError>
        ensures { IfOk result (λ value. view value ≡ report_data self.now) }
    {
        let outside = self.count(b'.');
        let strong = self.count(b'S');
        let uncovered = self.count(b'U');
        let weak = self.count(b'W');
        let routers = Value::Array(router_values(alloc, &self.listing)?);
        let value = json!(in alloc; {
            "outside": outside,
            "routers": &routers,
            "strong": strong,
            "uncovered": uncovered,
            "weak": weak
        })?;
        Ok(value)
    }

    // The text of the object of the network.
    fn text(&self, alloc: Global) -> Result<String, AllocError>
        ensures { IfOk result (λ text. string_bytes text ≡ object_text self.now) }
    {
        let value = self.value(alloc)?;
        value.to_string(alloc)
    }

    /// Appends the marks of all lines as one line of compact JSON: how many lines are `outside`,
    /// `strong`, `uncovered` and `weak`, and of each of the `routers`, in order, the `marks` of its
    /// lines, a letter each, and the `name`.
    pub fn push_json(&self, alloc: Global, out: &mut Vec<u8>) -> Result<(), AllocError>
        ensures { OnOk result (out.new.items ≡ out.old.items ++ json_of self.now) }
    {
        let text = self.text(alloc)?;
        push_line(out, text.as_bytes())
    }
}
