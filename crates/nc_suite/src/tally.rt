//! For how many tests each element is strong, and for how many it is strong or weak.
ghost use Rattle.std.specs.Prelude.{◌≡◌, ◌↔◌, ◌<◌, ◌≤◌, ◌+◌, ◌-◌, ◌^◌, ℕ, true, Some, IfOk};
ghost use Rattle.nc_marks.specs.declared.mark.Mark.{Mark};
ghost use Rattle.nc_marks.specs.Marks.{mark_of, marked_elements};
ghost use Rattle.nc_suite.specs.Counts.{counted, strong_count, covered_count, strong_by, covered_by, mark_in, HasRoom, Adds, AreAmong, IsSpared, AreSpared, AreApart};

use crate::touch::Touch;
use nc_marks::mark::{Mark, Marks};
use nc_types::ElementId;
use std::alloc::{AllocError, Global};
use std::marker::Model;

/// Two counts for each element: for how many tests it is strong, and for how many it is strong or
/// weak.
#[derive(Drop)]
pub struct Tally {
    strong: Vec<u32>,
    covered: Vec<u32>,
}

impl Model for Tally {
    ghost use Rattle.std.specs.Prelude.{◌≡◌, ◌<◌, ◌^◌, length};
    ghost use Rattle.nc_suite.specs.Counts.{Counts};

    ghost Value = { Counts };

    ghost view = { λ t. record { strong = t.strong.items; covered = t.covered.items } };

    ghost invariant = { λ t. (length t.covered.items ≡ length t.strong.items)
        × (length t.strong.items < 2 ^ 32) };
}

impl Tally {
    /// No test is counted: both counts of each of the elements are 0.
    ///
    /// # Errors
    ///
    /// That memory is refused.
    pub fn new(alloc: Global, elements: u32) -> Result<Tally, AllocError>
        ensures elements { IfOk result (λ tally. counted tally ≡ elements) }
        ensures strong { IfOk result (λ tally. (e : ℕ) → strong_count tally e ≡ 0) }
        ensures covered { IfOk result (λ tally. (e : ℕ) → covered_count tally e ≡ 0) }
    {
        let strong = vec![in alloc; 0; elements as usize]?;
        let covered = vec![in alloc; 0; elements as usize]?;
        Ok(Tally { strong, covered })
    }

    // Counts an element of a mark.
    fn raise(&mut self, element: u32, mark: Mark)
        requires within { element < counted self.old }
        requires strong { strong_count self.old element < 2 ^ 32 - 1 }
        requires covered { covered_count self.old element < 2 ^ 32 - 1 }
        ensures elements { counted self.new ≡ counted self.old }
        ensures strong { strong_count self.new element
            ≡ strong_count self.old element + strong_by mark }
        ensures covered { covered_count self.new element
            ≡ covered_count self.old element + covered_by mark }
        ensures others { (e : ℕ) → (e ≡ element → ⊥)
            → (strong_count self.new e ≡ strong_count self.old e)
            × (covered_count self.new e ≡ covered_count self.old e) }
    {
        let place = element as usize;
        match mark {
            Mark::Strong => {
                self.strong[place] += 1;
                self.covered[place] += 1;
            }
            Mark::Weak => self.covered[place] += 1,
            Mark::Uncovered | Mark::Outside => {}
        }
    }

    // Takes an element of a mark out of the counts.
    fn lower(&mut self, element: u32, mark: Mark)
        requires within { element < counted self.old }
        requires strong { strong_by mark ≤ strong_count self.old element }
        requires covered { covered_by mark ≤ covered_count self.old element }
        ensures elements { counted self.new ≡ counted self.old }
        ensures strong { strong_count self.old element
            ≡ strong_count self.new element + strong_by mark }
        ensures covered { covered_count self.old element
            ≡ covered_count self.new element + covered_by mark }
        ensures others { (e : ℕ) → (e ≡ element → ⊥)
            → (strong_count self.new e ≡ strong_count self.old e)
            × (covered_count self.new e ≡ covered_count self.old e) }
    {
        let place = element as usize;
        match mark {
            Mark::Strong => {
                self.strong[place] -= 1;
                self.covered[place] -= 1;
            }
            Mark::Weak => self.covered[place] -= 1,
            Mark::Uncovered | Mark::Outside => {}
        }
    }

    // Whether an element of a mark is as well marked without it.
    fn spares(&self, element: u32, mark: Mark) -> bool
        requires within { element < counted self.now }
        ensures { result ≡ true ↔ IsSpared self.now element mark }
    {
        let place = element as usize;
        match mark {
            Mark::Strong => self.strong[place] >= 2,
            Mark::Weak => self.strong[place] >= 1 || self.covered[place] >= 2,
            Mark::Uncovered | Mark::Outside => true,
        }
    }

    /// Counts marks: it raises the first count of each strong element, and the second of each strong
    /// or weak one. It takes time for all elements.
    pub fn add(&mut self, marks: &Marks)
        requires elements { marked_elements marks.now ≡ counted self.old }
        requires room { HasRoom self.old }
        ensures { Adds (λ e. mark_of marks.now (Some e)) self.old self.new }
    {
        let elements = self.strong.len() as u32;
        'elements: for element in 0..elements {
            self.raise(element, marks.of_element(ElementId(element)));
        }
    }

    /// Whether marks that were counted are spare: each strong element has a first count of at least 2,
    /// and each weak one a first count of at least 1 or a second of at least 2. It takes time for all
    /// elements.
    pub fn spare(&self, marks: &Marks) -> bool
        requires elements { marked_elements marks.now ≡ counted self.now }
        requires room { HasRoom self.now }
        requires among { AreAmong (λ e. mark_of marks.now (Some e)) self.now }
        ensures { result ≡ true ↔ AreSpared (λ e. mark_of marks.now (Some e)) self.now }
    {
        let elements = self.strong.len() as u32;
        'elements: for element in 0..elements {
            if !self.spares(element, marks.of_element(ElementId(element))) {
                return false;
            }
        }
        true
    }

    /// Undoes `add`. It takes time for all elements.
    pub fn take(&mut self, marks: &Marks)
        requires elements { marked_elements marks.now ≡ counted self.old }
        requires room { HasRoom self.old }
        requires among { AreAmong (λ e. mark_of marks.now (Some e)) self.old }
        ensures { Adds (λ e. mark_of marks.now (Some e)) self.new self.old }
    {
        let elements = self.strong.len() as u32;
        'elements: for element in 0..elements {
            self.lower(element, marks.of_element(ElementId(element)));
        }
    }

    /// Counts marks as `add` does, by a list of the elements that aren't uncovered, each once. It
    /// takes time for the list.
    pub fn add_touches(&mut self, touches: &[Touch])
        requires apart { AreApart (counted self.old) touches.now }
        requires room { HasRoom self.old }
        ensures { Adds (mark_in touches.now) self.old self.new }
    {
        'touches: for touch in touches {
            self.raise(touch.element, touch.mark);
        }
    }

    /// Whether marks that were counted are spare, as `spare` tells it, by a list of the elements that
    /// aren't uncovered, each once. It takes time for the list.
    pub fn spare_touches(&self, touches: &[Touch]) -> bool
        requires apart { AreApart (counted self.now) touches.now }
        requires room { HasRoom self.now }
        requires among { AreAmong (mark_in touches.now) self.now }
        ensures { result ≡ true ↔ AreSpared (mark_in touches.now) self.now }
    {
        'touches: for touch in touches {
            if !self.spares(touch.element, touch.mark) {
                return false;
            }
        }
        true
    }

    /// Undoes `add_touches`. It takes time for the list.
    pub fn take_touches(&mut self, touches: &[Touch])
        requires apart { AreApart (counted self.old) touches.now }
        requires room { HasRoom self.old }
        requires among { AreAmong (mark_in touches.now) self.old }
        ensures { Adds (mark_in touches.now) self.new self.old }
    {
        'touches: for touch in touches {
            self.lower(touch.element, touch.mark);
        }
    }
}
