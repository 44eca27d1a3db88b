//! A text with a number in it that is counted up.

ghost use Rattle.std.specs.Prelude.{◌≡◌, ◌+◌, ◌-◌, ◌<◌, ◌≤◌, ◌^◌, ◌++◌, ◌∷◌, ℕ, drop, length, replicate, slice_index_or, slice_set, take, string_bytes, IfOk, OnOk};
ghost use Rattle.std.specs.Fmt.{decimal};
ghost use Rattle.nc_report.specs.Counters.{numbered_text};

use std::alloc::{AllocError, Global};
use std::marker::Model;

// Where the digits between two places end, the nines at their end left out.
fn before_nines(text: &[u8], start: usize, end: usize) -> usize
    requires order { start ≤ end }
    requires within { end ≤ length text.now }
    ensures from { start ≤ result }
    ensures until { result ≤ end }
    ensures nines { (place : ℕ) → result ≤ place → place < end
        → slice_index_or text.now place 0 ≡ 57 }
    ensures other { start < result → slice_index_or text.now (result - 1) 0 ≡ 57 → ⊥ }
{
    let mut place = end;
    'nines: while place > start && text[place - 1] == b'9' {
        place -= 1;
    }
    place
}

// Makes the bytes between two places zeros.
fn clear(text: &mut [u8], place: usize, end: usize)
    requires order { place ≤ end }
    requires within { end ≤ length text.old }
    ensures { text.new ≡ take place text.old
        ++ (replicate (end - place) 48 ++ drop end text.old) }
{
    text[place..end].fill(b'0');
}

// Makes the digit before a place one more, and those from there to an end zeros.
fn carry(text: &mut [u8], place: usize, end: usize)
    requires first { 0 < place }
    requires order { place ≤ end }
    requires within { end ≤ length text.old }
    requires digit { slice_index_or text.old (place - 1) 0 < 255 }
    ensures { text.new ≡ take (place - 1) text.old
        ++ (slice_index_or text.old (place - 1) 0 + 1)
        ∷ (replicate (end - place) 48 ++ drop end text.old) }
{
    text[place - 1] += 1;
    text[place..end].fill(b'0');
}

/// What stands before a number, its digits, and what stands behind it, as one text.
#[derive(Drop)]
pub(crate) struct Counter {
    text: Vec<u8>,
    // where the digits begin and end
    start: usize,
    end: usize,
    number: usize,
}

impl Model for Counter {
    ghost use Rattle.std.specs.Prelude.{drop, take};
    ghost use Rattle.nc_report.specs.Counters.{HasDigits, Numbered};

    ghost Value = { Numbered };

    ghost view = { λ c. record {
      head = take c.start c.text.items;
      number = c.number;
      tail = drop c.end c.text.items;
    } };

    ghost invariant = { λ c. HasDigits c.text.items c.start c.end c.number };
}

impl Counter {
    /// A text with the number 1 in it.
    pub(crate) fn new(alloc: Global, head: &[u8], tail: &[u8]) -> Result<Counter, AllocError>
        requires { length head.now < 2 ^ 32 }
        ensures { IfOk result (λ c. c ≡ record {
          head = head.now;
          number = 1;
          tail = tail.now;
        }) }
    {
        let mut text = Vec::from_slice(alloc, head)?;
        text.push(b'1')?;
        text.extend_from_slice(tail)?;
        let start = head.len();
        Ok(Counter {
            text,
            start,
            end: start + 1,
            number: 1,
        })
    }

    /// The text.
    pub(crate) fn text(&self) -> &[u8]
        ensures { result.now ≡ numbered_text self.now }
    {
        &self.text
    }

    /// Writes another byte before the number.
    pub(crate) fn put_before(&mut self, place: usize, byte: u8)
        requires { place < length self.old.head }
        ensures { self.new ≡ record {
          head = slice_set self.old.head place byte;
          number = self.old.number;
          tail = self.old.tail;
        } }
    {
        self.text[place] = byte;
    }

    /// Writes another byte behind the number.
    pub(crate) fn put_behind(&mut self, place: usize, byte: u8)
        requires { place < length self.old.tail }
        ensures { self.new ≡ record {
          head = self.old.head;
          number = self.old.number;
          tail = slice_set self.old.tail place byte;
        } }
    {
        let at = self.end + place;
        self.text[at] = byte;
    }

    /// Makes the number one more; at an error it stays.
    pub(crate) fn count_up(&mut self) -> Result<(), AllocError>
        requires { self.old.number + 1 < 2 ^ 64 }
        ensures { OnOk result (self.new ≡ record {
          head = self.old.head;
          number = self.old.number + 1;
          tail = self.old.tail;
        }) }
    {
        let place = before_nines(&self.text, self.start, self.end);
        if place == self.start {
            self.text.insert(place, b'1')?;
            self.end += 1;
            clear(&mut self.text, place + 1, self.end);
            self.number += 1;
            return Ok(());
        }
        carry(&mut self.text, place, self.end);
        self.number += 1;
        Ok(())
    }
}
