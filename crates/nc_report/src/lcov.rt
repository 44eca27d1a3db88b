//! An LCOV tracefile.

ghost use Rattle.std.specs.Prelude.{◌≡◌, ◌+◌, ◌<◌, ◌≤◌, ◌^◌, ◌++◌, length, map, nat_lt, string_bytes, IfSome, if◌then◌else◌, OnOk, IfOk};
ghost use Rattle.std.specs.List.{flat_map};
ghost use Rattle.nc_report.specs.Counters.{IsRecord};
ghost use Rattle.nc_report.specs.Texts.{ending, hit_count, hit_line, hit_of, hits_in, hits_of, lcov_of, listed, section_text};
ghost use Rattle.nc_report.specs.Views.{file_view};

use crate::counter::Counter;
use crate::file::LoadedFile;
use crate::listing::Listing;
use std::alloc::{AllocError, Global};

// How many lines are counted, and how many of them were hit.
#[derive(Clone, Copy)]
struct Tally {
    found: usize,
    hit: usize,
}

// How often a line of a letter was hit; `None` where it isn't counted.
fn hits_of(letter: u8) -> Option<u8>
    ensures hits { result ≡ hits_of letter }
    ensures few { IfSome result (λ count. count ≤ 1) }
{
    match letter {
        b'S' | b'W' => Some(1),
        b'U' => Some(0),
        _ => None,
    }
}

// Appends the record of the line of a number.
#[tactic(auto, unfolding(crate::specs::Texts::hit_line))]
fn push_record(out: &mut Vec<u8>, counter: &mut Counter, count: u8) -> Result<(), AllocError>
    requires one { count ≤ 1 }
    requires is { IsRecord counter.old }
    ensures out { OnOk result (out.new.items ≡ out.old.items
        ++ hit_line (record { line = counter.old.number; count = count })) }
    ensures is { IsRecord counter.new }
    ensures number { counter.new.number ≡ counter.old.number }
{
    counter.put_behind(1, b'0' + count);
    out.extend_from_slice(counter.text())?;
    Ok(())
}

// Counts a line that is counted.
fn add(tally: &mut Tally, count: u8)
    requires one { count ≤ 1 }
    requires found { tally.old.found < 2 ^ 63 }
    requires hit { tally.old.hit < 2 ^ 63 }
    ensures found { tally.new.found ≡ tally.old.found + 1 }
    ensures hit { tally.new.hit ≡ tally.old.hit + (if nat_lt 0 count then 1 else 0) }
{
    tally.found += 1;
    tally.hit += count as usize;
}

// Appends the record of the line of a number and counts it, if its letter is counted.
fn push_hit(
    out: &mut Vec<u8>,
    counter: &mut Counter,
    tally: &mut Tally,
    letter: u8,
) -> Result<(), AllocError>
    requires is { IsRecord counter.old }
    requires found { tally.old.found < 2 ^ 63 }
    requires hit { tally.old.hit < 2 ^ 63 }
    ensures out { OnOk result (out.new.items ≡ out.old.items
        ++ flat_map hit_line (listed (hit_of counter.old.number (hits_of letter)))) }
    ensures found { OnOk result (tally.new.found ≡ tally.old.found
        + length (listed (hit_of counter.old.number (hits_of letter)))) }
    ensures hit { OnOk result (tally.new.hit ≡ tally.old.hit
        + hit_count (listed (hit_of counter.old.number (hits_of letter)))) }
    ensures is { IsRecord counter.new }
    ensures number { counter.new.number ≡ counter.old.number }
{
    let Some(count) = hits_of(letter) else {
        return Ok(());
    };
    push_record(out, counter, count)?;
    add(tally, count);
    Ok(())
}

// Appends the records of the lines that are counted, and says how many they are.
fn push_hits(alloc: Global, out: &mut Vec<u8>, letters: &[u8]) -> Result<Tally, AllocError>
    ensures out { OnOk result (out.new.items
        ≡ out.old.items ++ flat_map hit_line (hits_in letters.now)) }
    ensures found { IfOk result (λ tally. tally.found ≡ length (hits_in letters.now)) }
    ensures hit { IfOk result (λ tally. tally.hit ≡ hit_count (hits_in letters.now)) }
{
    let mut counter = Counter::new(alloc, b"DA:", b",0\n")?;
    let mut tally = Tally { found: 0, hit: 0 };
    'letters: for letter in letters {
        push_hit(out, &mut counter, &mut tally, *letter)?;
        counter.count_up()?;
    }
    Ok(tally)
}

// The records behind those of the lines: how many are counted, and how many of these were hit.
#[tactic(auto, unfolding(crate::specs::Texts::ending))]
fn ending(alloc: Global, found: usize, hit: usize) -> Result<String, AllocError>
    ensures { IfOk result (λ text. string_bytes text ≡ ending found hit) }
{
    format!(in alloc; "LF:{found}\nLH:{hit}\nend_of_record\n")
}

// Appends the section of a file of this name.
fn push_section(
    alloc: Global,
    out: &mut Vec<u8>,
    name: &[u8],
    letters: &[u8],
) -> Result<(), AllocError>
    ensures { OnOk result (out.new.items
        ≡ out.old.items ++ section_text name.now (hits_in letters.now)) }
{
    out.extend_from_slice(b"TN:\nSF:")?;
    out.extend_from_slice(name)?;
    out.push(b'\n')?;
    let tally = push_hits(alloc, out, letters)?;
    let ending = ending(alloc, tally.found, tally.hit)?;
    out.extend_from_slice(ending.as_bytes())?;
    Ok(())
}

/// Appends the sections of the routers' files, in order.
pub(crate) fn push_sections(
    alloc: Global,
    out: &mut Vec<u8>,
    listing: &Listing,
    files: &[LoadedFile],
) -> Result<(), AllocError>
    ensures { OnOk result (out.new.items ≡ out.old.items
        ++ lcov_of listing.now (map file_view files.now)) }
{
    'routers: for router in 0..listing.len() {
        let Some(file) = files.get(router) else {
            return Ok(());
        };
        push_section(alloc, out, file.name.bytes(), listing.letters(router))?;
    }
    Ok(())
}
