//! Lines that begin as an entry of an access list and have another rest: they are wrong where an
//! interface applies the list.

ghost use Rattle.std.specs.Prelude.{◌≡◌, ◌||◌, ℕ, List, [], ◌++◌, map, OnOk, IfOk};
ghost use Rattle.std.specs.List.{filter_map, cons_option, list_any};
ghost use Rattle.std.specs.Option.{option_map};
ghost use Rattle.std.specs.Str.{bytes_eq};
ghost use Rattle.nc_types.specs.declared.fault.Fault.{Fault};
ghost use Rattle.nc_types.specs.Faults.{lowest};
ghost use Rattle.nc_reader.specs.Configuration.{applied_by, odd_in, odd_fault, odd_faults};
ghost use Rattle.nc_reader.specs.Parts.{part_view};

use crate::faults::lowest_of;
use crate::things::Part;
use indexmap::IndexSet;
use nc_read_filter::OddLine;
use nc_types::{Cause, Fault, Text};
use std::alloc::{AllocError, Global};

// The access list that a part applies.
fn applied_by(part: &Part) -> Option<&Text>
    ensures { option_map (λ list. list.now) result ≡ applied_by (part_view part.now) }
{
    match part {
        Part::AGroup(piece) => Some(&piece.group.list),
        _ => None,
    }
}

// Adds a name.
fn add(alloc: Global, names: &mut IndexSet<Text>, name: &Text) -> Result<(), AllocError>
    ensures { OnOk result ((q : List ℕ) → list_any (bytes_eq q) names.new.keys
        ≡ (list_any (bytes_eq q) names.old.keys || bytes_eq q name.now)) }
{
    names.insert(Text::new(alloc, name.bytes())?)?;
    Ok(())
}

// Adds the access list that a part applies.
fn add_applied(alloc: Global, names: &mut IndexSet<Text>, part: &Part) -> Result<(), AllocError>
    ensures { OnOk result ((q : List ℕ) → list_any (bytes_eq q) names.new.keys
        ≡ (list_any (bytes_eq q) names.old.keys
        || list_any (bytes_eq q) (cons_option (applied_by (part_view part.now)) []))) }
{
    let Some(name) = applied_by(part) else {
        return Ok(());
    };
    add(alloc, names, name)?;
    Ok(())
}

// The access lists that interfaces apply.
fn applied(alloc: Global, parts: &[Part]) -> Result<IndexSet<Text>, AllocError>
    ensures { IfOk result (λ names. (q : List ℕ) → list_any (bytes_eq q) names.keys
        ≡ list_any (bytes_eq q) (filter_map applied_by (map part_view parts.now))) }
{
    let mut names = IndexSet::new(alloc);
    'parts: for part in parts {
        add_applied(alloc, &mut names, part)?;
    }
    Ok(names)
}

// Of the faults so far and that of an odd line, where it is wrong, the one with the lowest line.
fn with_odd(names: &IndexSet<Text>, line: &OddLine, told: Option<Fault>) -> Option<Fault>
    ensures { (fs : List Fault) → told ≡ lowest fs
        → result ≡ lowest (fs ++ cons_option (odd_fault names.now.keys line.now) []) }
{
    if !names.contains(&line.list) {
        return told;
    }
    let fault = Fault {
        line: line.line,
        cause: Cause::Unsupported,
    };
    Some(lowest_of(told, fault))
}

// The same for several lines, by what the parts of the file apply.
fn with_all_odd(
    alloc: Global,
    parts: &[Part],
    odd: &[OddLine],
    told: Option<Fault>,
) -> Result<Option<Fault>, AllocError>
    ensures { IfOk result (λ r. (fs : List Fault) → told ≡ lowest fs → r ≡ lowest (fs
        ++ filter_map (odd_fault (filter_map applied_by (map part_view parts.now))) odd.now)) }
{
    if odd.is_empty() {
        return Ok(told);
    }
    let names = applied(alloc, parts)?;
    let mut least = told;
    'odd: for line in odd {
        least = with_odd(&names, line, least);
    }
    Ok(least)
}

// The same for the lines of one part.
fn note_part(
    alloc: Global,
    parts: &[Part],
    part: &Part,
    told: Option<Fault>,
) -> Result<Option<Fault>, AllocError>
    ensures { IfOk result (λ r. (fs : List Fault) → told ≡ lowest fs → r ≡ lowest (fs
        ++ filter_map (odd_fault (filter_map applied_by (map part_view parts.now)))
        (odd_in (part_view part.now)))) }
{
    match part {
        Part::Filters(_, odd) => {
            let least = with_all_odd(alloc, parts, odd, told)?;
            Ok(least)
        }
        _ => Ok(told),
    }
}

/// Of the faults so far and those of odd lines in the access lists that the parts of a file apply,
/// the one with the lowest line.
pub(crate) fn note_odd(
    alloc: Global,
    parts: &[Part],
    told: Option<Fault>,
) -> Result<Option<Fault>, AllocError>
    ensures { IfOk result (λ r. (fs : List Fault) → told ≡ lowest fs
        → r ≡ lowest (fs ++ odd_faults (map part_view parts.now))) }
{
    let mut least = told;
    'parts: for part in parts {
        least = note_part(alloc, parts, part, least)?;
    }
    Ok(least)
}
