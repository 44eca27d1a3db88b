//! The main rows of one prefix, and those of BGP rows that stand alone.

ghost use Rattle.std.specs.Prelude.{◌≡◌, ◌+◌, ◌++◌, ◌^◌, ◌<◌, ◌≤◌, ℕ, All, length, map, IfSome, OnOk};
ghost use Rattle.std.specs.List.{range_with_len};
ghost use Rattle.nc_types.specs.Cidr.{Cidr};
ghost use Rattle.nc_types.specs.declared.TheConstants.{MULTIPATH_LIMIT};
ghost use Rattle.nc_tables.specs.Main.{learnt_rows, nearer};
ghost use Rattle.nc_tables.specs.SpreadView.{row_view};
ghost use Rattle.nc_main_rib.specs.Sides.{base_rows, bgp_rows, chosen_of, learnt_of, learnt_row, first_distance, stands};

use nc_tables::{BaseRow, ChosenRow, LOCAL_DISTANCE, MainFrom, MainRow, RouterRows};
use nc_types::Prefix;
use std::alloc::AllocError;

// ---- distances

// The distance of what BGP has of a prefix: of the discard, if there is one, else of the best
// candidate.
fn bgp_distance(discard: Option<u32>, chosen: Option<ChosenRow<'_>>) -> Option<u8>
    ensures { (prefix : Cidr)
        → result ≡ first_distance (bgp_rows prefix discard (chosen_of chosen.entry)) }
{
    if discard.is_some() {
        return Some(LOCAL_DISTANCE);
    }
    let chosen = chosen?;
    chosen.learnt_distance()
}

// The distance of the base rows of a prefix.
fn base_distance(rows: &[BaseRow]) -> Option<u8>
    ensures { (prefix : Cidr) (first : ℕ) → result
        ≡ first_distance (base_rows prefix first rows.now) }
{
    let row = rows.first()?;
    Some(row.distance)
}

// Whether the base rows stand: there are some, and BGP has nothing nearer.
fn stands(base: Option<u8>, bgp: Option<u8>) -> bool
    ensures { result ≡ stands base bgp }
{
    match (base, bgp) {
        (None, _) => false,
        (Some(_), None) => true,
        (Some(base), Some(bgp)) => base <= bgp,
    }
}

// ---- rows

// Adds the base rows of a prefix, the first of which has this place in its table.
fn add_base(
    main: &mut Vec<MainRow>,
    prefix: Prefix,
    rows: &[BaseRow],
    first: usize,
) -> Result<(), AllocError>
    requires { first + length rows.now < 2 ^ 32 }
    ensures { OnOk result (main.new.items
        ≡ main.old.items ++ base_rows prefix first rows.now) }
{
    let mut place = first;
    'rows: for row in rows {
        main.push(MainRow {
            prefix,
            distance: row.distance,
            from: MainFrom::Base(place as u32),
        })?;
        place += 1;
    }
    Ok(())
}

// Adds rows for so many chosen candidates of a prefix.
fn add_learnt(
    main: &mut Vec<MainRow>,
    prefix: Prefix,
    distance: u8,
    count: usize,
) -> Result<(), AllocError>
    requires { count ≤ MULTIPATH_LIMIT }
    ensures { OnOk result (main.new.items
        ≡ main.old.items ++ map (learnt_row prefix distance) (range_with_len 0 count)) }
{
    'chosen: for place in 0..count {
        main.push(MainRow {
            prefix,
            distance,
            from: MainFrom::Bgp(place as u32),
        })?;
    }
    Ok(())
}

// Adds what was learnt of a prefix, of which this is chosen.
fn add_chosen(main: &mut Vec<MainRow>, row: ChosenRow<'_>) -> Result<(), AllocError>
    requires { length (row_view row).chosen ≤ MULTIPATH_LIMIT }
    ensures { OnOk result (main.new.items
        ≡ main.old.items ++ learnt_rows row.entry.prefix.now (row_view row.entry).chosen) }
{
    let Some(distance) = row.learnt_distance() else {
        return Ok(());
    };
    add_learnt(main, *row.prefix, distance, row.count())?;
    Ok(())
}

/// Adds what was learnt of the prefixes of some BGP rows, which have neither base rows nor a discard.
pub(crate) fn add_alone(main: &mut Vec<MainRow>, mut rows: RouterRows<'_>) -> Result<(), AllocError>
    requires { All (λ row. length row.chosen ≤ MULTIPATH_LIMIT) rows }
    ensures { OnOk result (main.new.items ≡ main.old.items ++ learnt_of rows.entry) }
{
    'rows: while let Some(row) = rows.next_row() {
        add_chosen(main, row)?;
    }
    Ok(())
}

// Adds what BGP has of a prefix.
fn add_bgp(
    main: &mut Vec<MainRow>,
    prefix: Prefix,
    discard: Option<u32>,
    chosen: Option<ChosenRow<'_>>,
) -> Result<(), AllocError>
    requires own { IfSome chosen (λ row. row.prefix.now ≡ prefix) }
    requires few { length (chosen_of chosen) ≤ MULTIPATH_LIMIT }
    ensures { OnOk result (main.new.items
        ≡ main.old.items ++ bgp_rows prefix discard (chosen_of chosen.entry)) }
{
    if let Some(place) = discard {
        main.push(MainRow {
            prefix,
            distance: LOCAL_DISTANCE,
            from: MainFrom::Discard(place),
        })?;
        return Ok(());
    }
    match chosen {
        Some(row) => {
            add_chosen(main, row)?;
            Ok(())
        }
        None => Ok(()),
    }
}

/// Adds the main rows of a prefix: its base rows, the first of which has this place in its table,
/// or what BGP has of it, a discard or what is chosen.
pub(crate) fn add_rows(
    main: &mut Vec<MainRow>,
    prefix: Prefix,
    base: &[BaseRow],
    first: usize,
    discard: Option<u32>,
    chosen: Option<ChosenRow<'_>>,
) -> Result<(), AllocError>
    requires base { first + length base.now < 2 ^ 32 }
    requires own { IfSome chosen (λ row. row.prefix.now ≡ prefix) }
    requires few { length (chosen_of chosen) ≤ MULTIPATH_LIMIT }
    ensures { OnOk result (main.new.items ≡ main.old.items
        ++ nearer (base_rows prefix first base.now) (bgp_rows prefix discard (chosen_of chosen.entry))) }
{
    if stands(base_distance(base), bgp_distance(discard, chosen)) {
        add_base(main, prefix, base, first)?;
        return Ok(());
    }
    add_bgp(main, prefix, discard, chosen)?;
    Ok(())
}
