//! The parts of a report: how the lines of all files are marked, as text.

ghost use Rattle.std.specs.Prelude.{◌≡◌, ◌++◌, ◌<◌, map, All, OnOk, IfOk};
ghost use Rattle.nc_types.specs.Config.{config_view};
ghost use Rattle.nc_types.specs.Network.{element_count};
ghost use Rattle.nc_marks.specs.Marks.{marked_elements};
ghost use Rattle.nc_report.specs.Shown.{IsText};
ghost use Rattle.nc_report.specs.Texts.{letter, letters_of, line_of};
ghost use Rattle.nc_report.specs.Sheets.{sheet_view, letters_from, sheet_at, sheets_from};

use nc_marks::mark::{Mark, Marks};
use nc_types::{Network, RouterConfig, RouterId};
use std::alloc::{AllocError, Global};

// A router in a report: its name, and a letter a line of its file.
#[derive(Drop)]
pub(crate) struct Sheet {
    pub(crate) name: Vec<u8>,
    pub(crate) letters: Vec<u8>,
}

// The letter of a mark.
pub(crate) fn letter(mark: Mark) -> u8
    ensures letter { result ≡ letter mark }
    ensures ascii { result < 128 }
{
    match mark {
        Mark::Strong => b'S',
        Mark::Weak => b'W',
        Mark::Uncovered => b'U',
        Mark::Outside => b'.',
    }
}

// The letters of the lines of a router's file.
fn letters(
    alloc: Global,
    network: &Network,
    marks: &Marks,
    router: RouterId,
    lines: u32,
) -> Result<Vec<u8>, AllocError>
    requires { marked_elements marks.now ≡ element_count network.now }
    ensures { IfOk result (λ letters. letters.items
        ≡ letters_from network.now marks.now router.0 0 lines) }
{
    let mut letters = Vec::with_capacity(alloc, lines as usize)?;
    'lines: for line in 0..lines {
        letters.push(letter(marks.of_line(network, router, line + 1)))?;
    }
    Ok(letters)
}

// The sheet of a router.
fn router_sheet(
    alloc: Global,
    network: &Network,
    marks: &Marks,
    router: RouterId,
    config: &RouterConfig,
) -> Result<Sheet, AllocError>
    requires { marked_elements marks.now ≡ element_count network.now }
    ensures { IfOk result (λ sheet. sheet_view sheet
        ≡ sheet_at network.now marks.now router.0 (config_view config.now)) }
{
    Ok(Sheet {
        name: config.name.bytes().to_vec(alloc)?,
        letters: letters(alloc, network, marks, router, config.line_count)?,
    })
}

// The sheets of all routers.
pub(crate) fn sheets(
    alloc: Global,
    network: &Network,
    marks: &Marks,
) -> Result<Vec<Sheet>, AllocError>
    requires { marked_elements marks.now ≡ element_count network.now }
    ensures sheets { IfOk result (λ sheets. map sheet_view sheets.items
        ≡ sheets_from network.now marks.now 0 network.now) }
    ensures texts { IfOk result (λ sheets. All IsText (map sheet_view sheets.items)) }
{
    let routers = network.routers();
    let mut sheets = Vec::new(alloc);
    'routers: for (place, config) in routers.iter().enumerate() {
        sheets.push(router_sheet(alloc, network, marks, RouterId(place as u32), config)?)?;
    }
    Ok(sheets)
}

// The letters of all sheets.
pub(crate) fn all_letters(alloc: Global, sheets: &[Sheet]) -> Result<Vec<u8>, AllocError>
    ensures { IfOk result (λ letters. letters.items
        ≡ letters_of (map sheet_view sheets.now)) }
{
    let mut letters = Vec::new(alloc);
    'sheets: for sheet in sheets {
        letters.extend_from_slice(&sheet.letters)?;
    }
    Ok(letters)
}

/// Appends a text and a line feed.
pub fn push_line(out: &mut Vec<u8>, text: &[u8]) -> Result<(), AllocError>
    ensures { OnOk result (out.new.items ≡ out.old.items ++ line_of text.now) }
{
    out.extend_from_slice(text)?;
    out.push(b'\n')?;
    Ok(())
}
