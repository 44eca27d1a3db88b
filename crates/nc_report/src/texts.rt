//! The forms of a report on marks that aren't kept.

ghost use Rattle.std.specs.Prelude.{◌≡◌, map, IfOk};
ghost use Rattle.nc_types.specs.Network.{element_count};
ghost use Rattle.nc_marks.specs.Marks.{marked_elements};
ghost use Rattle.nc_report.specs.Sheets.{sheets_from};
ghost use Rattle.nc_report.specs.Texts.{json_of, lcov_of, report_of, sheet_in, show_of};
ghost use Rattle.nc_report.specs.Views.{file_view};

use crate::file::LoadedFile;
use crate::shown::Shown;
use nc_marks::mark::Marks;
use nc_types::{Network, RouterId};
use std::alloc::{AllocError, Global};

/// The report of a test: the counts of all marks, and a line of letters for each router.
///
/// # Errors
///
/// Memory that runs out.
pub fn report_text(alloc: Global, network: &Network, marks: &Marks) -> Result<Vec<u8>, AllocError>
    requires { marked_elements marks.now ≡ element_count network.now }
    ensures { IfOk result (λ text. text.items
        ≡ report_of (sheets_from network.now marks.now 0 network.now)) }
{
    let shown = Shown::new(alloc, network, marks)?;
    let mut text = Vec::new(alloc);
    shown.push_report(alloc, &mut text)?;
    Ok(text)
}

/// A listing of a router's file, each line behind its mark and its number.
///
/// # Errors
///
/// Memory that runs out.
pub fn show_text(
    alloc: Global,
    network: &Network,
    marks: &Marks,
    router: RouterId,
    file: &LoadedFile,
) -> Result<Vec<u8>, AllocError>
    requires { marked_elements marks.now ≡ element_count network.now }
    ensures { IfOk result (λ text. text.items
        ≡ show_of (sheet_in (sheets_from network.now marks.now 0 network.now) router.0).letters
        (file_view file.now).lines) }
{
    let shown = Shown::new(alloc, network, marks)?;
    let mut text = Vec::new(alloc);
    shown.push_show(alloc, router, file, &mut text)?;
    Ok(text)
}

/// An LCOV tracefile of the files of the routers, which are in order.
///
/// # Errors
///
/// Memory that runs out.
pub fn lcov_text(
    alloc: Global,
    network: &Network,
    marks: &Marks,
    files: &[LoadedFile],
) -> Result<Vec<u8>, AllocError>
    requires { marked_elements marks.now ≡ element_count network.now }
    ensures { IfOk result (λ text. text.items
        ≡ lcov_of (sheets_from network.now marks.now 0 network.now) (map file_view files.now)) }
{
    let shown = Shown::new(alloc, network, marks)?;
    let mut text = Vec::new(alloc);
    shown.push_lcov(alloc, files, &mut text)?;
    Ok(text)
}

/// The counts and the marks as one line of JSON (RFC 8259).
///
/// # Errors
///
/// Memory that runs out.
pub fn json_text(alloc: Global, network: &Network, marks: &Marks) -> Result<Vec<u8>, AllocError>
    requires { marked_elements marks.now ≡ element_count network.now }
    ensures { IfOk result (λ text. text.items
        ≡ json_of (sheets_from network.now marks.now 0 network.now)) }
{
    let shown = Shown::new(alloc, network, marks)?;
    let mut text = Vec::new(alloc);
    shown.push_json(alloc, &mut text)?;
    Ok(text)
}
