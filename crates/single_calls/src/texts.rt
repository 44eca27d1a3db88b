//! The texts on marks, of a network no element of which is marked.

ghost use Rattle.std.specs.Prelude.{◌≡◌};
ghost use Rattle.nc_marks.specs.Marks.{marked_elements};
ghost use Rattle.nc_types.specs.Network.{element_count};

use crate::network::{TEXT, lines_of, network};
use nc_marks::kept::KeptMarks;
use nc_report::{LoadedFile, json_text, lcov_text, report_text, show_text};
use nc_types::{Network, RouterId, Text};
use std::alloc::{AllocError, Global};

const REPORT: &[u8] = b"strong 0 weak 0 uncovered 10 outside 1\nr1 .UUUUUUUUUU\n";

const LISTING: &[u8] =
    b". 1 hostname r1\nU 2 interface Ethernet0\nU 3  ip address 10.0.0.1 255.255.255.0\n\
    U 4 interface Ethernet1\nU 5  ip address 10.0.1.1 255.255.255.0\n\
    U 6 ip route 10.9.0.0 255.255.0.0 10.0.0.2\nU 7 ip route 10.9.0.0 255.255.0.0 10.0.1.2\n\
    U 8 ip prefix-list LAN seq 5 permit 10.9.0.0/16 le 24\nU 9 route-map OUT permit 10\n\
    U 10  match ip address prefix-list LAN\nU 11  set metric 50\n";

const TRACEFILE: &[u8] =
    b"TN:\nSF:one.cfg\nDA:2,0\nDA:3,0\nDA:4,0\nDA:5,0\nDA:6,0\nDA:7,0\nDA:8,0\n\
    DA:9,0\nDA:10,0\nDA:11,0\nLF:10\nLH:0\nend_of_record\n";

const JSON: &[u8] = b"{\"outside\":1,\"routers\":[{\"marks\":\".UUUUUUUUUU\",\"name\":\"r1\"}],\
    \"strong\":0,\"uncovered\":10,\"weak\":0}\n";

// The file of the router, as it was read.
fn file(alloc: Global) -> Result<Option<LoadedFile>, AllocError> {
    let name = Text::new(alloc, b"one.cfg")?;
    match lines_of(alloc, TEXT)? {
        Some(lines) => Ok(Some(LoadedFile { name, lines })),
        None => Ok(None),
    }
}

// Whether the report on a network without marks is the one that is expected.
fn is_reported(alloc: Global, network: &Network) -> Result<bool, AllocError> {
    let kept = KeptMarks::new(alloc, network.element_count())?;
    let text = report_text(alloc, network, kept.marks())?;
    Ok(text.as_slice() == REPORT)
}

/// The report: the counts, and the letters of each router.
///
/// # Errors
///
/// Memory that runs out.
pub fn reports(alloc: Global) -> Result<bool, AllocError> {
    let Some(network) = network(alloc)? else {
        return Ok(false);
    };
    is_reported(alloc, &network)
}

// Whether the listing of a file of a network without marks is the one that is expected.
fn is_listed(alloc: Global, network: &Network, file: &LoadedFile) -> Result<bool, AllocError> {
    let kept = KeptMarks::new(alloc, network.element_count())?;
    let text = show_text(alloc, network, kept.marks(), RouterId(0), file)?;
    Ok(text.as_slice() == LISTING)
}

/// The listing of the file, each line behind its letter and its number.
///
/// # Errors
///
/// Memory that runs out.
pub fn lists(alloc: Global) -> Result<bool, AllocError> {
    let Some(file) = file(alloc)? else {
        return Ok(false);
    };
    match network(alloc)? {
        Some(network) => is_listed(alloc, &network, &file),
        None => Ok(false),
    }
}

// Whether the tracefile of files of a network without marks is the one that is expected.
fn is_traced(alloc: Global, network: &Network, files: &[LoadedFile]) -> Result<bool, AllocError> {
    let kept = KeptMarks::new(alloc, network.element_count())?;
    let text = lcov_text(alloc, network, kept.marks(), files)?;
    Ok(text.as_slice() == TRACEFILE)
}

/// The tracefile of the file.
///
/// # Errors
///
/// Memory that runs out.
pub fn traces(alloc: Global) -> Result<bool, AllocError> {
    let Some(file) = file(alloc)? else {
        return Ok(false);
    };
    match network(alloc)? {
        Some(network) => is_traced(alloc, &network, &[file]),
        None => Ok(false),
    }
}

// Whether the marks of a network without any are told in JSON as is expected.
fn is_told(alloc: Global, network: &Network) -> Result<bool, AllocError> {
    let kept = KeptMarks::new(alloc, network.element_count())?;
    let text = json_text(alloc, network, kept.marks())?;
    Ok(text.as_slice() == JSON)
}

/// The line of JSON.
///
/// # Errors
///
/// Memory that runs out.
pub fn tells_json(alloc: Global) -> Result<bool, AllocError> {
    let Some(network) = network(alloc)? else {
        return Ok(false);
    };
    is_told(alloc, &network)
}
