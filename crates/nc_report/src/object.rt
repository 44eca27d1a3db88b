//! A JSON object.

ghost use Rattle.std.specs.Prelude.{◌≡◌, map, All, IfOk};
ghost use Rattle.std.specs.Str.{IsAscii};
ghost use Rattle.serde_json.specs.View.{view};
ghost use Rattle.nc_report.specs.Shown.{IsText};
ghost use Rattle.nc_report.specs.Texts.{count_of, letters_of};
ghost use Rattle.nc_report.specs.Values.{report_data, router_data};

use crate::listing::Listing;
use serde_json::{Value, json};
use std::alloc::{AllocError, Global};

// Bytes of ASCII as text.
fn ascii_text(bytes: &[u8]) -> &str
    requires { IsAscii bytes.now }
    ensures { result.now ≡ bytes.now }
{
    match str::from_utf8(bytes) {
        Ok(text) => text,
        Err(_) => unreachable!(),
    }
}

// The object of a router.
#[tactic(auto, unfolding(crate::specs::Values::router_data))]
fn router_value(alloc: Global, name: &[u8], letters: &[u8]) -> Result<Value, AllocError>
    requires name { IsAscii name.now }
    requires letters { IsAscii letters.now }
    ensures { IfOk result (λ value. view value ≡ router_data (record {
      name = name.now;
      letters = letters.now;
    })) }
{
    let marks = ascii_text(letters);
    let name = ascii_text(name);
    json!(in alloc; {"marks": marks, "name": name})
}

/// The objects of the routers.
pub(crate) fn router_values(alloc: Global, listing: &Listing) -> Result<Vec<Value>, AllocError>
    requires { All IsText listing.now }
    ensures { IfOk result (λ values. map view values.items ≡ map router_data listing.now) }
{
    let mut values = Vec::new(alloc);
    'routers: for router in 0..listing.len() {
        values.push(router_value(alloc, listing.name(router), listing.letters(router))?)?;
    }
    Ok(values)
}
