//! Loading: from the names of files to the state in which the network that they configure settles.
//!
//! It stands on `nc_outside` for the files, on `nc_lines` and `nc_reader` for their lines and what these configure, on
//! `nc_network` for configurations that go together, on `nc_stable` for the state in which a network settles, on
//! `nc_report` for a file as it is kept and on `nc_words` for names as bytes. The contract of [`load`] promises that it
//! gives what the definitions of `specs/` say of files by their names, or the first reason why there is no network; which
//! files are entered, each once and in order; and how much is taken of each. `Load` has what comes of files, `Entering`
//! which of them are entered, and `Limits` how much is read of them.
#![tactic(auto)]

mod loading;
mod reading;
mod refusal;

pub use loading::{Loaded, load};
pub use reading::Stop;
pub use refusal::{LoadFault, Quantity, Reason};

/// How many bytes of a file are read.
pub const FILE_LIMIT: usize = 4_194_304;
