//! A network or an aggregate as its statements so far leave it.

ghost use Rattle.std.specs.Prelude.{◌≡◌, OnOk};
ghost use Rattle.nc_read_bgp.specs.Steps.{no_prefix, prefix_with};
ghost use Rattle.nc_read_bgp.specs.Drafts.{prefix_fields};

use std::alloc::{AllocError, Global};

/// What the statements of a network or an aggregate so far set.
#[derive(Drop)]
pub(crate) struct PrefixDraft {
    /// Whether the longer prefixes inside it are held back.
    pub(crate) summary_only: bool,
    /// The lines of its statements.
    pub(crate) lines: Vec<u32>,
}

impl PrefixDraft {
    /// What no statement sets.
    pub(crate) fn new(alloc: Global) -> PrefixDraft
        ensures { prefix_fields result ≡ no_prefix }
    {
        PrefixDraft {
            summary_only: false,
            lines: Vec::new(alloc),
        }
    }

    /// One more statement, in this line.
    ///
    /// # Errors
    ///
    /// Memory that runs out.
    pub(crate) fn take(&mut self, line: u32, summary_only: bool) -> Result<(), AllocError>
        ensures { OnOk result (prefix_fields self.new
            ≡ prefix_with summary_only line (prefix_fields self.old)) }
    {
        self.lines.push(line)?;
        self.summary_only = summary_only;
        Ok(())
    }
}
