//! The marks that are kept, in other forms than the report: listings of files, tracefiles and JSON.

ghost use Rattle.std.specs.Prelude.{◌≡◌, ◌<◌, ◌-◌, List, Some, length, map, OnOk};
ghost use Rattle.nc_rules.specs.Seen.{state_of};
ghost use Rattle.nc_report.specs.Texts.{json_of, lcov_of};
ghost use Rattle.nc_report.specs.Views.{FileView, file_view};
ghost use Rattle.nc_engine.specs.File.{file_in};
ghost use Rattle.nc_report.specs.Files.{AreFilesOf};
ghost use Rattle.nc_engine.specs.Work.{IsWork, Forms, Listed};

use crate::testing::push_unknown;
use crate::work::Work;
use nc_report::LoadedFile;
use nc_types::{RouterId, Text};
use std::alloc::{AllocError, Global};

// The file of a router.
fn file_at(files: &[LoadedFile], router: RouterId) -> &LoadedFile
    requires { router.0 < length files.now }
    ensures { file_view result.now ≡ file_in (map file_view files.now) router.0 }
{
    &files[router.0 as usize]
}

impl Work {
    /// Appends a listing of the file of the router of a name, if there is one.
    pub(crate) fn show(
        &self,
        alloc: Global,
        name: &Text,
        files: &[LoadedFile],
        out: &mut Vec<u8>,
    ) -> Result<(), AllocError>
        requires work { IsWork self.now }
        requires files { AreFilesOf (state_of self.now.rules).routers (map file_view files.now) }
        ensures { OnOk result (Listed (map file_view files.now) self.now name.now
            out.old.items out.new.items) }
    {
        self.marks_are_kept();
        let Some(router) = self.router(name) else {
            push_unknown(out, name.bytes())?;
            return Ok(());
        };
        self.shown
            .push_show(alloc, router, file_at(files, router), out)?;
        Ok(())
    }

    /// Appends a tracefile of the files.
    pub(crate) fn lcov(
        &self,
        alloc: Global,
        files: &[LoadedFile],
        out: &mut Vec<u8>,
    ) -> Result<(), AllocError>
        requires { IsWork self.now }
        ensures { OnOk result (Forms (map file_view files.now) self.now
            (λ sheets. lcov_of sheets (map file_view files.now)) out.old.items out.new.items) }
    {
        self.marks_are_kept();
        self.shown.push_lcov(alloc, files, out)?;
        Ok(())
    }

    /// Appends the marks as a JSON object.
    pub(crate) fn json(&self, alloc: Global, out: &mut Vec<u8>) -> Result<(), AllocError>
        requires { IsWork self.now }
        ensures { OnOk result ((files : List FileView)
            → Forms files self.now json_of out.old.items out.new.items) }
    {
        self.marks_are_kept();
        self.shown.push_json(alloc, out)?;
        Ok(())
    }
}
