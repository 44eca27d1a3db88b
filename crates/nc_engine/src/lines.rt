//! A line of a session, by the command that stands on it.

ghost use Rattle.std.specs.Prelude.{◌≡◌, ◌<◌, ◌-◌, Some, map, IfOk, OnOk};
ghost use Rattle.nc_rules.specs.Seen.{state_of};
ghost use Rattle.nc_command.specs.Command.{command_of};
ghost use Rattle.nc_report.specs.Views.{file_view};
ghost use Rattle.nc_report.specs.Files.{AreFilesOf};
ghost use Rattle.nc_engine.specs.Engine.{Answered, HasDrawnFor, flow_behind};
ghost use Rattle.nc_engine.specs.Work.{IsWork, progress_of, with_lent};

use crate::engine::Flow;
use crate::work::Work;
use nc_command::{Command, CommandFault, read_command};
use nc_report::{LoadedFile, push_line};
use std::alloc::{AllocError, Global};

/// How a line was answered.
#[derive(Clone, Copy)]
pub(crate) struct Answer {
    /// Whether the session goes on.
    pub(crate) flow: Flow,
    /// Whether the lines of the report stand behind what was appended, lent and not copied.
    pub(crate) lends: bool,
}

impl Work {
    /// Answers a line: its reply goes to the end of `out`, but for the lines of a report where they
    /// are lent. The files are those of the routers.
    pub(crate) fn answer(
        &mut self,
        alloc: Global,
        line: &[u8],
        files: &[LoadedFile],
        out: &mut Vec<u8>,
    ) -> Result<Answer, AllocError>
        requires work { IsWork self.old }
        requires files { AreFilesOf (state_of self.old.rules).routers (map file_view files.now) }
        ensures work { OnOk result (IsWork self.new) }
        ensures answered { IfOk result (λ answer.
            Answered (progress_of (map file_view files.now) self.old)
            (progress_of (map file_view files.now) self.new) line.now
            out.old.items (with_lent answer.lends self.new.shown out.new.items)) }
        ensures flow { IfOk result (λ answer. answer.flow ≡ flow_behind (command_of line.now)) }
        ensures drawn { IfOk result (λ answer.
            HasDrawnFor (progress_of (map file_view files.now) self.new) (command_of line.now)
            out.old.items (with_lent answer.lends self.new.shown out.new.items)) }
    {
        let mut lends = false;
        match read_command(alloc, line) {
            Ok(None) => {}
            Ok(Some(Command::Quit)) => {
                return Ok(Answer {
                    flow: Flow::Stop,
                    lends,
                });
            }
            Ok(Some(Command::Test(test))) => lends = self.test(alloc, &test, out)?,
            Ok(Some(Command::Forget(number))) => lends = self.forget(alloc, number, out)?,
            Ok(Some(Command::Implies(first, second))) => self.question(alloc, first, second, out)?,
            Ok(Some(Command::Cut(number, names))) => self.cut(alloc, number, &names, out)?,
            Ok(Some(Command::Suite)) => self.suite(alloc, out)?,
            Ok(Some(Command::Dead)) => self.dead(alloc, out)?,
            Ok(Some(Command::Show(name))) => self.show(alloc, &name, files, out)?,
            Ok(Some(Command::Lcov)) => self.lcov(alloc, files, out)?,
            Ok(Some(Command::Json)) => self.json(alloc, out)?,
            Err(CommandFault::Long) => push_line(out, b"refused long")?,
            Err(CommandFault::Syntax) => push_line(out, b"refused syntax")?,
            Err(CommandFault::Memory) => return Err(AllocError),
        }
        Ok(Answer {
            flow: Flow::Go,
            lends,
        })
    }
}
