//! The engine: the state of a network, and the answers to the lines of a session. A long report isn't
//! copied: the engine lends its lines, which end the reply until the next line is answered.

ghost use Rattle.std.specs.Prelude.{◌≡◌, ◌++◌, [], None, Some, map, IfOk, OnOk, OnErr};
ghost use Rattle.std.specs.Option.{ForSome};
ghost use Rattle.nc_command.specs.Command.{command_of};
ghost use Rattle.nc_report.specs.Views.{file_view};
ghost use Rattle.nc_report.specs.Files.{AreFilesOf};
ghost use Rattle.nc_engine.specs.Engine.{HasDrawn, HasDrawnFor, HasReferences, Turns, begin_at, flow_behind};

use crate::work::Work;
use nc_report::LoadedFile;
use nc_stable::SettledNetwork;
use std::alloc::{AllocError, Global};
use std::marker::Model;
use std::mem;

/// Whether the session goes on behind a line.
#[derive(Clone, Copy, PartialEq, Eq)]
pub enum Flow {
    Go,
    /// The line ends the session.
    Stop,
}

/// A network in its state with the files of its routers, and what a session keeps: the tests that
/// were accepted, and the facts that they rest on. An engine for which memory ran out is spent.
#[derive(Drop)]
pub struct Engine {
    work: Option<Work>,
    files: Vec<LoadedFile>,
    // where replies are made, one after another
    reply: Vec<u8>,
    // whether the lines of the report are lent
    lends: bool,
}

impl Model for Engine {
    ghost use Rattle.std.specs.Prelude.{map};
    ghost use Rattle.std.specs.Option.{ForSome};
    ghost use Rattle.nc_rules.specs.Seen.{state_of};
    ghost use Rattle.nc_report.specs.Views.{file_view};
    ghost use Rattle.nc_report.specs.Files.{AreFilesOf};
    ghost use Rattle.nc_engine.specs.Engine.{EngineView};
    ghost use Rattle.nc_engine.specs.Work.{engine_of, IsWork};

    ghost Value = { EngineView };

    ghost view = { λ e. engine_of (map file_view e.files.items) e.work e.lends };

    ghost invariant = { λ e. ForSome e.work (λ w. IsWork w
        × AreFilesOf (state_of w.rules).routers (map file_view e.files.items)) };
}

// Hands a reply on to the end of the bytes: where nothing stands there, the two buffers change places.
fn hand_on(reply: &mut Vec<u8>, out: &mut Vec<u8>) -> Result<(), AllocError>
    ensures appended { OnOk result (out.new.items ≡ out.old.items ++ reply.old.items) }
    ensures kept { OnErr result (out.new.items ≡ out.old.items) }
{
    if out.is_empty() {
        mem::swap(out, reply);
        return Ok(());
    }
    out.extend_from_slice(reply)
}

// Lets go of what an engine keeps of its session.
fn spend(work: &mut Option<Work>)
    ensures { work.new ≡ None }
{
    drop(work.take());
}

impl Engine {
    /// An engine of a network that settled, with the files of its routers, in order, and whether
    /// reports list the lines of the routers: without tests, no fact was inferred, and nothing is
    /// lent.
    ///
    /// # Errors
    ///
    /// Memory that runs out.
    pub fn begin(
        alloc: Global,
        settled: SettledNetwork,
        files: Vec<LoadedFile>,
        listed: bool,
    ) -> Result<Engine, AllocError>
        requires fit { AreFilesOf settled.state.routers (map file_view files.items) }
        ensures progress { IfOk result (λ engine. engine.progress
            ≡ Some (begin_at
            (record {
              state = settled.state;
              files = map file_view files.items;
              listed = listed;
            }))) }
        ensures lent { IfOk result (λ engine. engine.lent ≡ []) }
    {
        let work = Work::begin(alloc, settled, listed)?;
        Ok(Engine {
            work: Some(work),
            files,
            reply: Vec::new(alloc),
            lends: false,
        })
    }

    /// Answers a line of the session, given without its line end: its reply goes to the end of
    /// `out`, but for what the engine lends then, which stands behind that. An earlier loan ends.
    ///
    /// # Errors
    ///
    /// Memory that runs out. `out` is then as before, nothing is lent, and the engine is spent: each
    /// later call answers the same.
    pub fn answer(
        &mut self,
        alloc: Global,
        line: &[u8],
        out: &mut Vec<u8>,
    ) -> Result<Flow, AllocError>
        ensures turns { OnOk result (Turns self.old.progress self.new.progress line.now
            out.old.items (out.new.items ++ self.new.lent)) }
        ensures flow { IfOk result (λ flow. flow ≡ flow_behind (command_of line.now)) }

        // It has the diagrams of both tests of each question that was answered, and those of the test of a
        // cut that is told. Each fact that counts as drawn has a reference there, which means what carries it.
        ensures drawn { OnOk result (ForSome self.new.progress HasDrawn) }
        ensures references { OnOk result (ForSome self.new.progress HasReferences) }
        ensures drawn_for { OnOk result (ForSome self.new.progress (λ p. HasDrawnFor p
            (command_of line.now) out.old.items (out.new.items ++ self.new.lent))) }
        ensures spent { OnErr result ((self.new.progress ≡ None) × (self.new.lent ≡ [])
            × (out.new.items ≡ out.old.items)) }
    {
        let Some(work) = &mut self.work else {
            return Err(AllocError);
        };
        self.reply.clear();
        let Ok(answer) = work.answer(alloc, line, &self.files, &mut self.reply) else {
            spend(&mut self.work);
            return Err(AllocError);
        };
        work.references_are_kept();
        let Ok(()) = hand_on(&mut self.reply, out) else {
            spend(&mut self.work);
            return Err(AllocError);
        };
        self.lends = answer.lends;
        Ok(answer.flow)
    }

    /// The lines of the report where they are lent, else nothing.
    pub fn lent(&self) -> &[u8]
        ensures { result.now ≡ self.now.lent }
    {
        let Some(work) = &self.work else {
            return &[];
        };
        if !self.lends {
            return &[];
        }
        work.shown.lines()
    }

    /// Ends the loan, where something is lent.
    pub fn let_go(&mut self)
        ensures lent { self.new.lent ≡ [] }
        ensures progress { self.new.progress ≡ self.old.progress }
    {
        self.lends = false;
    }
}
