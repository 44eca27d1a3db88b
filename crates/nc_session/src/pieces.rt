//! A session in pieces: it is read up to its end or one byte past its limit, and the whole lines of each piece
//! are answered before the next is read.

ghost use Rattle.std.specs.Prelude.{◌≡◌, ◌≢◌, ℕ, ◌+◌, ◌<◌, ◌≤◌, Some, List, Option, length, map, take, false, IfOk, OnErr};
ghost use Rattle.std.specs.Io.KnownBytes.{Consumes, Keeps, IsAtEnd};
ghost use Rattle.nc_outside.specs.Counts.{Faults, HasCause};
ghost use Rattle.nc_report.specs.Views.{file_view};
ghost use Rattle.nc_report.specs.Files.{AreFilesOf};
ghost use Rattle.nc_engine.specs.File.{LoadedView};
ghost use Rattle.nc_session.specs.Limits.{most_session_bytes};
ghost use Rattle.nc_load.specs.Reading.{TakesAtMost, StaysInTime};
ghost use Rattle.nc_engine.specs.Engine.{begin_at};
ghost use Rattle.nc_session.specs.Leaving.{Told, told, failures, Leaves, FailsAs, stopped_as};
ghost use Rattle.nc_engine.specs.Session.{GoesOn};
ghost use Rattle.nc_session.specs.SoFar.{IsTaken, RefusesRest};

use crate::SESSION_LIMIT;
use crate::afterwards::{Afterwards, let_go};
use crate::serving::{answer_last, take_piece};
use crate::status::Status;
use crate::writing::write_all;
use nc_command::Cutter;
use nc_engine::laws::sessions_go_on;
use nc_engine::{Engine, Flow};
use nc_load::Stop;
use nc_outside::{Failed, Sink, Source};
use nc_report::LoadedFile;
use nc_stable::SettledNetwork;
use std::alloc::Global;

// How many bytes a read asks for at most.
const PIECE: usize = 8192;

// One read of a session, for as many bytes as there is room, to the front of the buffer.
fn read_piece<S: Source>(input: &mut S, buffer: &mut [u8], room: usize) -> Result<usize, Failed>
    requires some { 0 < room }
    requires space { 0 < length buffer.old }
    ensures within { IfOk result (λ count. (count ≤ room) × (count ≤ length buffer.new)) }
    ensures bytes { IfOk result (λ count.
        Consumes (S.rest input.old) (S.rest input.new) (take count buffer.new)) }
    ensures ended { IfOk result (λ count. count ≡ 0 → IsAtEnd (S.rest input.new)) }
    ensures kept { OnErr result (Keeps (S.rest input.old) (S.rest input.new)) }
    ensures cause { HasCause (S.faults input.old) (S.faults input.new) result }
    ensures in_time { StaysInTime (S.end input.old) (S.end input.new) }
    ensures goes_on { (S.end input.old).is_told ≡ false
        → IfOk result (λ count. count ≢ 0 → (S.end input.new).is_told ≡ false) }
{
    let most = buffer.len().min(room);
    let count = input.read(&mut buffer[..most])?;
    Ok(count)
}

// Why replies ended early.
fn stopped(stop: Stop) -> Status
    ensures { result ≡ stopped_as stop }
{
    match stop {
        Stop::Outside => Status::OutputFault,
        Stop::Memory => Status::Memory,
    }
}

// Answers the line that no line feed ended, where there is one: the session is at its end.
fn finish<K: Sink>(alloc: Global, engine: &mut Engine, cutter: Cutter, output: &mut K) -> Status
    ensures leaves { (n : LoadedView) (before : Told)
        (rest : Option (List ℕ)) (room : ℕ)
        → IsTaken (begin_at n) before (told rest (K.written output.old)) engine.old.progress cutter
        room
        → IsAtEnd rest → GoesOn n → Leaves n before (told rest (K.written output.new)) result }
    ensures fails { (source : Faults) → FailsAs (failures source (K.faults output.old))
        (failures source (K.faults output.new)) result }
{
    let Some(cut) = cutter.end() else {
        return Status::Done;
    };
    match answer_last(alloc, engine, cut, output) {
        Ok(_) => Status::Done,
        Err(stop) => stopped(stop),
    }
}

// Says that the session is longer than its limit.
fn refuse_rest<K: Sink>(output: &mut K) -> Status
    ensures says { RefusesRest (K.written output.old) (K.written output.new) result }
    ensures fails { (source : Faults) → FailsAs (failures source (K.faults output.old))
        (failures source (K.faults output.new)) result }
{
    match write_all(output, b"refused limit session\n") {
        Ok(()) => Status::Limit,
        Err(_) => Status::OutputFault,
    }
}

// Ends a session of which as many bytes were taken as its limit allows: one byte more is past it.
fn close<S: Source, K: Sink>(
    alloc: Global,
    engine: &mut Engine,
    cutter: Cutter,
    input: &mut S,
    output: &mut K,
) -> Status
    ensures leaves { (n : LoadedView) (before : Told)
        → IsTaken (begin_at n) before (told (S.rest input.old) (K.written output.old))
        engine.old.progress cutter 0
        → GoesOn n → Leaves n before (told (S.rest input.new) (K.written output.new)) result }
    ensures fails { FailsAs (failures (S.faults input.old) (K.faults output.old))
        (failures (S.faults input.new) (K.faults output.new)) result }
    ensures takes { TakesAtMost 1 (S.rest input.old) (S.rest input.new) }
    ensures in_time { StaysInTime (S.end input.old) (S.end input.new) }
{
    let mut byte = [0u8; 1];
    let count = match input.read(&mut byte) {
        Ok(count) => count,
        Err(_) => return Status::InputFault,
    };
    if count == 0 {
        return finish(alloc, engine, cutter, output);
    }
    refuse_rest(output)
}

// Serves a session from its first byte on.
fn serve_pieces<S: Source, K: Sink>(
    alloc: Global,
    engine: &mut Engine,
    input: &mut S,
    output: &mut K,
) -> Status
    ensures leaves { (n : LoadedView)
        → engine.old.progress ≡ Some (begin_at n) → GoesOn n
        → Leaves n (told (S.rest input.old) (K.written output.old))
        (told (S.rest input.new) (K.written output.new)) result }
    ensures fails { FailsAs (failures (S.faults input.old) (K.faults output.old))
        (failures (S.faults input.new) (K.faults output.new)) result }
    ensures takes { TakesAtMost (most_session_bytes + 1) (S.rest input.old) (S.rest input.new) }
    ensures in_time { StaysInTime (S.end input.old) (S.end input.new) }
{
    let mut cutter = Cutter::new(alloc);
    let mut room = SESSION_LIMIT;
    'reading: while room > 0 {
        let mut buffer = [0u8; PIECE];
        let count = match read_piece(input, &mut buffer, room) {
            Ok(count) => count,
            Err(_) => return Status::InputFault,
        };
        if count == 0 {
            return finish(alloc, engine, cutter, output);
        }
        match take_piece(alloc, engine, &mut cutter, &buffer[..count], output) {
            Ok(Flow::Go) => room -= count,
            Ok(Flow::Stop) => return Status::Done,
            Err(stop) => return stopped(stop),
        }
    }
    close(alloc, engine, cutter, input, output)
}

/// Answers a session while it is read: each whole line before the next read, up to one that ends the session, to the
/// end of the source, or to the limit of [`SESSION_LIMIT`] bytes, past which one byte is taken and the rest refused.
/// Reports list the lines of the routers, or have their counts alone. What becomes of the network's memory is told too.
pub(crate) fn serve<S: Source, K: Sink>(
    alloc: Global,
    settled: SettledNetwork,
    files: Vec<LoadedFile>,
    listed: bool,
    afterwards: Afterwards,
    input: &mut S,
    output: &mut K,
) -> Status
    requires fit { AreFilesOf settled.state.routers (map file_view files.items) }
    ensures leaves { Leaves (record {
      state = settled.state;
      files = map file_view files.items;
      listed = listed;
    })
        (told (S.rest input.old) (K.written output.old))
        (told (S.rest input.new) (K.written output.new)) result }
    ensures fails { FailsAs (failures (S.faults input.old) (K.faults output.old))
        (failures (S.faults input.new) (K.faults output.new)) result }
    ensures takes { TakesAtMost (most_session_bytes + 1) (S.rest input.old) (S.rest input.new) }
    ensures in_time { StaysInTime (S.end input.old) (S.end input.new) }
{
    sessions_go_on();
    let _state = settled.state.network();
    let Ok(mut engine) = Engine::begin(alloc, settled, files, listed) else {
        return Status::Memory;
    };
    let status = serve_pieces(alloc, &mut engine, input, output);
    let_go(engine, afterwards);
    status
}
