//! Serving a session: every line is answered, and the replies to the whole lines of a piece are written before it is left.
//! Replies are gathered, so that short ones are written together; what the engine lends of a reply is written from where
//! it stands, behind those that are pending.

ghost use Rattle.std.specs.Prelude.{◌≡◌, ◌≢◌, ◌⊎◌, ℕ, ◌<◌, ◌++◌, ◌∷◌, [], false, List, Option, Err, length, IfSome, IfNone, MatchOption, IfOk, OnOk, OnErr, codes};
ghost use Rattle.std.specs.List.{list_any};
ghost use Rattle.std.specs.Io.KnownBytes.{Appends};
ghost use Rattle.nc_lines.specs.Lines.{is_feed, without_return};
ghost use Rattle.nc_lines.specs.WholeLines.{whole_lines_of};
ghost use Rattle.nc_command.specs.Cutting.{cut_of, held_of};
ghost use Rattle.nc_session.specs.declared.serving.TheConstants.{PENDING_LIMIT};
ghost use Rattle.nc_engine.specs.declared.engine.Flow.TheVariants as flow;
ghost use Rattle.nc_report.specs.Texts.{line_of};
ghost use Rattle.nc_load.specs.Reading.{HasStopCause};
ghost use Rattle.nc_engine.specs.Engine.{Progress};
ghost use Rattle.nc_session.specs.Serving.{AppendsFront, AppendsPart, EndsWith, AreServed, ArePending, AnswersLine, IsFirst, AnswersFirst, AnswersNone, ServesLines};

use crate::writing::{write_all, write_both};
use nc_command::{Cut, Cutter, cut_at_feed};
use nc_engine::{Engine, Flow};
use nc_lines::line_end::line_len;
use nc_load::Stop;
use nc_outside::Sink;
use std::alloc::{AllocError, Global};

// How many bytes of replies may be pending when a line is answered.
const PENDING_LIMIT: usize = 16_384;

// Writes the pending replies, and then ends as is said. Where the sink fails, that is the end.
fn end_with<K: Sink>(output: &mut K, pending: &[u8], end: Result<Flow, Stop>) -> Result<Flow, Stop>
    requires { end ≢ Err Stop.Outside }
    ensures ends { EndsWith end (K.written output.old) (K.written output.new) pending.now result }
    ensures cause { HasStopCause (K.faults output.old) (K.faults output.new) result }
{
    match write_all(output, pending) {
        Ok(()) => end,
        Err(_) => Err(Stop::Outside),
    }
}

// Writes the pending replies and what is lent behind them, and ends the loan.
fn write_lent<K: Sink>(
    output: &mut K,
    engine: &mut Engine,
    pending: &mut Vec<u8>,
) -> Result<(), Stop>
    ensures written { OnOk result (Appends (K.written output.old) (K.written output.new)
        (pending.old.items ++ engine.old.lent)) }
    ensures emptied { OnOk result (pending.new.items ≡ []) }
    ensures ended { OnOk result (engine.new.lent ≡ []) }
    ensures progress { engine.new.progress ≡ engine.old.progress }
    ensures begun { OnErr result (AppendsFront (K.written output.old) (K.written output.new)
        (pending.old.items ++ engine.old.lent)) }
    ensures cause { HasStopCause (K.faults output.old) (K.faults output.new) result }
{
    write_both(output, pending, engine.lent())?;
    pending.clear();
    engine.let_go();
    Ok(())
}

// Writes the pending replies, and what is lent behind them, where something is lent or they have become many.
fn keep_few<K: Sink>(output: &mut K, engine: &mut Engine, pending: &mut Vec<u8>) -> Result<(), Stop>
    ensures part { OnOk result (AppendsPart (K.written output.old) (K.written output.new)
        (pending.old.items ++ engine.old.lent) pending.new.items) }
    ensures few { OnOk result (length pending.new.items < PENDING_LIMIT) }
    ensures ended { OnOk result (engine.new.lent ≡ []) }
    ensures progress { engine.new.progress ≡ engine.old.progress }
    ensures begun { OnErr result (AppendsFront (K.written output.old) (K.written output.new)
        (pending.old.items ++ engine.old.lent)) }
    ensures cause { HasStopCause (K.faults output.old) (K.faults output.new) result }
{
    if engine.lent().is_empty() && pending.len() < PENDING_LIMIT {
        return Ok(());
    }
    write_lent(output, engine, pending)?;
    Ok(())
}

// Answers a line that is too long.
fn push_long(pending: &mut Vec<u8>) -> Result<Flow, AllocError>
    ensures appended { IfOk result (λ how. (how ≡ flow.Go)
        × (pending.new.items ≡ pending.old.items ++ line_of (codes "refused long"))) }
    ensures kept { OnErr result (pending.new.items ≡ pending.old.items) }
{
    pending.extend_from_slice(b"refused long\n")?;
    Ok(Flow::Go)
}

// The first line of a piece and the bytes behind it, where the piece has a line feed and nothing is held in front.
fn first_line<'a>(cutter: &Cutter, piece: &'a [u8]) -> Option<(&'a [u8], &'a [u8])>
    ensures first { IfSome result
        (λ cut. (cutter.now ≡ []) × IsFirst piece.now cut.0.now cut.1.now) }
    ensures none { IfNone result
        ((0 < length cutter.now) ⊎ (list_any is_feed piece.now ≡ false)) }
{
    if cutter.kept() > 0 {
        return None;
    }
    let (front, rest) = cut_at_feed(piece)?;
    let (line, _) = front.split_at(line_len(front));
    Some((line, rest))
}

// Answers a line as it was cut: its reply goes to the end of the pending ones, with what the engine lends behind them.
// The engine needs no byte of one that is too long, and lends nothing then.
fn answer_cut(
    alloc: Global,
    engine: &mut Engine,
    cut: Cut,
    pending: &mut Vec<u8>,
) -> Result<Flow, AllocError>
    ensures answers { (from : Progress) (lines : List (List ℕ)) (raw : List ℕ)
        (start now : Option (List ℕ)) → cut ≡ cut_of raw
        → ArePending from lines engine.old.progress pending.old.items start now
        → IfOk result (AnswersLine from lines (without_return raw) engine.new.progress
        pending.old.items (pending.new.items ++ engine.new.lent) start now) }
    ensures kept { OnErr result (pending.new.items ≡ pending.old.items) }
{
    match cut {
        Cut::Line(line) => engine.answer(alloc, line.bytes(), pending),
        Cut::Long => {
            engine.let_go();
            push_long(pending)
        }
    }
}

// Answers the line that the first line feed of a piece ends: its reply goes to the end of the pending ones, with what
// the engine lends behind them. A line that stands whole in the piece needs no cutter.
fn answer_next<'a>(
    alloc: Global,
    engine: &mut Engine,
    cutter: &mut Cutter,
    piece: &'a [u8],
    pending: &mut Vec<u8>,
) -> Result<Option<(Flow, &'a [u8])>, AllocError>
    ensures answers { IfOk result (λ next. MatchOption next
        (AnswersNone piece.now cutter.old cutter.new engine.old.progress engine.new.progress
        pending.old.items pending.new.items)
        (λ cut. AnswersFirst piece.now cut.1.now cutter.old cutter.new
        engine.old.progress engine.new.progress
        pending.old.items (pending.new.items ++ engine.new.lent) cut.0)) }
    ensures kept { OnErr result (pending.new.items ≡ pending.old.items) }
{
    if let Some((line, rest)) = first_line(cutter, piece) {
        let how = engine.answer(alloc, line, pending)?;
        return Ok(Some((how, rest)));
    }
    let Some((cut, rest)) = cutter.push_line(piece)? else {
        return Ok(None);
    };
    let how = answer_cut(alloc, engine, cut, pending)?;
    Ok(Some((how, rest)))
}

/// Answers the last line of a session, as it was cut, and writes the reply.
pub(crate) fn answer_last<K: Sink>(
    alloc: Global,
    engine: &mut Engine,
    cut: Cut,
    output: &mut K,
) -> Result<Flow, Stop>
    ensures serves { (from : Progress) (lines : List (List ℕ)) (start : Option (List ℕ))
        (raw : List ℕ) → cut ≡ cut_of raw
        → AreServed from lines engine.old.progress start (K.written output.old)
        → ServesLines from (lines ++ without_return raw ∷ []) engine.new.progress start
        (K.written output.new) result }
    ensures cause { HasStopCause (K.faults output.old) (K.faults output.new) result }
{
    let mut reply = Vec::new(alloc);
    match answer_cut(alloc, engine, cut, &mut reply) {
        Ok(Flow::Go) => {
            write_lent(output, engine, &mut reply)?;
            Ok(Flow::Go)
        }
        Ok(Flow::Stop) => Ok(Flow::Stop),
        Err(_) => Err(Stop::Memory),
    }
}

/// Answers the lines that a piece of a session ends, each before the next is looked at, up to one that ends the
/// session, and says whether there is one. What the piece leaves open is held for the next. The replies are written
/// before it returns, and earlier where many are pending or one is lent.
pub(crate) fn take_piece<K: Sink>(
    alloc: Global,
    engine: &mut Engine,
    cutter: &mut Cutter,
    piece: &[u8],
    output: &mut K,
) -> Result<Flow, Stop>
    ensures serves { (from : Progress) (taken : List ℕ) (start : Option (List ℕ))
        → cutter.old ≡ held_of taken
        → AreServed from (whole_lines_of taken) engine.old.progress start (K.written output.old)
        → ServesLines from (whole_lines_of (taken ++ piece.now)) engine.new.progress start
        (K.written output.new) result }
    ensures held { IfOk result (λ how. how ≡ flow.Go → (taken : List ℕ)
        → cutter.old ≡ held_of taken → cutter.new ≡ held_of (taken ++ piece.now)) }
    ensures cause { HasStopCause (K.faults output.old) (K.faults output.new) result }
{
    let mut pending = Vec::new(alloc);
    let mut rest = piece;
    'lines: loop {
        let Ok(next) = answer_next(alloc, engine, cutter, rest, &mut pending) else {
            return end_with(output, &pending, Err(Stop::Memory));
        };
        let Some((how, behind)) = next else {
            return end_with(output, &pending, Ok(Flow::Go));
        };
        if let Err(stop) = keep_few(output, engine, &mut pending) {
            return Err(stop);
        }
        match how {
            Flow::Go => rest = behind,
            Flow::Stop => return end_with(output, &pending, Ok(Flow::Stop)),
        }
    }
}
