//! The top call: from the words, the files and the session to the replies and the status.

ghost use Rattle.std.specs.Prelude.{◌≡◌, ◌⊎◌, ◌≢◌, ◌+◌, ◌<◌, ℕ, List, true, Some, IfSome, MatchOption, MatchResult, IfOk, length};
ghost use Rattle.std.specs.Io.KnownBytes.{Appends, Keeps};
ghost use Rattle.nc_outside.specs.Counts.{Rose, entries_after};
ghost use Rattle.nc_load.specs.Limits.{most_routers};
ghost use Rattle.nc_session.specs.Limits.{most_session_bytes};
ghost use Rattle.nc_words.specs.Words.{Files, texts, request_of};
ghost use Rattle.nc_session.specs.Load.{load};
ghost use Rattle.nc_load.specs.Load.{file_named};
ghost use Rattle.nc_session.specs.Refusals.{usage_text, limit_text, fault_text, unsettled_text};
ghost use Rattle.nc_session.specs.Output.{Output, Writes, TookAll, is_within, needed, session_of};
ghost use Rattle.nc_load.specs.Reading.{TakesAtMost, IsInTime, StaysInTime};
ghost use Rattle.nc_session.specs.Leaving.{Takes};
ghost use Rattle.nc_session.specs.Causes.{IsAnswer, IsUsageOrUntold, IsLimitOrUntold, IsOfFiles, IsGenerated, IsEarly, IsLate, IsCut, files_of, status_of, Settles, IsOverLimit, IsUnsettled, IsAbsent, IsOpenSession, AnswersTaken, IsBeginning};
ghost use Rattle.nc_load.specs.Entering.{EntersInTurn, IsInTurn, EntersEach, TakesOfFiles};
ghost use Rattle.nc_session.specs.Ending.{Says, Silent, EndsRefused, EndsAs, IsNamingFew};
ghost use Rattle.nc_session.specs.declared.status.Status.TheVariants as Status;

use crate::afterwards::Afterwards;
use crate::generated::run_fat_tree;
use crate::pieces::serve;
use crate::status::Status;
use crate::writing::write_all;
use nc_load::{LoadFault, Quantity, Reason, load};
use nc_outside::{Files, Sink, Source};
use nc_report::push_line;
use nc_words::{Input, Request, WordsFault, read_words};
use std::alloc::{AllocError, Global};

// The refusal of a quantity that passes its limit.
fn limit_line(alloc: Global, quantity: Quantity) -> Result<Vec<u8>, AllocError>
    ensures { IfOk result (λ text. text.items ≡ limit_text quantity) }
{
    let mut text = Vec::new(alloc);
    text.extend_from_slice(b"refused limit ")?;
    push_line(&mut text, quantity.text())?;
    Ok(text)
}

// The refusal of a line of a file.
fn fault_line(alloc: Global, name: &str, line: u32, reason: Reason) -> Result<Vec<u8>, AllocError>
    ensures { IfOk result (λ text. text.items ≡ fault_text name.now line reason) }
{
    let mut text = Vec::new(alloc);
    text.extend_from_slice(b"refused config ")?;
    text.extend_from_slice(name.as_bytes())?;
    text.push(b' ')?;
    text.extend_from_slice(line.to_string(alloc)?.as_bytes())?;
    text.push(b' ')?;
    push_line(&mut text, reason.text())?;
    Ok(text)
}

// The refusal of a routing that doesn't settle within so many rounds.
fn unsettled_line(alloc: Global, rounds: u32) -> Result<Vec<u8>, AllocError>
    ensures { IfOk result (λ text. text.items ≡ unsettled_text rounds) }
{
    let mut text = Vec::new(alloc);
    text.extend_from_slice(b"refused unstable ")?;
    push_line(&mut text, rounds.to_string(alloc)?.as_bytes())?;
    Ok(text)
}

// Writes a refusal and answers its status.
fn say<K: Sink>(output: &mut K, text: &[u8], status: Status) -> Status
    ensures { Says status text.now
        (record { written = K.written output.old; faults = K.faults output.old })
        (record { written = K.written output.new; faults = K.faults output.new }) result }
{
    match write_all(output, text) {
        Ok(()) => status,
        Err(_) => Status::OutputFault,
    }
}

// Writes a refusal whose text is made first.
fn say_made<K: Sink>(output: &mut K, text: Result<Vec<u8>, AllocError>, status: Status) -> Status
    ensures { MatchResult text
        (λ made. Says status made.items
        (record { written = K.written output.old; faults = K.faults output.old })
        (record { written = K.written output.new; faults = K.faults output.new }) result)
        (λ _. Silent Status.Memory
        (record { written = K.written output.old; faults = K.faults output.old })
        (record { written = K.written output.new; faults = K.faults output.new }) result) }
{
    match text {
        Ok(text) => say(output, &text, status),
        Err(_) => Status::Memory,
    }
}

// The file at a place among the words.
fn name_at(names: &[String], file: usize) -> &str
    ensures { result.now ≡ file_named (texts names.now) file }
{
    match names.get(file) {
        Some(name) => name.as_str(),
        None => "",
    }
}

// Writes the refusal of files that give no network.
pub(crate) fn refuse<K: Sink>(
    alloc: Global,
    names: &[String],
    fault: LoadFault,
    output: &mut K,
) -> Status
    ensures { EndsRefused (texts names.now) fault
        (record { written = K.written output.old; faults = K.faults output.old })
        (record { written = K.written output.new; faults = K.faults output.new }) result }
{
    match fault {
        LoadFault::Outside => Status::FileFault,
        LoadFault::Memory => Status::Memory,
        LoadFault::Over(quantity) => {
            say_made(output, limit_line(alloc, quantity), Status::Limit)
        }
        LoadFault::Bad { file, line, reason } => {
            let text = fault_line(alloc, name_at(names, file), line, reason);
            say_made(output, text, Status::Config)
        }
        LoadFault::Unsettled(rounds) => {
            say_made(output, unsettled_line(alloc, rounds), Status::Unstable)
        }
    }
}

// Loads the files of these names, and serves the session or refuses the files.
fn run_files<F: Files, S: Source, K: Sink>(
    alloc: Global,
    names: &[String],
    rounds: u32,
    afterwards: Afterwards,
    files: &mut F,
    input: &mut S,
    output: &mut K,
) -> Status
    ensures ends { EndsAs
        (Some (record { rounds = rounds; input = Files (texts names.now) }))
        (record {
          files = F.files files.old;
          faults = F.faults files.old;
          told = record { rest = S.rest input.old; written = K.written output.old };
          failures = record { source = S.faults input.old; sink = K.faults output.old };
        })
        (record {
          files = F.files files.new;
          faults = F.faults files.new;
          told = record { rest = S.rest input.new; written = K.written output.new };
          failures = record { source = S.faults input.new; sink = K.faults output.new };
        })
        result }
    ensures files { F.files files.new ≡ F.files files.old }
    ensures entered { IsInTurn (texts names.now) (F.files files.old)
        (F.entered files.old) (F.entered files.new) }
    ensures entries { EntersEach (texts names.now) (F.files files.old)
        (F.entries files.old) (F.entries files.new) }
    ensures entries_all { IsLate result
        → F.entries files.new ≡ entries_after (texts names.now) (F.entries files.old) }
    ensures entered_last { result ≡ Status.FileFault → IfSome (F.entered files.new)
        (EntersInTurn (texts names.now) (F.files files.old)) }
    ensures entered_none { most_routers < length names.now
        → (F.entries files.new ≡ F.entries files.old)
        × (F.entered files.new ≡ F.entered files.old) × (F.left files.new ≡ F.left files.old) }
    ensures file_taken { TakesOfFiles (F.files files.old) (F.entered files.old)
        (F.left files.old) (F.entered files.new) (F.left files.new) }
    ensures file_in_time { IsInTime (F.end files.old) (F.end files.new) }
    ensures session_taken { TakesAtMost (most_session_bytes + 1) (S.rest input.old) (S.rest input.new) }
    ensures session_in_time { StaysInTime (S.end input.old) (S.end input.new) }
    ensures session_unread { IsEarly result
        → (S.rest input.new ≡ S.rest input.old) × (S.end input.new ≡ S.end input.old) }
{
    match load(alloc, names, rounds, files) {
        Ok(loaded) => serve(
            alloc,
            loaded.settled,
            loaded.files,
            true,
            afterwards,
            input,
            output,
        ),
        Err(fault) => refuse(alloc, names, fault, output),
    }
}

// Runs as `run` does; what that promises, by status.
fn run_words<F: Files, S: Source, K: Sink>(
    alloc: Global,
    words: &[String],
    afterwards: Afterwards,
    files: &mut F,
    input: &mut S,
    output: &mut K,
) -> Status
    ensures ends { EndsAs (request_of (texts words.now))
        (record {
          files = F.files files.old;
          faults = F.faults files.old;
          told = record { rest = S.rest input.old; written = K.written output.old };
          failures = record { source = S.faults input.old; sink = K.faults output.old };
        })
        (record {
          files = F.files files.new;
          faults = F.faults files.new;
          told = record { rest = S.rest input.new; written = K.written output.new };
          failures = record { source = S.faults input.new; sink = K.faults output.new };
        })
        result }
    ensures generated { IsGenerated (texts words.now) → (files.new ≡ files.old)
        × (input.new ≡ input.old) × (result ≢ Status.FileFault) × (result ≢ Status.InputFault) }
    ensures files { F.files files.new ≡ F.files files.old }
    ensures entered { IsInTurn (files_of (texts words.now)) (F.files files.old)
        (F.entered files.old) (F.entered files.new) }
    ensures entries { EntersEach (files_of (texts words.now)) (F.files files.old)
        (F.entries files.old) (F.entries files.new) }
    ensures entries_all { IsLate result
        → F.entries files.new ≡ entries_after (files_of (texts words.now)) (F.entries files.old) }
    ensures entered_last { result ≡ Status.FileFault → IfSome (F.entered files.new)
        (EntersInTurn (files_of (texts words.now)) (F.files files.old)) }
    ensures entered_none { most_routers < length (files_of (texts words.now))
        → (F.entries files.new ≡ F.entries files.old)
        × (F.entered files.new ≡ F.entered files.old) × (F.left files.new ≡ F.left files.old) }
    ensures file_taken { TakesOfFiles (F.files files.old) (F.entered files.old)
        (F.left files.old) (F.entered files.new) (F.left files.new) }
    ensures file_in_time { IsInTime (F.end files.old) (F.end files.new) }
    ensures session_taken { TakesAtMost (most_session_bytes + 1) (S.rest input.old) (S.rest input.new) }
    ensures session_in_time { StaysInTime (S.end input.old) (S.end input.new) }
    ensures session_unread { IsEarly result
        → (S.rest input.new ≡ S.rest input.old) × (S.end input.new ≡ S.end input.old) }
{
    match read_words(alloc, words) {
        Ok(
            Request {
                rounds,
                input: Input::Files(names),
            },
        ) => run_files(alloc, &names, rounds, afterwards, files, input, output),
        Ok(
            Request {
                rounds,
                input: Input::FatTree(pods),
            },
        ) => run_fat_tree(alloc, pods, rounds, afterwards, output),
        Err(WordsFault::Usage) => say(output, b"refused usage\n", Status::Usage),
        Err(WordsFault::Memory) => Status::Memory,
    }
}

/// Runs NetCov: reads the files that the words name, answers the session, and writes every reply.
///
/// The words are judged first, then how many files they name. Each file is entered once and read whole in its
/// turn, and judged before the next: that it is there, its length, its number of lines, its configuration.
/// Then the configurations are judged together, and last whether the routing settles. The session is read to its end, or one byte past
/// [`SESSION_LIMIT`], and each of its lines is answered before the next read, up to the line that ends it. A session
/// longer than the limit is answered as far as its lines end within it, and then refused, unless one of them
/// ends it. Nothing is read of a file or of the session after its end was told.
///
/// Where the words ask for a generated network, its own files and session are taken in the same way, and `files` and
/// `input` aren't touched: a line of its numbers stands in front of the replies, and reports list no routers.
///
/// Where the objects tell their bytes, `answer` pins every byte that is written, and at the other statuses what
/// stands written is a beginning of that. Want of memory alone is free: [`Status::Memory`] may come in place of
/// any other status.
///
/// What the process does afterwards is told in front, for the sake of its memory alone.
///
/// [`SESSION_LIMIT`]: crate::SESSION_LIMIT
pub fn run<F: Files, S: Source, K: Sink>(
    alloc: Global,
    words: &[String],
    afterwards: Afterwards,
    files: &mut F,
    input: &mut S,
    output: &mut K,
) -> Status
    ensures answer { IsAnswer result → IfSome (needed (texts words.now) (F.files files.old)) (λ fs.
        IfSome (needed (texts words.now) (S.rest input.old)) (λ session.
        Writes (K.written output.old) (K.written output.new)
        (Output (texts words.now) fs session result))) }
    ensures complete { IfSome (needed (texts words.now) (F.files files.old)) (λ fs.
        IfSome (needed (texts words.now) (S.rest input.old)) (λ session.
        ¬ Rose (F.faults files.old) (F.faults files.new)
        → ¬ Rose (S.faults input.old) (S.faults input.new)
        → ¬ Rose (K.faults output.old) (K.faults output.new)
        → (result ≡ status_of (load (texts words.now) fs) (session_of (texts words.now) session))
        ⊎ (result ≡ Status.Memory))) }
    ensures settles { IsOfFiles result → IfSome (needed (texts words.now) (F.files files.old))
        (λ fs. Settles (load (texts words.now) fs) result) }
    ensures limit { result ≡ Status.Limit → IfSome (needed (texts words.now) (F.files files.old))
        (λ fs. IfSome (needed (texts words.now) (S.rest input.old)) (λ session.
        IsOverLimit (load (texts words.now) fs) (session_of (texts words.now) session))) }
    ensures generated { IsGenerated (texts words.now) → (files.new ≡ files.old)
        × (input.new ≡ input.old) × (result ≢ Status.FileFault) × (result ≢ Status.InputFault) }
    ensures many { most_routers < length (files_of (texts words.now)) → IsLimitOrUntold result }
    ensures done { result ≡ Status.Done
        → TookAll (texts words.now) (S.rest input.old) (S.rest input.new) }
    ensures done_within { result ≡ Status.Done
        → IfSome (needed (texts words.now) (S.rest input.old))
        (λ session. is_within (session_of (texts words.now) session) ≡ true) }
    ensures usage { MatchOption (request_of (texts words.now))
        (IsUsageOrUntold result) (λ _. result ≢ Status.Usage) }
    ensures usage_text { result ≡ Status.Usage
        → Appends (K.written output.old) (K.written output.new) usage_text }
    ensures file_fault { result ≡ Status.FileFault → Rose (F.faults files.old) (F.faults files.new)
        ⊎ IsAbsent (texts words.now) (F.files files.old) }
    ensures file_fault_few { result ≡ Status.FileFault → IsNamingFew (request_of (texts words.now)) }
    ensures file_fault_silent { result ≡ Status.FileFault
        → Keeps (K.written output.old) (K.written output.new) }
    ensures input_fault { result ≡ Status.InputFault
        → Rose (S.faults input.old) (S.faults input.new) }
    ensures input_fault_taken { result ≡ Status.InputFault
        → Takes (S.rest input.old) (S.rest input.new) IsOpenSession }
    ensures input_fault_answers { result ≡ Status.InputFault
        → IfSome (needed (texts words.now) (F.files files.old)) (λ fs. AnswersTaken (load (texts words.now) fs) (S.rest input.old) (S.rest input.new)
        (K.written output.old) (K.written output.new)) }
    ensures output_fault { result ≡ Status.OutputFault
        → Rose (K.faults output.old) (K.faults output.new) }
    ensures cut { IsCut result → IfSome (needed (texts words.now) (F.files files.old)) (λ fs.
        IfSome (needed (texts words.now) (S.rest input.old)) (λ session.
        Writes (K.written output.old) (K.written output.new)
        (IsBeginning (texts words.now) fs session))) }
    ensures files_count { result ≢ Status.FileFault → F.faults files.new ≡ F.faults files.old }
    ensures input_count { result ≢ Status.InputFault → S.faults input.new ≡ S.faults input.old }
    ensures output_count { result ≢ Status.OutputFault
        → K.faults output.new ≡ K.faults output.old }
    ensures files { F.files files.new ≡ F.files files.old }
    ensures entered { IsInTurn (files_of (texts words.now)) (F.files files.old)
        (F.entered files.old) (F.entered files.new) }
    ensures entries { EntersEach (files_of (texts words.now)) (F.files files.old)
        (F.entries files.old) (F.entries files.new) }
    ensures entries_all { IsLate result
        → F.entries files.new ≡ entries_after (files_of (texts words.now)) (F.entries files.old) }
    ensures entered_last { result ≡ Status.FileFault → IfSome (F.entered files.new)
        (EntersInTurn (files_of (texts words.now)) (F.files files.old)) }
    ensures entered_none { most_routers < length (files_of (texts words.now))
        → (F.entries files.new ≡ F.entries files.old)
        × (F.entered files.new ≡ F.entered files.old) × (F.left files.new ≡ F.left files.old) }
    ensures file_taken { TakesOfFiles (F.files files.old) (F.entered files.old)
        (F.left files.old) (F.entered files.new) (F.left files.new) }
    ensures file_in_time { IsInTime (F.end files.old) (F.end files.new) }
    ensures session_taken { TakesAtMost (most_session_bytes + 1) (S.rest input.old) (S.rest input.new) }
    ensures session_in_time { StaysInTime (S.end input.old) (S.end input.new) }
    ensures session_unread { IsEarly result
        → (S.rest input.new ≡ S.rest input.old) × (S.end input.new ≡ S.end input.old) }
    ensures unstable { result ≡ Status.Unstable
        → IfSome (needed (texts words.now) (F.files files.old))
        (λ fs. IsUnsettled (load (texts words.now) fs)) }
{
    run_words(alloc, words, afterwards, files, input, output)
}
