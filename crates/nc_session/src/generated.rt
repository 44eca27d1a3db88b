//! A run over a generated network: its files are loaded from memory, and its session is answered.

ghost use Rattle.std.specs.Prelude.{◌≡◌, ◌≢◌, ◌≤◌, ℕ, true, false, List, Option, Some, All, length, map, IfOk, string_bytes};
ghost use Rattle.std.specs.Str.{IsUtf8};
ghost use Rattle.nc_outside.specs.Named.{Named};
ghost use Rattle.nc_outside.specs.Counts.{Faults};
ghost use Rattle.nc_outside.specs.Memory.{faults_of};
ghost use Rattle.nc_load.specs.Limits.{most_routers, most_lines};
ghost use Rattle.nc_report.specs.Views.{file_view as loaded_view};
ghost use Rattle.nc_gen.specs.Tree.{is_size};
ghost use Rattle.nc_gen.specs.Files.{file_view};
ghost use Rattle.nc_words.specs.Words.{Generated, texts};
ghost use Rattle.nc_report.specs.Files.{AreFilesOf};
ghost use Rattle.nc_session.specs.Generated.{heading_text, line_count, name_of_file, named_file, tree_files, tree_names, tree_session};
ghost use Rattle.nc_session.specs.Ending.{EndsAs, ServesBehind};
ghost use Rattle.nc_session.specs.declared.status.Status.TheVariants as Status;

use crate::afterwards::Afterwards;
use crate::pieces::serve;
use crate::runs::refuse;
use crate::status::Status;
use crate::writing::write_all;
use nc_engine::laws::sessions_go_on;
use nc_gen::{GenFile, fat_tree};
use nc_load::{Loaded, load};
use nc_outside::{MemFile, MemFiles, PlainSource, Sink};
use nc_report::{LoadedFile, push_line};
use std::alloc::{AllocError, Global};
use std::str;

// The name of a generated file, as a text.
fn name_of(alloc: Global, file: &GenFile) -> Result<String, AllocError>
    requires { IsUtf8 (file_view file.now).name }
    ensures { IfOk result (λ name. string_bytes name ≡ (file_view file.now).name) }
{
    match str::from_utf8(file.name.bytes()) {
        Ok(name) => String::from_str(alloc, name),
        Err(_) => unreachable!(),
    }
}

// The names of generated files.
fn names_of(alloc: Global, files: &[GenFile]) -> Result<Vec<String>, AllocError>
    requires { All (λ file. IsUtf8 (file_view file).name) files.now }
    ensures { IfOk result (λ names. texts names.items
        ≡ map name_of_file (map file_view files.now)) }
{
    let mut names = Vec::new(alloc);
    'files: for file in files {
        names.push(name_of(alloc, file)?)?;
    }
    Ok(names)
}

// Generated files as files in memory.
fn files_of(alloc: Global, files: Vec<GenFile>) -> Result<Vec<MemFile>, AllocError>
    ensures { IfOk result (λ made. made.items ≡ map named_file (map file_view files.items)) }
{
    let mut made = Vec::new(alloc);
    'files: for file in files {
        made.push(MemFile {
            name: file.name,
            bytes: file.bytes,
        })?;
    }
    Ok(made)
}

// How many lines files have together.
fn line_count(files: &[LoadedFile]) -> u32
    requires few { length files.now ≤ most_routers }
    requires short { All (λ file. length (loaded_view file).lines ≤ most_lines) files.now }
    ensures { result ≡ line_count (map (λ file. file.lines) (map loaded_view files.now)) }
{
    let mut count = 0;
    'files: for file in files {
        count += file.lines.count() as u32;
    }
    count
}

// The line of the numbers of a generated network.
fn heading_line(alloc: Global, pods: u32, files: &[LoadedFile]) -> Result<Vec<u8>, AllocError>
    requires few { length files.now ≤ most_routers }
    requires short { All (λ file. length (loaded_view file).lines ≤ most_lines) files.now }
    ensures { IfOk result (λ text. text.items
        ≡ heading_text pods (map (λ file. file.lines) (map loaded_view files.now))) }
{
    let routers = files.len();
    let lines = line_count(files);
    let numbers = format!(in alloc; "fat-tree {pods} routers {routers} lines {lines}")?;
    let mut text = Vec::new(alloc);
    push_line(&mut text, numbers.as_bytes())?;
    Ok(text)
}

// Writes the line of a generated network's numbers, and answers its session.
fn serve_behind<K: Sink>(
    alloc: Global,
    pods: u32,
    loaded: Loaded,
    session: Vec<u8>,
    afterwards: Afterwards,
    output: &mut K,
) -> Status
    requires few { length loaded.files.items ≤ most_routers }
    requires short { All (λ file. length (loaded_view file).lines ≤ most_lines)
        loaded.files.items }
    requires fit { AreFilesOf loaded.settled.state.routers (map loaded_view loaded.files.items) }
    ensures { ServesBehind
        (heading_text pods (map (λ file. file.lines) (map loaded_view loaded.files.items)))
        (record {
          state = loaded.settled.state;
          files = map loaded_view loaded.files.items;
          listed = false;
        })
        session.items
        (record { written = K.written output.old; faults = K.faults output.old })
        (record { written = K.written output.new; faults = K.faults output.new }) result }
{
    sessions_go_on();
    let _state = loaded.settled.state.network();
    let Ok(heading) = heading_line(alloc, pods, &loaded.files) else {
        drop(loaded);
        return Status::Memory;
    };
    let Ok(()) = write_all(output, &heading) else {
        drop(loaded);
        return Status::OutputFault;
    };
    let mut input = PlainSource::new(session);
    serve(
        alloc,
        loaded.settled,
        loaded.files,
        false,
        afterwards,
        &mut input,
        output,
    )
}

// Loads the files of a generated network, and answers its session or refuses the files.
fn run_network<K: Sink>(
    alloc: Global,
    pods: u32,
    rounds: u32,
    names: &[String],
    files: &mut MemFiles,
    session: Vec<u8>,
    afterwards: Afterwards,
    output: &mut K,
) -> Status
    requires names { texts names.now ≡ tree_names pods }
    requires files { files.old.files ≡ tree_files pods }
    requires steady { (faults_of files.old.calls).is_steady ≡ true }
    requires session { session.items ≡ tree_session pods }
    ensures ends { (told : Option (List Named)) (rest : Option (List ℕ)) (faults source : Faults)
        → EndsAs (Some (record { rounds = rounds; input = Generated pods }))
        (record {
          files = told;
          faults = faults;
          told = record { rest = rest; written = K.written output.old };
          failures = record { source = source; sink = K.faults output.old };
        })
        (record {
          files = told;
          faults = faults;
          told = record { rest = rest; written = K.written output.new };
          failures = record { source = source; sink = K.faults output.new };
        })
        result }
    ensures calm { (result ≢ Status.FileFault) × (result ≢ Status.InputFault) }
{
    match load(alloc, names, rounds, files) {
        Ok(loaded) => serve_behind(alloc, pods, loaded, session, afterwards, output),
        Err(fault) => refuse(alloc, names, fault, output),
    }
}

/// Runs over the generated fat tree of so many pods: its files are loaded and its session is answered, behind a line of
/// its numbers.
pub(crate) fn run_fat_tree<K: Sink>(
    alloc: Global,
    pods: u32,
    rounds: u32,
    afterwards: Afterwards,
    output: &mut K,
) -> Status
    requires { is_size pods ≡ true }
    ensures ends { (told : Option (List Named)) (rest : Option (List ℕ)) (faults source : Faults)
        → EndsAs (Some (record { rounds = rounds; input = Generated pods }))
        (record {
          files = told;
          faults = faults;
          told = record { rest = rest; written = K.written output.old };
          failures = record { source = source; sink = K.faults output.old };
        })
        (record {
          files = told;
          faults = faults;
          told = record { rest = rest; written = K.written output.new };
          failures = record { source = source; sink = K.faults output.new };
        })
        result }
    ensures calm { (result ≢ Status.FileFault) × (result ≢ Status.InputFault) }
{
    let Ok(generated) = fat_tree(alloc, pods) else {
        return Status::Memory;
    };
    let Ok(names) = names_of(alloc, &generated.files) else {
        return Status::Memory;
    };
    let Ok(files) = files_of(alloc, generated.files) else {
        return Status::Memory;
    };
    let mut files = MemFiles::new(files, Vec::new(alloc));
    run_network(
        alloc,
        pods,
        rounds,
        &names,
        &mut files,
        generated.session,
        afterwards,
        output,
    )
}
