//! Loading: from the names of files to the state of the network that they configure.

ghost use Rattle.std.specs.Prelude.{◌≡◌, ◌⊎◌, ◌+◌, ◌≤◌, ◌<◌, ℕ, List, length, map, All, IfSome, IfOk, OnOk, IsErrOf, MatchResult};
ghost use Rattle.nc_types.specs.Config.{config_view};
ghost use Rattle.nc_lines.specs.Lines.{lines_of};
ghost use Rattle.nc_outside.specs.Named.{content_of};
ghost use Rattle.nc_outside.specs.Counts.{one_entry, entries_after};
ghost use Rattle.nc_load.specs.Limits.{most_file_bytes, most_lines, most_routers};
ghost use Rattle.nc_load.specs.declared.refusal.LoadFault.TheVariants as LoadFault;
ghost use Rattle.nc_load.specs.declared.refusal.Quantity.TheVariants as Quantity;
ghost use Rattle.nc_report.specs.Views.{file_view};
ghost use Rattle.nc_report.specs.Files.{AreFilesOf};
ghost use Rattle.nc_words.specs.Words.{texts};
ghost use Rattle.nc_load.specs.Load.{file_named, load_content, load_lines, load_each, load_names, load_settled};
ghost use Rattle.nc_load.specs.Reading.{IsInTime};
ghost use Rattle.nc_load.specs.Entering.{TakesOfEntered, TakesOfFiles, IsInTurn, EntersInTurn, EntersEach};
ghost use Rattle.nc_load.specs.Loading.{IsOne, IsFileOf, AddsOne, AddsFile, IsEach, AreBeside, AreFilesNamed, IsJoined, IsLoad, IsConfigured, joining_fault, HasCauseOf};

use crate::FILE_LIMIT;
use crate::reading::{PIECE, read_file};
use crate::refusal::{LoadFault, Quantity, Reason};
use nc_lines::split::split_lines;
use nc_network::{JoinFault, join};
use nc_outside::Files;
use nc_reader::read_config;
use nc_report::LoadedFile;
use nc_stable::{SettleFault, SettledNetwork, settle_network};
use nc_types::{ConfigFault, LINE_LIMIT, ROUTER_LIMIT, RouterConfig, RouterId, Text};
use std::alloc::{AllocError, Global};

// A file that was read, with its configuration.
#[derive(Drop)]
pub(crate) struct FileRead {
    pub(crate) file: LoadedFile,
    pub(crate) config: RouterConfig,
}

// Files that were read, with their configurations, in order.
#[derive(Drop)]
pub(crate) struct FilesRead {
    pub(crate) files: Vec<LoadedFile>,
    pub(crate) configs: Vec<RouterConfig>,
}

/// The network of all files as it settled, and the files.
#[derive(Drop)]
pub struct Loaded {
    /// The network as it settled.
    pub settled: SettledNetwork,
    /// Its files, one a router, in order.
    pub files: Vec<LoadedFile>,
}

// Splits the file at a place and reads its configuration.
fn read_lines(
    alloc: Global,
    names: &[String],
    place: usize,
    bytes: Vec<u8>,
) -> Result<FileRead, LoadFault>
    requires place { place < length names.now }
    requires short { length bytes.items ≤ most_file_bytes }
    ensures loaded { IsOne (texts names.now) result
        (load_lines (file_named (texts names.now) place) (lines_of bytes.items)) }
    ensures read { IfOk result (λ one. IsConfigured (config_view one.config)) }
    ensures file { IfOk result (λ one. file_view one.file
        ≡ record { name = file_named (texts names.now) place; lines = lines_of bytes.items }) }
    ensures beside { IfOk result (λ one.
        length (file_view one.file).lines ≡ (config_view one.config).line_count) }
    ensures inside { IsErrOf result LoadFault.Outside → ⊥ }
{
    let lines = split_lines(alloc, bytes)?;
    if lines.count() > LINE_LIMIT {
        return Err(LoadFault::Over(Quantity::Lines));
    }
    let name = Text::new(alloc, names[place].as_bytes())?;
    match read_config(alloc, &lines) {
        Ok(config) => Ok(FileRead {
            file: LoadedFile { name, lines },
            config,
        }),
        Err(ConfigFault::Bad { line, cause }) => Err(LoadFault::Bad {
            file: place,
            line,
            reason: Reason::from(cause),
        }),
        Err(ConfigFault::Memory) => Err(LoadFault::Memory),
    }
}

// Enters the file at a place, reads it and judges it.
fn load_file<F: Files>(
    alloc: Global,
    names: &[String],
    place: usize,
    files: &mut F,
    buffer: &mut [u8; PIECE],
) -> Result<FileRead, LoadFault>
    requires { place < length names.now }
    ensures files { F.files files.new ≡ F.files files.old }
    ensures loaded { IfSome (F.files files.old) (λ fs. IsOne (texts names.now) result
        (load_content (file_named (texts names.now) place)
        (content_of fs (file_named (texts names.now) place)))) }
    ensures read { IfOk result (λ one. IsConfigured (config_view one.config)) }
    ensures file { IfOk result (λ one. IsFileOf (F.files files.old)
        (file_named (texts names.now) place) (file_view one.file)) }
    ensures beside { IfOk result (λ one.
        length (file_view one.file).lines ≡ (config_view one.config).line_count) }
    ensures cause { HasCauseOf (F.files files.old)
        (λ fs. load_content (file_named (texts names.now) place)
        (content_of fs (file_named (texts names.now) place)))
        (F.faults files.old) (F.faults files.new) result }
    ensures entered { IfSome (F.entered files.new)
        (λ entered. entered ≡ file_named (texts names.now) place) }
    ensures entries { F.entries files.new
        ≡ one_entry (file_named (texts names.now) place) (F.entries files.old) }
    ensures takes { TakesOfEntered (F.files files.old) (F.entered files.new) (F.left files.new) }
    ensures in_time { IsInTime (F.end files.old) (F.end files.new) }
{
    let Ok(()) = files.enter(names[place].as_str()) else {
        return Err(LoadFault::Outside);
    };
    let bytes = read_file(alloc, files, buffer)?;
    if bytes.len() > FILE_LIMIT {
        return Err(LoadFault::Over(Quantity::Bytes));
    }
    read_lines(alloc, names, place, bytes)
}

// Loads the file at a place, and puts it behind those that were read.
fn add_file<F: Files>(
    alloc: Global,
    names: &[String],
    place: usize,
    files: &mut F,
    buffer: &mut [u8; PIECE],
    each: &mut FilesRead,
) -> Result<(), LoadFault>
    requires { place < length names.now }
    ensures files { F.files files.new ≡ F.files files.old }
    ensures loaded { IfSome (F.files files.old)
        (λ fs. AddsOne (texts names.now) result each.old each.new
        (load_content (file_named (texts names.now) place)
        (content_of fs (file_named (texts names.now) place)))) }
    ensures read { OnOk result (All (λ c. IsConfigured (config_view c)) each.old.configs.items
        → All (λ c. IsConfigured (config_view c)) each.new.configs.items) }
    ensures file { OnOk result (AddsFile (F.files files.old)
        (file_named (texts names.now) place)
        (map file_view each.old.files.items) (map file_view each.new.files.items)) }
    ensures beside { OnOk result
        (AreBeside (map file_view each.old.files.items) (map config_view each.old.configs.items)
        → AreBeside (map file_view each.new.files.items) (map config_view each.new.configs.items)) }
    ensures count { OnOk result
        (length each.new.configs.items ≡ length each.old.configs.items + 1) }
    ensures cause { HasCauseOf (F.files files.old)
        (λ fs. load_content (file_named (texts names.now) place)
        (content_of fs (file_named (texts names.now) place)))
        (F.faults files.old) (F.faults files.new) result }
    ensures entered { IfSome (F.entered files.new)
        (λ entered. entered ≡ file_named (texts names.now) place) }
    ensures entries { F.entries files.new
        ≡ one_entry (file_named (texts names.now) place) (F.entries files.old) }
    ensures takes { TakesOfEntered (F.files files.old) (F.entered files.new) (F.left files.new) }
    ensures in_time { IsInTime (F.end files.old) (F.end files.new) }
{
    let one = load_file(alloc, names, place, files, buffer)?;
    each.files.push(one.file)?;
    each.configs.push(one.config)?;
    Ok(())
}

// Loads the files one after another, and ends at the first refusal.
fn load_each<F: Files>(
    alloc: Global,
    names: &[String],
    files: &mut F,
) -> Result<FilesRead, LoadFault>
    ensures files { F.files files.new ≡ F.files files.old }
    ensures loaded { IfSome (F.files files.old)
        (λ fs. IsEach (texts names.now) result (load_each fs (texts names.now))) }
    ensures read { IfOk result (λ each. All (λ c. IsConfigured (config_view c)) each.configs.items) }
    ensures named { IfOk result (λ each. AreFilesNamed (F.files files.old)
        (texts names.now) (map file_view each.files.items)) }
    ensures beside { IfOk result (λ each.
        AreBeside (map file_view each.files.items) (map config_view each.configs.items)) }
    ensures count { IfOk result (λ each. length each.configs.items ≡ length names.now) }
    ensures cause { HasCauseOf (F.files files.old) (λ fs. load_each fs (texts names.now))
        (F.faults files.old) (F.faults files.new) result }
    ensures entered { IsInTurn (texts names.now) (F.files files.old)
        (F.entered files.old) (F.entered files.new) }
    ensures outside { IsErrOf result LoadFault.Outside
        → IfSome (F.entered files.new) (EntersInTurn (texts names.now) (F.files files.old)) }
    ensures entries { EntersEach (texts names.now) (F.files files.old)
        (F.entries files.old) (F.entries files.new) }
    ensures all { OnOk result
        (F.entries files.new ≡ entries_after (texts names.now) (F.entries files.old)) }
    ensures taken { TakesOfFiles (F.files files.old) (F.entered files.old) (F.left files.old)
        (F.entered files.new) (F.left files.new) }
    ensures in_time { IsInTime (F.end files.old) (F.end files.new) }
{
    let mut each = FilesRead {
        files: Vec::new(alloc),
        configs: Vec::new(alloc),
    };
    let mut buffer = [0u8; PIECE];
    'names: for place in 0..names.len() {
        match add_file(alloc, names, place, files, &mut buffer, &mut each) {
            Ok(()) => {}
            Err(fault) => return Err(fault),
        }
    }
    Ok(each)
}

// What is wrong with a line of a router's file.
fn bad(router: RouterId, line: u32, reason: Reason) -> LoadFault
    ensures { result ≡ LoadFault.Bad router.0 line reason }
{
    LoadFault::Bad {
        file: router.0 as usize,
        line,
        reason,
    }
}

// What is told of configurations that don't go together.
fn join_fault(fault: JoinFault) -> LoadFault
    ensures { result ≡ joining_fault fault }
{
    match fault {
        JoinFault::SameName { second, line, .. } => bad(second, line, Reason::SameName),
        JoinFault::Overlap { router, second, .. } => bad(router, second, Reason::Overlap),
        JoinFault::SameAddress {
            second,
            second_line,
            ..
        } => bad(second, second_line, Reason::SameAddress),
        JoinFault::Undefined { router, line } => bad(router, line, Reason::Undefined),
        JoinFault::Limit { which } => LoadFault::Over(Quantity::from(which)),
        JoinFault::Memory => LoadFault::Memory,
    }
}

// Joins configurations, and settles their network within so many rounds.
fn join_all(
    alloc: Global,
    configs: Vec<RouterConfig>,
    rounds: u32,
) -> Result<SettledNetwork, LoadFault>
    requires few { length configs.items ≤ most_routers }
    requires read { All (λ c. IsConfigured (config_view c)) configs.items }
    ensures joined { (names : List (List ℕ))
        → IsJoined names rounds result (map config_view configs.items) }
    ensures inside { IsErrOf result LoadFault.Outside → ⊥ }
{
    let network = match join(alloc, configs) {
        Ok(network) => network,
        Err(fault) => return Err(join_fault(fault)),
    };
    match settle_network(alloc, network, rounds) {
        Ok(settled) => Ok(settled),
        Err(SettleFault::Unstable) => Err(LoadFault::Unsettled(rounds)),
        Err(SettleFault::Memory) => Err(LoadFault::Memory),
    }
}

/// Loads the files of these names, one after another, joins their configurations and settles the network within so
/// many rounds.
pub fn load<F: Files>(
    alloc: Global,
    names: &[String],
    rounds: u32,
    files: &mut F,
) -> Result<Loaded, LoadFault>
    ensures files { F.files files.new ≡ F.files files.old }
    ensures loaded { IfSome (F.files files.old) (λ fs. IsLoad (texts names.now) result
        (load_settled rounds (load_names (texts names.now) fs))) }
    ensures named { IfOk result (λ loaded. AreFilesNamed (F.files files.old)
        (texts names.now) (map file_view loaded.files.items)) }
    ensures fit { IfOk result (λ loaded.
        AreFilesOf loaded.settled.state.routers (map file_view loaded.files.items)) }
    ensures short { IfOk result (λ loaded.
        All (λ file. length (file_view file).lines ≤ most_lines) loaded.files.items) }
    ensures few { MatchResult result (λ _. length names.now ≤ most_routers)
        (λ fault. (fault ≡ LoadFault.Over Quantity.Routers) ⊎ (length names.now ≤ most_routers)) }
    ensures cause { HasCauseOf (F.files files.old)
        (λ fs. load_settled rounds (load_names (texts names.now) fs))
        (F.faults files.old) (F.faults files.new) result }
    ensures entered { IsInTurn (texts names.now) (F.files files.old)
        (F.entered files.old) (F.entered files.new) }
    ensures outside { IsErrOf result LoadFault.Outside
        → IfSome (F.entered files.new) (EntersInTurn (texts names.now) (F.files files.old)) }
    ensures entries { EntersEach (texts names.now) (F.files files.old)
        (F.entries files.old) (F.entries files.new) }
    ensures all { OnOk result
        (F.entries files.new ≡ entries_after (texts names.now) (F.entries files.old)) }
    ensures taken { TakesOfFiles (F.files files.old) (F.entered files.old) (F.left files.old)
        (F.entered files.new) (F.left files.new) }
    ensures many { most_routers < length names.now
        → (F.entries files.new ≡ F.entries files.old)
        × (F.entered files.new ≡ F.entered files.old) × (F.left files.new ≡ F.left files.old) }
    ensures in_time { IsInTime (F.end files.old) (F.end files.new) }
{
    if names.len() > ROUTER_LIMIT {
        return Err(LoadFault::Over(Quantity::Routers));
    }
    let each = match load_each(alloc, names, files) {
        Ok(each) => each,
        Err(fault) => return Err(fault),
    };
    match join_all(alloc, each.configs, rounds) {
        Ok(settled) => Ok(Loaded {
            settled,
            files: each.files,
        }),
        Err(fault) => Err(fault),
    }
}
