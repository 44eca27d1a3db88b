//! From words to what they ask for.

ghost use Rattle.std.specs.Prelude.{◌≡◌, true, Some, None, IfSome, IfOk, MatchResult, IsErrOf, map};
ghost use Rattle.std.specs.Option.{option_map};
ghost use Rattle.nc_words.specs.Words.{input_of, pods_of, request_of, rounds_of, texts};
ghost use Rattle.nc_words.specs.Views.{IsRounds, IsSized, request_view, input_view};
ghost use Rattle.nc_words.specs.Command.{number_in, request_in};
ghost use Rattle.nc_gen.specs.Tree.{is_size};
ghost use Rattle.clap.specs.declared.error.kind.ErrorKind.TheVariants as ErrorKind;
ghost use Rattle.nc_words.specs.declared.request.WordsFault.TheVariants as WordsFault;

use crate::command::{FAT_TREE, FILE, ROUNDS, netcov_command};
use crate::request::{Input, Request, WordsFault};
use crate::{DEFAULT_ROUNDS, MOST_PODS, MOST_ROUNDS};
use clap::ArgMatches;
use clap::error::ErrorKind;
use nc_gen::is_size;
use nc_lines::numbers::read_number;
use std::alloc::{AllocError, Global};

// The number of rounds that a word writes, 1 to the most that there are.
fn rounds_of(word: &str) -> Option<u32>
    ensures number { result ≡ rounds_of word.now }
    ensures within { IfSome result IsRounds }
{
    let rounds = read_number(word.as_bytes(), MOST_ROUNDS)?;
    if rounds == 0 { None } else { Some(rounds) }
}

// The number of pods that a word writes, where a network of so many is generated.
fn pods_of(word: &str) -> Option<u32>
    ensures number { result ≡ pods_of word.now }
    ensures sized { IfSome result (λ pods. is_size pods ≡ true) }
{
    let pods = read_number(word.as_bytes(), MOST_PODS)?;
    if is_size(pods) { Some(pods) } else { None }
}

// The number of rounds that a value of `--rounds` writes, where it has one.
fn rounds_in(value: Option<&str>) -> Result<Option<u32>, WordsFault>
    ensures within { IfOk result (λ rounds. IfSome rounds IsRounds) }
    ensures number { MatchResult result
        (λ rounds. number_in rounds_of (option_map (λ word. word.now) value.entry) ≡ Some rounds)
        (λ fault. number_in rounds_of (option_map (λ word. word.now) value.entry) ≡ None) }
{
    match value {
        None => Ok(None),
        Some(word) => match rounds_of(word) {
            Some(rounds) => Ok(Some(rounds)),
            None => Err(WordsFault::Usage),
        },
    }
}

// The number of pods that a value of `--fat-tree` writes, where it has one.
fn pods_in(value: Option<&str>) -> Result<Option<u32>, WordsFault>
    ensures sized { IfOk result (λ pods. IfSome pods (λ pods. is_size pods ≡ true)) }
    ensures number { MatchResult result
        (λ pods. number_in pods_of (option_map (λ word. word.now) value.entry) ≡ Some pods)
        (λ fault. number_in pods_of (option_map (λ word. word.now) value.entry) ≡ None) }
{
    match value {
        None => Ok(None),
        Some(word) => match pods_of(word) {
            Some(pods) => Ok(Some(pods)),
            None => Err(WordsFault::Usage),
        },
    }
}

// The names of files, as texts of their own.
fn owned(alloc: Global, names: &[&str]) -> Result<Vec<String>, AllocError>
    ensures { IfOk result (λ owned. texts owned.items ≡ map (λ name. name.now) names.now) }
{
    let mut owned = Vec::new(alloc);
    'names: for name in names {
        owned.push(String::from_str(alloc, name)?)?;
    }
    Ok(owned)
}

// The network of a number of pods and names of files: one of the two stands.
fn input_of(alloc: Global, pods: Option<u32>, names: &[&str]) -> Result<Input, WordsFault>
    ensures asked { IfOk result (λ input.
        input_of pods (map (λ name. name.now) names.now) ≡ Some (input_view input)) }
    ensures sized { IfSome pods (λ pods. is_size pods ≡ true)
        → IfOk result (λ input. IsSized (input_view input)) }
    ensures refused { IsErrOf result WordsFault.Usage
        → input_of pods (map (λ name. name.now) names.now) ≡ None }
{
    match pods {
        Some(pods) if names.is_empty() => Ok(Input::FatTree(pods)),
        None if !names.is_empty() => Ok(Input::Files(owned(alloc, names)?)),
        _ => Err(WordsFault::Usage),
    }
}

// What a failed parse comes to.
fn fault_of(kind: ErrorKind) -> WordsFault
    ensures { kind ≡ ErrorKind.OutOfMemory → result ≡ WordsFault.Memory }
{
    match kind {
        ErrorKind::OutOfMemory => WordsFault::Memory,
        _ => WordsFault::Usage,
    }
}

// The matches of the command on the words.
fn parse<'a>(alloc: Global, words: &'a [String]) -> Result<ArgMatches<'a>, WordsFault>
    ensures asked { IfOk result (λ matches.
        request_of (texts words.entry.now) ≡ request_in matches) }
    ensures refused { IsErrOf result WordsFault.Usage
        → request_of (texts words.entry.now) ≡ None }
{
    let command = netcov_command(alloc)?;
    match command.try_get_matches_from(words) {
        Ok(matches) => Ok(matches),
        Err(error) => Err(fault_of(error.kind())),
    }
}

/// What words ask for, read from left to right (profile).
///
/// `--rounds N` and `--rounds=N` ask for at most N rounds of the routing, 1 to [`MOST_ROUNDS`], and
/// stand at most once; where none stands it is [`DEFAULT_ROUNDS`]. `--fat-tree K` and
/// `--fat-tree=K` ask for a generated network of K pods, 2, 4, 6 or 8, and stand at most once.
/// Each word behind `--` is the name of a file; before it a word of several bytes that begins with
/// `-` and is none of these isn't allowed, and every other word is the name of a file. At least one
/// file is named, or a network is generated and no file is named.
///
/// # Errors
///
/// [`WordsFault::Usage`] exactly where the words aren't these, or memory that runs out.
pub fn read_words(alloc: Global, words: &[String]) -> Result<Request, WordsFault>
    ensures asked { IfOk result (λ request.
        request_of (texts words.now) ≡ Some (request_view request)) }
    ensures refused { IsErrOf result WordsFault.Usage → request_of (texts words.now) ≡ None }
    ensures rounds { IfOk result (λ request. IsRounds request.rounds) }
    ensures sized { IfOk result (λ request. IsSized (input_view request.input)) }
{
    let matches = parse(alloc, words)?;
    let rounds = rounds_in(matches.get_str(ROUNDS))?;
    let pods = pods_in(matches.get_str(FAT_TREE))?;
    let names = matches.get_strs(FILE).unwrap_or(&[]);
    let input = input_of(alloc, pods, names)?;
    Ok(Request {
        rounds: rounds.unwrap_or(DEFAULT_ROUNDS),
        input,
    })
}
