//! The command by which words are read.

ghost use Rattle.std.specs.Prelude.{◌≡◌, IfOk};
ghost use Rattle.clap.specs.Words.{app_of};
ghost use Rattle.nc_words.specs.Command.{netcov_app};

use clap::{Arg, ArgAction, Command};
use std::alloc::{AllocError, Global};

/// The ids of the arguments.
pub(crate) const ROUNDS: &str = "rounds";

pub(crate) const FAT_TREE: &str = "fat-tree";

pub(crate) const FILE: &str = "FILE";

// The command: two options with a value each, as text, and any number of files behind them. The
// numbers are read afterwards.
pub(crate) fn netcov_command<'a>(alloc: Global) -> Result<Command<'a>, AllocError>
    ensures { IfOk result (λ command. app_of command ≡ netcov_app) }
{
    let rounds = Arg::new(alloc, ROUNDS).long(ROUNDS);
    let fat_tree = Arg::new(alloc, FAT_TREE).long(FAT_TREE);
    let file = Arg::new(alloc, FILE).action(ArgAction::Append);
    let command = Command::new(alloc, "netcov")
        .no_binary_name(true)
        .disable_help_flag(true)
        .disable_version_flag(true);
    let command = command.arg(rounds)?.arg(fat_tree)?.arg(file)?;
    Ok(command)
}
