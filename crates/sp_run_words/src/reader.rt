//! The command by which `clap` reads the words behind the first.

ghost use Rattle.std.specs.Prelude.{◌≡◌, false, IfOk};
ghost use Rattle.clap.specs.Words.{app_of};
ghost use Rattle.clap.specs.Walk.{rule_of};
ghost use Rattle.sp_run_words.specs.Reader.{bare_app, file_rule, flag_rule, reader_app};

use clap::{Arg, ArgAction, Command};
use std::alloc::{AllocError, Global};

/// The flag `--sharp`.
pub(crate) const SHARP: &str = "sharp";

/// The flag `--values`.
pub(crate) const VALUES: &str = "values";

/// The flag `--nodes`.
pub(crate) const NODES: &str = "nodes";

/// The FILEs.
pub(crate) const FILES: &str = "files";

/// A flag of this name.
fn flag<'a>(alloc: Global, name: &'a str) -> Arg<'a>
    ensures rule { rule_of result ≡ flag_rule name.now }
    ensures local { result.global ≡ false }
{
    Arg::new(alloc, name).long(name).action(ArgAction::SetTrue)
}

/// The FILEs: each is a use of its own, so that a flag may stand between two.
fn files<'a>(alloc: Global) -> Arg<'a>
    ensures rule { rule_of result ≡ file_rule }
    ensures local { result.global ≡ false }
{
    Arg::new(alloc, FILES)
        .action(ArgAction::Append)
        .required(true)
}

/// The command before its arguments: its words begin with the first of them, and none asks for help
/// or a version.
fn bare<'a>(alloc: Global) -> Command<'a>
    ensures { app_of result ≡ bare_app }
{
    Command::new(alloc, "sparrow")
        .no_binary_name(true)
        .disable_help_flag(true)
        .disable_version_flag(true)
}

/// The command of the flags and the FILEs.
pub(crate) fn reader<'a>(alloc: Global) -> Result<Command<'a>, AllocError>
    ensures { IfOk result (λ command. app_of command ≡ reader_app) }
{
    bare(alloc)
        .arg(flag(alloc, SHARP))?
        .arg(flag(alloc, VALUES))?
        .arg(flag(alloc, NODES))?
        .arg(files(alloc))
}
