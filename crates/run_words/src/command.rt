//! The command of the program.

ghost use Rattle.std.specs.Prelude.{◌≡◌, IfOk, false};
ghost use Rattle.clap.specs.Words.{app_of, rule_of};
ghost use Rattle.run_words.specs.Command.{dir, flag, option, script, vert};

use clap::{Arg, ArgAction, Command};
use std::alloc::{AllocError, Global};

/// The command, without flags for help and for the version.
pub(crate) fn command<'a>(alloc: Global) -> Result<Command<'a>, AllocError>
    ensures { IfOk result (λ c. app_of c ≡ vert) }
{
    Command::new(alloc, "vert")
        .disable_help_flag(true)
        .disable_version_flag(true)
        .arg(dir(alloc))?
        .arg(option(alloc, "mover"))?
        .arg(flag(alloc, "halt"))?
        .arg(flag(alloc, "audit"))?
        .arg(option(alloc, "gen"))?
        .arg(option(alloc, "seed"))?
        .arg(script(alloc))
}

// DIR.
fn dir<'a>(alloc: Global) -> Arg<'a>
    ensures rule { rule_of result ≡ dir }
    ensures own { result.global ≡ false }
{
    Arg::new(alloc, "dir").required(true).action(ArgAction::Set)
}

// An option with a value.
fn option<'a>(alloc: Global, name: &'a str) -> Arg<'a>
    ensures rule { rule_of result ≡ option name.entry.now }
    ensures own { result.global ≡ false }
{
    Arg::new(alloc, name).long(name).action(ArgAction::Set)
}

// An option without a value.
fn flag<'a>(alloc: Global, name: &'a str) -> Arg<'a>
    ensures rule { rule_of result ≡ flag name.entry.now }
    ensures own { result.global ≡ false }
{
    Arg::new(alloc, name).long(name).action(ArgAction::SetTrue)
}

// SCRIPT.
fn script<'a>(alloc: Global) -> Arg<'a>
    ensures rule { rule_of result ≡ script }
    ensures own { result.global ≡ false }
{
    Arg::new(alloc, "script").action(ArgAction::Set)
}
