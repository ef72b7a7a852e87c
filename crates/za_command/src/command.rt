//! The command words as one simple command of clap: two positional arguments and one option.

ghost use Rattle.std.specs.Prelude.{◌≡◌, [], IfOk, MatchResult, map, string_bytes};
ghost use Rattle.clap.specs.Words.{app_of, fault_of, HasKind};
ghost use Rattle.za_command.specs.Private.Command.{command_app, texts_in, texts_of};

use clap::{Arg, Command, Error};
use std::alloc::{AllocError, Global};

/// What clap finds in the command words.
#[derive(Clone, Copy, Debug, Drop)]
pub(crate) struct Found<'a> {
    pub(crate) command: Option<&'a str>,
    pub(crate) number: Option<&'a str>,
    pub(crate) cache: Option<&'a str>,
}

/// The command: its name, a number, and the option `--cache` with a value.
fn command<'a>(alloc: Global) -> Result<Command<'a>, AllocError>
    ensures { IfOk result (λ command. app_of command ≡ command_app) }
{
    let name = Arg::new(alloc, "command");
    let number = Arg::new(alloc, "number");
    let cache = Arg::new(alloc, "cache").long("cache");
    let bare = Command::new(alloc, "zla")
        .no_binary_name(true)
        .disable_help_flag(true)
        .disable_version_flag(true);
    let command = bare.arg(name)?.arg(number)?.arg(cache)?;
    Ok(command)
}

/// What clap finds in the command words.
pub(crate) fn found_in<'a>(alloc: Global, words: &'a [String]) -> Result<Found<'a>, Error>
    ensures { MatchResult result
        (λ found. (fault_of command_app (map string_bytes words.entry.now) ≡ [])
        × (texts_of found ≡ texts_in (map string_bytes words.entry.now)))
        (λ fault. HasKind (fault_of command_app (map string_bytes words.entry.now)) fault) }
{
    let command = command(alloc)?;
    let matches = command.try_get_matches_from(words)?;
    Ok(Found {
        command: matches.get_str("command"),
        number: matches.get_str("number"),
        cache: matches.get_str("cache"),
    })
}
