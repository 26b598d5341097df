//! The words after the first.
ghost use Rattle.std.specs.Prelude.{◌≡◌, drop, map, string_bytes, option_map, ◌⊎◌, Some, None, IfOk, IfErr};
ghost use Rattle.clap.specs.Words.{kind_of};
ghost use Rattle.command_words.specs.Options.{given_of};
ghost use Rattle.command_words.specs.Parsed.{given_in};

use clap::error::ErrorKind;
use clap::{Arg, ArgAction, ArgMatches, Command, Error};
use ls_base::NoMemory;
use std::alloc::Global;

/// What `clap` makes of the words, the first of which is the command's.
fn parse<'a>(alloc: Global, words: &'a [String]) -> Result<ArgMatches<'a>, Error>
    ensures given { IfOk result (λ found. given_of (drop 1 (map string_bytes words.now)) ≡ Some (given_in found)) }
    ensures refused { IfErr result (λ error. (kind_of error ≡ ErrorKind.OutOfMemory) ⊎ (given_of (drop 1 (map string_bytes words.now)) ≡ None)) }
{
    let word = Arg::new(alloc, "word").action(ArgAction::Append);
    let max = Arg::new(alloc, "max").long("max");
    let command = Command::new(alloc, "lsc")
        .disable_help_flag(true)
        .disable_version_flag(true)
        .arg(word)?
        .arg(max)?;
    command.try_get_matches_from(words)
}

/// The words after the first, where they are of a form.
pub(crate) fn read_options<'a>(
    alloc: Global,
    words: &'a [String],
) -> Result<Option<ArgMatches<'a>>, NoMemory>
    ensures { IfOk result (λ found. option_map given_in found ≡ given_of (drop 1 (map string_bytes words.now))) }
{
    match parse(alloc, words) {
        Ok(matches) => Ok(Some(matches)),
        Err(error) => match error.kind() {
            ErrorKind::OutOfMemory => Err(NoMemory),
            _ => Ok(None),
        },
    }
}
