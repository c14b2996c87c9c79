//! The values of the options of a call, as `clap` reads them.

ghost use Rattle.std.specs.Prelude.{◌≡◌, IfErr, IfOk, Some, is_some, map, string_bytes, true};
ghost use Rattle.clap.specs.Words.{app_of, kind_of};
ghost use Rattle.synth_run.specs.Options.{given_from, nothing_given};
ghost use Rattle.synth_run.specs.Spelled.{given_as};
ghost use Rattle.synth_run.specs.Values.{options_app};

use crate::options::Given;
use clap::error::ErrorKind;
use clap::{Arg, ArgAction, Command, Error};
use std::alloc::{AllocError, Global};

/// A command whose words are the options of a call. It has no help text.
fn options_command<'a>(alloc: Global) -> Result<Command<'a>, AllocError>
    ensures app { IfOk result (λ command. app_of command ≡ options_app) }
{
    let session = Arg::new(alloc, "session")
        .long("session")
        .action(ArgAction::SetTrue);
    let script = Arg::new(alloc, "script").long("script");
    let workers = Arg::new(alloc, "workers").long("workers");
    let generate = Arg::new(alloc, "gen").long("gen");
    let desks = Arg::new(alloc, "desks").long("desks");
    Command::new(alloc, "rtlsyn")
        .no_binary_name(true)
        .disable_help_flag(true)
        .arg(session)?
        .arg(script)?
        .arg(workers)?
        .arg(generate)?
        .arg(desks)
}

/// The options that the words give. Where the words follow the rule of options, only want of memory refuses.
pub(crate) fn read_values<'a>(alloc: Global, words: &'a [String]) -> Result<Given<'a>, Error>
    requires meant { is_some (given_from nothing_given (map string_bytes words.now)) ≡ true }
    ensures value { IfOk result (λ given.
        given_from nothing_given (map string_bytes words.now) ≡ Some (given_as given)) }
    ensures memory { IfErr result (λ error. kind_of error ≡ ErrorKind.OutOfMemory) }
{
    let matches = options_command(alloc)?.try_get_matches_from(words)?;
    Ok(Given {
        session: matches.get_flag("session"),
        script: matches.get_str("script"),
        workers: matches.get_str("workers"),
        generate: matches.get_str("gen"),
        desks: matches.get_str("desks"),
    })
}
