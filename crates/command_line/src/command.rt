//! The command, by which the words are a flag, an action and its values.
ghost use Rattle.std.specs.Prelude.{◌≡◌, IfOk, option_map};
ghost use Rattle.clap.specs.Matches.{found_of};
ghost use Rattle.clap.specs.Simple.{app_of};
ghost use Rattle.clap.specs.Walk.{rows_of};
ghost use Rattle.command_line.specs.Command.{the_command};
ghost use Rattle.command_line.specs.Table.{rows_taken, texts_of};

use clap::error::ErrorKind;
use clap::{Arg, ArgAction, ArgMatches, Command};
use event_types::Memory;
use std::alloc::Global;

/// What the command finds in the words; None exactly where it doesn't take them.
pub(crate) fn matches_in<'w>(
    alloc: Global,
    words: &'w [&'w str],
) -> Result<Option<ArgMatches<'w>>, Memory>
    ensures { IfOk result (λ given. option_map (λ found. rows_of (found_of found)) given ≡ rows_taken (texts_of words.now)) }
{
    let command = command(alloc)?;
    match command.try_get_matches_from(words) {
        Ok(found) => Ok(Some(found)),
        Err(error) => match error.kind() {
            ErrorKind::OutOfMemory => Err(Memory),
            _ => Ok(None),
        },
    }
}

// The command itself.
fn command<'w>(alloc: Global) -> Result<Command<'w>, Memory>
    ensures { IfOk result (λ command. app_of command ≡ the_command) }
{
    let stats = Arg::new(alloc, "stats")
        .long("stats")
        .action(ArgAction::SetTrue);
    let action = Arg::new(alloc, "action").required(true);
    let values = Arg::new(alloc, "values").num_args(1..);
    let bare = Command::new(alloc, "cayuga")
        .no_binary_name(true)
        .disable_help_flag(true)
        .disable_version_flag(true);
    let command = bare.arg(stats)?.arg(action)?.arg(values)?;
    Ok(command)
}
