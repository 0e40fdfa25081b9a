ghost use Rattle.std.specs.Prelude.{◌≡◌, ◌≢◌, IfErr, IfOk, Some, [], false, map, string_bytes};
ghost use Rattle.clap.specs.Faults.{fault_of};
ghost use Rattle.clap.specs.Matches.{found_of};
ghost use Rattle.clap.specs.Simple.{app_of, matches_of, new_rule};
ghost use Rattle.clap.specs.Walk.{rows_of, rule_of};
ghost use Rattle.clap.specs.declared.builder.action.ArgAction.TheVariants.{Append};
ghost use Rattle.wy_settings.specs.Settings.{files_rule, option_rule, repeated_rule, words_of_call};

use crate::command_line::SettingsRefusal;
use clap::error::ErrorKind;
use clap::{Arg, ArgAction, ArgMatches, Command};
use std::alloc::{AllocError, Global};

/// An option with a value, by the name that stands behind its two dashes.
fn option<'a>(alloc: Global, name: &'a str) -> Arg<'a>
    ensures rule { rule_of result ≡ option_rule name.entry.now }
    ensures own { result.global ≡ false }
{
    Arg::new(alloc, name).long(name)
}

/// An option with a value that may be given any number of times.
fn repeated<'a>(alloc: Global, name: &'a str) -> Arg<'a>
    ensures rule { rule_of result ≡ repeated_rule name.entry.now }
    ensures own { result.global ≡ false }
{
    option(alloc, name).action(ArgAction::Append)
}

/// The file arguments, of which there may be any number.
fn files<'a>(alloc: Global) -> Arg<'a>
    ensures rule { rule_of result ≡ files_rule }
    ensures own { result.global ≡ false }
{
    Arg::new(alloc, "file").action(ArgAction::Append)
}

/// The command as whose words those of a call are read: COMMAND, `--steps N`, `--depth N`, `--folder GRANT=PATH`..., FILE...
fn command_line<'a>(alloc: Global) -> Result<Command<'a>, AllocError>
    ensures { IfOk result (λ c. app_of c ≡ words_of_call) }
{
    Command::new(alloc, "wyvern")
        .no_binary_name(true)
        .disable_help_flag(true)
        .disable_version_flag(true)
        .arg(Arg::new(alloc, "command"))?
        .arg(option(alloc, "steps"))?
        .arg(option(alloc, "depth"))?
        .arg(repeated(alloc, "folder"))?
        .arg(files(alloc))
}

/// What stands for a fault that `clap` finds.
fn refusal_of(kind: ErrorKind) -> SettingsRefusal
    ensures { result ≡ SettingsRefusal.Usage → kind ≢ ErrorKind.OutOfMemory }
{
    match kind {
        ErrorKind::OutOfMemory => SettingsRefusal::Memory,
        _ => SettingsRefusal::Usage,
    }
}

/// The matches of the words; `Usage` where `clap` finds a fault in them.
pub fn matches_of<'a>(alloc: Global, words: &'a [String]) -> Result<ArgMatches<'a>, SettingsRefusal>
    ensures taken { IfOk result (λ m. fault_of words_of_call (map string_bytes words.entry.now) ≡ []) }
    ensures rows { IfOk result (λ m. rows_of (found_of m) ≡ matches_of words_of_call (map string_bytes words.entry.now)) }
    ensures usage { IfErr result (λ refusal. refusal ≡ SettingsRefusal.Usage → fault_of words_of_call (map string_bytes words.entry.now) ≢ []) }
{
    let Ok(command) = command_line(alloc) else {
        return Err(SettingsRefusal::Memory);
    };
    match command.try_get_matches_from(words) {
        Ok(matches) => Ok(matches),
        Err(error) => Err(refusal_of(error.kind())),
    }
}
