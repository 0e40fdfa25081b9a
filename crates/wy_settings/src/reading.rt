ghost use Rattle.std.specs.Prelude.{codes, ◌≡◌, ◌≤◌, IfErr, IfOk, Some, None, length, map, string_bytes, true};
ghost use Rattle.std.specs.Option.{IfSome, option_copied, option_map};
ghost use Rattle.clap.specs.Matches.{found_of};
ghost use Rattle.clap.specs.Walk.{all_of, first_of, rows_of};
ghost use Rattle.wy_settings.specs.Folders.{given_folder};
ghost use Rattle.wy_settings.specs.Settings.{bound, command_named, folders_in, heading_in, most_sample, most_steps, sample_number, settings_in, settings_kept, settings_of, takes, texts_among, words_in};

use crate::command_line::{
    Command, GivenFolder, MOST_DEPTH, MOST_STEPS, Settings, SettingsRefusal, USUAL_DEPTH,
    USUAL_STEPS,
};
use crate::folders::given_folders;
use crate::matching::matches_of;
use crate::numerals::number_up_to;
use clap::ArgMatches;
use std::alloc::{AllocError, Global};

/// The greatest number of a sample.
const MOST_SAMPLE: u64 = 200;

/// A command with its bounds.
#[derive(Clone, Copy)]
struct Heading {
    command: Command,
    steps: u64,
    depth: u32,
}

/// The command that a word names.
fn command_of(word: &str) -> Option<Command>
    ensures { result ≡ command_named word.now }
{
    match word {
        "check" => Some(Command::Check),
        "authority" => Some(Command::Authority),
        "run" => Some(Command::Run),
        "trace" => Some(Command::Trace),
        "sample" => Some(Command::Sample),
        "format" => Some(Command::Format),
        "policy" => Some(Command::Policy),
        "observe" => Some(Command::Observe),
        "certify" => Some(Command::Certify),
        "recheck" => Some(Command::Recheck),
        _ => None,
    }
}

/// The number of a sample, from 1 to 200, where the file words are one word that is such a number. It takes no memory.
pub fn sample_number(files: &[String]) -> Option<u32>
    ensures number { result ≡ sample_number (map string_bytes files.now) }
    ensures within { IfSome result (λ n. (1 ≤ n) × (n ≤ most_sample)) }
{
    let [word] = files else {
        return None;
    };
    match number_up_to(MOST_SAMPLE, word.as_str()) {
        Some(number) if number >= 1 => Some(number as u32),
        _ => None,
    }
}

/// Whether a command takes these file words.
fn takes(command: Command, files: &[String]) -> bool
    ensures { result ≡ takes command (map string_bytes files.now) }
{
    match command {
        Command::Check
        | Command::Authority
        | Command::Run
        | Command::Trace
        | Command::Observe
        | Command::Certify => files.len() >= 1,
        Command::Sample => sample_number(files).is_some(),
        Command::Format => files.len() == 1,
        Command::Policy | Command::Recheck => files.len() >= 2,
    }
}

/// The texts among the files of a command, or their words: all, and for `policy` and `recheck` those behind the first, which
/// is the policy or the certificate. It takes no memory.
pub fn texts_among<X>(command: Command, files: &[X]) -> &[X]
    ensures { result.now ≡ texts_among command files.now }
{
    match (command, files) {
        (Command::Policy | Command::Recheck, [_, texts @ ..]) => texts,
        _ => files,
    }
}

/// The number that the word of an option is, and the usual one where there is none.
fn bound(usual: u64, most: u64, word: Option<&str>) -> Option<u64>
    requires most { most ≤ most_steps }
    requires usual { usual ≤ most }
    ensures number { result ≡ bound usual most (option_copied word.entry) }
    ensures within { IfSome result (λ n. n ≤ most) }
{
    match word {
        Some(word) => number_up_to(most, word),
        None => Some(usual),
    }
}

/// The first word that stands for an argument of this name.
fn first<'a>(matches: &ArgMatches<'a>, name: &str) -> Option<&'a str>
    ensures { option_copied result ≡ first_of name.now (rows_of (found_of matches.now)) }
{
    matches.get_str(name)
}

/// The command and the bounds that matches give, where their words are such as the product reads.
fn heading_in(matches: &ArgMatches<'_>) -> Option<Heading>
    ensures { heading_in (rows_of (found_of matches.now)) ≡ option_map (λ h. record { command = h.command; steps = h.steps; depth = h.depth }) result }
{
    let command = command_of(first(matches, "command")?)?;
    let steps = bound(USUAL_STEPS, MOST_STEPS, first(matches, "steps"))?;
    let depth = bound(
        u64::from(USUAL_DEPTH),
        u64::from(MOST_DEPTH),
        first(matches, "depth"),
    )?;
    Some(Heading {
        command,
        steps,
        depth: depth as u32,
    })
}

/// Copies words.
fn copied(alloc: Global, words: &[&str]) -> Result<Vec<String>, AllocError>
    ensures { IfOk result (λ copies. map string_bytes copies.items ≡ map (λ s. s.now) words.now) }
{
    let mut copies = Vec::new(alloc);
    for word in words {
        copies.push(String::from_str(alloc, word)?)?;
    }
    Ok(copies)
}

/// Returns the words that stand for an argument of this name, if there are any.
fn all<'m, 'a>(matches: &'m ArgMatches<'a>, name: &str) -> Option<&'m [&'a str]>
    ensures { option_map (λ words. map (λ word. word.now) words.now) result ≡ all_of name.now (rows_of (found_of matches.now)) }
{
    matches.get_raw(name)
}

/// Returns the folders that matches give for grants; `None` if their words are invalid.
fn folders_in(
    alloc: Global,
    matches: &ArgMatches<'_>,
) -> Result<Option<Vec<GivenFolder>>, AllocError>
    ensures { IfOk result (λ found. option_map (λ folders. map given_folder folders.items) found ≡ folders_in (rows_of (found_of matches.now))) }
{
    match all(matches, "folder") {
        Some(words) => given_folders(alloc, words),
        None => Ok(Some(Vec::new(alloc))),
    }
}

/// Copies the file arguments of matches.
fn files_in(alloc: Global, matches: &ArgMatches<'_>) -> Result<Vec<String>, AllocError>
    ensures { IfOk result (λ files. map string_bytes files.items ≡ words_in (codes "file") (rows_of (found_of matches.now))) }
{
    match all(matches, "file") {
        Some(words) => copied(alloc, words),
        None => Ok(Vec::new(alloc)),
    }
}

/// Returns the settings that words give, with such files as the command takes (docs/LANGUAGE.md, "The command line").
///
/// # Errors
///
/// `Usage` comes exactly if the words give no settings. Only `Memory` can replace these answers.
pub fn settings(alloc: Global, words: &[String]) -> Result<Settings, SettingsRefusal>
    ensures given { IfOk result (λ s. settings_of (map string_bytes words.now) ≡ Some (settings_kept s)) }
    ensures fits { IfOk result (λ s. takes s.command (map string_bytes s.files.items) ≡ true) }
    ensures usage { IfErr result (λ refusal. refusal ≡ SettingsRefusal.Usage → settings_of (map string_bytes words.now) ≡ None) }
{
    let matches = matches_of(alloc, words)?;
    let Some(heading) = heading_in(&matches) else {
        return Err(SettingsRefusal::Usage);
    };
    let Ok(given) = folders_in(alloc, &matches) else {
        return Err(SettingsRefusal::Memory);
    };
    let Some(folders) = given else {
        return Err(SettingsRefusal::Usage);
    };
    let Ok(files) = files_in(alloc, &matches) else {
        return Err(SettingsRefusal::Memory);
    };
    if !takes(heading.command, files.as_slice()) {
        return Err(SettingsRefusal::Usage);
    }
    Ok(Settings {
        command: heading.command,
        steps: heading.steps,
        depth: heading.depth,
        folders,
        files,
    })
}
