ghost use Rattle.std.specs.Prelude.{◌≡◌, List, None, OnErr, OnOk, Some, ℕ, map, false, string_bytes, true};
ghost use Rattle.wy_device.specs.Devices.{IsInOrder};
ghost use Rattle.wy_machine.specs.Devices.{states};
ghost use Rattle.wy_settings.specs.Settings.{settings_of, settings_of_line, takes};
ghost use Rattle.wy_engine.specs.Answering.{Answered};
ghost use Rattle.wy_engine.specs.Headline.{Closes, Headline, Settles};
ghost use Rattle.wy_engine.specs.LastLine.{line_words};
ghost use Rattle.wy_engine.specs.StatusNumber.{refusal_status};
ghost use Rattle.wy_engine.specs.Texts.{sampled};
ghost use Rattle.wy_engine.specs.TopCall.{takes_files};
ghost use Rattle.wy_engine.specs.Writing.{BeginsEnd, EndsReport};

use crate::answering::answer;
use crate::last_line::{LineWords, last_line_of};
use crate::laws::accepted_run_as_meant;
use crate::reading::{Stop, read_all};
use crate::status::Status;
use std::alloc::Global;
use wy_certify::certificates_have_one_size;
use wy_device::device::Device;
use wy_machine::devices::Devices;
use wy_proving::laws::proved_is_accepted;
use wy_sample::sample;
use wy_settings::{
    Command, CommandLine, SettingsRefusal, USUAL_DEPTH, USUAL_STEPS, sample_number, settings,
    texts_among,
};
use wy_text::limit::LimitName;
use wy_text::shelf::Shelf;
use wy_text::sink::{Sink, WriteError};
use wy_text::text::Memory;
use wy_text::writing::write_all;
use wy_well_formed::resolved_is_core;

/// The most files of a call.
const MOST_FILES: usize = 64;

/// Returns whether the arguments of a command name files.
fn takes_files(command: Command) -> bool
    ensures { result ≡ takes_files command }
{
    match command {
        Command::Check
        | Command::Authority
        | Command::Run
        | Command::Trace
        | Command::Format
        | Command::Policy
        | Command::Observe
        | Command::Certify
        | Command::Recheck => true,
        Command::Sample => false,
    }
}

/// Makes the sample of a command line, does with it what the command asks, and returns the status.
fn answer_sample<O: Sink, E: Sink, D: Device>(
    alloc: Global,
    line: CommandLine<'_>,
    out: &mut O,
    report: &mut E,
    devices: &mut Devices<D>,
) -> Status
    requires in_order { IsInOrder (states D.state devices.old) }
    requires asked { takes_files line.command ≡ false }
    requires fits { takes line.command (map string_bytes line.files.now) ≡ true }
    ensures { (texts : List (List ℕ)) → sampled (map string_bytes line.entry.files.now) ≡ Some texts → Answered (settings_of_line line.entry) texts (O.state out.old) (O.state out.new) (E.state report.old) (E.state report.new) (states D.state devices.old) (states D.state devices.new) result }
{
    let Some(number) = sample_number(line.files) else {
        unreachable!()
    };
    let Ok(text) = sample(alloc, number) else {
        return Status::Memory;
    };
    answer(alloc, line, &[text], out, report, devices)
}

/// Reads the files of a command line, or makes its sample, does with them what the command asks, and returns the status.
fn settle<S: Shelf, O: Sink, E: Sink, D: Device>(
    alloc: Global,
    line: CommandLine<'_>,
    shelf: &mut S,
    out: &mut O,
    report: &mut E,
    devices: &mut Devices<D>,
) -> Status
    requires in_order { IsInOrder (states D.state devices.old) }
    requires fits { takes line.command (map string_bytes line.files.now) ≡ true }
    ensures { (words : List (List ℕ)) → settings_of words ≡ Some (settings_of_line line.entry) → Settles (record {
      words = words;
      shelf = S.state shelf.old;
      shelf_after = S.state shelf.new;
      out = O.state out.old;
      out_after = O.state out.new;
      report = E.state report.old;
      report_after = E.state report.new;
      devices = states D.state devices.old;
      devices_after = states D.state devices.new;
      status = result;
    }) }
{
    resolved_is_core();
    certificates_have_one_size();
    proved_is_accepted();
    accepted_run_as_meant();
    if line.files.len() > MOST_FILES {
        return Status::Limit(LimitName::Files);
    }
    if !takes_files(line.command) {
        return answer_sample(alloc, line, out, report, devices);
    }
    match read_all(alloc, shelf, line.command, line.files) {
        Err(Stop::Unread(file)) => Status::Unread(file),
        Err(Stop::Memory) => Status::Memory,
        Ok(texts) => answer(alloc, line, texts.as_slice(), out, report, devices),
    }
}

/// The last line of a call that ran out of memory. It is constant, so that it needs no memory.
const NO_MEMORY: &[u8] = b"no memory\n";

/// Ends the report with a text. A text that the sink refuses is lost.
fn end_report<E: Sink>(report: &mut E, text: &[u8]) -> Result<(), Memory>
    ensures told { OnOk result (EndsReport text.now (E.state report.old) (E.state report.new)) }
    ensures starved { OnErr result (BeginsEnd text.now (E.state report.old) (E.state report.new)) }
{
    match write_all(report, text) {
        Err(WriteError::Memory) => Err(Memory),
        Ok(()) | Err(WriteError::Failed) => Ok(()),
    }
}

/// Writes the last line of a status that is settled, or that of Memory if no memory is left to make it.
fn write_last_line<E: Sink>(
    alloc: Global,
    words: LineWords<'_>,
    report: &mut E,
    settled: &Status,
) -> Result<(), Memory>
    ensures told { OnOk result (Closes (record { names = map string_bytes words.entry.names.now; texts = map string_bytes words.entry.texts.now; steps = words.entry.steps; depth = words.entry.depth }) settled.now settled.now (E.state report.old) (E.state report.new)) }
    ensures starved { OnErr result (Closes (record { names = map string_bytes words.entry.names.now; texts = map string_bytes words.entry.texts.now; steps = words.entry.steps; depth = words.entry.depth }) settled.now Status.Memory (E.state report.old) (E.state report.new)) }
{
    match last_line_of(alloc, words, settled) {
        Ok(line) => end_report(report, line.as_slice()),
        Err(why) => {
            end_report(report, NO_MEMORY)?;
            Err(why)
        }
    }
}

/// Writes the last line of a status that is settled, and returns the status of the whole call.
fn close<E: Sink>(alloc: Global, words: LineWords<'_>, report: &mut E, settled: Status) -> Status
    ensures { Closes (record { names = map string_bytes words.entry.names.now; texts = map string_bytes words.entry.texts.now; steps = words.entry.steps; depth = words.entry.depth }) settled result (E.state report.old) (E.state report.new) }
{
    match write_last_line(alloc, words, report, &settled) {
        Ok(()) => settled,
        Err(_) => Status::Memory,
    }
}

/// Returns what the last line of a call needs of its command line.
fn line_words(line: CommandLine<'_>) -> LineWords<'_>
    ensures { line_words (Some (settings_of_line line.entry)) ≡ record { names = map string_bytes result.names.now; texts = map string_bytes result.texts.now; steps = result.steps; depth = result.depth } }
{
    LineWords {
        names: line.files,
        texts: texts_among(line.command, line.files),
        steps: line.steps,
        depth: line.depth,
    }
}

/// Returns what the last line of a call needs if the arguments are invalid.
fn no_words() -> LineWords<'static>
    ensures { line_words None ≡ record { names = map string_bytes result.names.now; texts = map string_bytes result.texts.now; steps = result.steps; depth = result.depth } }
{
    LineWords {
        names: &[],
        texts: &[],
        steps: USUAL_STEPS,
        depth: USUAL_DEPTH,
    }
}

/// Returns the status of a call whose arguments give no settings.
fn status_of(refusal: SettingsRefusal) -> Status
    ensures { result ≡ refusal_status refusal }
{
    match refusal {
        SettingsRefusal::Usage => Status::Usage,
        SettingsRefusal::Memory => Status::Memory,
    }
}

/// Does what the arguments ask, and returns the status of the call (docs/LANGUAGE.md, "The command line" and "Statuses").
///
/// It reads the files that the arguments name, each once. Then it does what the command asks:
///
/// - `check` writes to `out` that the rules accept the program;
/// - `authority` writes the report of what the bodies of an accepted program may do to `out`;
/// - `run` prints that report on `report`, and runs an accepted program on the devices;
/// - `trace` does so too, and writes the line of each event to `out`;
/// - `sample` runs the program that its number makes, and writes a line that sums it up to `out`;
/// - `observe` does as `run` does, and then writes to `out` what was used of each instance;
/// - `format` writes the canonical form of its one file to `out`;
/// - `policy` writes to `out` that the program of the files after the first keeps to the policy in the first;
/// - `certify` writes a certificate of an accepted program to `out`;
/// - `recheck` writes to `out` that the certificate in the first file proves the program of the files after it.
///
/// The report ends with a line that says how the call ended, unless the status is Ended. The devices must be of the four kinds in
/// their order, which `devices` gives.
pub fn wyvern<S: Shelf, O: Sink, E: Sink, D: Device>(
    alloc: Global,
    words: &[String],
    shelf: &mut S,
    out: &mut O,
    report: &mut E,
    devices: &mut Devices<D>,
) -> Status
    requires { IsInOrder (states D.state devices.old) }
    ensures { Headline (record {
      words = map string_bytes words.now;
      shelf = S.state shelf.old;
      shelf_after = S.state shelf.new;
      out = O.state out.old;
      out_after = O.state out.new;
      report = E.state report.old;
      report_after = E.state report.new;
      devices = states D.state devices.old;
      devices_after = states D.state devices.new;
      status = result;
    }) }
{
    match settings(alloc, words) {
        Ok(settings) => {
            let line = settings.line();
            let settled = settle(alloc, line, shelf, out, report, devices);
            close(alloc, line_words(line), report, settled)
        }
        Err(refusal) => close(alloc, no_words(), report, status_of(refusal)),
    }
}
