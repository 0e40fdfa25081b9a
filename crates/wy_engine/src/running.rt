//! Runs an accepted program: lowers it to code, prints its report and runs the code.

ghost use Rattle.std.specs.Prelude.{◌≡◌, ◌≤◌, IfOk, None, length, map, true};
ghost use Rattle.wy_code.specs.Running.{NeverStuck};
ghost use Rattle.wy_device.specs.Devices.{IsInOrder};
ghost use Rattle.wy_machine.specs.Devices.{states};
ghost use Rattle.wy_machine.specs.Observing.{instance_names};
ghost use Rattle.wy_link.specs.Checking.{IsCheckedProgram};
ghost use Rattle.wy_lower.specs.Counts.{lowering_limit};
ghost use Rattle.wy_lower.specs.Lowering.{lowered};
ghost use Rattle.wy_settings.specs.Folders.{given_folder};
ghost use Rattle.wy_sound.specs.Programs.{program_starts};
ghost use Rattle.wy_text.specs.Members.{Apart};
ghost use Rattle.wy_policy.specs.Used.{used_sets, used_text};
ghost use Rattle.wy_syntax.specs.Views.{file_tree};
ghost use Rattle.wy_authority.specs.Authority.{authority_of};
ghost use Rattle.wy_types.specs.Program.{Program, program_of};
ghost use Rattle.wy_engine.specs.Answering.{RunsAccepted, RunsTrees};
ghost use Rattle.wy_engine.specs.FileTrees.{AreOfFiles};
ghost use Rattle.wy_engine.specs.Folders.{fit_program};
ghost use Rattle.wy_engine.specs.ProgramLaws.{RunsAsMeant, row_names};
ghost use Rattle.wy_engine.specs.Running.{ObservesCode, RunsImage, ThenObserved, ThenWrote, status_of, summary_in};

use crate::checking::{Accepted, authority_of, body_lines, judge_trees};
use crate::folders::fit_grants;
use crate::laws::accepted_run_as_meant;
use crate::status::Status;
use crate::writing::write_out;
use std::alloc::Global;
use wy_authority::{Authority, write_report};
use wy_code::code::Code;
use wy_device::device::Device;
use wy_lower::{LowerRefusal, lower};
use wy_machine::devices::Devices;
use wy_machine::run::{Image, load, run, run_observed, run_traced};
use wy_machine::run_end::RunEnd;
use wy_meaning::Used;
use wy_policy::used_text;
use wy_sample::summary;
use wy_settings::GivenFolder;
use wy_syntax::items::Tree;
use wy_text::sink::{Sink, WriteError};
use wy_text::text::{Memory, Text, from_bytes};

/// What is written to `out` of a run.
#[derive(Clone, Copy)]
pub enum Mode {
    /// Nothing is written to `out`.
    Silent,
    /// The line of each event is written to `out` after the event.
    Traced,
    /// If the run ended, a line that sums it up is written to `out`. The program is the sample of this number.
    Summed(u32),
    /// After the run, however it ended, a line for each instance is written to `out` with what was used of it.
    Observed,
}

/// How a program is run: what is written of the run, how many steps it may take, how many calls on objects may be open at once, and the
/// folders that are given for grants.
#[derive(Clone, Copy)]
pub struct Manner<'a> {
    pub way: Mode,
    pub steps: u64,
    pub depth: u32,
    pub folders: &'a [GivenFolder],
}

/// Returns the status of a run's end.
fn status_of(end: RunEnd) -> Status
    ensures { result ≡ status_of end }
{
    match end {
        RunEnd::Ended => Status::Ended,
        RunEnd::Trap { kind, place } => Status::Trap { kind, place },
        RunEnd::TooDeep => Status::TooDeep,
        RunEnd::Spent => Status::Spent,
        RunEnd::DeviceFailed { grant, op } => Status::DeviceFailed { grant, op },
        RunEnd::SinkFailed => Status::Unwritten,
        RunEnd::Memory => Status::Memory,
    }
}

/// Writes a text to `out` if a run ended well, and returns the status of the whole.
fn sum_up<O: Sink>(end: RunEnd, summary: &[u8], out: &mut O) -> Status
    ensures { ThenWrote summary.now (O.state out.old) (O.state out.new) end result }
{
    match end {
        RunEnd::Ended => write_out(out, summary),
        other => status_of(other),
    }
}

/// Writes what was used of each instance to `out` after a run that ended so, and returns the status of the whole.
fn write_used<O: Sink>(
    alloc: Global,
    end: RunEnd,
    authority: &Authority,
    used: &Used<'_>,
    out: &mut O,
) -> Status
    ensures { ThenObserved (used_text authority.now (map (λ account. account.set) used.now.accounts)) (O.state out.old) (O.state out.new) end result }
{
    if let RunEnd::Memory = end {
        return status_of(end);
    }
    let Ok(text) = used_text(alloc, authority, used) else {
        return Status::Memory;
    };
    match write_out(out, text.as_bytes()) {
        Status::Ended => status_of(end),
        wrote => wrote,
    }
}

/// Runs code that was loaded. After the run, writes what was used of each instance of this authority to `out`.
fn observe_image<O: Sink, D: Device>(
    alloc: Global,
    image: &mut Image<'_>,
    authority: &Authority,
    steps: u64,
    out: &mut O,
    devices: &mut Devices<D>,
) -> Status
    requires in_order { IsInOrder (states D.state devices.old) }
    requires never_stuck { NeverStuck image.old.code }
    requires few { length authority.now.atoms ≤ 512 }
    requires names { instance_names image.old.code ≡ row_names authority.now.rows }
    requires apart { Apart (row_names authority.now.rows) }
    ensures { ObservesCode (λ events. used_text authority.now (used_sets authority.now events)) image.old.code image.old.depth steps (O.state out.old) (O.state out.new) (states D.state devices.old) (states D.state devices.new) result }
{
    let atoms = authority.atoms.as_slice();
    let Ok(mut used) = Used::new(alloc, atoms, authority.rows.len()) else {
        return Status::Memory;
    };
    let end = run_observed(image, devices, steps, &mut used);
    write_used(alloc, end, authority, &used, out)
}

/// Runs code that was loaded, and writes to `out` what the manner asks: the line of each event, this text after a run that ended, or
/// what was used of each instance of this authority.
fn run_image<O: Sink, D: Device>(
    alloc: Global,
    image: &mut Image<'_>,
    manner: Manner<'_>,
    summary: &[u8],
    authority: &Authority,
    out: &mut O,
    devices: &mut Devices<D>,
) -> Status
    requires in_order { IsInOrder (states D.state devices.old) }
    requires never_stuck { NeverStuck image.old.code }
    requires few { length authority.now.atoms ≤ 512 }
    requires names { instance_names image.old.code ≡ row_names authority.now.rows }
    requires apart { Apart (row_names authority.now.rows) }
    ensures { RunsImage manner.entry.way summary.now (λ events. used_text authority.now (used_sets authority.now events)) image.old.code image.old.depth manner.entry.steps (O.state out.old) (O.state out.new) (states D.state devices.old) (states D.state devices.new) result }
{
    match manner.way {
        Mode::Silent => status_of(run(image, devices, manner.steps)),
        Mode::Traced => status_of(run_traced(alloc, image, devices, manner.steps, out)),
        Mode::Summed(_) => sum_up(run(image, devices, manner.steps), summary, out),
        Mode::Observed => observe_image(alloc, image, authority, manner.steps, out, devices),
    }
}

/// Returns the text that sums up a run of a program of this authority; the empty text if the program is not a sample.
fn summary_of(alloc: Global, authority: &Authority, way: Mode) -> Result<Text, Memory>
    ensures { IfOk result (λ text. (p : Program) → authority.now ≡ authority_of p → text ≡ summary_in way p) }
{
    match way {
        Mode::Summed(number) => {
            let lines = body_lines(authority.rows.as_slice()).ok_or(Memory)?;
            summary(alloc, number, lines)
        }
        Mode::Silent | Mode::Traced | Mode::Observed => from_bytes(alloc, b""),
    }
}

/// Prints the report of an accepted program row by row. Then it runs the program's code, which was loaded.
fn report_and_run<O: Sink, E: Sink, D: Device>(
    alloc: Global,
    accepted: &Accepted,
    image: &mut Image<'_>,
    manner: Manner<'_>,
    out: &mut O,
    report: &mut E,
    devices: &mut Devices<D>,
) -> Status
    requires checked { IsCheckedProgram (program_of accepted.now.core) accepted.now.links }
    requires in_order { IsInOrder (states D.state devices.old) }
    requires meant { RunsAsMeant (program_of accepted.now.core) }
    requires code { image.old.code ≡ lowered (program_of accepted.now.core) (program_starts (program_of accepted.now.core)) }
    requires deep { image.old.depth ≡ manner.depth }
    requires within { lowering_limit (program_of accepted.now.core) (program_starts (program_of accepted.now.core)) ≡ None }
    requires folders { fit_program (program_of accepted.now.core) (map given_folder manner.folders.now) ≡ true }
    ensures { RunsAccepted manner.entry.way (program_of accepted.now.core) (map given_folder manner.entry.folders.now) manner.entry.depth manner.entry.steps (O.state out.old) (O.state out.new) (E.state report.old) (E.state report.new) (states D.state devices.old) (states D.state devices.new) result }
{
    let Ok(authority) = authority_of(alloc, accepted) else {
        return Status::Memory;
    };
    let Ok(summary) = summary_of(alloc, &authority, manner.way) else {
        return Status::Memory;
    };
    match write_report(alloc, &authority, report) {
        Ok(()) => {
            let text = summary.as_bytes();
            run_image(alloc, image, manner, text, &authority, out, devices)
        }
        Err(WriteError::Failed) => Status::Unwritten,
        Err(WriteError::Memory) => Status::Memory,
    }
}

/// Loads the code of an accepted program, prints its report and runs it. It does none of this if a folder is not given for one of the
/// program's grants.
fn run_code<O: Sink, E: Sink, D: Device>(
    alloc: Global,
    accepted: &Accepted,
    code: &Code,
    manner: Manner<'_>,
    out: &mut O,
    report: &mut E,
    devices: &mut Devices<D>,
) -> Status
    requires checked { IsCheckedProgram (program_of accepted.now.core) accepted.now.links }
    requires in_order { IsInOrder (states D.state devices.old) }
    requires meant { RunsAsMeant (program_of accepted.now.core) }
    requires code { code.now ≡ lowered (program_of accepted.now.core) (program_starts (program_of accepted.now.core)) }
    requires within { lowering_limit (program_of accepted.now.core) (program_starts (program_of accepted.now.core)) ≡ None }
    ensures { RunsAccepted manner.entry.way (program_of accepted.now.core) (map given_folder manner.entry.folders.now) manner.entry.depth manner.entry.steps (O.state out.old) (O.state out.new) (E.state report.old) (E.state report.new) (states D.state devices.old) (states D.state devices.new) result }
{
    if !fit_grants(code.grants.as_slice(), manner.folders) {
        return Status::Usage;
    }
    match load(alloc, code, manner.depth) {
        Ok(mut image) => report_and_run(alloc, accepted, &mut image, manner, out, report, devices),
        Err(_) => Status::Memory,
    }
}

/// Lowers an accepted program, loads its code, prints its report row by row, and runs the code.
fn run_accepted<O: Sink, E: Sink, D: Device>(
    alloc: Global,
    accepted: &Accepted,
    manner: Manner<'_>,
    out: &mut O,
    report: &mut E,
    devices: &mut Devices<D>,
) -> Status
    requires checked { IsCheckedProgram (program_of accepted.now.core) accepted.now.links }
    requires in_order { IsInOrder (states D.state devices.old) }
    requires meant { RunsAsMeant (program_of accepted.now.core) }
    ensures { RunsAccepted manner.entry.way (program_of accepted.now.core) (map given_folder manner.entry.folders.now) manner.entry.depth manner.entry.steps (O.state out.old) (O.state out.new) (E.state report.old) (E.state report.new) (states D.state devices.old) (states D.state devices.new) result }
{
    match lower(alloc, &accepted.core, &accepted.links.instances) {
        Ok(code) => run_code(alloc, accepted, &code, manner, out, report, devices),
        Err(LowerRefusal::Limit(name)) => Status::Limit(name),
        Err(LowerRefusal::Memory) => Status::Memory,
    }
}

/// Checks trees. If their program is accepted, prints its report and runs it. It writes to `out` what the manner asks: the line of
/// each event after the event, a line that sums up a run that ended, or what was used of each instance (docs/LANGUAGE.md,
/// "Authority and report", "Events", "How a run ends" and "Observation").
pub fn run_trees<O: Sink, E: Sink, D: Device>(
    alloc: Global,
    trees: &[Tree],
    manner: Manner<'_>,
    out: &mut O,
    report: &mut E,
    devices: &mut Devices<D>,
) -> Status
    requires of_files { AreOfFiles (map file_tree trees.now) }
    requires in_order { IsInOrder (states D.state devices.old) }
    ensures { RunsTrees manner.entry.way (map file_tree trees.now) (map given_folder manner.entry.folders.now) manner.entry.depth manner.entry.steps (O.state out.old) (O.state out.new) (E.state report.old) (E.state report.new) (states D.state devices.old) (states D.state devices.new) result }
{
    accepted_run_as_meant();
    match judge_trees(alloc, trees) {
        Ok(accepted) => run_accepted(alloc, &accepted, manner, out, report, devices),
        Err(end) => end,
    }
}
