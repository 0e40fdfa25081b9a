ghost use Rattle.std.specs.Prelude.{◌≡◌, IfOk};
ghost use Rattle.wy_device.specs.Devices.{IsInOrder};
ghost use Rattle.wy_machine.specs.Devices.{states};

use std::alloc::{AllocError, Global};
use std::test::Fail;
use wy_device::device::Device;
use wy_device::handed::Handed;
use wy_device::operation::Kind;
use wy_device::shut::Shut;
use wy_engine::handing_in::devices;
use wy_engine::status::Status;
use wy_engine::top::wyvern;
use wy_machine::devices::Devices;
use wy_memory::{MemConsole, MemShelf, MemSink};
use wy_text::list::{CallList, Items};
use wy_text::shelf::{FileList, NamedText};
use wy_text::sink::Sink;
use wy_text::text::{Memory, from_bytes};

/// A console in memory that fails at the listed calls.
fn console_with(alloc: Global, fails: CallList) -> Result<Handed, Fail>
    ensures { IfOk result (λ device. (⟦<Handed as Device>⟧.state device).kind ≡ Kind.Console) }
{
    let console = MemConsole::new(alloc, from_bytes(alloc, b"")?, fails)?;
    let console: Box<dyn Device> = Box::new(alloc, console)?;
    Ok(Handed::new(console))
}

/// A shut device.
fn shut(alloc: Global, kind: Kind) -> Result<Handed, Fail>
    ensures { IfOk result (λ device. (⟦<Handed as Device>⟧.state device).kind ≡ kind) }
{
    let device: Box<dyn Device> = Box::new(alloc, Shut::new(kind))?;
    Ok(Handed::new(device))
}

/// The four devices of a test: a console in memory that fails at the listed calls, and three that are shut.
fn devices_with(alloc: Global, fails: CallList) -> Result<Devices<Handed>, Fail>
    ensures { IfOk result (λ all. IsInOrder (states (⟦<Handed as Device>⟧.state) all)) }
{
    Ok(devices(
        console_with(alloc, fails)?,
        shut(alloc, Kind::Folder)?,
        shut(alloc, Kind::Clock)?,
        shut(alloc, Kind::Random)?,
    ))
}

/// A file of a shelf.
pub fn file(alloc: Global, name: &str, text: &[u8]) -> Result<NamedText, Memory> {
    let name = from_bytes(alloc, name.as_bytes())?;
    Ok(NamedText {
        name,
        text: from_bytes(alloc, text)?,
    })
}

/// The files of a shelf.
fn listed(alloc: Global, files: &[(&str, &[u8])]) -> Result<FileList, Memory> {
    let mut list = Items::new(alloc);
    for (name, text) in files {
        list.push(file(alloc, name, text)?)?;
    }
    Ok(list)
}

/// What a test fails with whose row is not as it should be: the number of the row, counted from 0.
pub fn wrong_row(at: usize) -> Fail {
    Fail::new(format_args!("row {at}"))
}

/// These words as strings.
pub fn strings(alloc: Global, words: &[&str]) -> Result<Vec<String>, AllocError> {
    let mut strings = Vec::new(alloc);
    for word in words {
        strings.push(String::from_str(alloc, word)?)?;
    }
    Ok(strings)
}

/// The list of one call that is to fail.
pub fn failing_at(alloc: Global, call: u64) -> Result<Items<u64>, Memory> {
    let mut fails = Items::new(alloc);
    fails.push(call)?;
    Ok(fails)
}

/// Calls with these words, and a shelf that has these files.
pub fn call_with<O: Sink, E: Sink, D: Device>(
    alloc: Global,
    words: &[&str],
    files: &[(&str, &[u8])],
    out: &mut O,
    report: &mut E,
    devices: &mut Devices<D>,
) -> Result<Status, Fail>
    requires { IsInOrder (states D.state devices.old) }
{
    let mut shelf = MemShelf::new(alloc, listed(alloc, files)?, Items::new(alloc))?;
    let words = strings(alloc, words)?;
    Ok(wyvern(alloc, words.as_slice(), &mut shelf, out, report, devices))
}

/// How a call ended: its status's number, and how many operations the console was asked for.
#[derive(Clone, Copy)]
pub struct Ended {
    pub number: u8,
    pub deeds: usize,
}

/// Calls with these words and files over these sinks, a console in memory that fails at the listed calls, and other
/// devices that are shut.
pub fn end_of<O: Sink, E: Sink>(
    alloc: Global,
    words: &[&str],
    files: &[(&str, &[u8])],
    out: &mut O,
    report: &mut E,
    fails: CallList,
) -> Result<Ended, Fail> {
    let mut all = devices_with(alloc, fails)?;
    let number = call_with(alloc, words, files, out, report, &mut all)?.number();
    let deeds = all.deeds(Kind::Console).ok_or("told")?.len();
    Ok(Ended { number, deeds })
}

/// What came of a call: its status's number, how many operations the console was asked for, and what was written
/// to `out` and `report`.
#[derive(Drop)]
pub struct Outcome {
    pub number: u8,
    pub deeds: usize,
    pub out: MemSink,
    pub report: MemSink,
}

impl Outcome {
    /// Whether the status has the number, this was written to `out` and the report, and the console was asked for nothing.
    pub fn says(&self, number: u8, out: &str, report: &str) -> bool {
        self.number == number
            && self.deeds == 0
            && self.out.bytes() == out.as_bytes()
            && self.report.bytes() == report.as_bytes()
    }
}

/// Calls with these words and files, a console in memory, and other devices that are shut.
pub fn outcome_of(alloc: Global, words: &[&str], files: &[(&str, &[u8])]) -> Result<Outcome, Fail> {
    let mut out = MemSink::new(alloc, Items::new(alloc))?;
    let mut report = MemSink::new(alloc, Items::new(alloc))?;
    let fails = Items::new(alloc);
    let Ended { number, deeds } = end_of(alloc, words, files, &mut out, &mut report, fails)?;
    Ok(Outcome {
        number,
        deeds,
        out,
        report,
    })
}

/// Whether a call of the command with the text as `b.wy` ends with the status of the number, writes this to `out` and
/// the report, and does nothing.
pub fn judged_so(
    alloc: Global,
    command: &str,
    text: &str,
    number: u8,
    out: &str,
    report: &str,
) -> Result<bool, Fail> {
    let done = outcome_of(alloc, &[command, "b.wy"], &[("b.wy", text.as_bytes())])?;
    Ok(done.says(number, out, report))
}
