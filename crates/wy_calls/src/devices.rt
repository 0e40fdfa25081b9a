//! Calls over a console, a folder, a clock and a random source in memory, with what each of them did.

ghost use Rattle.std.specs.Prelude.{◌≡◌, IfOk};
ghost use Rattle.wy_device.specs.Devices.{IsInOrder};
ghost use Rattle.wy_machine.specs.Devices.{states};

use crate::support::{call_with, file, strings, wrong_row};
use std::alloc::Global;
use std::test::Fail;
use wy_device::deed::{Deed, DeedList, Event};
use wy_device::device::Device;
use wy_device::handed::Handed;
use wy_device::operation::{Answer, Kind, Op};
use wy_engine::handing_in::devices;
use wy_engine::top::wyvern;
use wy_machine::devices::Devices;
use wy_meaning::event_line;
use wy_memory::{
    FolderFile, FolderList, MemClock, MemConsole, MemFolder, MemRandom, MemShelf, MemSink,
    NumberList,
};
use wy_text::list::{CallList, Items};
use wy_text::shelf::FileList;
use wy_text::sink::Sink;
use wy_text::text::{Memory, from_bytes};

/// What a call that fails is made on.
#[derive(Clone, Copy, PartialEq, Eq)]
pub enum Part {
    Shelf,
    Out,
    Report,
    Console,
    Folder,
    Clock,
    Random,
}

/// A file of a folder: the grant whose folder it is in, its name and its text.
pub type Kept = (&'static str, &'static str, &'static str);

/// The words and files of a call and what its devices have, and what comes of it: the number of its status, what is written to `out`, the report with
/// its last line, and of each device the lines of its deeds. `before` and `after` are files of the folder; `failing` is the
/// one call that fails, counted from 1 for each part.
#[derive(Clone, Copy)]
pub struct Row {
    pub words: &'static [&'static str],
    pub files: &'static [(&'static str, &'static str)],
    pub before: &'static [Kept],
    pub input: &'static str,
    pub time: i64,
    pub numbers: &'static [i64],
    pub failing: Option<(Part, u64)>,
    pub number: u8,
    pub out: &'static str,
    pub report: &'static str,
    pub last: &'static str,
    pub console: &'static str,
    pub folder: &'static str,
    pub clock: &'static str,
    pub random: &'static str,
    pub after: &'static [Kept],
}

/// A row with nothing in it, from which the others differ.
pub const BLANK: Row = Row {
    words: &[],
    files: &[],
    before: &[],
    input: "",
    time: 0,
    numbers: &[],
    failing: None,
    number: 0,
    out: "",
    report: "",
    last: "",
    console: "",
    folder: "",
    clock: "",
    random: "",
    after: &[],
};

/// A row of which nothing comes.
static NOTHING: Row = BLANK;

/// The calls of the part that are to fail.
fn fails_of(alloc: Global, row: &Row, part: Part) -> Result<CallList, Memory> {
    let mut fails = Items::new(alloc);
    match row.failing {
        Some((failing, call)) if failing == part => fails.push(call)?,
        _ => (),
    }
    Ok(fails)
}

/// The files of a row's shelf.
fn texts_of(alloc: Global, row: &Row) -> Result<FileList, Memory> {
    let mut list = Items::new(alloc);
    for (name, text) in row.files {
        list.push(file(alloc, name, text.as_bytes())?)?;
    }
    Ok(list)
}

/// The console of a row.
fn console_of(alloc: Global, row: &Row) -> Result<Handed, Fail>
    ensures { IfOk result (λ device. (⟦<Handed as Device>⟧.state device).kind ≡ Kind.Console) }
{
    let input = from_bytes(alloc, row.input.as_bytes())?;
    let console = MemConsole::new(alloc, input, fails_of(alloc, row, Part::Console)?)?;
    let console: Box<dyn Device> = Box::new(alloc, console)?;
    Ok(Handed::new(console))
}

/// A file of a folder.
fn file_of(alloc: Global, kept: &Kept) -> Result<FolderFile, Memory> {
    let (grant, name, text) = kept;
    let grant = from_bytes(alloc, grant.as_bytes())?;
    let name = from_bytes(alloc, name.as_bytes())?;
    Ok(FolderFile {
        grant,
        name,
        text: from_bytes(alloc, text.as_bytes())?,
    })
}

/// The files of a row's folder, before the call.
fn files_of(alloc: Global, row: &Row) -> Result<FolderList, Memory> {
    let mut list = Items::new(alloc);
    for kept in row.before {
        list.push(file_of(alloc, kept)?)?;
    }
    Ok(list)
}

/// The folder of a row, before the call, with these files.
fn folder_of(alloc: Global, row: &Row, files: FolderList) -> Result<Handed, Fail>
    ensures { IfOk result (λ device. (⟦<Handed as Device>⟧.state device).kind ≡ Kind.Folder) }
{
    let folder = MemFolder::new(alloc, files, fails_of(alloc, row, Part::Folder)?)?;
    let folder: Box<dyn Device> = Box::new(alloc, folder)?;
    Ok(Handed::new(folder))
}

/// The clock of a row.
fn clock_of(alloc: Global, row: &Row) -> Result<Handed, Fail>
    ensures { IfOk result (λ device. (⟦<Handed as Device>⟧.state device).kind ≡ Kind.Clock) }
{
    let clock = MemClock::new(alloc, row.time, fails_of(alloc, row, Part::Clock)?)?;
    let clock: Box<dyn Device> = Box::new(alloc, clock)?;
    Ok(Handed::new(clock))
}

/// The numbers of a row's random source.
fn numbers_of(alloc: Global, row: &Row) -> Result<NumberList, Memory> {
    let mut list = Items::new(alloc);
    for number in row.numbers {
        list.push(*number)?;
    }
    Ok(list)
}

/// The random source of a row.
fn random_of(alloc: Global, row: &Row) -> Result<Handed, Fail>
    ensures { IfOk result (λ device. (⟦<Handed as Device>⟧.state device).kind ≡ Kind.Random) }
{
    let numbers = numbers_of(alloc, row)?;
    let random = MemRandom::new(alloc, numbers, fails_of(alloc, row, Part::Random)?)?;
    let random: Box<dyn Device> = Box::new(alloc, random)?;
    Ok(Handed::new(random))
}

/// The four devices of a row, the folder with these files.
fn devices_over(alloc: Global, row: &Row, files: FolderList) -> Result<Devices<Handed>, Fail>
    ensures { IfOk result (λ all. IsInOrder (states (⟦<Handed as Device>⟧.state) all)) }
{
    Ok(devices(
        console_of(alloc, row)?,
        folder_of(alloc, row, files)?,
        clock_of(alloc, row)?,
        random_of(alloc, row)?,
    ))
}

/// The four devices of a row.
fn devices_of(alloc: Global, row: &Row) -> Result<Devices<Handed>, Fail>
    ensures { IfOk result (λ all. IsInOrder (states (⟦<Handed as Device>⟧.state) all)) }
{
    devices_over(alloc, row, files_of(alloc, row)?)
}

fn copied(deed: &Deed) -> Result<Deed, Memory> {
    match &deed.answer {
        Some(answer) => Deed::done(&deed.grant, &deed.op, answer),
        None => Deed::failed(&deed.grant, &deed.op),
    }
}

/// The lines of these deeds.
fn lines_of(alloc: Global, deeds: Option<&DeedList>) -> Result<Vec<u8>, Fail> {
    let deeds = deeds.ok_or("told")?;
    let mut lines: Vec<u8> = Vec::new(alloc);
    for deed in deeds.as_slice() {
        let line = event_line(alloc, &Event::Deed(copied(deed)?))?;
        lines.extend_from_slice(line.as_bytes())?;
    }
    Ok(lines)
}

/// Whether the lines of these deeds are the text.
fn are_told(alloc: Global, deeds: Option<&DeedList>, text: &str) -> Result<bool, Fail> {
    let lines = lines_of(alloc, deeds)?;
    Ok(lines.as_slice() == text.as_bytes())
}

/// Whether the lines of these deeds are the first of the text.
fn are_first(alloc: Global, deeds: Option<&DeedList>, text: &str) -> Result<bool, Fail> {
    let lines = lines_of(alloc, deeds)?;
    Ok(text.as_bytes().starts_with(lines.as_slice()))
}

/// Whether the devices did what the row says.
fn did_so<D: Device>(alloc: Global, row: &Row, devices: &Devices<D>) -> Result<bool, Fail> {
    Ok(
        are_told(alloc, devices.deeds(Kind::Console), row.console)?
            && are_told(alloc, devices.deeds(Kind::Folder), row.folder)?
            && are_told(alloc, devices.deeds(Kind::Clock), row.clock)?
            && are_told(alloc, devices.deeds(Kind::Random), row.random)?,
    )
}

/// Whether the devices did the first of what the row says.
fn began_so<D: Device>(alloc: Global, row: &Row, devices: &Devices<D>) -> Result<bool, Fail> {
    Ok(
        are_first(alloc, devices.deeds(Kind::Console), row.console)?
            && are_first(alloc, devices.deeds(Kind::Folder), row.folder)?
            && are_first(alloc, devices.deeds(Kind::Clock), row.clock)?
            && are_first(alloc, devices.deeds(Kind::Random), row.random)?,
    )
}

/// Whether the bytes are the row's report and its last line.
fn is_printed(alloc: Global, row: &Row, bytes: &[u8]) -> Result<bool, Fail> {
    let mut text = String::from_str(alloc, row.report)?;
    text.push_str(row.last)?;
    Ok(bytes == text.as_bytes())
}

/// The number of the status of the row's call over these sinks and devices.
fn number_of<O: Sink, E: Sink, D: Device>(
    alloc: Global,
    row: &Row,
    out: &mut O,
    report: &mut E,
    devices: &mut Devices<D>,
) -> Result<u8, Fail>
    requires { IsInOrder (states D.state devices.old) }
{
    let fails = fails_of(alloc, row, Part::Shelf)?;
    let mut shelf = MemShelf::new(alloc, texts_of(alloc, row)?, fails)?;
    let words = strings(alloc, row.words)?;
    let status = wyvern(alloc, words.as_slice(), &mut shelf, out, report, devices);
    Ok(status.number())
}

/// Whether the call of the row over these devices has its status and report, and writes to `out` what the row says.
fn ends_so<D: Device>(alloc: Global, row: &Row, devices: &mut Devices<D>) -> Result<bool, Fail>
    requires { IsInOrder (states D.state devices.old) }
{
    let mut out = MemSink::new(alloc, fails_of(alloc, row, Part::Out)?)?;
    let mut report = MemSink::new(alloc, fails_of(alloc, row, Part::Report)?)?;
    let number = number_of(alloc, row, &mut out, &mut report, devices)?;
    Ok(
        number == row.number
            && out.bytes() == row.out.as_bytes()
            && is_printed(alloc, row, report.bytes())?,
    )
}

/// Whether the folder gives the text of a file.
fn gives<D: Device>(alloc: Global, folder: &mut D, kept: &Kept) -> Result<bool, Fail> {
    let (grant, name, text) = kept;
    let grant = from_bytes(alloc, grant.as_bytes())?;
    let op = Op::FolderRead(from_bytes(alloc, name.as_bytes())?);
    if folder.kind() != Kind::Folder {
        return Ok(false);
    }
    match folder.perform(&grant, &op) {
        Ok(Answer::Bytes(read)) => Ok(read.as_bytes() == text.as_bytes()),
        _ => Ok(false),
    }
}

/// Whether the folder gives the texts of these files.
fn holds<D: Device>(alloc: Global, folder: &mut D, files: &[Kept]) -> Result<bool, Fail> {
    for kept in files {
        if !gives(alloc, folder, kept)? {
            return Ok(false);
        }
    }
    Ok(true)
}

/// Whether the call of the row over these devices ends as it says, with its deeds, and leaves its files in the folder.
fn comes_over<D: Device>(alloc: Global, row: &Row, devices: Devices<D>) -> Result<bool, Fail>
    requires { IsInOrder (states D.state devices) }
{
    let mut devices = devices;
    if !ends_so(alloc, row, &mut devices)? || !did_so(alloc, row, &devices)? {
        return Ok(false);
    }
    let (_console, mut folder, _clock, _random) = devices.parts();
    holds(alloc, &mut folder, row.after)
}

/// Whether what the row says comes of its call.
fn comes_so(alloc: Global, row: &Row) -> Result<bool, Fail> {
    comes_over(alloc, row, devices_of(alloc, row)?)
}

/// Whether the row's call over a folder with these files ends as the row says, after so many operations of the folder.
pub fn ends_over(
    alloc: Global,
    row: &Row,
    files: FolderList,
    operations: usize,
) -> Result<bool, Fail> {
    let mut devices = devices_over(alloc, row, files)?;
    let ends = ends_so(alloc, row, &mut devices)?;
    Ok(ends && devices.deeds(Kind::Folder).ok_or("told")?.len() == operations)
}

/// Fails with the number of the first row of which something else comes.
pub fn all_come_so(alloc: Global, rows: &[Row]) -> Result<(), Fail> {
    for (at, row) in rows.iter().enumerate() {
        if !comes_so(alloc, row)? {
            return Err(wrong_row(at));
        }
    }
    Ok(())
}

/// Whether the row's call over these devices has its status, and did and wrote the first of what the row says.
fn stops_over<D: Device>(alloc: Global, row: &Row, devices: &mut Devices<D>) -> Result<bool, Fail>
    requires { IsInOrder (states D.state devices.old) }
{
    let mut out = MemSink::new(alloc, fails_of(alloc, row, Part::Out)?)?;
    let mut report = MemSink::new(alloc, fails_of(alloc, row, Part::Report)?)?;
    let number = number_of(alloc, row, &mut out, &mut report, devices)?;
    Ok(
        number == row.number
            && row.out.as_bytes().starts_with(out.bytes())
            && began_so(alloc, row, devices)?,
    )
}

/// Whether the row's call has its status, and did and wrote the first of what the row says.
pub fn stops_so(alloc: Global, row: &Row) -> Result<bool, Fail> {
    let mut all = devices_of(alloc, row)?;
    stops_over(alloc, row, &mut all)
}

/// Whether the call of the row's words with these files ends well over these devices, or is refused and does nothing.
fn is_quiet_over<D: Device>(
    alloc: Global,
    row: &Row,
    files: &[(&str, &[u8])],
    devices: &mut Devices<D>,
) -> Result<bool, Fail>
    requires { IsInOrder (states D.state devices.old) }
{
    let mut out = MemSink::new(alloc, Items::new(alloc))?;
    let mut report = MemSink::new(alloc, Items::new(alloc))?;
    let status = call_with(alloc, row.words, files, &mut out, &mut report, devices)?;
    match status.number() {
        0 => Ok(true),
        3 | 4 => did_so(alloc, &NOTHING, devices),
        _ => Ok(false),
    }
}

/// Whether the call of the row's words with these files ends well, or is refused and does nothing.
pub fn is_quiet(alloc: Global, row: &Row, files: &[(&str, &[u8])]) -> Result<bool, Fail> {
    let mut all = devices_of(alloc, row)?;
    is_quiet_over(alloc, row, files, &mut all)
}
