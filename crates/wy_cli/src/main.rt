//! The program: the words, files, streams and devices of the machine for the top call.
#![tactic(auto)]

ghost use Rattle.std.specs.Prelude.{◌≡◌, OnOk};
ghost use Rattle.std.specs.Io.KnownBytes.{Appends};
ghost use Rattle.wy_device.specs.Devices.{IsInOrder};
ghost use Rattle.wy_engine.specs.LastLine.{LineWords, last_line};
ghost use Rattle.wy_engine.specs.declared.status.Status.TheVariants as status;
ghost use Rattle.wy_machine.specs.Devices.{states};
ghost use Rattle.wy_device.specs.declared.operation.Kind.{Kind};

use std::alloc::Global;
use std::env;
use std::io::{self, BufReader, Write};
use std::process::ExitCode;
use wy_device::device::Device;
use wy_device::handed::Handed;
use wy_engine::devices::Devices;
use wy_engine::handing_in::devices;
use wy_engine::status::Status;
use wy_engine::top::wyvern;
use wy_host::clock::RealClock;
use wy_host::console::RealConsole;
use wy_host::files::RealFiles;
use wy_host::folder::RealFolder;
use wy_host::grant_folder::GrantFolder;
use wy_host::random::RealRandom;
use wy_host::stream::Stream;
use wy_settings::{SettingsRefusal, settings};

/// The last line if memory ran out before the call (docs/LANGUAGE.md, "Statuses"). The call writes its own.
const NO_MEMORY: &[u8] = b"no memory\n";

/// The words after the program's name; none where one of them is not text. The error is that memory ran out.
fn words(rt: &HostRuntime) -> io::Result<Vec<String>> {
    let mut words = Vec::new(rt.alloc());
    let all = match env::args(rt) {
        Ok(all) => all,
        Err(error) if error.kind() == io::ErrorKind::InvalidData => return Ok(words),
        Err(error) => return Err(error),
    };
    for word in all.skip(1) {
        words.push(word)?;
    }
    Ok(words)
}

/// Hands in four devices, which are of the four kinds in their order.
fn hand_in(
    console: Box<dyn Device>,
    folder: Box<dyn Device>,
    clock: Box<dyn Device>,
    random: Box<dyn Device>,
) -> Devices<Handed>
    requires console { (state console).kind ≡ Kind.Console }
    requires folder { (state folder).kind ≡ Kind.Folder }
    requires clock { (state clock).kind ≡ Kind.Clock }
    requires random { (state random).kind ≡ Kind.Random }
    ensures { IsInOrder (states ⟦<Handed as Device>⟧.state result) }
{
    devices(
        Handed::new(console),
        Handed::new(folder),
        Handed::new(clock),
        Handed::new(random),
    )
}

/// Makes the rest of the outside from the real one, and calls with these words.
fn call(rt: HostRuntime, words: &[String], handed: Devices<Handed>) -> Status
    requires { IsInOrder (states ⟦<Handed as Device>⟧.state handed) }
{
    let mut handed = handed;
    let alloc: Global = rt.alloc();
    let mut out = Stream::new(rt.stdout());
    let mut report = Stream::new(rt.stderr());
    let mut shelf = RealFiles::new(alloc, rt);
    wyvern(alloc, words, &mut shelf, &mut out, &mut report, &mut handed)
}

/// Returns the folders that the words give for grants; none if the words are invalid, since the call then touches no folder. The
/// error is that memory ran out.
fn given_folders(alloc: Global, words: &[String]) -> io::Result<Vec<GrantFolder>> {
    let mut folders = Vec::new(alloc);
    match settings(alloc, words) {
        Ok(settings) => {
            for folder in settings.folders {
                folders.push(GrantFolder {
                    grant: folder.grant,
                    path: folder.path,
                })?;
            }
            Ok(folders)
        }
        Err(SettingsRefusal::Usage) => Ok(folders),
        Err(SettingsRefusal::Memory) => Err(io::ErrorKind::OutOfMemory.into()),
    }
}

/// Makes the folders of the machine. A grant's folder is the one that the words give, or else the one of the grant's name in the
/// working folder. The error is that memory ran out.
fn folders(rt: &HostRuntime, words: &[String]) -> io::Result<RealFolder<HostRuntime>> {
    let alloc: Global = rt.alloc();
    let base = String::from_str(alloc, ".")?;
    let given = given_folders(alloc, words)?;
    Ok(RealFolder::new(alloc, rt.clone()?, base, given))
}

/// Makes the devices of the machine, and calls with them and these words. The error is that memory ran out before the call.
fn call_with_devices(rt: HostRuntime, words: &[String]) -> io::Result<Status> {
    let alloc: Global = rt.alloc();
    // (boxed first: behind others the prover does not find its kind)
    let clock: Box<dyn Device> = Box::new(alloc, RealClock::new(rt.clone()?))?;
    let input = BufReader::new(alloc, rt.stdin())?;
    let console = RealConsole::new(alloc, input, rt.stdout())?;
    let console: Box<dyn Device> = Box::new(alloc, console)?;
    let folder: Box<dyn Device> = Box::new(alloc, folders(&rt, words)?)?;
    let random: Box<dyn Device> = Box::new(alloc, RealRandom::new(rt.clone()?))?;
    let handed = hand_in(console, folder, clock, random);
    Ok(call(rt, words, handed))
}

/// Reads the words, and calls with them. The error is that memory ran out before the call.
fn run(rt: HostRuntime) -> io::Result<Status> {
    let words = words(&rt)?;
    call_with_devices(rt, words.as_slice())
}

/// Writes the last line of Memory. It takes no memory.
fn write_no_memory<W: Write>(report: &mut W) -> io::Result<()>
    ensures { (words : LineWords) → OnOk result (Appends (W.contents report.old) (W.contents report.new) (last_line words status.Memory)) }
{
    report.write_all(NO_MEMORY)
}

fn main(rt: HostRuntime) -> ExitCode {
    let mut report = rt.stderr();
    let status = match run(rt) {
        Ok(status) => status,
        Err(_) => {
            // (if the line is not written, the status stays the same)
            let _written = write_no_memory(&mut report);
            Status::Memory
        }
    };
    ExitCode::from(status.number())
}
