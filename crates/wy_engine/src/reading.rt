ghost use Rattle.std.specs.Prelude.{ℕ, ◌≡◌, ◌≤◌, length, map, string_bytes, Err, IfOk};
ghost use Rattle.wy_engine.specs.Reading.{ReadsWell, StopsAfter, StopsAt, bytes_at};
ghost use Rattle.wy_engine.specs.Texts.{first_bytes};

use std::alloc::Global;
use wy_settings::Command;
use wy_text::list::Items;
use wy_text::shelf::{ReadError, Shelf};
use wy_text::text::{Text, from_vec};

/// How many bytes are asked for of a text or a policy: one more than it may have.
const ASKED_BYTES: usize = 1_048_577;

/// How many bytes are asked for of a certificate: one more than it may have.
const ASKED_OF_CERTIFICATE: usize = 67_108_865;

/// Why not all files were read: the one of this number, which counts from 1, could not be read, or memory ran out.
#[derive(Drop)]
pub enum Stop {
    Unread(u16),
    Memory,
}

/// Returns how many bytes are asked for of a command's first file.
fn first_bytes(command: Command) -> usize
    ensures { result ≡ first_bytes command }
{
    match command {
        Command::Recheck => ASKED_OF_CERTIFICATE,
        Command::Check
        | Command::Authority
        | Command::Run
        | Command::Trace
        | Command::Sample
        | Command::Format
        | Command::Policy
        | Command::Observe
        | Command::Certify => ASKED_BYTES,
    }
}

/// Returns how many bytes are asked for of the file at a place, which counts from 0.
fn bytes_at(command: Command, place: usize) -> usize
    ensures { result ≡ bytes_at (first_bytes command) place }
{
    if place == 0 {
        first_bytes(command)
    } else {
        ASKED_BYTES
    }
}

/// Reads the files of a command in the order of their names, each once. It stops at the first that cannot be read.
///
/// # Errors
///
/// `Unread` with the number of a file that could not be read, and `Memory` if memory ran out.
pub fn read_all<S: Shelf>(
    alloc: Global,
    shelf: &mut S,
    command: Command,
    names: &[String],
) -> Result<Items<Text>, Stop>
    requires { length names.now ≤ 64 }
    ensures all { IfOk result (ReadsWell (first_bytes command) (map string_bytes names.now) (length names.now) (S.state shelf.old) (S.state shelf.new)) }
    ensures unread { (file : ℕ) → result ≡ Err (Stop.Unread file) → StopsAt (map string_bytes names.now) file (S.state shelf.old) (S.state shelf.new) }
    ensures starved { result ≡ Err Stop.Memory → StopsAfter (map string_bytes names.now) (S.state shelf.old) (S.state shelf.new) }
{
    let mut texts = Items::new(alloc);
    let mut well = 0;
    while well < names.len() {
        match shelf.read(names[well].as_str(), bytes_at(command, well)) {
            Ok(bytes) => {
                if texts.push(from_vec(bytes)).is_err() {
                    return Err(Stop::Memory);
                }
            }
            Err(ReadError::Failed) => return Err(Stop::Unread(well as u16 + 1)),
            Err(ReadError::Memory) => return Err(Stop::Memory),
        }
        well += 1;
    }
    Ok(texts)
}
