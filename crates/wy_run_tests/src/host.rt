//! What the machine's files, streams and devices do, tried on a real one.

mod folders;
mod numbers;

use crate::asking::{gives, write};
use std::alloc::{AllocError, Global};
use std::test::Fail;
use std::{env, fs};
use wy_device::device::Device;
use wy_device::operation::LONGEST_LINE;
use wy_host::console::RealConsole;
use wy_host::files::RealFiles;
use wy_host::stream::Stream;
use wy_text::shelf::{ReadError, Shelf};
use wy_text::sink::{Sink, WriteError};
use wy_text::text::Memory;

/// Whether a file with this name is read up to a size, and one that is not there is not.
fn are_read(files: &mut RealFiles<HostRuntime>, name: &str) -> Result<bool, ReadError> {
    Ok(
        files.read(name, 100)?.as_slice() == b"program\n".as_slice()
            && files.read(name, 3)?.as_slice() == b"pro".as_slice()
            && matches!(files.read("no/such/file", 3), Err(ReadError::Failed)),
    )
}

#[test]
fn files_are_read_by_full_path_up_to_a_size(rt: HostRuntime) -> Result<(), Fail> {
    let mut path = env::temp_dir(&rt)?;
    path.push("wyvern_reads_this.wy")?;
    fs::write(&rt, path.as_path(), "program\n")?;
    let name = path.as_path().to_str().ok_or("a name")?;
    let mut files = RealFiles::new(rt.alloc(), rt.clone()?);
    assert!(rt; are_read(&mut files, name)?);
    fs::remove_file(&rt, path.as_path())?;
    Ok(())
}

/// Whether a stream with room for four bytes takes so many of three calls' bytes.
fn is_filled<S: Sink>(stream: &mut S) -> Result<bool, WriteError> {
    Ok(stream.write(b"abc")? == 3 && stream.write(b"de")? == 1 && stream.write(b"e")? == 0)
}

#[test]
fn a_stream_takes_bytes_until_it_is_full(rt: HostRuntime) -> Result<(), Fail> {
    let mut room = [0u8; 4];
    let mut stream = Stream::new(room.as_mut_slice());
    assert!(rt; is_filled(&mut stream)?);
    Ok(())
}

/// Whether it gives the lines of its input, and takes a text.
fn is_read<D: Device>(alloc: Global, console: &mut D) -> Result<bool, Memory> {
    Ok(
        gives(alloc, console, &[b"one\n", b"two", b""])?
            && write(alloc, console, b"text")?.as_bytes() == b"done".as_slice(),
    )
}

#[test]
fn a_console_reads_lines_and_writes_texts(rt: HostRuntime) -> Result<(), Fail> {
    let alloc = rt.alloc();
    let mut console = RealConsole::new(alloc, b"one\ntwo".as_slice(), Vec::new(alloc))?;
    assert!(rt; is_read(alloc, &mut console)?);
    Ok(())
}

/// Returns a line of `x` with a newline, one byte longer than a piece, and a line of three bytes behind it.
fn long_input(alloc: Global) -> Result<Vec<u8>, AllocError> {
    let mut input = vec![in alloc; b'x'; LONGEST_LINE]?;
    input.extend_from_slice(b"\nyz\n")?;
    Ok(input)
}

/// Whether a long line comes in two pieces, and the next line behind it.
fn is_cut<D: Device>(alloc: Global, console: &mut D) -> Result<bool, Memory> {
    let piece = vec![in alloc; b'x'; LONGEST_LINE]?;
    gives(alloc, console, &[piece.as_slice(), b"\n", b"yz\n", b""])
}

#[test]
fn a_console_cuts_a_long_line_into_pieces(rt: HostRuntime) -> Result<(), Fail> {
    let alloc = rt.alloc();
    let input = long_input(alloc)?;
    let mut console = RealConsole::new(alloc, input.as_slice(), Vec::new(alloc))?;
    assert!(rt; is_cut(alloc, &mut console)?);
    Ok(())
}
