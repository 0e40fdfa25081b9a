use super::{are_told, failing_at};
use crate::asking::{gives, read, write};
use std::alloc::Global;
use std::test::Fail;
use wy_device::device::Device;
use wy_device::operation::LONGEST_LINE;
use wy_memory::MemConsole;
use wy_text::text::{Memory, Text, from_bytes, from_vec};

/// So many bytes, and two lines behind them.
fn long_line(alloc: Global, size: usize) -> Result<Text, Memory> {
    from_vec(vec![in alloc; b'x'; size]?).joined(&from_bytes(alloc, b"y\nz")?)
}

/// A console with a line that is too long for one piece, which fails at the second call.
fn console(alloc: Global) -> Result<MemConsole, Memory> {
    let input = long_line(alloc, LONGEST_LINE)?;
    MemConsole::new(alloc, input, failing_at(alloc, 2)?)
}

/// Whether it gives its lines in pieces, and then takes a text.
fn is_read(alloc: Global, console: &mut MemConsole) -> Result<bool, Memory> {
    Ok(
        read(alloc, console)?.as_bytes().len() == LONGEST_LINE
            && gives(alloc, console, &[b"failed", b"y\n", b"z", b"", b""])?
            && write(alloc, console, b"w")?.as_bytes() == b"done".as_slice()
            && are_told(console.deeds(), 7, 1),
    )
}

#[test]
fn a_console_gives_lines_in_pieces(rt: HostRuntime) -> Result<(), Fail> {
    let mut console = console(rt.alloc())?;
    assert!(rt; is_read(rt.alloc(), &mut console)?);
    Ok(())
}
