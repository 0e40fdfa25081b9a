ghost use Rattle.std.specs.Prelude.{◌≡◌, ◌≤◌, ◌<◌, ◌+◌, ◌^◌, length};
ghost use Rattle.wy_layout.specs.Lines as spec;

use wy_text::fault::Place;

/// A line of a file: the file's number, the line's own number, counted from 1, and the offset where it begins.
#[derive(Clone, Copy)]
pub struct Row {
    pub file: u16,
    pub number: u32,
    pub start: usize,
}

/// The first line of a file.
pub fn first_row(file: u16) -> Row
    ensures { result ≡ spec.first_row file }
{
    Row {
        file,
        number: 1,
        start: 0,
    }
}

/// The line behind a line, where it begins at an offset.
pub fn next_row(row: Row, start: usize) -> Row
    requires { row.number < 2 ^ 31 }
    ensures { result ≡ spec.next_row row start }
{
    Row {
        file: row.file,
        number: row.number + 1,
        start,
    }
}

/// The place of an offset in a line.
pub fn spot(row: Row, offset: usize) -> Place
    requires after { row.start ≤ offset }
    requires small { offset < 2 ^ 31 }
    ensures { result ≡ spec.spot row offset }
{
    Place {
        file: row.file,
        line: row.number,
        column: (offset - row.start) as u32 + 1,
    }
}

/// The place of an offset in a file.
pub fn place_at(file: u16, bytes: &[u8], offset: usize) -> Place
    requires within { offset ≤ length bytes.now }
    requires small { length bytes.now < 2 ^ 31 }
    ensures { result ≡ spec.place_at file bytes.now offset }
{
    let mut row = first_row(file);
    let mut at = 0;
    let mut rest = &bytes[..offset];
    while let [byte, more @ ..] = rest {
        at += 1;
        if *byte == b'\n' {
            row = next_row(row, at);
        }
        rest = more;
    }
    spot(row, offset)
}
