ghost use Rattle.std.specs.Prelude.{Some};
ghost use Rattle.wy_text.specs.Outside.{SinkState};

use std::alloc::Global;
use std::test::Fail;
use wy_memory::{MemShelf, MemSink};
use wy_text::fault::RuleName;
use wy_text::limit::LimitName;
use wy_text::list::{CallList, Items};
use wy_text::shelf::{FileList, NamedText, ReadError, Shelf};
use wy_text::sink::{Sink, WriteError};
use wy_text::text::{Memory, from_bytes, from_vec};
use wy_text::writing::write_all;

/// A sink that takes three bytes at a time, and no more than so many in all.
#[derive(Drop)]
struct Trickle {
    taken: Vec<u8>,
    room: usize,
    calls: u32,
    faults: u64,
}

impl Sink for Trickle {
    ghost state = { λ s. record { taken = Some s.taken.items; faults = s.faults } };

    fn write(&mut self, bytes: &[u8]) -> Result<usize, WriteError> {
        self.calls = self.calls.saturating_add(1);
        let size = bytes.len().min(3).min(self.room);
        if size == 0 {
            self.faults = self.faults.saturating_add(1);
            return Ok(0);
        }
        match self.taken.extend_from_slice(&bytes[..size]) {
            Ok(()) => {
                self.room -= size;
                Ok(size)
            }
            Err(_) => Err(WriteError::Memory),
        }
    }
}

/// Whether a text's copy, and the text in quotes, are what they should be.
fn is_quoted(alloc: Global, bytes: &[u8], quoted: &[u8]) -> Result<bool, Memory> {
    let text = from_bytes(alloc, bytes)?;
    Ok(text.copy()?.as_bytes() == bytes && text.quoted()?.as_bytes() == quoted)
}

/// Whether two texts are joined to this one.
fn are_joined(alloc: Global, left: &[u8], right: &[u8], both: &[u8]) -> Result<bool, Memory> {
    let left = from_vec(Vec::from_slice(alloc, left)?);
    let right = from_bytes(alloc, right)?;
    Ok(left.joined(&right)?.as_bytes() == both)
}

#[test]
fn texts_are_their_bytes(rt: HostRuntime) -> Result<(), Fail> {
    let alloc = rt.alloc();
    let bytes = b"a\"\\\n\t\x00\x1f ~\x7f\xff";
    let quoted = b"\"a\\\"\\\\\\n\\t\\x00\\x1f ~\\x7f\\xff\"";
    assert!(rt; is_quoted(alloc, bytes, quoted)?);
    assert!(rt; are_joined(alloc, b"ab", b"cd", b"abcd")?);
    Ok(())
}

#[test]
fn rules_and_limits_have_their_names(rt: HostRuntime) -> Result<(), Fail> {
    assert_eq!(rt; RuleName::TBody.text(), "T-Body");
    assert_eq!(rt; LimitName::FileBytes.name(), "file bytes");
    assert_eq!(rt; LimitName::FileBytes.number(), 1_048_576);
    Ok(())
}

/// The list of these numbers.
fn listed(alloc: Global, numbers: &[u64]) -> Result<CallList, Memory> {
    let mut list = Items::new(alloc);
    for number in numbers {
        list.push(*number)?;
    }
    Ok(list)
}

/// Whether the list is that of 3 and 5.
fn is_three_and_five(list: &CallList) -> bool {
    list.len() == 2
        && list.as_slice() == [3, 5].as_slice()
        && list.get(1) == Some(&5)
        && list.get(2).is_none()
        && list.contains(5)
        && !list.contains(4)
}

#[test]
fn a_list_grows_at_its_end(rt: HostRuntime) -> Result<(), Fail> {
    let alloc = rt.alloc();
    assert!(rt; listed(alloc, &[])?.is_empty());
    assert!(rt; is_three_and_five(&listed(alloc, &[3, 5])?));
    Ok(())
}

/// The files of a shelf: one with this name and text.
fn files(alloc: Global, name: &[u8], text: &[u8]) -> Result<FileList, Memory> {
    let name = from_bytes(alloc, name)?;
    let text = from_bytes(alloc, text)?;
    let mut files = Items::new(alloc);
    files.push(NamedText { name, text })?;
    Ok(files)
}

/// Whether `a` is read up to a size at the first and the fourth call, a name without a file is not, and the third call fails.
fn is_read(shelf: &mut MemShelf) -> Result<bool, ReadError> {
    Ok(
        shelf.read("a", 3)?.as_slice() == b"tex".as_slice()
            && matches!(shelf.read("b", 3), Err(ReadError::Failed))
            && matches!(shelf.read("a", 3), Err(ReadError::Failed))
            && shelf.read("a", 9)?.as_slice() == b"text".as_slice(),
    )
}

#[test]
fn a_shelf_gives_the_first_bytes_and_fails_where_told(rt: HostRuntime) -> Result<(), Fail> {
    let alloc = rt.alloc();
    let files = files(alloc, b"a", b"text")?;
    let mut shelf = MemShelf::new(alloc, files, listed(alloc, &[3])?)?;
    assert!(rt; is_read(&mut shelf)?);
    Ok(())
}

/// Whether the sink takes three texts, of which one is empty, and fails at the second call.
fn is_written(sink: &mut MemSink) -> bool {
    write_all(sink, b"abc").is_ok()
        && write_all(sink, b"").is_ok()
        && matches!(write_all(sink, b"def"), Err(WriteError::Failed))
        && write_all(sink, b"ghi").is_ok()
        && sink.bytes() == b"abcghi".as_slice()
}

/// Whether ten bytes are written to a sink with room for so many: whole or not, in so many calls.
fn is_taken(alloc: Global, room: usize, whole: bool, calls: u32) -> bool {
    let mut trickle = Trickle {
        taken: Vec::new(alloc),
        room,
        calls: 0,
        faults: 0,
    };
    write_all(&mut trickle, b"0123456789").is_ok() == whole
        && trickle.taken.len() == room
        && trickle.calls == calls
}

#[test]
fn a_text_is_written_whole_or_up_to_a_fault(rt: HostRuntime) -> Result<(), Fail> {
    let alloc = rt.alloc();
    let mut sink = MemSink::new(alloc, listed(alloc, &[2])?)?;
    assert!(rt; is_written(&mut sink));
    assert!(rt; is_taken(alloc, 10, true, 4));
    assert!(rt; is_taken(alloc, 7, false, 4));
    assert!(rt; is_taken(alloc, 0, false, 1));
    Ok(())
}
