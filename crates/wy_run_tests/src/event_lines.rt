use std::alloc::Global;
use std::test::Fail;
use wy_device::deed::{Deed, Event};
use wy_device::operation::{Answer, Op};
use wy_meaning::event_line;
use wy_text::text::{Memory, Text, from_bytes};

/// The line of a body's start.
fn entered(alloc: Global, instance: &[u8], body: &[u8]) -> Result<Text, Memory> {
    let instance = from_bytes(alloc, instance)?;
    let body = from_bytes(alloc, body)?;
    event_line(alloc, &Event::Enter { instance, body })
}

/// The line of an operation that had an answer.
fn done(alloc: Global, grant: &[u8], op: &Op, answer: &Answer) -> Result<Text, Memory> {
    let grant = from_bytes(alloc, grant)?;
    event_line(alloc, &Event::Deed(Deed::done(&grant, op, answer)?))
}

/// The line of an operation that failed.
fn failed(alloc: Global, grant: &[u8], op: &Op) -> Result<Text, Memory> {
    let grant = from_bytes(alloc, grant)?;
    event_line(alloc, &Event::Deed(Deed::failed(&grant, op)?))
}

/// The line of an operation with two texts.
fn appended(alloc: Global, name: &[u8], text: &[u8]) -> Result<Text, Memory> {
    let name = from_bytes(alloc, name)?;
    let op = Op::FolderAppend(name, from_bytes(alloc, text)?);
    done(alloc, b"disk", &op, &Answer::Unit)
}

/// The line of a random number.
fn drawn(alloc: Global, number: i64) -> Result<Text, Memory> {
    done(alloc, b"dice", &Op::RandomWord, &Answer::Number(number))
}

/// Whether an operation that fails has its line.
fn is_failed(alloc: Global) -> Result<bool, Memory> {
    Ok(
        failed(alloc, b"console", &Op::ConsoleRead)?.as_bytes()
            == b"deed console.read() = failed\n".as_slice(),
    )
}

/// Whether a body's end has its line.
fn is_left(alloc: Global) -> Result<bool, Memory> {
    Ok(event_line(alloc, &Event::Leave)?.as_bytes() == b"leave\n".as_slice())
}

#[test]
fn each_event_has_its_line(rt: HostRuntime) -> Result<(), Fail> {
    let alloc = rt.alloc();
    assert_eq!(rt;
        entered(alloc, b"pure clean", b"new1.got")?.as_bytes(),
        b"enter pure clean new1.got\n".as_slice()
    );
    assert_eq!(rt;
        appended(alloc, b"log", b"a\"\n\xff")?.as_bytes(),
        b"deed disk.append(\"log\", \"a\\\"\\n\\xff\") = ()\n".as_slice()
    );
    assert_eq!(rt;
        drawn(alloc, -12)?.as_bytes(),
        b"deed dice.word() = -12\n".as_slice()
    );
    assert!(rt; is_failed(alloc)?);
    assert!(rt; is_left(alloc)?);
    Ok(())
}
