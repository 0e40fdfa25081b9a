use std::alloc::Global;
use std::test::Fail;
use wy_device::deed::Deed;
use wy_device::operation::{Answer, Kind, Op};
use wy_text::text::{Memory, from_bytes};

/// Whether an operation and its copy have the name of `has`, which a folder has.
fn is_named(op: &Op) -> Result<bool, Memory> {
    let name = op.name();
    Ok(name.method() == "has" && name.kind() == Kind::Folder && op.copy()?.name() == name)
}

/// An operation.
fn has(alloc: Global) -> Result<Op, Memory> {
    Ok(Op::FolderHas(from_bytes(alloc, b"f")?))
}

#[test]
fn an_operation_has_a_name_that_its_copy_has_too(rt: HostRuntime) -> Result<(), Fail> {
    let op = has(rt.alloc())?;
    assert!(rt; is_named(&op)?);
    Ok(())
}

/// Whether a truth value's copy is the same.
fn is_copied(answer: &Answer) -> Result<bool, Memory> {
    Ok(matches!(answer.copy()?, Answer::Truth(true)))
}

/// Whether a deed with this answer has one.
fn is_done(alloc: Global, op: &Op, answer: &Answer) -> Result<bool, Memory> {
    let grant = from_bytes(alloc, b"d")?;
    Ok(Deed::done(&grant, op, answer)?.answer.is_some())
}

/// Whether a deed that failed has no answer.
fn is_failed(alloc: Global, op: &Op) -> Result<bool, Memory> {
    let grant = from_bytes(alloc, b"d")?;
    Ok(Deed::failed(&grant, op)?.answer.is_none())
}

/// Whether an answer and an operation are copied, with an answer and as one that failed.
fn are_copied(alloc: Global, op: &Op, answer: &Answer) -> Result<bool, Memory> {
    Ok(is_copied(answer)? && is_done(alloc, op, answer)? && is_failed(alloc, op)?)
}

#[test]
fn deeds_are_copied_with_their_answers(rt: HostRuntime) -> Result<(), Fail> {
    let op = has(rt.alloc())?;
    assert!(rt; are_copied(rt.alloc(), &op, &Answer::Truth(true))?);
    Ok(())
}
