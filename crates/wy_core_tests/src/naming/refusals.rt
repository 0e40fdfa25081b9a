use crate::texts::refusal_of;
use std::alloc::Global;
use std::test::Fail;
use wy_names::NameRefusal;
use wy_text::fault::Place;
use wy_text::limit::LimitName;

/// A file with a program block that is granted so many clocks.
fn block(alloc: Global, count: u32) -> Result<String, Fail> {
    let mut text = String::from_str(alloc, "program\n")?;
    for at in 0..count {
        text.push_str(format!(in alloc; "  grant g{at}: Clock\n")?.as_str())?;
    }
    text.push_str("  run: {}\n    ()\n")?;
    Ok(text)
}

/// Why the names of two files are refused, with a program block of so many grants each.
fn refusal_of_blocks(alloc: Global, first: u32, second: u32) -> Result<Option<NameRefusal>, Fail> {
    let first = block(alloc, first)?;
    let second = block(alloc, second)?;
    refusal_of(alloc, &[first.as_str(), second.as_str()])
}

#[test]
fn grants_are_counted_in_each_block_by_itself(rt: HostRuntime) -> Result<(), Fail> {
    let start = Place {
        file: 2,
        line: 1,
        column: 1,
    };
    let within = Some(NameRefusal::TwoPrograms(start));
    assert!(rt; refusal_of_blocks(rt.alloc(), 64, 64)? == within);
    let past = Some(NameRefusal::Limit(LimitName::Grants));
    assert!(rt; refusal_of_blocks(rt.alloc(), 1, 65)? == past);
    Ok(())
}
