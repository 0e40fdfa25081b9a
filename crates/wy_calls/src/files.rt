use crate::outside::cut_at;
use std::alloc::Global;
use std::test::Fail;

const SPACED: &[u8] = b"program   // x\n     run:{}\n         ( ( 1 + 2 ) : Int )\n";

const PRINTED: &[u8] = b"program\n  run: {}\n    (1 + 2 : Int)\n";

/// Whether `format`, where `out` has room for so many bytes, writes these first ones and ends so.
fn is_cut(alloc: Global, room: usize, number: u8, line: &str) -> Result<bool, Fail> {
    let done = cut_at(alloc, &["format", "f.wy"], &[("f.wy", SPACED)], room)?;
    Ok(done.says(number, &PRINTED[..room.min(PRINTED.len())], line))
}

#[test]
fn a_form_that_is_not_written_whole_is_a_prefix(rt: HostRuntime) -> Result<(), Fail> {
    let alloc = rt.alloc();
    assert!(rt; is_cut(alloc, 0, 10, "unwritten\n")?);
    assert!(rt; is_cut(alloc, 20, 10, "unwritten\n")?);
    assert!(rt; is_cut(alloc, 35, 10, "unwritten\n")?);
    assert!(rt; is_cut(alloc, 36, 0, "")?);
    Ok(())
}
