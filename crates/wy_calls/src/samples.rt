use crate::devices::all_come_so;
use crate::samples_table::SAMPLES;
use crate::support::{end_of, failing_at, outcome_of};
use std::test::Fail;
use wy_memory::MemSink;
use wy_text::list::Items;

#[test]
fn a_sample_is_run_and_summed_up(rt: HostRuntime) -> Result<(), Fail> {
    all_come_so(rt.alloc(), &SAMPLES)
}

#[test]
fn the_greatest_sample_is_run(rt: HostRuntime) -> Result<(), Fail> {
    let done = outcome_of(rt.alloc(), &["sample", "200"], &[])?;
    assert!(rt; done.number == 0 && done.deeds == 2);
    assert_eq!(rt;
        done.out.bytes(),
        b"sample 200: instances 200, bodies 401\n".as_slice()
    );
    Ok(())
}

#[test]
fn the_greatest_sample_is_run_though_its_summary_is_not_written(
    rt: HostRuntime,
) -> Result<(), Fail> {
    let alloc = rt.alloc();
    let mut out = MemSink::new(alloc, failing_at(alloc, 1)?)?;
    let mut report = MemSink::new(alloc, Items::new(alloc))?;
    let fails = Items::new(alloc);
    let ended = end_of(alloc, &["sample", "200"], &[], &mut out, &mut report, fails)?;
    assert!(rt; ended.number == 10 && ended.deeds == 2 && out.bytes().is_empty());
    Ok(())
}
