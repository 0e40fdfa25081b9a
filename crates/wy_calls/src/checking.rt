use crate::checking_table::{ACCEPTED, REFUSED, REPORTED};
use crate::limits::push_numbered;
use crate::support::{judged_so, wrong_row};
use std::alloc::Global;
use std::test::Fail;

/// Whether a call of `check` with the text as `b.wy` ends with the status of the number, writes this to `out` and
/// the report, and does nothing.
fn ends_so(alloc: Global, text: &str, number: u8, out: &str, report: &str) -> Result<bool, Fail> {
    judged_so(alloc, "check", text, number, out, report)
}

/// Fails with the number of the first text that is not refused at its place by its rule and premise.
fn all_are_refused(alloc: Global, cases: &[(&str, &str, &str)]) -> Result<(), Fail> {
    for (at, (text, place, fault)) in cases.iter().enumerate() {
        let last = format!(in alloc; "b.wy:{place}: refused: {fault}\n")?;
        if !ends_so(alloc, text, 4, "", last.as_str())? {
            return Err(wrong_row(at));
        }
    }
    Ok(())
}

/// Fails with the number of the first text that does not end so.
fn all_end_so(
    alloc: Global,
    texts: &[&str],
    number: u8,
    out: &str,
    report: &str,
) -> Result<(), Fail> {
    for (at, text) in texts.iter().enumerate() {
        if !ends_so(alloc, text, number, out, report)? {
            return Err(wrong_row(at));
        }
    }
    Ok(())
}

#[test]
fn what_the_rules_accept_is_accepted(rt: HostRuntime) -> Result<(), Fail> {
    all_end_so(rt.alloc(), &ACCEPTED, 0, "accepted\n", "")
}

#[test]
fn each_rule_names_its_premise_and_place(rt: HostRuntime) -> Result<(), Fail> {
    all_are_refused(rt.alloc(), &REFUSED)
}

#[test]
fn bounds_of_members_change_no_authority(rt: HostRuntime) -> Result<(), Fail> {
    let (text, report) = REPORTED;
    assert!(rt; judged_so(rt.alloc(), "authority", text, 0, report, "")?);
    Ok(())
}

/// Adds a module that has two instances of the one below.
fn push_twice(alloc: Global, text: &mut String, at: u32, below: u32) -> Result<(), Fail> {
    let lines = format!(in alloc;
        "resource module m{at}(): N\n  instance a = m{below}()\n  instance b = m{below}()\n"
    )?;
    text.push_str(lines.as_str())?;
    Ok(())
}

/// A program with 1,023 instances, of modules each of which has two of the next, and so many more.
fn instances(alloc: Global, more: u32) -> Result<String, Fail> {
    let mut text = String::from_str(alloc, "type N\nresource module m0(): N\n")?;
    for at in 1..=9u32 {
        push_twice(alloc, &mut text, at, at.saturating_sub(1))?;
    }
    text.push_str("program\n  instance x = m9()\n")?;
    push_numbered(alloc, &mut text, "  instance y", " = m0()\n", more)?;
    text.push_str("  run: {}\n    ()\n")?;
    Ok(text)
}

#[test]
fn a_program_has_no_more_instances_than_the_limit(rt: HostRuntime) -> Result<(), Fail> {
    let alloc = rt.alloc();
    assert!(rt; ends_so(alloc, instances(alloc, 1)?.as_str(), 0, "accepted\n", "")?);
    let last = "limit: instances 1024\n";
    assert!(rt; ends_so(alloc, instances(alloc, 2)?.as_str(), 5, "", last)?);
    Ok(())
}

/// A module that reaches one type more than there are types in this ring, in which each method gives the next.
pub fn ring(alloc: Global, count: u32) -> Result<String, Fail> {
    let mut text = String::new(alloc);
    for at in 1..=count {
        let next = at % count + 1;
        text.push_str(format!(in alloc; "type T{at}\n  def f(): {{}} T{next}\n")?.as_str())?;
    }
    text.push_str(
        "resource module m(): T1\n  def f(): {} T2 = this.f()\nprogram\n  run: {}\n    ()\n",
    )?;
    Ok(text)
}

#[test]
fn a_scope_reaches_no_more_types_than_the_limit(rt: HostRuntime) -> Result<(), Fail> {
    let alloc = rt.alloc();
    assert!(rt; ends_so(alloc, ring(alloc, 1023)?.as_str(), 0, "accepted\n", "")?);
    let last = "limit: reached types 1024\n";
    assert!(rt; ends_so(alloc, ring(alloc, 1024)?.as_str(), 5, "", last)?);
    Ok(())
}
