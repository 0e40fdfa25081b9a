ghost use Rattle.std.specs.Prelude.{◌≡◌, ◌<◌, ◌≤◌, true, IfOk};
ghost use Rattle.wy_types.specs.Fitting.{IsTypeOf};

use crate::ranges::{is_in_range, type_fits};
use crate::texts::{core_of, set_of};
use std::alloc::Global;
use std::marker::Brand;
use std::sync::ledger::{Blank, Ledger};
use std::test::Fail;
use wy_effects::set::SetList;
use wy_subtype::{Cause, Mode, PairTable, Part, Step, Steps, Unfolding, Verdict, subtype, unfold};
use wy_text::list::Items;
use wy_text::text::{Memory, Text};
use wy_types::resolved::Core;
use wy_types::types::TypeRef;

/// Types 5 to 21: `P` and `Q`; `R`; `S0` to `S2` and `U0` to `U2`; two whose `next` differ in their
/// numbers of parameters; one with a member, and one that takes it; two that go on to each other; two that ask for one pair by
/// both parameters and by the result. Behind them a program.
const PROGRAM: &str = r#"type P
  def next(): {} P
type Q
  def next(): {} Q
type R
  def next(): {} R
  def more(): {} Int
type S0
  def next(): {} S1
type S1
  def next(): {} S2
type S2
  def next(): {} Int
type U0
  def next(): {} U1
type U1
  def next(): {} U2
type U2
  def next(): {} Bool
type Bare
  def next(): {} Unit
type Taking
  def next(t: Int): {} Unit
type Running
  effect E
  def go(): {E} Unit
type User
  effect E
  def next(r: Running[E = {E}]): {} User[E = {E}]
type There
  def next(): {} Back
type Back
  def next(): {} There
type Twice
  def twice(s: S2, t: S2): {} U2
type TwiceMore
  def twice(s: U2, t: U2): {} S2
program
  run: {}
    ()
"#;

/// A plain module, which is the first scope where it stands behind that program.
const PLAIN: &str = "plain module m(): P\n";

/// The types in a program of one scope, or, for `Mode::Plain`, in one whose first scope is a plain module.
fn core_of_types(alloc: Global, mode: Mode) -> Result<Core, Fail> {
    match mode {
        Mode::Annotated => core_of(alloc, PROGRAM),
        Mode::Plain => core_of(alloc, format!(in alloc; "{PROGRAM}{PLAIN}")?.as_str()),
    }
}

/// A declared type with these atoms for its one member, or with no member.
fn named(alloc: Global, decl: u16, member: Option<&[u16]>) -> Result<TypeRef, Memory> {
    let mut members: SetList = Items::new(alloc);
    if let Some(atoms) = member {
        members.push(set_of(alloc, atoms)?)?;
    }
    Ok(TypeRef::Named { decl, members })
}

/// The verdict, where the core and the types are in range.
fn verdict(
    alloc: Global,
    core: &Core,
    s: &TypeRef,
    t: &TypeRef,
    mode: Mode,
) -> Result<Option<Verdict>, Memory> {
    if !is_in_range(core)? {
        return Ok(None);
    }
    if !type_fits(core, 512, s)? {
        return Ok(None);
    }
    if !type_fits(core, 512, t)? {
        return Ok(None);
    }
    Ok(Some(subtype(alloc, core, 0, s, t, mode)?))
}

/// Adds a text and what stands behind it.
fn push_word(out: &mut String, word: &Text, behind: &str) -> Result<(), Fail> {
    out.push_str(std::str::from_utf8(word.as_bytes())?)?;
    out.push_str(behind)?;
    Ok(())
}

/// Adds a step, as `next:result` or `next:0`.
fn push_step(out: &mut String, alloc: Global, step: &Step) -> Result<(), Fail> {
    push_word(out, &step.method, ":")?;
    match step.part {
        Part::Result => out.push_str("result ")?,
        Part::Parameter(index) => out.push_str(format!(in alloc; "{index} ")?.as_str())?,
    }
    Ok(())
}

/// Adds a cause: a base type, a method that lacks or has another number of parameters, or one and the atom that its effect has.
fn push_cause(out: &mut String, alloc: Global, cause: &Cause) -> Result<(), Fail> {
    match cause {
        Cause::Base => out.push_str("base")?,
        Cause::MissingMethod(method) => push_word(out, method, " lacks")?,
        Cause::Arity(method) => push_word(out, method, " takes others")?,
        Cause::Effect { method, atom } => {
            let number = atom.0;
            push_word(out, method, format!(in alloc; " has {number}")?.as_str())?;
        }
    }
    Ok(())
}

/// A verdict in words, a refusal by its path and its cause.
fn shown(alloc: Global, verdict: &Option<Verdict>) -> Result<String, Fail> {
    let mut out = String::new(alloc);
    match verdict {
        None => out.push_str("not in range")?,
        Some(Verdict::Yes) => out.push_str("yes")?,
        Some(Verdict::No { path, cause }) => {
            for step in path.as_slice() {
                push_step(&mut out, alloc, step)?;
            }
            push_cause(&mut out, alloc, cause)?;
        }
    }
    Ok(out)
}

/// Whether this is the verdict on two types, in words.
fn is_said(
    alloc: Global,
    core: &Core,
    s: &TypeRef,
    t: &TypeRef,
    mode: Mode,
    wanted: &str,
) -> Result<bool, Fail> {
    let verdict = verdict(alloc, core, s, t, mode)?;
    Ok(shown(alloc, &verdict)?.as_str() == wanted)
}

/// Pairs of types without members, and the verdict on each.
static PAIRS: [(u16, u16, &str); 10] = [
    (5, 6, "yes"),
    (6, 5, "yes"),
    (7, 5, "yes"),
    (18, 5, "yes"),
    (5, 19, "yes"),
    (18, 19, "yes"),
    (5, 7, "more lacks"),
    (8, 11, "next:result next:result next:result base"),
    (20, 21, "twice:0 next:result base"),
    (14, 15, "next takes others"),
];

/// The first pair of bare types on which there is another verdict.
fn first_otherwise(alloc: Global, mode: Mode) -> Result<Option<(u16, u16)>, Fail> {
    let core = core_of_types(alloc, mode)?;
    for (s, t, wanted) in &PAIRS {
        let left = named(alloc, *s, None)?;
        let right = named(alloc, *t, None)?;
        if !is_said(alloc, &core, &left, &right, mode, wanted)? {
            return Ok(Some((*s, *t)));
        }
    }
    Ok(None)
}

#[test]
fn recursive_types_are_subtypes_or_a_path_leads_to_the_pair_that_fails(
    rt: HostRuntime,
) -> Result<(), Fail> {
    assert_eq!(rt; first_otherwise(rt.alloc(), Mode::Annotated)?, None);
    assert_eq!(rt; first_otherwise(rt.alloc(), Mode::Plain)?, None);
    Ok(())
}

#[test]
fn a_base_type_is_no_subtype_of_an_object_type(rt: HostRuntime) -> Result<(), Fail> {
    let alloc = rt.alloc();
    let core = core_of_types(alloc, Mode::Annotated)?;
    let p = named(alloc, 5, None)?;
    for mode in [Mode::Annotated, Mode::Plain] {
        assert!(rt; is_said(alloc, &core, &TypeRef::Int, &p, mode, "base")?);
    }
    Ok(())
}

/// Whether this is the verdict on type 17 with these atoms for its member.
fn is_said_of_users(
    alloc: Global,
    left: &[u16],
    right: &[u16],
    mode: Mode,
    wanted: &str,
) -> Result<bool, Fail> {
    let core = core_of_types(alloc, Mode::Annotated)?;
    let left = named(alloc, 17, Some(left))?;
    let right = named(alloc, 17, Some(right))?;
    is_said(alloc, &core, &left, &right, mode, wanted)
}

#[test]
fn parameters_exchange_the_sides(rt: HostRuntime) -> Result<(), Fail> {
    let alloc = rt.alloc();
    let small: &[u16] = &[3];
    let large: &[u16] = &[3, 4, 5];
    let lacks = "next:0 go has 4";
    assert!(rt; is_said_of_users(alloc, large, small, Mode::Annotated, "yes")?);
    assert!(rt; is_said_of_users(alloc, small, large, Mode::Annotated, lacks)?);
    assert!(rt; is_said_of_users(alloc, small, large, Mode::Plain, "yes")?);
    Ok(())
}

/// How many pairs the test of one pair asks for; `None` where it fails.
fn asked_from<L: Ledger>(
    alloc: Global,
    core: &Core,
    s: &TypeRef,
    t: &TypeRef,
    blank: Blank,
) -> Result<Option<usize>, Memory>
    requires name { blank.name ≡ L.name }
    requires parts { blank.parts ≡ L.parts }
    requires some { 0 < blank.parts }
{
    if !is_in_range(core)? {
        return Ok(None);
    }
    let mut steps = Steps::<L>::new(blank);
    match unfold(alloc, core, 0, s, t, Mode::Annotated, &mut steps)? {
        Unfolding::Closed(pairs) => Ok(Some(pairs.len())),
        Unfolding::Fails(_cause) => Ok(None),
    }
}

fn asked(alloc: Global, core: &Core, s: &TypeRef, t: &TypeRef) -> Result<Option<usize>, Memory> {
    asked_from::<Brand>(alloc, core, s, t, Blank::new(1))
}

/// How many pairs the test of two types of this member asks for; `None` where it fails.
fn asked_of(
    alloc: Global,
    core: &Core,
    s: u16,
    t: u16,
    member: Option<&[u16]>,
) -> Result<Option<usize>, Memory> {
    let left = named(alloc, s, member)?;
    let right = named(alloc, t, member)?;
    asked(alloc, core, &left, &right)
}

#[test]
fn one_pair_is_tested_by_itself(rt: HostRuntime) -> Result<(), Fail> {
    let alloc = rt.alloc();
    let core = core_of_types(alloc, Mode::Annotated)?;
    let member: &[u16] = &[3];
    for (s, t, member, want) in [
        (7, 5, None, Some(1)),
        (5, 7, None, None),
        (17, 17, Some(member), Some(2)),
    ] {
        assert_eq!(rt; asked_of(alloc, &core, s, t, member)?, want);
    }
    assert_eq!(rt; asked(alloc, &core, &TypeRef::Int, &TypeRef::Int)?, Some(0));
    Ok(())
}

/// Asks one table for pairs of declared types in turn: each answer, and how many pairs it then has;
/// `None` where a type is not in range.
fn answers(
    alloc: Global,
    core: &Core,
    asked: &[(u16, u16)],
) -> Result<Option<Vec<(bool, usize)>>, Memory> {
    if !is_in_range(core)? {
        return Ok(None);
    }
    let mut table = PairTable::new(alloc, core, 0, Mode::Annotated);
    let mut answers = Vec::new(alloc);
    for pair in asked {
        let s = named(alloc, pair.0, None)?;
        let t = named(alloc, pair.1, None)?;
        if !type_fits(core, 512, &s)? {
            return Ok(None);
        }
        if !type_fits(core, 512, &t)? {
            return Ok(None);
        }
        let holds = table.holds(&s, &t)?;
        answers.push((holds, table.pairs()))?;
    }
    Ok(Some(answers))
}

#[test]
fn a_table_unfolds_each_pair_once(rt: HostRuntime) -> Result<(), Fail> {
    let alloc = rt.alloc();
    let core = core_of_types(alloc, Mode::Annotated)?;
    let asked = [(18, 5), (18, 5), (19, 5), (5, 7), (5, 7), (7, 5)];
    let wanted = [
        (true, 2),
        (true, 2),
        (true, 2),
        (false, 3),
        (false, 3),
        (true, 4),
    ];
    let found = answers(alloc, &core, &asked)?.ok_or("in range")?;
    assert!(rt; found.as_slice() == wanted.as_slice());
    Ok(())
}

/// Asks a table for a pair, and counts steps: the answer, and whether no pair was unfolded for it. Then no step was
/// counted.
fn asked_of_table<L: Ledger>(
    table: &mut PairTable<'_>,
    s: &TypeRef,
    t: &TypeRef,
    steps: &mut Steps<L>,
) -> Result<(bool, bool), Memory>
    requires left { IsTypeOf table.old.about.program table.old.about.scope s.now }
    requires right { IsTypeOf table.old.about.program table.old.about.scope t.now }
    ensures none { IfOk result (λ r. r.1 ≡ true → steps.new ≤ steps.old) }
    ensures same { table.new.about ≡ table.old.about }
{
    let before = table.pairs();
    let verdict = table.decide(s, t, steps)?;
    let holds = matches!(verdict, Verdict::Yes);
    Ok((holds, table.pairs() == before))
}

/// Asks one table for pairs of declared types in turn, each of them twice, and gives what comes of the second time;
/// `None` where a type is not in range.
fn asked_twice<L: Ledger>(
    alloc: Global,
    core: &Core,
    asked: &[(u16, u16)],
    blank: Blank,
) -> Result<Option<Vec<(bool, bool)>>, Memory>
    requires name { blank.name ≡ L.name }
    requires parts { blank.parts ≡ L.parts }
    requires some { 0 < blank.parts }
{
    if !is_in_range(core)? {
        return Ok(None);
    }
    let mut steps = Steps::<L>::new(blank);
    let mut table = PairTable::new(alloc, core, 0, Mode::Annotated);
    let mut answers = Vec::new(alloc);
    for pair in asked {
        let s = named(alloc, pair.0, None)?;
        let t = named(alloc, pair.1, None)?;
        if !type_fits(core, 512, &s)? {
            return Ok(None);
        }
        if !type_fits(core, 512, &t)? {
            return Ok(None);
        }
        let _first = asked_of_table(&mut table, &s, &t, &mut steps)?;
        answers.push(asked_of_table(&mut table, &s, &t, &mut steps)?)?;
    }
    Ok(Some(answers))
}

#[test]
fn what_is_asked_again_takes_no_step(rt: HostRuntime) -> Result<(), Fail> {
    let alloc = rt.alloc();
    let core = core_of_types(alloc, Mode::Annotated)?;
    let asked = [(5, 6), (6, 5), (7, 5), (5, 7), (8, 11)];
    let again = [
        (true, true),
        (true, true),
        (true, true),
        (false, true),
        (false, true),
    ];
    let found = asked_twice::<Brand>(alloc, &core, &asked, Blank::new(1))?.ok_or("in range")?;
    assert!(rt; found.as_slice() == again.as_slice());
    Ok(())
}
