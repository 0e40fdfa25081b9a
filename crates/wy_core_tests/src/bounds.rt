ghost use Rattle.wy_types.specs.Fitting.{IsTypeOf};
ghost use Rattle.wy_types.specs.InRange.{IsInRange};
ghost use Rattle.wy_types.specs.Program.{program_of};

use crate::ranges::{is_in_range, is_type_of};
use crate::texts::{core_of, set_of};
use std::alloc::Global;
use std::test::Fail;
use wy_bounds::{Matrix, Part, Path, Safety, effects, ho_effects, ho_safe, safe};
use wy_effects::set::{EffSet, SetList};
use wy_text::list::Items;
use wy_text::text::Memory;
use wy_types::resolved::Core;
use wy_types::types::TypeRef;

/// Types 5 to 7, each with a member `E`, and a program.
const PROGRAM: &str = r#"type A
  effect E
  def f(b: B[E = {E}]): {} Unit
type B
  effect E
  def g(c: C[E = {E}]): {} Unit
type C
  effect E
  def h(): {E} A[E = {E}]
program
  run: {}
    ()
"#;

/// A module with one method, the atoms of whose parameters are 0 to 11; it is the first scope where it stands behind
/// that program.
const OWN: &str = r#"resource module m(a: Folder, b: Folder, c: Folder): A
  effect E = {}
  def m(): {c.Read} A[E = {b.Write}] = this.m()
"#;

/// A plain module, likewise.
const PLAIN: &str = "plain module m(): A\n";

/// The program, and behind it a module or nothing.
fn polar_core(alloc: Global, module: &str) -> Result<Core, Fail> {
    core_of(alloc, format!(in alloc; "{PROGRAM}{module}")?.as_str())
}

/// Types from 5 on, so many, each of which goes on by `next` with its member as the effect, the last to the
/// first with none; and a program.
fn ring_core(alloc: Global, number: u32) -> Result<Core, Fail> {
    let mut text = String::new(alloc);
    for at in 1..number {
        let next = at.saturating_add(1);
        text.push_str(format!(in alloc; "type T{at}\n  effect E\n")?.as_str())?;
        text.push_str(format!(in alloc; "  def next(): {{E}} T{next}[E = {{E}}]\n")?.as_str())?;
    }
    text.push_str(format!(in alloc; "type T{number}\n  effect E\n")?.as_str())?;
    text.push_str("  def next(): {} T1[E = {E}]\nprogram\n  run: {}\n    ()\n")?;
    core_of(alloc, text.as_str())
}

/// A declared type with these atoms for its one member.
fn named(alloc: Global, decl: u16, atoms: &[u16]) -> Result<TypeRef, Memory> {
    let mut members: SetList = Items::new(alloc);
    members.push(set_of(alloc, atoms)?)?;
    Ok(TypeRef::Named { decl, members })
}

/// A declared type with this bound.
fn bounded(alloc: Global, decl: u16, atoms: &[u16]) -> Result<TypeRef, Memory> {
    let bound = set_of(alloc, atoms)?;
    Ok(TypeRef::At { decl, bound })
}

/// Whether the table of a type's paths has these sets.
fn table_has(
    alloc: Global,
    core: &Core,
    t: &TypeRef,
    given: &EffSet,
    taken: &EffSet,
) -> Result<bool, Memory>
    requires core { IsInRange (program_of core.now) }
    requires typ { IsTypeOf (program_of core.now) 0 t.now }
{
    let matrix = Matrix::build(alloc, core, 0, t)?;
    Ok(matrix.effects() == *given && matrix.ho_effects() == *taken)
}

/// Whether the table of a type's paths calls it safe for a set, and safe in higher order.
fn table_answers(
    alloc: Global,
    core: &Core,
    t: &TypeRef,
    e: &EffSet,
) -> Result<(bool, bool), Memory>
    requires core { IsInRange (program_of core.now) }
    requires typ { IsTypeOf (program_of core.now) 0 t.now }
{
    let matrix = Matrix::build(alloc, core, 0, t)?;
    Ok((matrix.is_safe(e), matrix.is_ho_safe(e)))
}

/// Whether these are the type's effects and higher-order effects, also by the table of its paths.
fn has_effects(
    alloc: Global,
    core: &Core,
    t: &TypeRef,
    positive: &[u16],
    negative: &[u16],
) -> Result<bool, Memory> {
    if !is_in_range(core)? {
        return Ok(false);
    }
    if !is_type_of(core, 0, t)? {
        return Ok(false);
    }
    let given = set_of(alloc, positive)?;
    let taken = set_of(alloc, negative)?;
    if !table_has(alloc, core, t, &given, &taken)? {
        return Ok(false);
    }
    Ok(effects(alloc, core, 0, t)? == given && ho_effects(alloc, core, 0, t)? == taken)
}

/// What is answered of safety and of higher-order safety; `None` where the table of the type's paths
/// answers otherwise.
fn answers(
    alloc: Global,
    core: &Core,
    t: &TypeRef,
    atoms: &[u16],
) -> Result<Option<(Safety, Safety)>, Memory> {
    if !is_in_range(core)? {
        return Ok(None);
    }
    if !is_type_of(core, 0, t)? {
        return Ok(None);
    }
    let e = set_of(alloc, atoms)?;
    let (is_safe, is_ho_safe) = table_answers(alloc, core, t, &e)?;
    let given = safe(alloc, core, 0, t, &e)?;
    let taken = ho_safe(alloc, core, 0, t, &e)?;
    if is_safe != (given == Safety::Yes) || is_ho_safe != (taken == Safety::Yes) {
        return Ok(None);
    }
    Ok(Some((given, taken)))
}

#[test]
fn parameters_turn_the_polarity(rt: HostRuntime) -> Result<(), Fail> {
    let alloc = rt.alloc();
    let core = polar_core(alloc, "")?;
    let rows: [(u16, &[u16], &[u16], &[u16]); 3] = [
        (5, &[7], &[7], &[]),
        (6, &[7], &[], &[7]),
        (5, &[3, 7], &[3, 7], &[]),
    ];
    for (decl, atoms, positive, negative) in rows {
        let t = named(alloc, decl, atoms)?;
        assert!(rt; has_effects(alloc, &core, &t, positive, negative)?);
    }
    Ok(())
}

#[test]
fn base_types_and_bounds_have_their_effects(rt: HostRuntime) -> Result<(), Fail> {
    let alloc = rt.alloc();
    let core = polar_core(alloc, "")?;
    assert!(rt; has_effects(alloc, &core, &TypeRef::Text, &[], &[])?);
    let at = bounded(alloc, 5, &[2, 9])?;
    assert!(rt; has_effects(alloc, &core, &at, &[2, 9], &[2, 9])?);
    Ok(())
}

#[test]
fn a_module_s_own_type_has_the_effects_of_its_methods(rt: HostRuntime) -> Result<(), Fail> {
    let alloc = rt.alloc();
    let core = polar_core(alloc, OWN)?;
    let own = TypeRef::Own { literal: 0 };
    assert!(rt; has_effects(alloc, &core, &own, &[5, 8], &[])?);
    Ok(())
}

#[test]
fn a_bare_type_has_no_effects(rt: HostRuntime) -> Result<(), Fail> {
    let alloc = rt.alloc();
    let core = polar_core(alloc, PLAIN)?;
    let bare = TypeRef::Named {
        decl: 5,
        members: Items::new(alloc),
    };
    assert!(rt; has_effects(alloc, &core, &bare, &[], &[])?);
    Ok(())
}

/// Adds a path's steps, as `h:result` or `f:0`.
fn push_path(out: &mut String, alloc: Global, path: &Path) -> Result<(), Fail> {
    for step in path.as_slice() {
        out.push_str(std::str::from_utf8(step.method.as_bytes())?)?;
        match step.part {
            Part::Result => out.push_str(":result ")?,
            Part::Parameter(index) => out.push_str(format!(in alloc; ":{index} ")?.as_str())?,
        }
    }
    Ok(())
}

/// Adds an answer: `yes`, or the path and the atom of a refusal.
fn push_answer(out: &mut String, alloc: Global, answer: &Safety) -> Result<(), Fail> {
    match answer {
        Safety::Yes => out.push_str("yes")?,
        Safety::No { path, atom } => {
            push_path(out, alloc, path)?;
            let number = atom.0;
            out.push_str(format!(in alloc; "{number}")?.as_str())?;
        }
    }
    Ok(())
}

/// The answers of safety and of higher-order safety.
fn shown(alloc: Global, answers: &Option<(Safety, Safety)>) -> Result<String, Fail> {
    let mut out = String::new(alloc);
    if let Some((given, taken)) = answers {
        push_answer(&mut out, alloc, given)?;
        out.push_str("; ")?;
        push_answer(&mut out, alloc, taken)?;
    }
    Ok(out)
}

/// Whether these are the answers on a type and these atoms.
fn is_answered(alloc: Global, t: &TypeRef, atoms: &[u16], wanted: &str) -> Result<bool, Fail> {
    let core = polar_core(alloc, "")?;
    let answers = answers(alloc, &core, t, atoms)?;
    Ok(shown(alloc, &answers)?.as_str() == wanted)
}

#[test]
fn base_types_and_bounds_are_safe(rt: HostRuntime) -> Result<(), Fail> {
    let alloc = rt.alloc();
    let at = bounded(alloc, 5, &[2, 9])?;
    assert!(rt; is_answered(alloc, &TypeRef::Int, &[9], "yes; yes")?);
    assert!(rt; is_answered(alloc, &at, &[9], "yes; yes")?);
    Ok(())
}

#[test]
fn a_refusal_has_the_least_atom_and_a_path(rt: HostRuntime) -> Result<(), Fail> {
    let alloc = rt.alloc();
    let at = bounded(alloc, 5, &[2, 9])?;
    assert!(rt; is_answered(alloc, &at, &[1, 2, 10], "1; f:0 1")?);
    let c = named(alloc, 7, &[7])?;
    assert!(rt; is_answered(alloc, &c, &[7], "h:result 7; h:result f:0 7")?);
    Ok(())
}

/// The number of steps and the atom of a first refusal.
fn refused(answers: &Option<(Safety, Safety)>) -> Option<(usize, u16)> {
    match answers {
        None => None,
        Some(both) => match &both.0 {
            Safety::Yes => None,
            Safety::No { path, atom } => Some((path.len(), atom.0)),
        },
    }
}

#[test]
fn a_ring_is_gone_round_once(rt: HostRuntime) -> Result<(), Fail> {
    let alloc = rt.alloc();
    let core = ring_core(alloc, 1023)?;
    let first = named(alloc, 5, &[7])?;
    assert!(rt; has_effects(alloc, &core, &first, &[7], &[])?);
    let answer = answers(alloc, &core, &first, &[7])?;
    assert_eq!(rt; refused(&answer), Some((1022, 7)));
    Ok(())
}
