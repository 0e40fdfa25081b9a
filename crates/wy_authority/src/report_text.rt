//! The report of an authority: as a text, and written row by row.

ghost use Rattle.std.specs.Prelude.{◌≡◌, ◌++◌, [], map, Err, IfOk, OnOk, slice_index_or};
ghost use Rattle.wy_text.specs.Outside.{Rose};
ghost use Rattle.wy_text.specs.Writing.{StopsShort, WritesUpTo};
ghost use Rattle.wy_effects.specs.AtomTable.{atom_name};
ghost use Rattle.wy_authority.specs.Authority.{whole_set};
ghost use Rattle.wy_authority.specs.Report.{atom_text, atoms_after, body_lines, instance_text, named_atoms, report_text, row_text, set_text};

use crate::rows::{Authority, BodyRow, InstanceRow};
use std::alloc::Global;
use wy_effects::atom::Atom;
use wy_effects::set::EffSet;
use wy_text::fault::AtomName;
use wy_text::sink::{Sink, WriteError};
use wy_text::text::{Memory, Text, from_vec};
use wy_text::writing::write_all;

/// All that an instance of these bodies may do: the union of what each of them may (docs/LANGUAGE.md, "Authority and report"). `Err`
/// comes only where memory is wanting.
pub fn whole_set(alloc: Global, bodies: &[BodyRow]) -> Result<EffSet, Memory>
    ensures { IfOk result (λ s. s ≡ whole_set bodies.now) }
{
    let mut whole = EffSet::empty(alloc);
    for i in (0..bodies.len()).rev() {
        bodies[i].set.union_into(&mut whole)?;
    }
    Ok(whole)
}

/// Adds one piece.
fn push(text: &mut Vec<u8>, piece: &[u8]) -> Result<(), Memory>
    ensures { OnOk result (text.new.items ≡ text.old.items ++ piece.now) }
{
    text.extend_from_slice(piece)?;
    Ok(())
}

/// Adds three pieces, one behind the other.
fn push_three(text: &mut Vec<u8>, first: &[u8], second: &[u8], third: &[u8]) -> Result<(), Memory>
    ensures { OnOk result (text.new.items ≡ text.old.items ++ (first.now ++ (second.now ++ third.now))) }
{
    push(text, first)?;
    push(text, second)?;
    push(text, third)
}

fn push_atom(text: &mut Vec<u8>, atoms: &[AtomName], atom: Atom) -> Result<(), Memory>
    ensures { OnOk result (text.new.items ≡ text.old.items ++ atom_text (slice_index_or atoms.now atom.0 (atom_name [] []))) }
{
    match atoms.get(atom.0 as usize) {
        None => push(text, b"."),
        Some(name) => push_three(text, name.owner.as_bytes(), b".", name.member.as_bytes()),
    }
}

/// Adds the atoms that stand behind another, each after a comma.
fn push_others(text: &mut Vec<u8>, atoms: &[AtomName], others: &[Atom]) -> Result<(), Memory>
    ensures { OnOk result (text.new.items ≡ text.old.items ++ atoms_after (named_atoms atoms.now (map (λ a. a.0) others.now))) }
{
    for atom in others {
        push(text, b", ")?;
        push_atom(text, atoms, *atom)?;
    }
    Ok(())
}

/// Adds a set as the report prints it: a dash where it is empty, else the names of its atoms, by their numbers, with commas between
/// (docs/LANGUAGE.md, "Authority and report"). `Err` comes only where memory is wanting.
pub fn push_set(text: &mut Vec<u8>, atoms: &[AtomName], set: &EffSet) -> Result<(), Memory>
    ensures { OnOk result (text.new.items ≡ text.old.items ++ set_text (named_atoms atoms.now set.now)) }
{
    let numbers = set.atoms()?;
    match numbers.as_slice().split_first() {
        None => push(text, b"-"),
        Some((first, others)) => {
            push_atom(text, atoms, *first)?;
            push_others(text, atoms, others)
        }
    }
}

/// Adds a name between two pieces, a set and a newline.
fn push_row(
    text: &mut Vec<u8>,
    atoms: &[AtomName],
    before: &[u8],
    name: &Text,
    set: &EffSet,
) -> Result<(), Memory>
    ensures { OnOk result (text.new.items ≡ text.old.items ++ row_text atoms.now before.now name.now set.now) }
{
    push_three(text, before, name.as_bytes(), b": ")?;
    push_set(text, atoms, set)?;
    push(text, b"\n")
}

fn push_bodies(text: &mut Vec<u8>, atoms: &[AtomName], bodies: &[BodyRow]) -> Result<(), Memory>
    ensures { OnOk result (text.new.items ≡ text.old.items ++ body_lines atoms.now bodies.now) }
{
    for body in bodies {
        push_row(text, atoms, b"  ", &body.name, &body.set)?;
    }
    Ok(())
}

fn push_instance(
    alloc: Global,
    text: &mut Vec<u8>,
    atoms: &[AtomName],
    row: &InstanceRow,
) -> Result<(), Memory>
    ensures { OnOk result (text.new.items ≡ text.old.items ++ instance_text atoms.now row.now) }
{
    let whole = whole_set(alloc, row.bodies.as_slice())?;
    push_row(text, atoms, b"authority of ", &row.name, &whole)?;
    push_bodies(text, atoms, row.bodies.as_slice())
}

/// The report of an authority: for each row a line with its authority, and a line for each of its bodies
/// (docs/LANGUAGE.md, "Authority and report"). `Err` comes only where memory is wanting.
pub fn report(alloc: Global, authority: &Authority) -> Result<Text, Memory>
    ensures { IfOk result (λ t. t ≡ report_text authority.now) }
{
    let mut text = Vec::new(alloc);
    for row in authority.rows.as_slice() {
        push_instance(alloc, &mut text, authority.atoms.as_slice(), row)?;
    }
    Ok(from_vec(text))
}

/// The lines of one instance.
fn instance_lines(alloc: Global, atoms: &[AtomName], row: &InstanceRow) -> Result<Vec<u8>, Memory>
    ensures { IfOk result (λ text. text.items ≡ instance_text atoms.now row.now) }
{
    let mut text = Vec::new(alloc);
    push_instance(alloc, &mut text, atoms, row)?;
    Ok(text)
}

/// Writes the report of an authority to a sink, the lines of one instance after those of another, so that
/// no more of its text is held than those (docs/LANGUAGE.md, "Authority and report"). It tells what `write_all`
/// tells of the whole text: `Failed` comes only where the sink counted a fault; a prefix of the text that
/// is not the whole text was written then, and where memory was wanting.
pub fn write_report<S: Sink>(
    alloc: Global,
    authority: &Authority,
    sink: &mut S,
) -> Result<(), WriteError>
    ensures whole { OnOk result (WritesUpTo (report_text authority.now) [] (S.state sink.old) (S.state sink.new)) }
    ensures failed { result ≡ Err WriteError.Failed → StopsShort (report_text authority.now) (S.state sink.old) (S.state sink.new) × Rose (S.state sink.old).faults (S.state sink.new).faults }
    ensures starved { result ≡ Err WriteError.Memory → StopsShort (report_text authority.now) (S.state sink.old) (S.state sink.new) }
{
    for row in authority.rows.as_slice() {
        let Ok(text) = instance_lines(alloc, authority.atoms.as_slice(), row) else {
            return Err(WriteError::Memory);
        };
        if let Err(error) = write_all(sink, text.as_slice()) {
            return Err(error);
        }
    }
    Ok(())
}
