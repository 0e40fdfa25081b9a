//! Object literals: their fields, and what their methods use of the bodies round them (docs/LANGUAGE.md,
//! "Names").

ghost use Rattle.std.specs.Prelude.{◌≡◌, ◌++◌, [], List, IfOk, OnOk};
ghost use Rattle.wy_syntax.specs.Views.{part_trees};
ghost use Rattle.wy_symbols.specs.Least.{noted};
ghost use Rattle.wy_syntax.specs.Collected.{Adds};
ghost use Rattle.wy_bodies.specs.Lending.{lent_within};
ghost use Rattle.wy_bodies.specs.Sight.{written_of};
ghost use Rattle.wy_bodies.specs.InSight.{entries};
ghost use Rattle.wy_bodies.specs.Bodies as spec;
ghost use Rattle.wy_bodies.specs.Bodies.{fields_of, is_var, typed};
ghost use Rattle.wy_bodies.specs.BodyRefusals.{field_names, def_names, repeated_parts};

use crate::bodies::Within;
use crate::captures::captures;
use crate::sight::Variables;
use std::alloc::Global;
use wy_symbols::{Refusal, WrittenNames, note_repeated, type_ref};
use wy_syntax::statements::{FieldKind, Part};
use wy_syntax::types::{Name, TypeUse};
use wy_text::list::Items;
use wy_text::text::Memory;
use wy_types::resolved::{Field, Literal};

/// Whether a field is a `var`.
fn is_var(kind: FieldKind) -> bool
    ensures { (w : spec.Within) → result ≡ is_var w kind }
{
    match kind {
        FieldKind::Val => false,
        FieldKind::Var => true,
    }
}

/// Adds the names of the fields.
fn add_field_names<'a>(names: &mut WrittenNames<'a>, parts: &'a [Part])
    ensures { Adds (field_names (part_trees parts.now)) names.old names.new }
{
    for part in parts {
        match part {
            Part::Field(_, name, _, _) => names.add(name),
            Part::Method(_, _) => {}
        }
    }
}

/// Adds the names of the methods.
fn add_def_names<'a>(names: &mut WrittenNames<'a>, parts: &'a [Part])
    ensures { Adds (def_names (part_trees parts.now)) names.old names.new }
{
    for part in parts {
        match part {
            Part::Field(_, _, _, _) => {}
            Part::Method(signature, _) => names.add(&signature.name),
        }
    }
}

/// Notes Twice at each field and each method that repeats the name of one before it.
#[tactic(auto, using(wy_symbols::proofs::Leasts::noted_append))]
pub fn note_repeated_parts(
    alloc: Global,
    parts: &[Part],
    least: &mut Option<Refusal>,
) -> Result<(), Memory>
    ensures { OnOk result (least.new ≡ noted least.old (repeated_parts (part_trees parts.now))) }
{
    let mut fields = WrittenNames::new(alloc);
    add_field_names(&mut fields, parts);
    let fields = fields.all()?;
    note_repeated(alloc, &[], &fields, least)?;
    let mut methods = WrittenNames::new(alloc);
    add_def_names(&mut methods, parts);
    let methods = methods.all()?;
    note_repeated(alloc, &[], &methods, least)
}

/// A field. The refusals of its type are noted where its value is resolved.
fn field_of(
    alloc: Global,
    within: &Within,
    kind: FieldKind,
    name: &Name,
    type_use: &TypeUse,
) -> Result<Field, Memory>
    ensures { IfOk result (λ f. f ≡ record { name = name.now.text; place = name.now.place; mutable = is_var (lent_within within.now) kind; typ = typed (lent_within within.now) type_use.now }) }
{
    Ok(Field {
        name: name.text.copy()?,
        place: name.place,
        mutable: is_var(kind),
        typ: type_ref(alloc, within.atoms, within.plain, type_use)?,
    })
}

/// The fields of an object.
fn fields_of(alloc: Global, within: &Within, parts: &[Part]) -> Result<Items<Field>, Memory>
    ensures { IfOk result (λ fs. fs ≡ fields_of (lent_within within.now) (part_trees parts.now)) }
{
    let mut fields = Items::new(alloc);
    for part in parts {
        match part {
            Part::Field(kind, name, type_use, _) => {
                fields.push(field_of(alloc, within, *kind, name, type_use)?)?;
            }
            Part::Method(_, _) => {}
        }
    }
    Ok(fields)
}

/// The literal with these fields and methods, where these variables are in sight.
pub fn literal_of(
    alloc: Global,
    within: &Within,
    variables: &Variables,
    parts: &[Part],
) -> Result<Literal, Memory>
    ensures captures { IfOk result (λ l. l.captures ≡ written_of (entries variables.now) (part_trees parts.now)) }
    ensures fields { IfOk result (λ l. l.fields ≡ fields_of (lent_within within.now) (part_trees parts.now)) }
{
    let captures = captures(alloc, variables, parts)?;
    let fields = fields_of(alloc, within, parts)?;
    Ok(Literal { captures, fields })
}
