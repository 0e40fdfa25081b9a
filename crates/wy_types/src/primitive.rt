//! The primitive types, which stand before the declared ones.

ghost use Rattle.std.specs.Prelude.{◌≡◌, ◌++◌, ◌∷◌, [], None, map, replicate, OnOk, IfOk};
ghost use Rattle.wy_types.specs.Primitive.{primitive_type, primitive_types};
ghost use Rattle.wy_types.specs.PrimitiveRows.{base_type, row_method};

use crate::resolved::{BoundList, TypeDecl};
use crate::types::{Method, TypeList, TypeRef};
use std::alloc::Global;
use wy_effects::atom::Atom;
use wy_effects::set::EffSet;
use wy_text::list::Items;
use wy_text::text::{Memory, Text, from_bytes};

/// The number of the first declared type: the primitive ones come before.
pub const FIRST_DECLARED: usize = 5;

/// What a primitive type's method gives.
#[derive(Clone, Copy)]
enum Base {
    Int,
    Bool,
    Text,
    Unit,
}

/// A method: its name, how many texts are its parameters, the number of the member that is its
/// effect, and its result.
struct MethodRow(&'static str, usize, u8, Base);

static CONSOLE_MEMBERS: [&str; 2] = ["In", "Out"];

static CONSOLE_METHODS: [MethodRow; 2] = [
    MethodRow("read", 0, 0, Base::Text),
    MethodRow("write", 1, 1, Base::Unit),
];

/// The members of a full folder. A folder has all but the last.
static FOLDER_MEMBERS: [&str; 5] = ["Read", "Write", "Append", "List", "Remove"];

/// The methods of a full folder. A folder has all but the last.
static FOLDER_METHODS: [MethodRow; 6] = [
    MethodRow("read", 1, 0, Base::Text),
    MethodRow("has", 1, 0, Base::Bool),
    MethodRow("write", 2, 1, Base::Unit),
    MethodRow("append", 2, 2, Base::Unit),
    MethodRow("names", 0, 3, Base::Text),
    MethodRow("remove", 1, 4, Base::Unit),
];

static CLOCK_MEMBERS: [&str; 1] = ["Tick"];

static CLOCK_METHODS: [MethodRow; 1] = [MethodRow("now", 0, 0, Base::Int)];

static RANDOM_MEMBERS: [&str; 1] = ["Draw"];

static RANDOM_METHODS: [MethodRow; 1] = [MethodRow("word", 0, 0, Base::Int)];

fn texts(alloc: Global, number: usize) -> Result<TypeList, Memory>
    ensures { IfOk result (λ ts. ts ≡ replicate number TypeRef.Text) }
{
    let mut params = Items::new(alloc);
    for _n in 0..number {
        params.push(TypeRef::Text)?;
    }
    Ok(params)
}

fn type_of(base: Base) -> TypeRef
    ensures { result ≡ base_type base }
{
    match base {
        Base::Int => TypeRef::Int,
        Base::Bool => TypeRef::Bool,
        Base::Text => TypeRef::Text,
        Base::Unit => TypeRef::Unit,
    }
}

fn add_method(alloc: Global, methods: &mut Items<Method>, row: &MethodRow) -> Result<(), Memory>
    ensures { OnOk result (methods.new ≡ methods.old ++ row_method row.now ∷ []) }
{
    let MethodRow(name, number, member, result) = row;
    let mut effect = EffSet::empty(alloc);
    effect.insert(Atom(u16::from(*member)))?;
    methods.push(Method {
        name: from_bytes(alloc, name.as_bytes())?,
        params: texts(alloc, *number)?,
        effect,
        result: type_of(*result),
    })
}

fn methods_of(alloc: Global, rows: &[MethodRow]) -> Result<Items<Method>, Memory>
    ensures { IfOk result (λ ms. ms ≡ map row_method rows.now) }
{
    let mut methods = Items::new(alloc);
    for row in rows {
        add_method(alloc, &mut methods, row)?;
    }
    Ok(methods)
}

fn members_of(alloc: Global, names: &[&str]) -> Result<Items<Text>, Memory>
    ensures { IfOk result (λ ts. ts ≡ map (λ n. n.now) names.now) }
{
    let mut members = Items::new(alloc);
    for name in names {
        members.push(from_bytes(alloc, name.as_bytes())?)?;
    }
    Ok(members)
}

/// No upper bound for any of so many members.
fn unbounded(alloc: Global, members: usize) -> Result<BoundList, Memory>
    ensures { IfOk result (λ bs. bs ≡ replicate members None) }
{
    let mut bounds = Items::new(alloc);
    for _n in 0..members {
        bounds.push(None)?;
    }
    Ok(bounds)
}

/// Adds a type with these members, of which none has a bound, and methods.
fn add_type(
    alloc: Global,
    out: &mut Items<TypeDecl>,
    name: &str,
    members: &[&str],
    methods: &[MethodRow],
) -> Result<(), Memory>
    ensures { OnOk result (out.new ≡ out.old ++ primitive_type name.now (map (λ m. m.now) members.now) (map row_method methods.now) ∷ []) }
{
    out.push(TypeDecl {
        name: from_bytes(alloc, name.as_bytes())?,
        members: members_of(alloc, members)?,
        bounds: unbounded(alloc, members.len())?,
        defined: Items::new(alloc),
        methods: methods_of(alloc, methods)?,
    })
}

fn add_primitives(alloc: Global, out: &mut Items<TypeDecl>) -> Result<(), Memory>
    ensures { OnOk result (out.new ≡ out.old ++ primitive_types) }
{
    add_type(alloc, out, "Console", &CONSOLE_MEMBERS, &CONSOLE_METHODS)?;
    add_type(
        alloc,
        out,
        "Folder",
        &FOLDER_MEMBERS[..4],
        &FOLDER_METHODS[..5],
    )?;
    add_type(alloc, out, "Clock", &CLOCK_MEMBERS, &CLOCK_METHODS)?;
    add_type(alloc, out, "Random", &RANDOM_MEMBERS, &RANDOM_METHODS)?;
    add_type(alloc, out, "FullFolder", &FOLDER_MEMBERS, &FOLDER_METHODS)
}

/// The primitive types in the order of their numbers (docs/LANGUAGE.md, "Effects and types").
pub fn primitives(alloc: Global) -> Result<Items<TypeDecl>, Memory>
    ensures { IfOk result (λ ds. ds ≡ primitive_types) }
{
    let mut out = Items::new(alloc);
    add_primitives(alloc, &mut out)?;
    Ok(out)
}
