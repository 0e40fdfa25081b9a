//! What is said of a scope, written out: each type by its number (docs/LANGUAGE.md, "Certificates").

ghost use Rattle.std.specs.Prelude.{◌≡◌, ◌↔◌, [], IfErr, IfOk, IsTrue, OnOk, length, map};
ghost use Rattle.wy_spelling.specs.Spelling.{IsNumber};
ghost use Rattle.wy_proving.specs.Written.{number, cert_type, cert_pair, cert_node};
ghost use Rattle.wy_certify.specs.PartTable.{AreNumbers};
ghost use Rattle.wy_certify.specs.Pair.{pair_of};
ghost use Rattle.wy_certify.specs.Parts.{part_steps, said, said_by, types_in};
ghost use Rattle.wy_certify.specs.Step.{step_of, steps_of};
ghost use Rattle.wy_certify.specs.declared.listing.PartRefusal.TheVariants as refusal;

use crate::finding::ScopePart;
use crate::numbering::TypeNumbers;
use crate::pair::TypePair;
use crate::step::Step;
use std::alloc::Global;
use wy_cert::{CertNode, CertPair, CertScope, CertType, NumberList};
use wy_effects::set::EffSet;
use wy_text::list::Items;
use wy_text::text::Memory;
use wy_types::types::TypeRef;

/// Why nothing is said of a scope.
#[derive(Clone, Copy)]
pub enum PartRefusal {
    /// There are 4,294,967,296 types or more, or a step has as many parts, and four bytes cannot say so.
    Limit,
    Memory,
}

impl From<Memory> for PartRefusal {
    ghost from_gives = { λ _ error. error ≡ refusal.Memory };

    fn from(_error: Memory) -> PartRefusal {
        PartRefusal::Memory
    }
}

/// The numbers of a set's atoms.
fn atom_numbers(alloc: Global, set: &EffSet) -> Result<NumberList, Memory>
    ensures { IfOk result (λ l. l ≡ set.now) }
{
    let atoms = set.atoms()?;
    let mut numbers = Items::new(alloc);
    for atom in &atoms {
        numbers.push(u32::from(atom.0))?;
    }
    Ok(numbers)
}

/// .. of each set of a list.
fn sets_numbers(alloc: Global, sets: &[EffSet]) -> Result<Items<NumberList>, Memory>
    ensures { IfOk result (λ l. l ≡ sets.now) }
{
    let mut lists = Items::new(alloc);
    for set in sets {
        lists.push(atom_numbers(alloc, set)?)?;
    }
    Ok(lists)
}

/// A type as it is listed.
fn cert_type_of(alloc: Global, typ: &TypeRef) -> Result<CertType, Memory>
    ensures { IfOk result (λ c. c ≡ cert_type typ.now) }
{
    Ok(match typ {
        TypeRef::Int => CertType::Int,
        TypeRef::Bool => CertType::Bool,
        TypeRef::Text => CertType::Text,
        TypeRef::Unit => CertType::Unit,
        TypeRef::Named { decl, members } => CertType::Named {
            decl: u32::from(*decl),
            members: sets_numbers(alloc, members.as_slice())?,
        },
        TypeRef::At { decl, bound } => CertType::At {
            decl: u32::from(*decl),
            bound: atom_numbers(alloc, bound)?,
        },
        TypeRef::Own { literal } => CertType::Own { literal: *literal },
    })
}

/// .. each of a list.
fn cert_types_of(alloc: Global, types: &[TypeRef]) -> Result<Items<CertType>, Memory>
    ensures { IfOk result (λ l. l ≡ map cert_type types.now) }
{
    let mut listed = Items::new(alloc);
    for typ in types {
        listed.push(cert_type_of(alloc, typ)?)?;
    }
    Ok(listed)
}

/// A pair, by the numbers of its types.
fn cert_pair_of(table: &TypeNumbers, pair: &TypePair) -> Result<CertPair, Memory>
    requires { IsNumber (length table.now) }
    ensures { IfOk result (λ q. q ≡ cert_pair table.now (pair_of pair.now)) }
{
    Ok(CertPair {
        left: table.number_of(&pair.left)?,
        right: table.number_of(&pair.right)?,
    })
}

/// .. each of a list.
fn cert_pairs_of(
    alloc: Global,
    table: &TypeNumbers,
    pairs: &[TypePair],
) -> Result<Items<CertPair>, Memory>
    requires { IsNumber (length table.now) }
    ensures { IfOk result (λ l. l ≡ map (cert_pair table.now) (map pair_of pairs.now)) }
{
    let mut listed = Items::new(alloc);
    for pair in pairs {
        listed.push(cert_pair_of(table, pair)?)?;
    }
    Ok(listed)
}

/// The numbers of types.
fn type_numbers(alloc: Global, table: &TypeNumbers, types: &[TypeRef]) -> Result<NumberList, Memory>
    requires { IsNumber (length table.now) }
    ensures { IfOk result (λ l. l ≡ map (number table.now) types.now) }
{
    let mut numbers = Items::new(alloc);
    for typ in types {
        numbers.push(table.number_of(typ)?)?;
    }
    Ok(numbers)
}

/// The node of a step.
fn cert_node_of(alloc: Global, table: &TypeNumbers, step: &Step) -> Result<CertNode, Memory>
    requires types { IsNumber (length table.now) }
    requires parts { IsNumber step.now.parts }
    ensures { IfOk result (λ n. n ≡ cert_node table.now (step_of step.now)) }
{
    Ok(CertNode {
        rule: step.rule,
        file: u32::from(step.place.file),
        line: step.place.line,
        column: step.place.column,
        parts: step.parts as u32,
        typ: table.number_given(&step.typ)?,
        effect: atom_numbers(alloc, &step.effect)?,
    })
}

/// .. of each step of a list.
fn cert_nodes_of(
    alloc: Global,
    table: &TypeNumbers,
    steps: &[Step],
) -> Result<Items<CertNode>, Memory>
    requires { AreNumbers table.now (steps_of steps.now) }
    ensures { IfOk result (λ l. l ≡ map (cert_node table.now) (steps_of steps.now)) }
{
    let mut nodes = Items::new(alloc);
    for step in steps {
        nodes.push(cert_node_of(alloc, table, step)?)?;
    }
    Ok(nodes)
}

/// Whether four bytes can say the number of each type, and how many parts each step has. It takes no memory.
fn are_numbers(table: &TypeNumbers, steps: &[Step]) -> bool
    ensures { IsTrue result ↔ AreNumbers table.now (steps_of steps.now) }
{
    for step in steps {
        if step.parts > u32::MAX as usize {
            return false;
        }
    }
    table.len() <= u32::MAX as usize
}

/// Adds the types of a part to a table that has none.
fn add_types(table: &mut TypeNumbers, part: &ScopePart) -> Result<(), Memory>
    requires { table.old ≡ [] }
    ensures { OnOk result (table.new ≡ types_in part.now) }
{
    table.add_pairs(part.pairs.as_slice())?;
    table.add_pairs(part.bares.as_slice())?;
    table.add_steps(part.steps.as_slice())?;
    table.add_all(part.vals.as_slice())
}

/// The table of the types of a part.
fn table_of(alloc: Global, part: &ScopePart) -> Result<TypeNumbers, Memory>
    ensures { IfOk result (λ ts. ts ≡ types_in part.now) }
{
    let mut table = TypeNumbers::new(alloc);
    add_types(&mut table, part)?;
    Ok(table)
}

/// What is said of a scope by the numbers of a table.
fn written_by(alloc: Global, table: &TypeNumbers, part: &ScopePart) -> Result<CertScope, Memory>
    requires { AreNumbers table.now (part_steps part.now) }
    ensures { IfOk result (λ c. c ≡ said_by table.now part.now) }
{
    Ok(CertScope {
        types: cert_types_of(alloc, table.as_slice())?,
        pairs: cert_pairs_of(alloc, table, part.pairs.as_slice())?,
        plain: cert_pairs_of(alloc, table, part.bares.as_slice())?,
        locals: type_numbers(alloc, table, part.vals.as_slice())?,
        nodes: cert_nodes_of(alloc, table, part.steps.as_slice())?,
    })
}

/// What is said of a part by the numbers of the table of its types. `Limit` comes where four bytes cannot say a number.
fn numbered_by(
    alloc: Global,
    table: &TypeNumbers,
    part: &ScopePart,
) -> Result<CertScope, PartRefusal>
    requires { table.now ≡ types_in part.now }
    ensures written { IfOk result (λ c. c ≡ said part.now) }
    ensures numbers { OnOk result (AreNumbers (types_in part.now) (part_steps part.now)) }
    ensures limit { IfErr result (λ e. e ≡ refusal.Limit → ¬ AreNumbers (types_in part.now) (part_steps part.now)) }
{
    if !are_numbers(table, part.steps.as_slice()) {
        return Err(PartRefusal::Limit);
    }
    Ok(written_by(alloc, table, part)?)
}

/// What is said of a scope by the numbers of its types in the list of all of them, each once. `Limit` comes, but for `Memory`, exactly
/// where there are 4,294,967,296 types or more, or a step has as many parts.
pub fn part_of(alloc: Global, part: &ScopePart) -> Result<CertScope, PartRefusal>
    ensures written { IfOk result (λ c. c ≡ said part.now) }
    ensures numbers { OnOk result (AreNumbers (types_in part.now) (part_steps part.now)) }
    ensures limit { IfErr result (λ e. e ≡ refusal.Limit → ¬ AreNumbers (types_in part.now) (part_steps part.now)) }
{
    let table = table_of(alloc, part)?;
    numbered_by(alloc, &table, part)
}
