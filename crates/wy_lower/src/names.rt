//! What pushes a name: the slots of a body, and the values of the current object.

ghost use Rattle.std.specs.Prelude.{◌≡◌, IfOk};
ghost use Rattle.std.specs.Option.{option_copied};
ghost use Rattle.wy_types.specs.declared.code.Binding.TheVariants as to;
ghost use Rattle.wy_lower.specs.Capped.{capped};
ghost use Rattle.wy_lower.specs.Inside.{is_own, val_slot, slot_of, own_values, capture_value, field_value, handed_constant, name_code, assigned_value, source_of, capture_sources};
ghost use Rattle.wy_lower.specs.Emits.{inside_of, Finds};

use crate::indexes::{Captures, Vals, sum, word};
use crate::instructions::Instructions;
use indexmap::IndexSet;
use std::alloc::Global;
use wy_code::code::Source;
use wy_code::instruction::{Constant, Instruction};
use wy_text::list::Items;
use wy_text::text::{Memory, Text};
use wy_types::code::{Binding, Variable};
use wy_types::linked::Actual;

/// What a body sees: the things that the program's own names stand for, where it is one of the program's, and how many own
/// names its module has else; its number, where it is a method, with the parameters that it has; its `val`s; what the current
/// object captured; and the tables of texts and method names.
#[derive(Drop)]
pub(crate) struct Inside<'a> {
    pub program: bool,
    pub actuals: &'a [Actual],
    pub owns: usize,
    pub number: Option<usize>,
    pub parameters: usize,
    pub vals: &'a Vals,
    pub captures: &'a Captures,
    pub texts: &'a IndexSet<Text>,
    pub methods: &'a IndexSet<Text>,
}

/// Whether a variable is a parameter or a `val` of the body itself.
fn is_own(inside: &Inside, variable: Variable) -> bool
    ensures { result ≡ is_own (inside_of inside.now) variable }
{
    match variable {
        Variable::Parameter { body, index: _ } => inside.number == Some(body as usize),
        Variable::Local(number) => inside.vals.has(number),
    }
}

/// The slot of the `val` of a number.
pub(crate) fn val_slot(inside: &Inside, number: u32) -> usize
    ensures { result ≡ capped (val_slot (inside_of inside.now) number) }
{
    sum(sum(1, inside.parameters), inside.vals.place(number))
}

/// The slot of a variable of the body itself.
fn slot_of(inside: &Inside, variable: Variable) -> usize
    ensures { result ≡ capped (slot_of (inside_of inside.now) variable) }
{
    match variable {
        Variable::Parameter { body: _, index } => sum(1, usize::from(index)),
        Variable::Local(number) => val_slot(inside, number),
    }
}

/// How many values of own names come first in each object of a module.
fn own_values(inside: &Inside) -> usize
    ensures { result ≡ own_values (inside_of inside.now) }
{
    if inside.program { 0 } else { inside.owns }
}

/// The value of the current object that it captured for a variable.
fn capture_value(inside: &Inside, variable: Variable) -> usize
    ensures { result ≡ capped (capture_value (inside_of inside.now) variable) }
{
    sum(own_values(inside), inside.captures.place(variable))
}

/// The value of the current object that a field is.
pub(crate) fn field_value(inside: &Inside, field: usize) -> usize
    ensures { result ≡ capped (field_value (inside_of inside.now) field) }
{
    sum(sum(own_values(inside), inside.captures.len()), field)
}

/// What an own name of the program stands for, as a constant.
fn handed_constant(actual: Option<&Actual>) -> Constant
    ensures { result ≡ handed_constant (option_copied actual.entry) }
{
    match actual {
        None => Constant::Unit,
        Some(Actual::Grant(number)) => Constant::Grant(*number),
        Some(Actual::Instance(number)) => Constant::Instance(*number),
    }
}

/// What pushes the value of a variable.
fn variable_code(out: &mut Instructions, inside: &Inside, variable: Variable) -> Instruction
    ensures { Finds out.old out.new result (name_code (inside_of inside.now) (to.Variable variable)) }
{
    if is_own(inside, variable) {
        Instruction::Load(out.number(slot_of(inside, variable)))
    } else {
        Instruction::Get(out.number(capture_value(inside, variable)))
    }
}

/// What pushes the value of a field.
fn field_code(out: &mut Instructions, inside: &Inside, field: usize) -> Instruction
    ensures { Finds out.old out.new result (name_code (inside_of inside.now) (to.Field field)) }
{
    Instruction::Get(out.number(field_value(inside, field)))
}

/// What pushes the value of an own name.
fn own_code(inside: &Inside, own: u32) -> Instruction
    ensures { result ≡ name_code (inside_of inside.now) (to.Own own) }
{
    if inside.program {
        Instruction::Push(handed_constant(inside.actuals.get(own as usize)))
    } else {
        Instruction::Get(own)
    }
}

/// What pushes the value of a name.
pub(crate) fn name_code(out: &mut Instructions, inside: &Inside, binding: Binding) -> Instruction
    ensures { Finds out.old out.new result (name_code (inside_of inside.now) binding) }
{
    match binding {
        Binding::Variable(variable) => variable_code(out, inside, variable),
        Binding::Field(field) => field_code(out, inside, usize::from(field)),
        Binding::Own(own) => own_code(inside, own),
    }
}

/// The value of the current object that an assignment sets.
pub(crate) fn assigned_value(inside: &Inside, binding: Binding) -> usize
    ensures { result ≡ capped (assigned_value (inside_of inside.now) binding) }
{
    match binding {
        Binding::Variable(variable) => capture_value(inside, variable),
        Binding::Field(field) => field_value(inside, usize::from(field)),
        Binding::Own(own) => own as usize,
    }
}

/// Where a variable is found that is captured inside a body.
fn source_of(inside: &Inside, variable: Variable) -> Result<Source, Memory>
    ensures { IfOk result (λ s. s ≡ source_of (inside_of inside.now) variable) }
{
    if is_own(inside, variable) {
        Ok(Source::Slot(word(slot_of(inside, variable))?))
    } else {
        Ok(Source::Value(word(capture_value(inside, variable))?))
    }
}

/// Where `new`, standing inside a body, finds what a literal captures.
pub(crate) fn capture_sources(
    alloc: Global,
    inside: &Inside,
    variables: &[Variable],
) -> Result<Items<Source>, Memory>
    ensures { IfOk result (λ l. l ≡ capture_sources (inside_of inside.now) variables.now) }
{
    let mut sources = Items::new(alloc);
    for number in 0..own_values(inside) {
        sources.push(Source::Value(word(number)?))?;
    }
    for variable in variables {
        sources.push(source_of(inside, *variable)?)?;
    }
    Ok(sources)
}
