//! The instances' objects as they are before any has started.

ghost use Rattle.std.specs.Prelude.{◌≡◌, map, IfOk, Some};
ghost use Rattle.wy_code.specs.Machine.{scope_in, literal_of_scope};
ghost use Rattle.wy_code.specs.Running as running;
ghost use Rattle.wy_code.specs.Running.{field_count, object_at_first, objects_at_first};

use crate::object::Object;
use crate::word::{Word, WordKind};
use std::alloc::Global;
use wy_code::code::{Argument, Code, Instance};
use wy_text::text::Memory;

/// The word that an instance is handed.
fn word_handed(argument: Argument) -> Word
    ensures { result ≡ running.word_handed argument }
{
    match argument {
        Argument::Grant(grant) => Word::new(WordKind::Grant(grant)),
        Argument::Instance(instance) => Word::new(WordKind::Object(u32::from(instance))),
    }
}

/// The words that an instance is handed.
fn words_handed(alloc: Global, arguments: &[Argument]) -> Result<Vec<Word>, Memory>
    ensures { IfOk result (λ words. words.items ≡ map running.word_handed arguments.now) }
{
    let mut words = Vec::new(alloc);
    for argument in arguments {
        words.push(word_handed(*argument))?;
    }
    Ok(words)
}

/// How many fields an instance's object has.
fn fields_of(code: &Code, instance: &Instance) -> u32
    ensures { result ≡ field_count (literal_of_scope (scope_in code.now (Some instance.now)) 0) }
{
    match code.scopes.get(instance.scope as usize) {
        Some(scope) => match scope.literals.get(0) {
            Some(literal) => literal.fields,
            None => 0,
        },
        None => 0,
    }
}

/// An instance's object, whose fields are not set yet.
fn first_object(
    alloc: Global,
    code: &Code,
    number: usize,
    instance: &Instance,
) -> Result<Object, Memory>
    ensures { IfOk result (λ object. object ≡ object_at_first code.now number instance.now) }
{
    let Ok(number) = u32::try_from(number) else {
        return Err(Memory);
    };
    let mut values = words_handed(alloc, instance.arguments.as_slice())?;
    let len = values.len() + fields_of(code, instance) as usize;
    values.resize(len, Word::new(WordKind::Unit))?;
    Ok(Object::new(number, 0, values))
}

/// The instances' objects, whose fields are not set yet.
pub fn first_objects(alloc: Global, code: &Code) -> Result<Vec<Object>, Memory>
    ensures { IfOk result (λ objects. objects.items ≡ objects_at_first code.now 0 code.now.instances) }
{
    let mut objects = Vec::new(alloc);
    for (number, instance) in code.instances.as_slice().iter().enumerate() {
        objects.push(first_object(alloc, code, number, instance)?)?;
    }
    Ok(objects)
}
