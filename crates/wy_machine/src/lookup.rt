//! Instances, scopes, literals and bodies by their numbers.

ghost use Rattle.std.specs.Prelude.{◌≡◌, slice_get};
ghost use Rattle.std.specs.Option.{option_copied};
ghost use Rattle.wy_code.specs.Machine.{all_instances, scope_in, literal_of, start_in};
ghost use Rattle.wy_code.specs.Machine as machine;

use wy_code::code::{Body, Code, Instance, Literal, Method, Scope};

/// The instance of a number, or the program itself, which comes after them; `None` exactly where there
/// is none.
pub fn instance_at(code: &Code, at: usize) -> Option<&Instance>
    ensures { option_copied result ≡ slice_get (all_instances code.now) at }
{
    let count = code.instances.len();
    if at < count {
        code.instances.get(at)
    } else if at == count {
        Some(&code.main)
    } else {
        None
    }
}

/// The scope of an instance; `None` exactly where there is none.
pub fn scope_of(code: &Code, instance: usize) -> Option<&Scope>
    ensures { option_copied result ≡ scope_in code.now (slice_get (all_instances code.now) instance) }
{
    match instance_at(code, instance) {
        Some(instance) => code.scopes.get(instance.scope as usize),
        None => None,
    }
}

/// A literal of an instance's scope; `None` exactly where there is none.
pub fn literal_at(code: &Code, instance: usize, literal: usize) -> Option<&Literal>
    ensures { option_copied result ≡ literal_of code.now instance literal }
{
    match scope_of(code, instance) {
        Some(scope) => scope.literals.get(literal),
        None => None,
    }
}

/// The body of a method among those of a literal; `None` exactly where there is none.
pub fn body_called(methods: &[Method], method: u32) -> Option<u32>
    ensures { result ≡ machine.body_called method methods.now }
{
    for entry in methods {
        if entry.method == method {
            return Some(entry.body);
        }
    }
    None
}

/// The body that an instance of a scope starts with; `None` exactly where there is none.
pub fn start_of<'t>(code: &'t Code, scope: &Scope) -> Option<&'t Body>
    ensures { option_copied result ≡ slice_get code.now.bodies scope.now.start }
{
    code.bodies.get(scope.start as usize)
}
