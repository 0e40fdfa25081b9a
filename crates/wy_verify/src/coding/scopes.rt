//! The scopes of code, and their literals.

ghost use Rattle.std.specs.Prelude.{◌≡◌, ◌++◌, IfOk, OnOk, map};
ghost use Rattle.wy_verified.specs.CodeOf.{literal_of, literals_of, method_of, own_literal, scope_of, source_of};

use std::alloc::Global;
use wy_code::code;
use wy_image::{Capture, Entry, Literal, Scope};
use wy_text::list::Items;
use wy_text::text::Memory;

/// Returns a captured value of code.
fn source_of(capture: Capture) -> code::Source
    ensures { result ≡ source_of capture }
{
    match capture {
        Capture::Slot(slot) => code::Source::Slot(slot),
        Capture::Value(value) => code::Source::Value(value),
    }
}

/// Returns the captured values of code.
fn sources_of(alloc: Global, captures: &[Capture]) -> Result<Items<code::Source>, Memory>
    ensures { IfOk result (λ l. l ≡ map source_of captures.now) }
{
    let mut sources = Items::new(alloc);
    for capture in captures {
        sources.push(source_of(*capture))?;
    }
    Ok(sources)
}

/// Returns the methods of code.
fn methods_of(alloc: Global, entries: &[Entry]) -> Result<Items<code::Method>, Memory>
    ensures { IfOk result (λ l. l ≡ map method_of entries.now) }
{
    let mut methods = Items::new(alloc);
    for entry in entries {
        methods.push(code::Method {
            method: entry.method,
            body: entry.body,
        })?;
    }
    Ok(methods)
}

/// Returns a literal of code.
fn literal_of(alloc: Global, literal: &Literal) -> Result<code::Literal, Memory>
    ensures { IfOk result (λ l. l ≡ literal_of literal.now) }
{
    let captures = sources_of(alloc, literal.captures.as_slice())?;
    let methods = methods_of(alloc, literal.entries.as_slice())?;
    Ok(code::Literal {
        captures,
        fields: literal.fields,
        methods,
    })
}

/// Returns the kind of the module's own objects.
fn own_literal(alloc: Global, scope: &Scope) -> Result<code::Literal, Memory>
    ensures { IfOk result (λ l. l ≡ own_literal scope.now) }
{
    let methods = methods_of(alloc, scope.entries.as_slice())?;
    Ok(code::Literal {
        captures: Items::new(alloc),
        fields: scope.fields,
        methods,
    })
}

/// Returns the literals of code: the module itself, and then those of the file.
fn literals_of(alloc: Global, scope: &Scope) -> Result<Items<code::Literal>, Memory>
    ensures { IfOk result (λ l. l ≡ literals_of scope.now) }
{
    let mut literals = Items::new(alloc);
    literals.push(own_literal(alloc, scope)?)?;
    add_literals(alloc, &mut literals, scope.literals.as_slice())?;
    Ok(literals)
}

/// Adds literals of code.
fn add_literals(
    alloc: Global,
    list: &mut Items<code::Literal>,
    literals: &[Literal],
) -> Result<(), Memory>
    ensures { OnOk result (list.new ≡ list.old ++ map literal_of literals.now) }
{
    for literal in literals {
        list.push(literal_of(alloc, literal)?)?;
    }
    Ok(())
}

/// Returns a scope of code.
fn scope_of(alloc: Global, scope: &Scope) -> Result<code::Scope, Memory>
    ensures { IfOk result (λ s. s ≡ scope_of scope.now) }
{
    let literals = literals_of(alloc, scope)?;
    Ok(code::Scope {
        arguments: scope.arguments,
        start: scope.first,
        literals,
    })
}

/// Returns the scopes of code.
pub(super) fn scopes_of(alloc: Global, scopes: &[Scope]) -> Result<Items<code::Scope>, Memory>
    ensures { IfOk result (λ l. l ≡ map scope_of scopes.now) }
{
    let mut list = Items::new(alloc);
    for scope in scopes {
        list.push(scope_of(alloc, scope)?)?;
    }
    Ok(list)
}
