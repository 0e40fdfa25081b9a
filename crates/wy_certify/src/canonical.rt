//! The steps of the canonical derivation of a scope: of its start, and of its bodies in their order.

ghost use Rattle.std.specs.Prelude.{◌≡◌, ◌∷◌, [], IfOk, None, Some, map, slice_get};
ghost use Rattle.wy_types.specs.Program.{Scope as ProgramScope, program_of, scope_of, body_of};
ghost use Rattle.wy_cert.specs.declared.certificate.Rule.TheVariants.{Body as BodyRule};
ghost use Rattle.wy_proving.specs.Steps.{step};
ghost use Rattle.wy_certify.specs.Step.{step_of};
ghost use Rattle.wy_certify.specs.Gathered.{Adds};
ghost use Rattle.wy_certify.specs.Written.{start_written, body_written, bodies_written};
ghost use Rattle.wy_certify.specs.Writer.{context_of};
ghost use Rattle.wy_proving.specs.Written.{written_steps};

use crate::output::Output;
use crate::step::Step;
use crate::writer::Writer;
use std::alloc::Global;
use wy_cert::Rule;
use wy_effects::set::EffSet;
use wy_text::fault::Place;
use wy_text::list::Items;
use wy_text::text::Memory;
use wy_types::resolved::{Body, Core, Scope, Start};
use wy_types::types::TypeRef;

/// T-Body, which gives no type and has no effect of its own.
fn add_body(out: &mut Output, place: Place, parts: usize)
    ensures { Adds (step BodyRule place parts None [] ∷ []) out.old out.new }
{
    let none = EffSet::empty(out.alloc());
    out.add_untyped(Rule::Body, place, parts, none)
}

impl<'a> Writer<'a> {
    /// What the scope does at its start.
    fn write_start(&self, out: &mut Output)
        requires { self.now.owner ≡ None }
        ensures { Adds (start_written (context_of self.now)) out.old out.new }
    {
        let scope = self.scope;
        match &scope.start {
            Start::Init(values) => {
                let types = out.take_types(self.field_types(0));
                self.write_values(out, values, types.as_slice());
                add_body(out, scope.start_place, values.len())
            }
            Start::Run(block) => {
                self.write_block_at(out, block, &TypeRef::Unit);
                add_body(out, scope.start_place, 1)
            }
        }
    }

    /// A body of the scope.
    fn write_body(&self, out: &mut Output, body: &Body)
        ensures { Adds (body_written (context_of self.now) (body_of body.now)) out.old out.new }
    {
        let writer = Writer {
            owner: Some(body.owner),
            ..*self
        };
        writer.write_block_at(out, &body.block, &body.signature.result);
        add_body(out, body.place, 1)
    }

    /// Bodies of the scope, in their order.
    fn write_bodies(&self, out: &mut Output, bodies: &[Body])
        ensures { Adds (bodies_written (context_of self.now) (map body_of bodies.now)) out.old out.new }
    {
        for i in 0..bodies.len() {
            self.write_body(out, &bodies[i]);
        }
    }
}

/// .. of this scope of a number.
fn scope_steps(
    alloc: Global,
    core: &Core,
    number: u16,
    scope: &Scope,
    locals: &[TypeRef],
) -> Result<Items<Step>, Memory>
    ensures { IfOk result (λ steps. map step_of steps ≡ written_steps (program_of core.now) number (scope_of scope.now) locals.now) }
{
    let writer = Writer {
        alloc,
        core,
        number,
        scope,
        locals,
        owner: None,
    };
    let mut out = Output::new(alloc);
    writer.write_start(&mut out);
    writer.write_bodies(&mut out, scope.bodies.as_slice());
    out.into_steps()
}

/// The steps of the canonical derivation of the scope of a number, where there is one, over these types of its `val`s, parts
/// before the whole: what the nodes of a certificate are to say of it (docs/LANGUAGE.md, "Typing of bodies" and "Certificates").
/// The one error is want of memory.
pub fn canonical_steps(
    alloc: Global,
    core: &Core,
    number: u16,
    locals: &[TypeRef],
) -> Result<Items<Step>, Memory>
    ensures { IfOk result (λ steps. (s : ProgramScope) → slice_get (program_of core.now).scopes number ≡ Some s → map step_of steps ≡ written_steps (program_of core.now) number s locals.now) }
{
    match core.scopes.get(number as usize) {
        Some(scope) => scope_steps(alloc, core, number, scope, locals),
        None => Ok(Items::new(alloc)),
    }
}
