//! An instance of a file, or its program.

ghost use Rattle.std.specs.Prelude.{◌≡◌, ◌+◌, ◌<◌, ◌≤◌, IfOk, OnOk, Some, length, slice_get};
ghost use Rattle.wy_code.specs.Machine.{all_instances, literal_of};
ghost use Rattle.wy_text.specs.Members.{In};
ghost use Rattle.wy_verified.specs.CodeOf.{image_of};
ghost use Rattle.wy_verified.specs.Kinds.{value_kinds};
ghost use Rattle.wy_verified.specs.Ranges.{IsInRange};
ghost use Rattle.wy_verified.specs.Verifying.{fields_in, held_by, owner_of};
ghost use Rattle.wy_verify.specs.Closing.{AreClosed};
ghost use Rattle.wy_verify.specs.Tables.{HasOwners};
ghost use Rattle.wy_verify.specs.Verdicts.{IsFirstUnfitOf, IsSubjectAt};

use crate::arguments::first_unfit;
use crate::judged::Judged;
use crate::pairs::Pairs;
use crate::tables::{Owners, item_at, word};
use std::alloc::Global;
use std::marker::Model;
use wy_code::code::{Body, Code, Instance, Scope};
use wy_image::{Bounds, ImageFile, Typing};
use wy_text::text::Memory;

/// An instance of a file, or its program, with its scope and what it states. `x` is its number.
#[derive(Drop)]
pub(crate) struct Subject<'a> {
    pub(crate) judged: &'a Judged<'a>,
    file: &'a ImageFile,
    owners: &'a Owners,
    pub(crate) x: u32,
    instance: &'a Instance,
    pub(crate) scope: &'a Scope,
    pub(crate) typing: &'a Typing,
}

impl<'a> Model for Subject<'a> {
    ghost use Rattle.std.specs.Prelude.{slice_get};
    ghost use Rattle.wy_verify.specs.Tables.{HasOwners};
    ghost use Rattle.wy_verify.specs.Verdicts.{Numbered, IsNumbered};

    ghost Value = { Numbered };

    ghost view = { λ s. record {
      file = s.file.now;
      x = s.x;
      subject = record {
        instance = s.instance.now;
        scope = slice_get s.file.now.scopes s.instance.now.scope;
        typing = s.typing.now;
      };
    } };

    ghost invariant = { λ s. IsNumbered s.judged.now s.file.now s.x s.instance.now s.scope.now s.typing.now × HasOwners s.judged.now.code s.owners.now };
}

/// The instance of a number; the program comes after the instances.
fn instance_at(code: &Code, at: usize) -> &Instance
    requires { at ≤ length code.now.instances }
    ensures { slice_get (all_instances code.now) at ≡ Some result.now }
{
    match code.instances.get(at) {
        Some(instance) => instance,
        None => &code.main,
    }
}

impl<'a> Subject<'a> {
    /// Finds the instance of a number. Fails if its scope has too many literals for numbers of four bytes.
    pub(crate) fn new(
        judged: &'a Judged<'a>,
        file: &'a ImageFile,
        owners: &'a Owners,
        number: u32,
    ) -> Result<Subject<'a>, Memory>
        requires image { judged.now ≡ image_of file.now }
        requires range { IsInRange file.now }
        requires owners { HasOwners judged.now.code owners.now }
        requires there { number < length file.now.instances + 1 }
        ensures { IfOk result (IsSubjectAt file.now number) }
    {
        let code = judged.code();
        let instance = instance_at(code, number as usize);
        let Some(scope) = code.scopes.get(instance.scope as usize) else {
            unreachable!()
        };
        let Some(typing) = judged.typing(number) else {
            unreachable!()
        };
        word(scope.literals.len())?;
        Ok(Subject {
            judged,
            file,
            owners,
            x: number,
            instance,
            scope,
            typing,
        })
    }

    /// What is judged.
    pub(crate) fn judged(&self) -> &'a Judged<'a>
        ensures { result.now ≡ image_of self.now.file }
    {
        self.judged
    }

    /// How many bodies it states.
    pub(crate) fn len(&self) -> usize
        ensures { result ≡ length self.now.subject.typing.bodies }
    {
        self.typing.bodies.len()
    }

    /// What it states of the body of a number.
    pub(crate) fn bounds_at(&self, at: usize) -> &'a Bounds
        requires { at < length self.now.subject.typing.bodies }
        ensures { slice_get self.now.subject.typing.bodies at ≡ Some result.now }
    {
        item_at(&self.typing.bodies, at)
    }

    /// Returns the number of the first argument that does not fit.
    pub(crate) fn first_unfit(&self, pairs: &mut Pairs) -> Result<Option<u32>, Memory>
        requires { AreClosed (image_of self.now.file) pairs.old }
        ensures decided { IfOk result (IsFirstUnfitOf self.now) }
        ensures kept { OnOk result (AreClosed (image_of self.now.file) pairs.new) }
    {
        let arguments = &self.instance.arguments;
        let values = self.typing.values.as_slice();
        first_unfit(self.judged, pairs, self.x, arguments, values)
    }

    /// Whose the body is of which it states something.
    pub(crate) fn owner(&self, bounds: &Bounds) -> Option<u32>
        requires { In bounds.now self.now.subject.typing.bodies }
        ensures { owner_of self.now.subject.scope bounds.now.body ≡ Some result }
    {
        match self.owners.find(self.instance.scope, bounds.body) {
            Some(owner) => owner,
            None => unreachable!(),
        }
    }

    /// The body of which it states something.
    pub(crate) fn body(&self, bounds: &Bounds) -> &'a Body
        requires { In bounds.now self.now.subject.typing.bodies }
        ensures { slice_get (image_of self.now.file).code.bodies bounds.now.body ≡ Some result.now }
    {
        match self.judged.code().bodies.get(bounds.body as usize) {
            Some(body) => body,
            None => unreachable!(),
        }
    }

    /// How many fields the objects of a literal have.
    fn fields(&self, literal: u32) -> usize
        ensures { result ≡ fields_in (literal_of (image_of self.now.file).code self.now.x literal) }
    {
        match self.scope.literals.get(literal as usize) {
            Some(literal) => literal.fields as usize,
            None => 0,
        }
    }

    /// How many values the objects of a literal have.
    fn value_count(&self, literal: u32) -> usize
        ensures { result ≡ length (value_kinds (image_of self.now.file) self.now.x literal) }
    {
        if literal == 0 {
            return self.typing.values.len();
        }
        match self.typing.literals.get(literal as usize - 1) {
            Some(values) => values.len(),
            None => 0,
        }
    }

    /// How many values the object has before its fields in a body of an owner.
    pub(crate) fn held(&self, owner: Option<u32>) -> usize
        ensures { result ≡ held_by (image_of self.now.file) self.now.x self.now.subject.instance owner }
    {
        match owner {
            Some(literal) => self
                .value_count(literal)
                .saturating_sub(self.fields(literal)),
            None => self.instance.arguments.len(),
        }
    }
}
