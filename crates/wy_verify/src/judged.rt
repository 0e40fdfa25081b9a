//! An image file with its code, and lookup tables over both.

ghost use Rattle.std.specs.Prelude.{◌≡◌, ◌++◌, IfOk, slice_get};
ghost use Rattle.std.specs.Option.{option_copied};
ghost use Rattle.wy_verified.specs.CodeOf.{code_of, image_of, typings_of};
ghost use Rattle.wy_verified.specs.Ranges.{IsInRange};
ghost use Rattle.wy_verify.specs.Effects.{IsStatedIn};
ghost use Rattle.wy_verify.specs.Judging.{HasTables, operation_numbers};
ghost use Rattle.wy_verify.specs.Tables.{SmallTypes, SmallTypings};

use crate::effects::Effect;
use crate::granted::{add_numbers, lacking};
use crate::tables::{Called, Places};
use std::alloc::Global;
use std::marker::Model;
use wy_code::code::Code;
use wy_image::{Bounds, ImageFile, Typing};
use wy_text::list::Items;
use wy_text::text::{Memory, Text};

/// The lookup tables of a file and its code.
#[derive(Drop)]
pub(crate) struct Tables {
    /// The names of the methods of primitive types that the file's names lack.
    pub(crate) more: Items<Text>,
    /// The numbers of the names of methods of primitive types.
    pub(crate) granted: Items<u32>,
    pub(crate) listed: Places,
    pub(crate) stated: Places,
    pub(crate) called: Called,
}

/// Returns the numbers of the names of methods of primitive types.
fn granted_of(alloc: Global, names: &Items<Text>, more: &Items<Text>) -> Result<Items<u32>, Memory>
    ensures { IfOk result (λ g. g ≡ operation_numbers 0 (names.now ++ more.now)) }
{
    let mut granted = Items::new(alloc);
    add_numbers(&mut granted, 0, names)?;
    add_numbers(&mut granted, names.len(), more)?;
    Ok(granted)
}

impl Tables {
    /// Makes the tables of a file and its code.
    fn new(alloc: Global, file: &ImageFile, code: &Code) -> Result<Tables, Memory>
        requires types { SmallTypes file.now.types }
        requires typings { SmallTypings (typings_of file.now) }
        ensures { IfOk result (λ t. HasTables file.now code.now t) }
    {
        let more = lacking(alloc, &file.methods)?;
        let granted = granted_of(alloc, &file.methods, &more)?;
        let listed = Places::of_types(alloc, &file.types)?;
        let stated = Places::of_typings(alloc, file)?;
        let called = Called::of_scopes(alloc, &code.scopes)?;
        Ok(Tables {
            more,
            granted,
            listed,
            stated,
            called,
        })
    }
}

/// An image file with the code that was made of it. Contracts see what is judged: the code, the names of methods, the
/// listed types, and what the instances state. The file passes V-Range.
#[derive(Drop)]
pub struct Judged<'a> {
    pub(crate) code: Code,
    pub(crate) file: &'a ImageFile,
    pub(crate) tables: Tables,
}

impl<'a> Model for Judged<'a> {
    ghost use Rattle.wy_verified.specs.CodeOf.{image_of};
    ghost use Rattle.wy_verified.specs.Images.{Image};
    ghost use Rattle.wy_verify.specs.Judging.{IsJudged};

    ghost Value = { Image };

    ghost view = { λ j. image_of j.file.now };

    ghost invariant = { λ j. IsJudged j.file.now j.code j.tables };
}

impl<'a> Judged<'a> {
    /// Makes the tables of a file with its code. Fails only if memory runs out.
    pub fn new(alloc: Global, file: &'a ImageFile, code: Code) -> Result<Judged<'a>, Memory>
        requires range { IsInRange file.now }
        requires code { code ≡ code_of file.now }
        ensures { IfOk result (λ j. j ≡ image_of file.now) }
    {
        let tables = Tables::new(alloc, file, &code)?;
        Ok(Judged { code, file, tables })
    }

    /// Returns the file. Takes no memory.
    pub fn file(&self) -> &'a ImageFile
        ensures image { self.now ≡ image_of result.now }
        ensures range { IsInRange result.now }
    {
        self.file
    }

    /// Returns the code. Takes no memory.
    pub fn code(&self) -> &Code
        ensures { result.now ≡ self.now.code }
    {
        &self.code
    }

    /// Returns the code, and drops the tables. Takes no memory.
    pub fn into_code(self) -> Code
        ensures { result ≡ self.entry.code }
    {
        self.code
    }

    /// Returns what the instance of a number states; the program comes after the instances. Takes no memory.
    pub fn typing(&self, number: u32) -> Option<&'a Typing>
        ensures { option_copied result ≡ slice_get self.now.typings number }
    {
        let instances = &self.file.instances;
        let at = number as usize;
        if at == instances.len() {
            return Some(&self.file.main.typing);
        }
        match instances.get(at) {
            Some(instance) => Some(&instance.typing),
            None => None,
        }
    }

    /// Returns the effect that is stated of a body. Takes no memory.
    pub fn effect_of<'b>(&self, bounds: &'b Bounds) -> Effect<'b>
        requires { IsStatedIn self.now bounds.now }
        ensures { result ≡ bounds.now.effect }
    {
        let _ = &self.code;
        Effect::new(&bounds.effect)
    }
}
