//! The verifier of images.

ghost use Rattle.std.specs.Prelude.{◌≡◌, IfOk};
ghost use Rattle.wy_verified.specs.CodeOf.{code_of, image_of};
ghost use Rattle.wy_verified.specs.Ranges.{IsInRange};
ghost use Rattle.wy_verified.specs.Verifying.{IsVerifiedFile};
ghost use Rattle.wy_verify.specs.Authority.{IsReported, image_authority};
ghost use Rattle.wy_verify.specs.Verdicts.{IsFileVerdict, IsJudgement, VerifyAnswer};

use crate::authority::{authority_of, is_reported};
use crate::coding::code_of;
use crate::judged::Judged;
use crate::pairs::Pairs;
use crate::ranges::is_in_range;
use crate::subjects::{SubjectVerdict, judge_subject};
use crate::tables::{Owners, word};
use std::alloc::Global;
use std::marker::Model;
use wy_authority::Authority;
use wy_code::code::Code;
use wy_image::ImageFile;
use wy_text::text::Memory;
use wy_verified::VerifyRule;

/// Why an image is not verified.
#[derive(Clone, Copy, PartialEq, Eq)]
pub enum VerifyRefusal {
    /// The first rule that fails, the number of the instance, that of the body among those that the instance states, and
    /// the address of the instruction. The program comes after the instances. If an argument does not fit, `body` is 0
    /// and `at` is the number of the argument. If V-Range fails, all numbers are 0.
    Fails {
        rule: VerifyRule,
        instance: u32,
        body: u32,
        at: u32,
    },
    /// Memory ran out.
    Memory,
}

/// The first failure of a file.
#[derive(Clone, Copy, PartialEq, Eq)]
struct Failure {
    rule: VerifyRule,
    instance: u32,
    body: u32,
    at: u32,
}

/// What all instances and the program come to: every rule holds, or the first one that does not, with the numbers of the
/// instance and the body, and the place.
#[derive(Clone, Copy, PartialEq, Eq)]
pub enum FileVerdict {
    Passes,
    Fails(VerifyRule, u32, u32, u32),
}

/// A verified image file, with its code. Contracts see the file.
#[derive(Drop)]
pub struct Verified<'a> {
    file: &'a ImageFile,
    code: Code,
}

impl<'a> Model for Verified<'a> {
    ghost use Rattle.std.specs.Prelude.{◌≡◌};
    ghost use Rattle.wy_image.specs.declared.file.ImageFile.{ImageFile as Value_file};
    ghost use Rattle.wy_verified.specs.CodeOf.{code_of};
    ghost use Rattle.wy_verified.specs.Verifying.{IsVerifiedFile};

    ghost Value = { Value_file };

    ghost view = { λ v. v.file.now };

    ghost invariant = { λ v. IsVerifiedFile v.file.now × (v.code ≡ code_of v.file.now) };
}

impl<'a> Verified<'a> {
    /// Returns the file. Takes no memory.
    pub fn file(&self) -> &'a ImageFile
        ensures same { result.now ≡ self.now }
        ensures verified { IsVerifiedFile self.now }
    {
        self.file
    }

    /// Returns the code of the file. Takes no memory.
    pub fn code(&self) -> &Code
        ensures { result.now ≡ code_of self.now }
    {
        &self.code
    }

    /// Returns the authority that the file states for its bodies, in the form of a report. Fails only if memory runs out.
    pub fn bounds(&self, alloc: Global) -> Result<Authority, Memory>
        ensures { IfOk result (λ authority. authority ≡ image_authority self.now) }
    {
        authority_of(alloc, self.file)
    }

    /// States that the line of a body in the report says what its calls may do, and no more. Does nothing at run time.
    pub fn bounds_are_told(&self)
        ensures { IsReported self.now }
    {
        is_reported(self.file);
    }

    /// Returns the code of the file, which is no longer borrowed. Takes no memory.
    pub fn into_code(self) -> Code
        ensures code { result ≡ code_of self.entry }
        ensures verified { IsVerifiedFile self.entry }
    {
        self.code
    }
}

/// Judges the instances in their order, and the program last. Fails only if memory runs out.
fn judge_subjects(
    alloc: Global,
    judged: &Judged<'_>,
    file: &ImageFile,
) -> Result<FileVerdict, Memory>
    requires image { judged.now ≡ image_of file.now }
    requires range { IsInRange file.now }
    ensures { IfOk result (IsFileVerdict file.now) }
{
    let owners = Owners::of_scopes(alloc, &judged.code().scopes)?;
    let mut pairs = Pairs::new(alloc);
    let count = file.instances.len() + 1;
    for at in 0..count {
        let number = word(at)?;
        match judge_subject(alloc, judged, file, &owners, &mut pairs, number)? {
            SubjectVerdict::Passes => {}
            SubjectVerdict::Fails(rule, body, place) => {
                return Ok(FileVerdict::Fails(rule, number, body, place));
            }
        }
    }
    Ok(FileVerdict::Passes)
}

/// Judges the instances of a file that passes V-Range, with its code.
fn judge_code(alloc: Global, file: &ImageFile, code: Code) -> Result<Result<Code, Failure>, Memory>
    requires range { IsInRange file.now }
    requires code { code ≡ code_of file.now }
    ensures { IfOk result (IsJudgement file.now) }
{
    let judged = Judged::new(alloc, file, code)?;
    match judge_subjects(alloc, &judged, file)? {
        FileVerdict::Passes => Ok(Ok(judged.into_code())),
        FileVerdict::Fails(rule, instance, body, at) => Ok(Err(Failure {
            rule,
            instance,
            body,
            at,
        })),
    }
}

/// Judges a file: V-Range first, and then its instances.
fn judge_file(alloc: Global, file: &ImageFile) -> Result<Result<Code, Failure>, Memory>
    ensures { IfOk result (IsJudgement file.now) }
{
    if !is_in_range(alloc, file)? {
        return Ok(Err(Failure {
            rule: VerifyRule::Range,
            instance: 0,
            body: 0,
            at: 0,
        }));
    }
    let code = code_of(alloc, file)?;
    judge_code(alloc, file, code)
}

/// Decides whether an image file is verified, and makes its code (docs/PROMISES.md, "Images").
///
/// # Errors
///
/// `Fails` comes exactly when the file is not verified, and has its first failure: V-Range comes first, and then the
/// instances in their order and the program, each with its arguments and then its bodies. Only `Memory` can replace these
/// answers.
pub fn verify(alloc: Global, file: &ImageFile) -> Result<Verified<'_>, VerifyRefusal>
    ensures { VerifyAnswer file.now result }
{
    match judge_file(alloc, file) {
        Ok(Ok(code)) => Ok(Verified { file, code }),
        Ok(Err(failure)) => Err(VerifyRefusal::Fails {
            rule: failure.rule,
            instance: failure.instance,
            body: failure.body,
            at: failure.at,
        }),
        Err(Memory) => Err(VerifyRefusal::Memory),
    }
}
