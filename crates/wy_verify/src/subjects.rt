//! Instances and the program as they are judged, each with its arguments and its bodies.

ghost use Rattle.std.specs.Prelude.{◌≡◌, ◌+◌, ◌<◌, IfOk, OnOk, length};
ghost use Rattle.wy_text.specs.Members.{In};
ghost use Rattle.wy_verified.specs.CodeOf.{image_of};
ghost use Rattle.wy_verified.specs.Ranges.{IsInRange};
ghost use Rattle.wy_verify.specs.Closing.{AreClosed};
ghost use Rattle.wy_verify.specs.Tables.{HasOwners};
ghost use Rattle.wy_verify.specs.Verdicts.{AreBodiesOf, IsBodyOf, IsVerdictAt, IsVerdictOf};

use crate::judged::Judged;
use crate::pairs::Pairs;
use crate::site::Site;
use crate::subject::Subject;
use crate::tables::{Owners, word};
use crate::verdict::Verdict;
use crate::walking::walk;
use std::alloc::Global;
use wy_image::{Bounds, ImageFile};
use wy_text::text::Memory;
use wy_verified::VerifyRule;

/// What an instance comes to: every rule holds, or the first one that does not, with the number of the body and the
/// place in it. The place of an argument is its number, and the body 0.
#[derive(Clone, Copy, PartialEq, Eq)]
pub enum SubjectVerdict {
    Passes,
    Fails(VerifyRule, u32, u32),
}

/// Judges a body of which an instance states something.
fn judge_body(
    alloc: Global,
    subject: &Subject<'_>,
    pairs: &mut Pairs,
    bounds: &Bounds,
) -> Result<Verdict, Memory>
    requires closed { AreClosed (image_of subject.now.file) pairs.old }
    requires stated { In bounds.now subject.now.subject.typing.bodies }
    ensures verdict { IfOk result (IsBodyOf subject.now bounds.now) }
    ensures kept { OnOk result (AreClosed (image_of subject.now.file) pairs.new) }
{
    let owner = subject.owner(bounds);
    let body = subject.body(bounds);
    if body.instructions.is_empty() {
        return Ok(Verdict::Fails(VerifyRule::Flow, 0));
    }
    let site = Site::new(alloc, subject, owner, body, bounds)?;
    walk(alloc, &site, pairs)
}

/// Judges the bodies of which an instance states something, in their order.
fn judge_bodies(
    alloc: Global,
    subject: &Subject<'_>,
    pairs: &mut Pairs,
) -> Result<SubjectVerdict, Memory>
    requires closed { AreClosed (image_of subject.now.file) pairs.old }
    ensures verdict { IfOk result (AreBodiesOf subject.now) }
    ensures kept { OnOk result (AreClosed (image_of subject.now.file) pairs.new) }
{
    for at in 0..subject.len() {
        let number = word(at)?;
        match judge_body(alloc, subject, pairs, subject.bounds_at(at))? {
            Verdict::Passes => {}
            Verdict::Fails(rule, place) => {
                return Ok(SubjectVerdict::Fails(rule, number, place));
            }
        }
    }
    Ok(SubjectVerdict::Passes)
}

/// Judges the arguments of an instance, and then its bodies.
fn judge_all(
    alloc: Global,
    subject: &Subject<'_>,
    pairs: &mut Pairs,
) -> Result<SubjectVerdict, Memory>
    requires closed { AreClosed (image_of subject.now.file) pairs.old }
    ensures verdict { IfOk result (IsVerdictOf subject.now) }
    ensures kept { OnOk result (AreClosed (image_of subject.now.file) pairs.new) }
{
    match subject.first_unfit(pairs)? {
        Some(at) => Ok(SubjectVerdict::Fails(VerifyRule::Argument, 0, at)),
        None => judge_bodies(alloc, subject, pairs),
    }
}

/// Judges the instance of a number; the program comes after the instances. Fails only if memory runs out.
pub(crate) fn judge_subject(
    alloc: Global,
    judged: &Judged<'_>,
    file: &ImageFile,
    owners: &Owners,
    pairs: &mut Pairs,
    number: u32,
) -> Result<SubjectVerdict, Memory>
    requires closed { AreClosed judged.now pairs.old }
    requires image { judged.now ≡ image_of file.now }
    requires range { IsInRange file.now }
    requires owners { HasOwners judged.now.code owners.now }
    requires there { number < length file.now.instances + 1 }
    ensures verdict { IfOk result (IsVerdictAt file.now number) }
    ensures kept { OnOk result (AreClosed judged.now pairs.new) }
{
    let subject = Subject::new(judged, file, owners, number)?;
    judge_all(alloc, &subject, pairs)
}
