//! V-Argument: what an instance is handed fits the types of its first values.

ghost use Rattle.std.specs.Prelude.{◌≡◌, ◌↔◌, ◌<◌, ◌≤◌, length, slice_get, IfOk, OnOk, IsTrue};
ghost use Rattle.wy_verified.specs.Kinds.{kinds_in};
ghost use Rattle.wy_verified.specs.Verifying as verifying;
ghost use Rattle.wy_verify.specs.Closing.{AreClosed};
ghost use Rattle.wy_verify.specs.Sites.{AreShort};
ghost use Rattle.wy_verify.specs.Subjects.{AreArguments, ArgumentFitsAt};

use crate::judged::Judged;
use crate::kinds::kind_there;
use crate::pairs::Pairs;
use crate::tables::{item_at, word};
use wy_code::code::Argument;
use wy_image::Reference;
use wy_text::list::Items;
use wy_text::text::Memory;
use wy_verified::Kind;

/// Returns what an argument is. Takes no memory.
fn argument_kind(argument: Argument) -> Kind
    ensures { result ≡ verifying.argument_kind argument }
{
    match argument {
        Argument::Grant(grant) => Kind::Granted(grant as u32),
        Argument::Instance(instance) => Kind::Own(instance as u32, 0),
    }
}

/// Returns whether the argument at a place fits the type of its value. Fails only if memory runs out.
fn argument_fits(
    judged: &Judged<'_>,
    pairs: &mut Pairs,
    x: u32,
    arguments: &Items<Argument>,
    values: &[Reference],
    at: usize,
) -> Result<bool, Memory>
    requires closed { AreClosed judged.now pairs.old }
    requires short { AreShort values.now }
    requires left { at < length arguments.now }
    requires right { at < length values.now }
    ensures decided { IfOk result (λ b. IsTrue b ↔ ArgumentFitsAt judged.now arguments.now (kinds_in x values.now) at) }
    ensures kept { OnOk result (AreClosed judged.now pairs.new) }
{
    let argument = argument_kind(*item_at(arguments, at));
    pairs.fits(judged, argument, kind_there(x, values, at))
}

/// Returns the place of the first argument that does not fit the type of its value, if there is one. Fails only if
/// memory runs out.
pub(crate) fn first_unfit(
    judged: &Judged<'_>,
    pairs: &mut Pairs,
    x: u32,
    arguments: &Items<Argument>,
    values: &[Reference],
) -> Result<Option<u32>, Memory>
    requires closed { AreClosed judged.now pairs.old }
    requires short { AreShort values.now }
    requires enough { length arguments.now ≤ length values.now }
    ensures found { IfOk result (λ o. AreArguments judged.now arguments.now (kinds_in x values.now) o) }
    ensures kept { OnOk result (AreClosed judged.now pairs.new) }
{
    for at in 0..arguments.len() {
        if !argument_fits(judged, pairs, x, arguments, values, at)? {
            return Ok(Some(word(at)?));
        }
    }
    Ok(None)
}
