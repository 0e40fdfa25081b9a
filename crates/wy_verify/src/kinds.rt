//! The types of a run, as an instance writes them.

ghost use Rattle.std.specs.Prelude.{◌≡◌, ◌<◌, Some, length, slice_get};
ghost use Rattle.wy_verified.specs.Kinds.{kind_in, kinds_in};
ghost use Rattle.wy_verify.specs.Sites.{IsShort, AreShort};

use wy_image::Reference;
use wy_text::list::Items;
use wy_verified::Kind;

/// The type of a run that instance `x` writes so.
pub fn kind_of(x: u32, reference: Reference) -> Kind
    requires { IsShort reference }
    ensures { result ≡ kind_in x reference }
{
    match reference {
        Reference::Int => Kind::Ints,
        Reference::Truth => Kind::Truths,
        Reference::Bytes => Kind::Texts,
        Reference::Unit => Kind::Units,
        Reference::Listed(number) => Kind::Named(number),
        Reference::Literal(literal) => Kind::Own(x, literal + 1),
        Reference::Grant(grant) => Kind::Granted(grant),
        Reference::Instance(instance) => Kind::Own(instance, 0),
    }
}

/// The type of a run at a place of a list that instance `x` writes; `None` if the place is not below its length.
pub fn kind_at(x: u32, references: &Items<Reference>, at: usize) -> Option<Kind>
    requires { AreShort references.now }
    ensures { result ≡ slice_get (kinds_in x references.now) at }
{
    let Some(reference) = references.get(at) else {
        return None;
    };
    Some(kind_of(x, *reference))
}

/// The type of a run at a place that is below the length of a list that instance `x` writes.
pub fn kind_there(x: u32, references: &[Reference], at: usize) -> Kind
    requires short { AreShort references.now }
    requires inside { at < length references.now }
    ensures { slice_get (kinds_in x references.now) at ≡ Some result }
{
    kind_of(x, references[at])
}

/// The type of a run at a place of a list that instance `x` writes; `None` if the place is not below its length.
pub fn kind_among(x: u32, references: &[Reference], at: usize) -> Option<Kind>
    requires { AreShort references.now }
    ensures { result ≡ slice_get (kinds_in x references.now) at }
{
    if at < references.len() {
        return Some(kind_there(x, references, at));
    }
    None
}
