//! V-Type of `New`: the captured values, and then the fields.

ghost use Rattle.std.specs.Prelude.{◌≡◌, ◌↔◌, ◌<◌, ◌≤◌, length, drop, IfOk, OnOk, IsTrue};
ghost use Rattle.wy_verified.specs.Kinds.{AllFit, kinds_in};
ghost use Rattle.wy_verify.specs.Closing.{AreClosed};
ghost use Rattle.wy_verify.specs.Sites.{AreShort};
ghost use Rattle.wy_verify.specs.Turns.{AreCaptured, IsMade, IsMadeOf, SourceFitsAt, fields_at, source_of};

use crate::kinds::kind_there;
use crate::knowing::Knowing;
use crate::pairs::Pairs;
use crate::site::Site;
use crate::states::source_at;
use crate::types::{all_fit, fits};
use wy_code::code::{Literal, Source};
use wy_image::Reference;
use wy_text::list::Items;
use wy_text::text::Memory;
use wy_verified::Kind;

/// The type of a captured value.
fn source_kind(site: &Site<'_>, known: &Knowing, source: Source) -> Kind
    ensures { result ≡ source_of site.now known.now.stored source }
{
    match source {
        Source::Slot(slot) => site.slot_kind(known, slot).unwrap_or(Kind::Units),
        Source::Value(number) => site.value_kind(number).unwrap_or(Kind::Units),
    }
}

/// Whether the captured value at a place fits the type that the instance writes there.
fn source_fits_at(
    site: &Site<'_>,
    known: &Knowing,
    pairs: &mut Pairs,
    sources: &Items<Source>,
    values: &[Reference],
    at: usize,
) -> Result<bool, Memory>
    requires closed { AreClosed site.now.image pairs.old }
    requires short { AreShort values.now }
    requires left { at < length sources.now }
    requires right { at < length values.now }
    ensures decided { IfOk result (λ b. IsTrue b ↔ SourceFitsAt site.now known.now.stored sources.now (kinds_in site.now.x values.now) at) }
    ensures kept { OnOk result (AreClosed site.now.image pairs.new) }
{
    let source = source_kind(site, known, source_at(sources, at));
    fits(site, pairs, source, kind_there(site.x(), values, at))
}

/// Whether the captured values fit the first types that the instance writes.
fn sources_fit(
    site: &Site<'_>,
    known: &Knowing,
    pairs: &mut Pairs,
    sources: &Items<Source>,
    values: &[Reference],
) -> Result<bool, Memory>
    requires closed { AreClosed site.now.image pairs.old }
    requires short { AreShort values.now }
    requires enough { length sources.now ≤ length values.now }
    ensures decided { IfOk result (λ b. IsTrue b ↔ AreCaptured site.now known.now.stored sources.now (kinds_in site.now.x values.now)) }
    ensures kept { OnOk result (AreClosed site.now.image pairs.new) }
{
    for at in 0..sources.len() {
        if !source_fits_at(site, known, pairs, sources, values, at)? {
            return Ok(false);
        }
    }
    Ok(true)
}

/// Whether types fit those that the instance writes from a place on, one by one, and as many.
fn rest_fits(
    site: &Site<'_>,
    pairs: &mut Pairs,
    kinds: &[Kind],
    values: &[Reference],
    from: usize,
) -> Result<bool, Memory>
    requires closed { AreClosed site.now.image pairs.old }
    requires short { AreShort values.now }
    requires inside { from ≤ length values.now }
    ensures decided { IfOk result (λ b. IsTrue b ↔ AllFit site.now.image kinds.now (drop from (kinds_in site.now.x values.now))) }
    ensures kept { OnOk result (AreClosed site.now.image pairs.new) }
{
    all_fit(site, pairs, kinds, &values[from..])
}

/// Whether the captured values and the fields of a literal have the types that the instance writes.
fn parts_fit(
    site: &Site<'_>,
    known: &Knowing,
    pairs: &mut Pairs,
    literal: &Literal,
    values: &[Reference],
) -> Result<bool, Memory>
    requires closed { AreClosed site.now.image pairs.old }
    requires short { AreShort values.now }
    requires count { literal.now.fields ≤ length known.now.operands }
    ensures decided { IfOk result (λ b. IsTrue b ↔ IsMadeOf site.now known.now literal.now (kinds_in site.now.x values.now)) }
    ensures kept { OnOk result (AreClosed site.now.image pairs.new) }
{
    let captured = literal.captures.len();
    if values.len() < captured {
        return Ok(false);
    }
    if !sources_fit(site, known, pairs, &literal.captures, values)? {
        return Ok(false);
    }
    let fields = known.topmost(literal.fields as usize);
    rest_fits(site, pairs, fields, values, captured)
}

/// Returns whether the captured values and the fields of an object that is made have the types that are stated. Fails
/// only if memory runs out.
pub(crate) fn literal_fits(
    site: &Site<'_>,
    known: &Knowing,
    pairs: &mut Pairs,
    literal: u32,
) -> Result<bool, Memory>
    requires closed { AreClosed site.now.image pairs.old }
    requires count { fields_at site.now literal ≤ length known.now.operands }
    ensures decided { IfOk result (λ b. IsTrue b ↔ IsMade site.now known.now literal) }
    ensures kept { OnOk result (AreClosed site.now.image pairs.new) }
{
    let values = site.values(literal);
    match site.literal(literal) {
        Some(found) => parts_fit(site, known, pairs, found, values),
        None => all_fit(site, pairs, &[], values),
    }
}
