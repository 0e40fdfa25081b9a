//! What written signatures stand for, and their refusals (docs/LANGUAGE.md, "Names").

ghost use Rattle.std.specs.Prelude.{◌≡◌, List, map, IfOk, OnOk};
ghost use Rattle.wy_symbols.specs.Least.{noted};
ghost use Rattle.wy_symbols.specs.TypeUses.{param_types, effect_of, effect_refusals, method_of, params_refusals, signature_refusals};

use crate::atom_scope::AtomScope;
use crate::refusal::Refusal;
use crate::sets::read_set;
use crate::tables::note_repeated;
use crate::type_uses::read_type;
use std::alloc::Global;
use wy_effects::set::EffSet;
use wy_syntax::types::{Param, SetUse, Signature};
use wy_text::list::Items;
use wy_text::text::Memory;
use wy_types::types::{Method, TypeList};

/// The types of parameters. Their refusals are noted.
fn read_params(
    alloc: Global,
    scope: &AtomScope,
    plain: bool,
    params: &[Param],
    least: &mut Option<Refusal>,
) -> Result<TypeList, Memory>
    ensures value { IfOk result (λ ts. ts ≡ param_types scope.now plain params.now) }
    ensures noted { OnOk result (least.new ≡ noted least.old (params_refusals scope.now plain params.now)) }
{
    let mut types = Items::new(alloc);
    for param in params {
        types.push(read_type(alloc, scope, plain, &param.type_use, least)?)?;
    }
    Ok(types)
}

/// A method's effect; in a plain module it is empty, and so it is where none is written. Its refusals are
/// noted.
fn read_effect(
    alloc: Global,
    scope: &AtomScope,
    plain: bool,
    effect: &Option<SetUse>,
    least: &mut Option<Refusal>,
) -> Result<EffSet, Memory>
    ensures value { IfOk result (λ e. e ≡ effect_of scope.now plain effect.now) }
    ensures noted { OnOk result (least.new ≡ noted least.old (effect_refusals scope.now plain effect.now)) }
{
    match effect {
        None => Ok(EffSet::empty(alloc)),
        Some(set) => {
            if plain {
                Ok(EffSet::empty(alloc))
            } else {
                read_set(alloc, scope, set.as_slice(), least)
            }
        }
    }
}

/// What a signature stands for, in a plain module or elsewhere. Its refusals are noted.
pub fn read_method(
    alloc: Global,
    scope: &AtomScope,
    plain: bool,
    signature: &Signature,
    least: &mut Option<Refusal>,
) -> Result<Method, Memory>
    ensures value { IfOk result (λ m. m ≡ method_of scope.now plain signature.now) }
    ensures noted { OnOk result (least.new ≡ noted least.old (signature_refusals scope.now plain signature.now)) }
{
    note_repeated(alloc, &[], signature.params.as_slice(), least)?;
    Ok(Method {
        name: signature.name.text.copy()?,
        params: read_params(alloc, scope, plain, signature.params.as_slice(), least)?,
        effect: read_effect(alloc, scope, plain, &signature.effect, least)?,
        result: read_type(alloc, scope, plain, &signature.result, least)?,
    })
}
