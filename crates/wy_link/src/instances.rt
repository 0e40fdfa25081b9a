//! M-Inst: an instance of a resource module, with own names of the scope where the line stands as its arguments.

ghost use Rattle.std.specs.Prelude.{◌≡◌, ◌↔◌, IfOk, true, length};
ghost use Rattle.wy_effects.specs.EffSet.{AreSets};
ghost use Rattle.wy_types.specs.Program.{program_of, scope_of};
ghost use Rattle.wy_types.specs.Fitting.{FitsType};
ghost use Rattle.wy_rules.specs.Acceptance.{handed_to, IsArgument};
ghost use Rattle.wy_subtype.specs.declared.verdict.Mode.{Mode};
ghost use Rattle.wy_judge.specs.Tables.{IsScopeOf};
ghost use Rattle.wy_judge.specs.Targets.{about_in};
ghost use Rattle.wy_premises.specs.Tried.{handed_pair, OfEach, AreWritten};
ghost use Rattle.wy_link.specs.Tried.{InstanceComesTo};

use crate::misfit::Misfit;
use std::alloc::Global;
use wy_effects::set::EffSet;
use wy_premises::{
    all_have_opened, argument_type, arguments_sets, disagreement, first_outside_member, names_of,
    parameters_of,
};
use wy_subtype::PairTable;
use wy_text::text::Memory;
use wy_types::reading::substitute;
use wy_types::resolved::{Core, OwnName, Scope, ScopeKind};

// ----------------------------------------------------------------------------
// Types

/// Whether the argument's type is a subtype of the parameter's, with the sets put in.
fn is_argument(
    alloc: Global,
    scope: &Scope,
    pairs: &mut PairTable<'_>,
    sets: &[EffSet],
    parameter: &OwnName,
    argument: u32,
) -> Result<bool, Memory>
    requires context { IsScopeOf pairs.old.about.program pairs.old.about.scope (scope_of scope.now) }
    requires mode { pairs.old.about.mode ≡ Mode.Annotated }
    requires written { FitsType pairs.old.about.program 512 0 parameter.now.typ }
    requires sets { AreSets 512 sets.now }
    ensures outcome { IfOk result (λ b. (b ≡ true) ↔ IsArgument pairs.old.about.program pairs.old.about.scope scope.now.names sets.now (handed_pair parameter.now argument)) }
    ensures same { pairs.new.about ≡ pairs.old.about }
{
    let typ = argument_type(alloc, scope.names.as_slice(), argument)?;
    let expected = substitute(alloc, &parameter.typ, sets)?;
    pairs.holds(&typ, &expected)
}

/// Whether each argument's type is a subtype of its parameter's, with the sets put in.
fn all_are_arguments(
    alloc: Global,
    scope: &Scope,
    pairs: &mut PairTable<'_>,
    sets: &[EffSet],
    parameters: &[OwnName],
    arguments: &[u32],
) -> Result<bool, Memory>
    requires context { IsScopeOf pairs.old.about.program pairs.old.about.scope (scope_of scope.now) }
    requires mode { pairs.old.about.mode ≡ Mode.Annotated }
    requires written { AreWritten pairs.old.about.program parameters.now }
    requires sets { AreSets 512 sets.now }
    requires numbers { length arguments.now ≡ length parameters.now }
    ensures outcome { IfOk result (λ b. (b ≡ true) ↔ OfEach (IsArgument pairs.old.about.program pairs.old.about.scope scope.now.names sets.now) (handed_to parameters.now arguments.now)) }
    ensures same { pairs.new.about ≡ pairs.old.about }
{
    for (i, parameter) in parameters.iter().enumerate() {
        if !is_argument(alloc, scope, pairs, sets, parameter, arguments[i])? {
            return Ok(false);
        }
    }
    Ok(true)
}

/// The first premise of M-Inst that is false; each is tried for all arguments before the next one.
pub fn instance_misfit(
    alloc: Global,
    core: &Core,
    number: u16,
    scope: &Scope,
    pairs: &mut PairTable<'_>,
    target: u16,
    arguments: &[u32],
) -> Result<Option<Misfit>, Memory>
    requires context { IsScopeOf (program_of core.now) number (scope_of scope.now) }
    requires pairs { pairs.old.about ≡ about_in (program_of core.now) number Mode.Annotated }
    ensures outcome { IfOk result (λ o. InstanceComesTo (program_of core.now) number scope.now.names target arguments.now o) }
    ensures same { pairs.new.about ≡ pairs.old.about }
{
    if let Some(premise) = disagreement(core, ScopeKind::Resource, target, arguments) {
        return Ok(Some(Misfit {
            premise,
            missing: None,
        }));
    }
    let outer = scope.names.as_slice();
    let parameters = parameters_of(core, target);
    if !all_have_opened(alloc, core, outer, parameters, arguments)? {
        return Ok(Some(Misfit {
            premise: 3,
            missing: None,
        }));
    }
    let sets = arguments_sets(alloc, core, outer, names_of(core, target), arguments)?;
    let below = all_are_arguments(alloc, scope, pairs, sets.as_slice(), parameters, arguments)?;
    if !below {
        return Ok(Some(Misfit {
            premise: 4,
            missing: None,
        }));
    }
    let outside = first_outside_member(alloc, core, number, outer, parameters, arguments)?;
    if outside.is_some() {
        return Ok(Some(Misfit {
            premise: 5,
            missing: outside,
        }));
    }
    Ok(None)
}
