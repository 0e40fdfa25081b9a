//! Whether a core's signatures and bounds are in range, for the cores that tests build.

ghost use Rattle.std.specs.Prelude.{◌≡◌, ◌≤◌, ℕ, List, Some, IfOk, IsTrue, length};
ghost use Rattle.wy_text.specs.Members.{In as IsIn};
ghost use Rattle.wy_effects.specs.EffSet.{IsSet, AreSets};
ghost use Rattle.wy_effects.specs.Bounds.{GoDown};
ghost use Rattle.wy_types.specs.Program.{program_of};
ghost use Rattle.wy_types.specs.Types.{signature};
ghost use Rattle.wy_types.specs.Fitting.{FitsType, FitsSignature, IsTypeOf};
ghost use Rattle.wy_types.specs.InRange.{IsInRange};

use wy_effects::set::EffSet;
use wy_text::text::Memory;
use wy_types::resolved::{Body, Core, Scope, TypeDecl};
use wy_types::types::{Method, TypeRef};

/// Whether the set's atoms are below the number.
fn set_fits(set: &EffSet, number: usize) -> Result<bool, Memory>
    ensures { IfOk result (λ b. IsTrue b → IsSet number set.now) }
{
    set.is_set();
    let atoms = set.atoms()?;
    for atom in &atoms {
        if atom.0 as usize >= number {
            return Ok(false);
        }
    }
    Ok(true)
}

/// Whether the atoms of each set are below the number.
fn sets_fit(sets: &[EffSet], number: usize) -> Result<bool, Memory>
    ensures { IfOk result (λ b. IsTrue b → AreSets number sets.now) }
{
    for set in sets {
        if !set_fits(set, number)? {
            return Ok(false);
        }
    }
    Ok(true)
}

/// Whether a type is in range, and no own type.
pub fn type_fits(core: &Core, number: usize, t: &TypeRef) -> Result<bool, Memory>
    ensures { IfOk result (λ b. IsTrue b → FitsType (program_of core.now) number 0 t.now) }
{
    match t {
        TypeRef::Int | TypeRef::Bool | TypeRef::Text | TypeRef::Unit => Ok(true),
        TypeRef::Named { decl, members } => match core.declarations.get(*decl as usize) {
            None => Ok(false),
            Some(d) => {
                if !members.is_empty() && members.len() != d.members.len() {
                    return Ok(false);
                }
                sets_fit(members.as_slice(), number)
            }
        },
        TypeRef::At { decl, bound } => {
            if *decl as usize >= core.declarations.len() {
                return Ok(false);
            }
            set_fits(bound, number)
        }
        TypeRef::Own { .. } => Ok(false),
    }
}

fn types_fit(core: &Core, number: usize, types: &[TypeRef]) -> Result<bool, Memory>
    ensures { IfOk result (λ b. IsTrue b → (t : TypeRef) → IsIn t types.now → FitsType (program_of core.now) number 0 t) }
{
    for t in types {
        if !type_fits(core, number, t)? {
            return Ok(false);
        }
    }
    Ok(true)
}

fn method_fits(core: &Core, number: usize, m: &Method) -> Result<bool, Memory>
    ensures fits { IfOk result (λ b. IsTrue b → FitsSignature (program_of core.now) number 0 (signature m.now)) }
    ensures few { IfOk result (λ b. IsTrue b → length m.now.params ≤ 16) }
{
    if m.params.len() > 16 || !types_fit(core, number, m.params.as_slice())? {
        return Ok(false);
    }
    if !set_fits(&m.effect, number)? {
        return Ok(false);
    }
    type_fits(core, number, &m.result)
}

fn methods_fit(core: &Core, number: usize, methods: &[Method]) -> Result<bool, Memory>
    ensures { IfOk result (λ b. IsTrue b → (m : Method) → IsIn m methods.now → FitsSignature (program_of core.now) number 0 (signature m) × (length m.params ≤ 16)) }
{
    for m in methods {
        if !method_fits(core, number, m)? {
            return Ok(false);
        }
    }
    Ok(true)
}

fn declarations_fit(core: &Core) -> Result<bool, Memory>
    ensures { IfOk result (λ b. IsTrue b → (x : TypeDecl) → IsIn x core.now.declarations → (m : Method) → IsIn m x.methods → FitsSignature (program_of core.now) (length x.members) 0 (signature m) × (length m.params ≤ 16)) }
{
    let declarations = core.declarations.as_slice();
    for declaration in declarations {
        let number = declaration.members.len();
        if !methods_fit(core, number, declaration.methods.as_slice())? {
            return Ok(false);
        }
    }
    Ok(true)
}

fn bodies_fit(core: &Core, bodies: &[Body]) -> Result<bool, Memory>
    ensures { IfOk result (λ b. IsTrue b → (x : Body) → IsIn x bodies.now → FitsSignature (program_of core.now) 512 0 (signature x.signature) × (length x.signature.params ≤ 16)) }
{
    for body in bodies {
        if !method_fits(core, 512, &body.signature)? {
            return Ok(false);
        }
    }
    Ok(true)
}

fn scopes_fit(core: &Core) -> Result<bool, Memory>
    ensures { IfOk result (λ b. IsTrue b → (s : Scope) → IsIn s core.now.scopes → (x : Body) → IsIn x s.bodies → FitsSignature (program_of core.now) 512 0 (signature x.signature) × (length x.signature.params ≤ 16)) }
{
    let scopes = core.scopes.as_slice();
    for one in scopes {
        if !bodies_fit(core, one.bodies.as_slice())? {
            return Ok(false);
        }
    }
    Ok(true)
}

/// Whether a bound's atoms are below the number.
fn bound_fits(bound: &Option<EffSet>, number: usize) -> Result<bool, Memory>
    ensures { IfOk result (λ b. IsTrue b → (s : List ℕ) → bound.now ≡ Some s → IsSet number s) }
{
    match bound {
        None => Ok(true),
        Some(set) => set_fits(set, number),
    }
}

/// Whether bounds are those of at most 512 atoms, and each names atoms before its own.
fn bounds_fit(bounds: &[Option<EffSet>]) -> Result<bool, Memory>
    ensures { IfOk result (λ b. IsTrue b → GoDown bounds.now × (length bounds.now ≤ 512)) }
{
    if bounds.len() > 512 {
        return Ok(false);
    }
    for number in 0..bounds.len() {
        if !bound_fits(&bounds[number], number)? {
            return Ok(false);
        }
    }
    Ok(true)
}

fn atoms_fit(core: &Core) -> Result<bool, Memory>
    ensures { IfOk result (λ b. IsTrue b → (s : Scope) → IsIn s core.now.scopes → GoDown s.bounds × (length s.bounds ≤ 512)) }
{
    let scopes = core.scopes.as_slice();
    for one in scopes {
        if !bounds_fit(one.bounds.as_slice())? {
            return Ok(false);
        }
    }
    Ok(true)
}

/// Whether a core's signatures and bounds are in range, and no signature names an own type.
pub fn is_in_range(core: &Core) -> Result<bool, Memory>
    ensures { IfOk result (λ b. IsTrue b → IsInRange (program_of core.now)) }
{
    if !scopes_fit(core)? || !atoms_fit(core)? {
        return Ok(false);
    }
    declarations_fit(core)
}

/// Whether a type may be handed in for a scope.
pub fn is_type_of(core: &Core, scope: u16, t: &TypeRef) -> Result<bool, Memory>
    ensures { IfOk result (λ b. IsTrue b → IsTypeOf (program_of core.now) scope t.now) }
{
    if let TypeRef::Own { literal } = t {
        return Ok(match core.scopes.get(scope as usize) {
            Some(s) => (*literal as usize) < s.literals.len(),
            None => false,
        });
    }
    type_fits(core, 512, t)
}
