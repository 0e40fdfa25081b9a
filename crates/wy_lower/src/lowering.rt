//! Lowering a program with its instances in start order (docs/LANGUAGE.md, "Code of programs").

ghost use Rattle.std.specs.Prelude.{◌≡◌, ◌++◌, ◌∷◌, [], None, codes, false, length, map, nat_lt, slice_get, IfOk, IfErr, OnOk};
ghost use Rattle.wy_text.specs.LimitName.{limit_number};
ghost use Rattle.wy_text.specs.declared.limit.LimitName.TheVariants.{Bodies};
ghost use Rattle.wy_types.specs.Program.{program_of, scope_of};
ghost use Rattle.wy_meaning.specs.Starts.{starts_of, started_of, scope_names, last_scope, main_actuals};
ghost use Rattle.wy_lower.specs.Lowering.{start_code, bodies_code, scope_arguments, literals_code, grants_code, instance_code, scopes_bodies, scopes_code, text_table, method_table, lowered};
ghost use Rattle.wy_lower.specs.Counts.{body_count, lowering_limit};
ghost use Rattle.wy_lower.specs.EmitScopes.{AreTabled, IsTabled};
ghost use Rattle.wy_lower.specs.EmitBodies.{IsWhole, whole_program, whole_starts};
ghost use Rattle.wy_lower.specs.EmitLowered.{IsLowerRefusal, scope_code};

use crate::emitting::{Whole, add_bodies, is_program};
use crate::entries::put_entries;
use crate::gathering::Names;
use crate::indexes::{add_texts, word};
use crate::kinds::literals_code;
use crate::limits::{has_too_many_bodies, some_slots_above};
use crate::scopes::{Tables, tables_of_scopes};
use crate::starting::{add_instances, instance_code, main_actuals, put_grants};
use indexmap::IndexSet;
use std::alloc::Global;
use wy_code::code::{Body, Code, Grant, Scope};
use wy_text::limit::LimitName;
use wy_text::list::Items;
use wy_text::text::Memory;
use wy_types::linked::{Actual, Linked};
use wy_types::resolved::{self, Core};

/// Why a program is not lowered.
#[derive(Drop)]
pub enum LowerRefusal {
    /// It passes this limit: it has more than 16,384 bodies, or a body with more than 256 slots.
    Limit(LimitName),
    /// Memory was wanting.
    Memory,
}

impl From<Memory> for LowerRefusal {
    ghost use Rattle.std.specs.Prelude.{◌≡◌};
    ghost use Rattle.wy_lower.specs.declared.lowering.LowerRefusal.TheVariants as refusal;

    ghost from_gives = { λ _ e. e ≡ refusal.Memory };

    fn from(_memory: Memory) -> LowerRefusal {
        LowerRefusal::Memory
    }
}

/// The number of the program among the scopes, of which it is the last.
fn last_scope(core: &Core) -> usize
    ensures { result ≡ last_scope (map scope_of core.now.scopes) }
{
    core.scopes.len().saturating_sub(1)
}

/// Adds what the program's own names stand for.
fn add_actuals(
    alloc: Global,
    core: &Core,
    linked: &Linked,
    actuals: &mut Vec<Actual>,
) -> Result<(), Memory>
    requires { actuals.old.items ≡ [] }
    ensures { OnOk result (actuals.new.items ≡ main_actuals (map started_of linked.now) 0 (scope_names (slice_get (map scope_of core.now.scopes) (last_scope (map scope_of core.now.scopes))))) }
{
    match core.scopes.get(last_scope(core)) {
        Some(scope) => main_actuals(alloc, linked, scope.names.as_slice(), actuals),
        None => Ok(()),
    }
}

/// Adds the grants of the program.
fn add_grants(core: &Core, grants: &mut Items<Grant>) -> Result<(), Memory>
    requires { grants.old ≡ [] }
    ensures { OnOk result (grants.new ≡ grants_code (scope_names (slice_get (map scope_of core.now.scopes) (last_scope (map scope_of core.now.scopes))))) }
{
    match core.scopes.get(last_scope(core)) {
        Some(scope) => put_grants(scope.names.as_slice(), grants),
        None => Ok(()),
    }
}

/// Fills the tables of a program.
fn fill_tables(
    alloc: Global,
    core: &Core,
    linked: &Linked,
    actuals: &mut Vec<Actual>,
    names: &mut Names,
    tables: &mut Vec<Tables>,
) -> Result<(), Memory>
    requires actuals { actuals.old.items ≡ [] }
    requires texts { names.old.texts.keys ≡ [] }
    requires methods { names.old.methods.keys ≡ [] }
    requires tables { tables.old.items ≡ [] }
    ensures actuals { OnOk result (actuals.new.items ≡ main_actuals (map started_of linked.now) 0 (scope_names (slice_get (map scope_of core.now.scopes) (last_scope (map scope_of core.now.scopes))))) }
    ensures texts { OnOk result (names.new.texts.keys ≡ text_table (program_of core.now)) }
    ensures methods { OnOk result (names.new.methods.keys ≡ method_table (program_of core.now)) }
    ensures tables { OnOk result (AreTabled (map scope_of core.now.scopes) tables.new.items) }
{
    add_actuals(alloc, core, linked, actuals)?;
    tables_of_scopes(alloc, names, core.scopes.as_slice(), tables)?;
    put_entries(alloc, &mut names.methods, core.scopes.as_slice())
}

/// A program with its tables.
fn whole_of<'a>(alloc: Global, core: &'a Core, linked: &'a Linked) -> Result<Whole<'a>, Memory>
    ensures whole { IfOk result (λ w. IsWhole w) }
    ensures core { IfOk result (λ w. w.core.now ≡ core.now) }
    ensures linked { IfOk result (λ w. w.linked.now ≡ linked.now) }
{
    let mut actuals = Vec::new(alloc);
    let mut names = Names {
        texts: IndexSet::new(alloc),
        methods: IndexSet::new(alloc),
        wanting: false,
    };
    let mut tables = Vec::new(alloc);
    fill_tables(alloc, core, linked, &mut actuals, &mut names, &mut tables)?;
    let Names { texts, methods, .. } = names;
    Ok(Whole {
        core,
        linked,
        actuals,
        texts,
        methods,
        tables,
    })
}

/// How many arguments the instances of a scope are handed: one for each own name of a module, and none for the program.
fn scope_arguments(scope: &resolved::Scope) -> usize
    ensures { result ≡ scope_arguments (scope_of scope.now) }
{
    if is_program(scope.kind) {
        0
    } else {
        scope.names.len()
    }
}

/// Adds the code of a scope and of its bodies.
fn add_scope(
    alloc: Global,
    whole: &Whole,
    scope: &resolved::Scope,
    tables: &Tables,
    bodies: &mut Items<Body>,
    scopes: &mut Items<Scope>,
) -> Result<(), Memory>
    requires whole { IsWhole whole.now }
    requires tables { IsTabled (scope_of scope.now) tables.now }
    ensures bodies { OnOk result (bodies.new ≡ bodies.old ++ (start_code (whole_program whole.now) (whole_starts whole.now) (scope_of scope.now) ∷ bodies_code (whole_program whole.now) (whole_starts whole.now) (scope_of scope.now) 0 (scope_of scope.now).bodies)) }
    ensures scopes { OnOk result (scopes.new ≡ scopes.old ++ scope_code (whole_program whole.now) (whole_starts whole.now) (length bodies.old) (scope_of scope.now) ∷ []) }
{
    let first = bodies.len();
    add_bodies(alloc, whole, scope, tables, bodies)?;
    let arguments = word(scope_arguments(scope))?;
    let start = word(first)?;
    let literals = literals_code(alloc, whole, scope, tables, first)?;
    scopes.push(Scope {
        arguments,
        start,
        literals,
    })
}

/// Adds the code of all scopes and of their bodies.
fn add_scopes(
    alloc: Global,
    whole: &Whole,
    bodies: &mut Items<Body>,
    scopes: &mut Items<Scope>,
) -> Result<(), Memory>
    requires whole { IsWhole whole.now }
    requires bodies { bodies.old ≡ [] }
    requires scopes { scopes.old ≡ [] }
    ensures bodies { OnOk result (bodies.new ≡ scopes_bodies (whole_program whole.now) (whole_starts whole.now) (whole_program whole.now).scopes) }
    ensures scopes { OnOk result (scopes.new ≡ scopes_code (whole_program whole.now) (whole_starts whole.now) 0 (whole_program whole.now).scopes) }
{
    let all = whole.core.scopes.as_slice();
    for k in 0..all.len() {
        add_scope(alloc, whole, &all[k], &whole.tables[k], bodies, scopes)?;
    }
    Ok(())
}

/// Code that has nothing yet but how it starts: by the program, which is the last of its scopes.
fn no_code(alloc: Global, core: &Core) -> Result<Code, Memory>
    ensures { IfOk result (λ code. code ≡ record {
      grants = [];
      methods = [];
      texts = [];
      bodies = [];
      scopes = [];
      instances = [];
      main = instance_code (record { name = codes "main"; scope = last_scope (map scope_of core.now.scopes); actuals = [] });
    }) }
{
    let main = instance_code(alloc, b"main", last_scope(core), &[])?;
    Ok(Code {
        grants: Items::new(alloc),
        methods: Items::new(alloc),
        texts: Items::new(alloc),
        bodies: Items::new(alloc),
        scopes: Items::new(alloc),
        instances: Items::new(alloc),
        main,
    })
}

/// Adds to the code of a program's bodies and scopes what else it has.
fn fill_code(
    alloc: Global,
    core: &Core,
    linked: &Linked,
    whole: &Whole,
    code: &mut Code,
) -> Result<(), Memory>
    requires whole { IsWhole whole.now }
    requires core { whole.now.core.now ≡ core.now }
    requires linked { whole.now.linked.now ≡ linked.now }
    requires code { code.old ≡ record {
      grants = [];
      methods = [];
      texts = [];
      bodies = scopes_bodies (whole_program whole.now) (whole_starts whole.now) (whole_program whole.now).scopes;
      scopes = scopes_code (whole_program whole.now) (whole_starts whole.now) 0 (whole_program whole.now).scopes;
      instances = [];
      main = instance_code (record { name = codes "main"; scope = last_scope (map scope_of core.now.scopes); actuals = [] });
    } }
    ensures { OnOk result (code.new ≡ lowered (program_of core.now) (starts_of (program_of core.now) (map started_of linked.now))) }
{
    add_grants(core, &mut code.grants)?;
    add_texts(&whole.methods, &mut code.methods)?;
    add_texts(&whole.texts, &mut code.texts)?;
    add_instances(alloc, linked, &mut code.instances)
}

/// Adds the code of a program that has few enough bodies, unless one of them has too many slots.
fn add_within(
    alloc: Global,
    core: &Core,
    linked: &Linked,
    whole: &Whole,
    code: &mut Code,
) -> Result<(), LowerRefusal>
    requires whole { IsWhole whole.now }
    requires core { whole.now.core.now ≡ core.now }
    requires linked { whole.now.linked.now ≡ linked.now }
    requires few { nat_lt (limit_number Bodies) (body_count (program_of core.now).scopes) ≡ false }
    requires code { code.old ≡ record {
      grants = [];
      methods = [];
      texts = [];
      bodies = [];
      scopes = [];
      instances = [];
      main = instance_code (record { name = codes "main"; scope = last_scope (map scope_of core.now.scopes); actuals = [] });
    } }
    ensures code { OnOk result (code.new ≡ lowered (program_of core.now) (starts_of (program_of core.now) (map started_of linked.now))) }
    ensures within { OnOk result (lowering_limit (program_of core.now) (starts_of (program_of core.now) (map started_of linked.now)) ≡ None) }
    ensures refused { IfErr result (IsLowerRefusal (program_of core.now) (starts_of (program_of core.now) (map started_of linked.now))) }
{
    add_scopes(alloc, whole, &mut code.bodies, &mut code.scopes)?;
    if some_slots_above(LimitName::Slots.number(), code.bodies.as_slice()) {
        return Err(LowerRefusal::Limit(LimitName::Slots));
    }
    Ok(fill_code(alloc, core, linked, whole, code)?)
}

/// The code of a program that has few enough bodies, unless one of them has too many slots.
fn code_within(
    alloc: Global,
    core: &Core,
    linked: &Linked,
    whole: &Whole,
) -> Result<Code, LowerRefusal>
    requires whole { IsWhole whole.now }
    requires core { whole.now.core.now ≡ core.now }
    requires linked { whole.now.linked.now ≡ linked.now }
    requires few { nat_lt (limit_number Bodies) (body_count (program_of core.now).scopes) ≡ false }
    ensures code { IfOk result (λ code. code ≡ lowered (program_of core.now) (starts_of (program_of core.now) (map started_of linked.now))) }
    ensures within { IfOk result (λ _. lowering_limit (program_of core.now) (starts_of (program_of core.now) (map started_of linked.now)) ≡ None) }
    ensures refused { IfErr result (IsLowerRefusal (program_of core.now) (starts_of (program_of core.now) (map started_of linked.now))) }
{
    let mut code = no_code(alloc, core)?;
    add_within(alloc, core, linked, whole, &mut code)?;
    Ok(code)
}

/// The code of a program whose instances start in this order. `Limit` comes exactly where it passes a limit, that on bodies
/// before that on slots; else the one refusal is want of memory (docs/LANGUAGE.md, "Code of programs" and "Limits").
pub fn lower(alloc: Global, core: &Core, linked: &Linked) -> Result<Code, LowerRefusal>
    ensures code { IfOk result (λ code. code ≡ lowered (program_of core.now) (starts_of (program_of core.now) (map started_of linked.now))) }
    ensures within { IfOk result (λ _. lowering_limit (program_of core.now) (starts_of (program_of core.now) (map started_of linked.now)) ≡ None) }
    ensures refused { IfErr result (IsLowerRefusal (program_of core.now) (starts_of (program_of core.now) (map started_of linked.now))) }
{
    if has_too_many_bodies(core.scopes.as_slice()) {
        return Err(LowerRefusal::Limit(LimitName::Bodies));
    }
    let whole = whole_of(alloc, core, linked)?;
    code_within(alloc, core, linked, &whole)
}
