//! The effects of all methods that a type reaches, by the polarity of the paths to them.

ghost use Rattle.std.specs.Prelude.{◌≡◌, ◌↔◌, ◌∷◌, [], ℕ, Bool, IfOk, OnOk, IsTrue, map, true, false, if◌then◌else◌};
ghost use Rattle.wy_text.specs.Members.{In as IsIn};
ghost use Rattle.wy_effects.specs.Bounds.{IsUnder};
ghost use Rattle.wy_effects.specs.Rows.{IsInAll};
ghost use Rattle.wy_types.specs.declared.types.TypeRef.{TypeRef};
ghost use Rattle.wy_types.specs.Program.{Program, program_of};
ghost use Rattle.wy_types.specs.Bounds.{bounds_of};
ghost use Rattle.wy_types.specs.Types.{signature, methods_of};
ghost use Rattle.wy_types.specs.Fitting.{IsTypeOf};
ghost use Rattle.wy_types.specs.InRange.{IsInRange};
ghost use Rattle.wy_types.specs.Paths.{IsEffect, IsSafe};
ghost use Rattle.wy_bounds.specs.Gathering.{wide_of};
ghost use Rattle.wy_bounds.specs.Matrix.{IsMatrix, no_effects, with_effect, with_effects, side_of};

use crate::entry::Entry;
use crate::reaching::all_reached;
use crate::table::Table;
use std::alloc::Global;
use wy_effects::rows::SetRows;
use wy_effects::set::EffSet;
use wy_text::text::Memory;
use wy_types::bounds::widened;
use wy_types::methods::methods;
use wy_types::resolved::Core;
use wy_types::types::{Method, TypeRef};

/// The effects of the methods that are reached by paths of one polarity: their atoms together, and as a
/// row for each effect the atoms that are within it.
#[derive(Drop)]
pub struct Side {
    atoms: EffSet,
    rows: SetRows,
}

impl Side {
    /// No effects.
    fn new(alloc: Global) -> Side
        ensures { result ≡ no_effects }
    {
        Side {
            atoms: EffSet::empty(alloc),
            rows: SetRows::new(alloc),
        }
    }

    /// Adds the effect of a method, and as a row what it is widened to in a scope.
    fn add(&mut self, core: &Core, scope: u16, effect: &EffSet) -> Result<(), Memory>
        requires { IsInRange (program_of core.now) }
        ensures { OnOk result (self.new ≡ with_effect (wide_of (program_of core.now) scope) effect.now self.old) }
    {
        self.rows.push(&widened(core, scope, effect))?;
        effect.union_into(&mut self.atoms)?;
        Ok(())
    }

    /// Adds the effects of the methods.
    fn add_all(&mut self, core: &Core, scope: u16, methods: &[Method]) -> Result<(), Memory>
        requires { IsInRange (program_of core.now) }
        ensures { OnOk result (self.new ≡ with_effects (wide_of (program_of core.now) scope) (map signature methods.now) self.old) }
    {
        for m in methods {
            self.add(core, scope, &m.effect)?;
        }
        Ok(())
    }
}

/// Adds the effects of the methods of an entry to those of its polarity.
fn add_entry(
    alloc: Global,
    core: &Core,
    scope: u16,
    positive: &mut Side,
    negative: &mut Side,
    entry: &Entry,
) -> Result<(), Memory>
    requires { IsInRange (program_of core.now) }
    ensures positive { OnOk result (positive.new ≡ side_of (program_of core.now) scope true (entry.now ∷ []) positive.old) }
    ensures negative { OnOk result (negative.new ≡ side_of (program_of core.now) scope false (entry.now ∷ []) negative.old) }
{
    let found = methods(alloc, core, scope, &entry.typ)?;
    if entry.positive {
        positive.add_all(core, scope, found.as_slice())
    } else {
        negative.add_all(core, scope, found.as_slice())
    }
}

/// What a type reaches, and the effects of its methods by polarity. It answers the questions of
/// `effects`, `ho_effects`, `safe` and `ho_safe` on the type that it was built for, without memory
/// (docs/LANGUAGE.md, "Paths and polarity").
#[derive(Drop)]
pub struct Matrix {
    table: Table,
    positive: Side,
    negative: Side,
}

impl Matrix {
    /// The table of a type's paths. The core's signatures are in range, as those of every resolved
    /// program are, and so are the numbers in the type; a declared type has a set for each abstract
    /// member, or is bare.
    pub fn build(alloc: Global, core: &Core, scope: u16, t: &TypeRef) -> Result<Matrix, Memory>
        requires core { IsInRange (program_of core.now) }
        requires typ { IsTypeOf (program_of core.now) scope t.now }
        ensures { IfOk result (IsMatrix (program_of core.now) scope t.now) }
    {
        let table = all_reached(alloc, core, scope, t)?;
        let mut positive = Side::new(alloc);
        let mut negative = Side::new(alloc);
        for entry in table.as_slice() {
            add_entry(alloc, core, scope, &mut positive, &mut negative, entry)?;
        }
        Ok(Matrix {
            table,
            positive,
            negative,
        })
    }

    /// All that the type reaches.
    pub(crate) fn entries(&self) -> &[Entry]
        ensures { result.now ≡ self.now.table }
    {
        self.table.as_slice()
    }

    /// The effects at a polarity.
    fn side(&self, positive: bool) -> &Side
        ensures { result.now ≡ (if positive then self.now.positive else self.now.negative) }
    {
        if positive {
            &self.positive
        } else {
            &self.negative
        }
    }

    /// The atoms of all effects at a polarity.
    fn atoms_at(&self, positive: bool) -> EffSet
        ensures { (p : Program) (scope : ℕ) (t : TypeRef)
            → IsMatrix p scope t self.now
            → (a : ℕ)
            → IsIn a result ↔ IsEffect TypeRef (methods_of p scope) t positive a }
    {
        match self.side(positive).atoms.copy() {
            Ok(atoms) => atoms,
            Err(_) => unreachable!(),
        }
    }

    /// Whether the set is within every effect at a polarity.
    pub(crate) fn is_safe_at(&self, positive: bool, e: &EffSet) -> bool
        ensures { (p : Program) (scope : ℕ) (t : TypeRef)
            → IsMatrix p scope t self.now
            → IsTrue result ↔ IsSafe TypeRef (methods_of p scope) (IsUnder (bounds_of p scope)) t positive e.now }
    {
        self.side(positive).rows.all_include(e)
    }

    /// The type's effects, as `effects` gives them. It takes no memory.
    pub fn effects(&self) -> EffSet
        ensures { (p : Program) (scope : ℕ) (t : TypeRef)
            → IsMatrix p scope t self.now
            → (a : ℕ)
            → IsIn a result ↔ IsEffect TypeRef (methods_of p scope) t true a }
    {
        self.atoms_at(true)
    }

    /// The type's higher-order effects, as `ho_effects` gives them. It takes no memory.
    pub fn ho_effects(&self) -> EffSet
        ensures { (p : Program) (scope : ℕ) (t : TypeRef)
            → IsMatrix p scope t self.now
            → (a : ℕ)
            → IsIn a result ↔ IsEffect TypeRef (methods_of p scope) t false a }
    {
        self.atoms_at(false)
    }

    /// Whether the type is safe for the set, as `safe` says it. It takes no memory.
    pub fn is_safe(&self, e: &EffSet) -> bool
        ensures { (p : Program) (scope : ℕ) (t : TypeRef)
            → IsMatrix p scope t self.now
            → IsTrue result ↔ IsSafe TypeRef (methods_of p scope) (IsUnder (bounds_of p scope)) t true e.now }
    {
        self.is_safe_at(true, e)
    }

    /// Whether the type is higher-order safe for the set, as `ho_safe` says it. It takes no memory.
    pub fn is_ho_safe(&self, e: &EffSet) -> bool
        ensures { (p : Program) (scope : ℕ) (t : TypeRef)
            → IsMatrix p scope t self.now
            → IsTrue result ↔ IsSafe TypeRef (methods_of p scope) (IsUnder (bounds_of p scope)) t false e.now }
    {
        self.is_safe_at(false, e)
    }
}
