//! Things that have names.

ghost use Rattle.std.specs.Prelude.{◌≡◌, List, map};
ghost use Rattle.wy_syntax.specs.declared.types.Name.{Name};
ghost use Rattle.wy_syntax.specs.declared.types.Param.{Param};
ghost use Rattle.wy_syntax.specs.declared.types.MemberSet.{MemberSet};
ghost use Rattle.wy_syntax.specs.declared.items.Define.{Define};
ghost use Rattle.wy_syntax.specs.declared.items.Grant.{Grant};
ghost use Rattle.wy_syntax.specs.Collected.{Adds};
ghost use Rattle.wy_symbols.specs.Lent.{lent_name};
ghost use Rattle.wy_symbols.specs.Things.{type_name, module_name, line_word};

use crate::collected::WrittenNames;
use crate::gathering::ModuleView;
use wy_syntax::items::{Define, Grant, Line, TypeDecl};
use wy_syntax::types::{MemberSet, Name, Param};

/// Something with a name.
pub trait Named {
    // The name.
    ghost name_of: { Self → Name };

    /// The name. It takes no memory.
    fn name(&self) -> &Name
        ensures { result.now ≡ name_of self.now };
}

impl Named for Name {
    ghost name_of = { λ n. n };

    fn name(&self) -> &Name {
        self
    }
}

impl<'a> Named for &'a Name {
    ghost name_of = { lent_name };

    fn name(&self) -> &Name {
        self
    }
}

impl Named for Param {
    ghost name_of = { λ (p : Param). p.name };

    fn name(&self) -> &Name {
        &self.name
    }
}

impl Named for MemberSet {
    ghost name_of = { λ (m : MemberSet). m.name };

    fn name(&self) -> &Name {
        &self.name
    }
}

impl Named for Define {
    ghost name_of = { λ (d : Define). d.name };

    fn name(&self) -> &Name {
        &self.name
    }
}

impl Named for Grant {
    ghost name_of = { λ (g : Grant). g.name };

    fn name(&self) -> &Name {
        &self.name
    }
}

impl Named for Line {
    ghost name_of = { line_word };

    fn name(&self) -> &Name {
        match self {
            Line::Instance(name, _, _) => name,
            Line::Import(name, _, _, _) => name,
        }
    }
}

impl<'a> Named for &'a TypeDecl {
    ghost name_of = { type_name };

    fn name(&self) -> &Name {
        &self.name
    }
}

impl<'a> Named for ModuleView<'a> {
    ghost name_of = { module_name };

    fn name(&self) -> &Name {
        self.name
    }
}

/// Adds the names of things.
pub fn add_names<'a, T: Named>(names: &mut WrittenNames<'a>, things: &'a [T])
    ensures { Adds (map T.name_of things.now) names.old names.new }
{
    for thing in things {
        names.add(thing.name());
    }
}
