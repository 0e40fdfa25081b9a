//! Sets, types and signatures.
ghost use Rattle.std.specs.Prelude.{◌≡◌, ◌++◌};
ghost use Rattle.wy_syntax.specs.Collected.{Adds};
ghost use Rattle.wy_syntax.specs.Canonical.{atom_text, effect_text, member_set_text, name_text, owner_text, param_text, set_text, signature_text, type_text};

use crate::printing::output::{Output, push};
use crate::printing::pieces::{Printed, push_behind, push_list};
use crate::types::{AtomUse, MemberSet, Name, Param, SetUse, Signature, TypeUse};

impl Printed for Name {
    ghost text = { name_text };

    fn push_to(&self, out: &mut Output) {
        push(out, self.text.as_bytes())
    }
}

/// Adds an owner and a dot, where there is one.
fn push_owner(out: &mut Output, owner: &Option<Name>)
    ensures { Adds (owner_text owner.now) out.old out.new }
{
    if let Some(owner) = owner {
        owner.push_to(out);
        push(out, b".");
    }
}

impl Printed for AtomUse {
    ghost text = { atom_text };

    fn push_to(&self, out: &mut Output) {
        push_owner(out, &self.owner);
        self.member.push_to(out)
    }
}

/// Adds a set in braces.
pub fn push_set(out: &mut Output, set: &SetUse)
    ensures { Adds (set_text set.now) out.old out.new }
{
    push_list(out, b"{", set.as_slice(), b"}")
}

/// Adds a name and a set with a sign or a word between.
pub fn push_name_and_set(out: &mut Output, name: &Name, between: &[u8], set: &SetUse)
    ensures { Adds (name.now.text ++ between.now ++ set_text set.now) out.old out.new }
{
    name.push_to(out);
    push(out, between);
    push_set(out, set)
}

impl Printed for MemberSet {
    ghost text = { member_set_text };

    fn push_to(&self, out: &mut Output) {
        push_name_and_set(out, &self.name, b" = ", &self.effect)
    }
}

/// Adds a type.
pub fn push_type(out: &mut Output, type_use: &TypeUse)
    ensures { Adds (type_text type_use.now) out.old out.new }
{
    match type_use {
        TypeUse::Int(_) => push(out, b"Int"),
        TypeUse::Bool(_) => push(out, b"Bool"),
        TypeUse::Text(_) => push(out, b"String"),
        TypeUse::Unit(_) => push(out, b"Unit"),
        TypeUse::Bare(name) => name.push_to(out),
        TypeUse::With(name, sets) => {
            name.push_to(out);
            push_list(out, b"[", sets.as_slice(), b"]")
        }
        TypeUse::At(name, set) => push_name_and_set(out, name, b" at ", set),
    }
}

impl Printed for Param {
    ghost text = { param_text };

    fn push_to(&self, out: &mut Output) {
        self.name.push_to(out);
        push(out, b": ");
        push_type(out, &self.type_use)
    }
}

/// Adds an effect and the space before the result, where one is written.
fn push_effect(out: &mut Output, effect: &Option<SetUse>)
    ensures { Adds (effect_text effect.now) out.old out.new }
{
    if let Some(effect) = effect {
        push_set(out, effect);
        push(out, b" ");
    }
}

/// Adds what stands before a method's body.
pub fn push_signature(out: &mut Output, signature: &Signature)
    ensures { Adds (signature_text signature.now) out.old out.new }
{
    push_behind(out, b"def ", &signature.name);
    push_list(out, b"(", signature.params.as_slice(), b"): ");
    push_effect(out, &signature.effect);
    push_type(out, &signature.result)
}
