//! Nodes one after the other: whether the next one says what a form gives, and the T-Subs that may follow.

ghost use Rattle.std.specs.Prelude.{◌≡◌, IfOk, nat_eq};
ghost use Rattle.std.specs.Option.{option_copied};
ghost use Rattle.wy_types.specs.Program.{program_of, scope_of};
ghost use Rattle.wy_cert.specs.Spelled.{rule_byte};
ghost use Rattle.wy_rules.specs.Canonical.{both, same_type, same_numbers};
ghost use Rattle.wy_proving.specs.Reading.{same_types, says_rule, says_typed, says_untyped};
ghost use Rattle.wy_recheck.specs.Nodes.{IsReader, reading_of, lists_of, subs_read, node_read, IsRead, IsPassed, SetStands, IsSubType, IsSubEffect, IsSubOf, stands_in, included_in, allowed_in, listed_in};

use crate::failure::Failure;
use crate::pair_set::PairSet;
use crate::types::{standing_set, type_at};
use std::alloc::Global;
use wy_cert::{CertNode, CertScope, Rule};
use wy_effects::set::EffSet;
use wy_proving::laws::lists_are_exact;
use wy_text::fault::Place;
use wy_text::text::Memory;
use wy_types::bounds::widened;
use wy_types::resolved::{Core, Scope};
use wy_types::types::{TypeList, TypeRef};

/// What the nodes of a scope are read by.
#[derive(Drop)]
pub struct Reader<'a> {
    pub alloc: Global,
    pub core: &'a Core,
    /// The scope's number among the scopes of the core.
    pub number: u16,
    pub scope: &'a Scope,
    /// Whether the scope is a plain module, whose nodes have no effects and whose pairs are plain ones.
    pub plain: bool,
    /// What the certificate says of the scope.
    pub part: &'a CertScope,
    /// The types that it lists.
    pub types: &'a [TypeRef],
    /// The pairs that it lists, by the kind of the scope.
    pub listed: &'a PairSet,
    /// The types of the scope's `val`s.
    pub locals: &'a [TypeRef],
    pub nodes: &'a [CertNode],
    /// The literal of the current object; none in the start of a scope.
    pub owner: Option<u32>,
}

/// A part that stands: its type and its effect.
#[derive(Drop)]
pub struct Read {
    pub typ: TypeRef,
    pub effect: EffSet,
}

/// Several parts that stand: the type of each, and the effect of all.
#[derive(Drop)]
pub struct Several {
    pub types: TypeList,
    pub effect: EffSet,
}

/// What a form's own node is to say but for its type and effect: its rule, its place, and how many parts it has.
#[derive(Clone, Copy)]
pub struct Form {
    pub rule: Rule,
    pub place: Place,
    pub parts: usize,
}

// ----------------------------------------------------------------------------
// What a node says

/// Whether two types are the same.
pub fn same(left: &TypeRef, right: &TypeRef) -> bool
    ensures { result ≡ same_type left.now right.now }
{
    left.same(right)
}

/// Whether two rules are the same.
fn same_rule(left: Rule, right: Rule) -> bool
    ensures { result ≡ nat_eq (rule_byte left) (rule_byte right) }
{
    left == right
}

/// Whether a node is of a form.
fn says_rule(node: &CertNode, form: Form) -> bool
    ensures { result ≡ says_rule form.rule form.place form.parts node.now }
{
    same_rule(node.rule, form.rule)
        && node.file == form.place.file as u32
        && node.line == form.place.line
        && node.column == form.place.column
        && node.parts as usize == form.parts
}

/// Whether a node has an effect.
fn says_effect(alloc: Global, node: &CertNode, effect: &EffSet) -> Result<bool, Memory>
    ensures { IfOk result (λ b. b ≡ same_numbers node.now.effect effect.now) }
{
    effect.is_set();
    match standing_set(alloc, node.effect.as_slice(), 512)? {
        None => Ok(false),
        Some(listed) => Ok(listed.same(effect)),
    }
}

impl Reader<'_> {
    /// Whether types are the same in the same order.
    pub fn same_types(&self, left: &[TypeRef], right: &[TypeRef]) -> bool
        ensures { result ≡ same_types (reading_of self.now) same_type (lists_of self.now) left.now right.now }
    {
        if left.len() != right.len() {
            return false;
        }
        for (i, typ) in left.iter().enumerate() {
            if !same(typ, &right[i]) {
                return false;
            }
        }
        true
    }

    /// Whether a node is of a form, with the type and the effect of a part.
    fn says_typed(&self, node: &CertNode, form: Form, part: &Read) -> Result<bool, Memory>
        requires reader { IsReader self.now }
        ensures { IfOk result (λ b. b ≡ says_typed (reading_of self.now) same_type (lists_of self.now) form.rule form.place form.parts part.now.typ part.now.effect node.now) }
    {
        if !says_rule(node, form) {
            return Ok(false);
        }
        match type_at(self.types, node.typ) {
            None => Ok(false),
            Some(typ) => {
                if !same(typ, &part.typ) {
                    return Ok(false);
                }
                says_effect(self.alloc, node, &part.effect)
            }
        }
    }

    /// Whether a node is of a form, with no type and this effect.
    fn says_untyped(&self, node: &CertNode, form: Form, effect: &EffSet) -> Result<bool, Memory>
        ensures { IfOk result (λ b. b ≡ says_untyped form.rule form.place form.parts effect.now node.now) }
    {
        if !says_rule(node, form) {
            return Ok(false);
        }
        if node.typ != 0 {
            return Ok(false);
        }
        says_effect(self.alloc, node, effect)
    }

    /// Goes past the next node, which is to be of a form, with the type and the effect of a part.
    fn pass_typed(
        &self,
        at: &mut usize,
        holds: bool,
        form: Form,
        part: &Read,
    ) -> Result<(), Failure>
        requires reader { IsReader self.now }
        ensures { IsPassed self.now.nodes.now (λ n. both holds (says_typed (reading_of self.now) same_type (lists_of self.now) form.rule form.place form.parts part.now.typ part.now.effect n)) at.old at.new result }
    {
        let here = *at;
        if here >= self.nodes.len() || !holds {
            return Err(Failure::At(here as u64));
        }
        if !self.says_typed(&self.nodes[here], form, part)? {
            return Err(Failure::At(here as u64));
        }
        *at = here + 1;
        Ok(())
    }

    /// Goes past the next node, which is to be of a form, with no type and this effect.
    pub fn pass_untyped(
        &self,
        at: &mut usize,
        holds: bool,
        form: Form,
        effect: &EffSet,
    ) -> Result<(), Failure>
        ensures { IsPassed self.now.nodes.now (λ n. both holds (says_untyped form.rule form.place form.parts effect.now n)) at.old at.new result }
    {
        let here = *at;
        if here >= self.nodes.len() || !holds {
            return Err(Failure::At(here as u64));
        }
        if !self.says_untyped(&self.nodes[here], form, effect)? {
            return Err(Failure::At(here as u64));
        }
        *at = here + 1;
        Ok(())
    }

    // ----------------------------------------------------------------------------
    // T-Sub

    /// Whether a pair is listed.
    fn lists(&self, left: &TypeRef, right: &TypeRef) -> Result<bool, Memory>
        requires reader { IsReader self.now }
        ensures { IfOk result (λ b. b ≡ listed_in self.now.part.now self.now.plain left.now right.now) }
    {
        lists_are_exact();
        if !self.plain {
            return self.listed.contains(self.alloc, left, right);
        }
        self.listed.contains_erased(self.alloc, left, right)
    }

    /// The set of a T-Sub, where it stands: one of the scope's atoms, in a plain module the empty one.
    fn standing(&self, listed: &[u32]) -> Result<Option<EffSet>, Memory>
        requires reader { IsReader self.now }
        ensures { IfOk result (SetStands (stands_in (scope_of self.now.scope.now) self.now.plain) listed.now) }
    {
        lists_are_exact();
        if !self.plain {
            return standing_set(self.alloc, listed, self.scope.atoms.len());
        }
        if !listed.is_empty() {
            return Ok(None);
        }
        Ok(Some(EffSet::empty(self.alloc)))
    }

    /// Whether a T-Sub may give the second effect for the first.
    fn includes(&self, effect: &EffSet, larger: &EffSet) -> bool
        requires reader { IsReader self.now }
        ensures { result ≡ included_in self.now.plain effect.now larger.now }
    {
        lists_are_exact();
        self.plain || larger.includes(effect)
    }

    /// Whether a declared effect allows the first one.
    pub fn allows(&self, effect: &EffSet, declared: &EffSet) -> bool
        requires reader { IsReader self.now }
        ensures { result ≡ allowed_in (program_of self.now.core.now) self.now.number self.now.plain effect.now declared.now }
    {
        lists_are_exact();
        self.plain || widened(self.core, self.number, declared).includes(effect)
    }

    /// The type that a T-Sub over a part gives; none where the node is of another form, or its pair is not listed.
    fn sub_type(
        &self,
        place: Place,
        part: &Read,
        node: &CertNode,
    ) -> Result<Option<&TypeRef>, Memory>
        requires reader { IsReader self.now }
        ensures { IfOk result (λ o. IsSubType self.now place part.now.typ node.now (option_copied o)) }
    {
        let form = Form {
            rule: Rule::Sub,
            place,
            parts: 1,
        };
        if !says_rule(node, form) {
            return Ok(None);
        }
        let Some(typ) = type_at(self.types, node.typ) else {
            return Ok(None);
        };
        if !self.lists(&part.typ, typ)? {
            return Ok(None);
        }
        Ok(Some(typ))
    }

    /// The effect that it gives; none where that is no set, or does not include the part's.
    fn sub_effect(&self, part: &Read, node: &CertNode) -> Result<Option<EffSet>, Memory>
        requires reader { IsReader self.now }
        ensures { IfOk result (IsSubEffect self.now part.now.effect node.now) }
    {
        match self.standing(node.effect.as_slice())? {
            None => Ok(None),
            Some(effect) => {
                if !self.includes(&part.effect, &effect) {
                    return Ok(None);
                }
                Ok(Some(effect))
            }
        }
    }

    /// The part that a T-Sub over one gives; none where the node is no such T-Sub.
    fn read_sub(&self, place: Place, part: &Read, node: &CertNode) -> Result<Option<Read>, Memory>
        requires reader { IsReader self.now }
        ensures { IfOk result (IsSubOf self.now place part.now node.now) }
    {
        let Some(typ) = self.sub_type(place, part, node)? else {
            return Ok(None);
        };
        let Some(effect) = self.sub_effect(part, node)? else {
            return Ok(None);
        };
        Ok(Some(Read {
            typ: typ.copy(self.alloc)?,
            effect,
        }))
    }

    /// The T-Subs that follow a part.
    fn read_subs(&self, at: &mut usize, place: Place, part: Read) -> Result<Read, Failure>
        requires reader { IsReader self.now }
        ensures { IsRead self.now.nodes.now (subs_read self.now at.old place part) at.new result }
    {
        let mut part = part;
        for i in *at..self.nodes.len() {
            let node = &self.nodes[i];
            if !same_rule(node.rule, Rule::Sub) {
                return Ok(part);
            }
            let Some(next) = self.read_sub(place, &part, node)? else {
                return Err(Failure::At(i as u64));
            };
            part = next;
            *at = i + 1;
        }
        Ok(part)
    }

    /// The node of a form whose premises hold or not, with the type and the effect that the form gives, and the T-Subs that follow.
    pub fn read_node(
        &self,
        at: &mut usize,
        holds: bool,
        form: Form,
        part: Read,
    ) -> Result<Read, Failure>
        requires reader { IsReader self.now }
        ensures { IsRead self.now.nodes.now (node_read self.now at.old holds form.rule form.place form.parts part.typ part.effect) at.new result }
    {
        self.pass_typed(at, holds, form, &part)?;
        self.read_subs(at, form.place, part)
    }
}
