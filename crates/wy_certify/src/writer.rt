//! Where a writer of steps stands, and what it looks up there. Where a look-up finds nothing, as in no scope with derivations, it
//! gives `()`'s type or no types.

ghost use Rattle.std.specs.Prelude.{◌≡◌, [], IfOk};
ghost use Rattle.wy_types.specs.declared.types.TypeRef.TheVariants.{Unit as Nothing};
ghost use Rattle.wy_certify.specs.Gathered.{Writes};
ghost use Rattle.wy_certify.specs.Written.{this_typ, name_typ, local_typ, var_typ, field_typs, method_at, params_of, effect_of, result_of};
ghost use Rattle.wy_certify.specs.Writer.{IsMethod, context_of};

use crate::output::Output;
use std::alloc::Global;
use wy_effects::set::EffSet;
use wy_premises::{declared_type, field_types, var_field};
use wy_text::list::Items;
use wy_text::text::{Memory, Text, from_vec};
use wy_types::code::{Binding, Variable};
use wy_types::methods::find_method;
use wy_types::resolved::{Core, Scope};
use wy_types::types::{Method, TypeList, TypeRef};

/// A method without a name, parameters and effect that gives `()`. It takes no memory.
fn no_method(alloc: Global) -> Method
    ensures params { result.params ≡ [] }
    ensures effect { result.effect ≡ [] }
    ensures result { result.result ≡ Nothing }
{
    Method {
        name: from_vec(Vec::new(alloc)),
        params: Items::new(alloc),
        effect: EffSet::empty(alloc),
        result: TypeRef::Unit,
    }
}

/// The scope whose steps are written, the types of its `val`s, and the current object.
#[derive(Drop)]
pub struct Writer<'a> {
    pub alloc: Global,
    pub core: &'a Core,
    /// The scope's number among the scopes of the core.
    pub number: u16,
    pub scope: &'a Scope,
    pub locals: &'a [TypeRef],
    /// The literal of the current object; none in the start of a scope.
    pub owner: Option<u32>,
}

impl<'a> Writer<'a> {
    /// The type of the current object.
    #[tactic(auto, unfolding(crate::specs::Writer::context_of, crate::specs::Written::this_typ))]
    pub fn object_type(&self) -> TypeRef
        ensures { result ≡ this_typ (context_of self.now) }
    {
        match self.owner {
            Some(literal) => TypeRef::Own { literal },
            None => TypeRef::Unit,
        }
    }

    /// The type of the `val` of a number.
    #[tactic(auto, unfolding(crate::specs::Writer::context_of, crate::specs::Written::local_typ))]
    pub fn local_type(&self, number: u32) -> Result<TypeRef, Memory>
        ensures { IfOk result (λ t. t ≡ local_typ (context_of self.now) number) }
    {
        match self.locals.get(number as usize) {
            Some(typ) => typ.copy(self.alloc),
            None => Ok(TypeRef::Unit),
        }
    }

    /// The type of what a name stands for.
    #[tactic(auto, unfolding(crate::specs::Writer::context_of, crate::specs::Written::name_typ, crate::specs::Written::local_typ))]
    pub fn name_type(&self, binding: Binding) -> Result<TypeRef, Memory>
        ensures { IfOk result (λ t. t ≡ name_typ (context_of self.now) binding) }
    {
        if let Binding::Variable(Variable::Local(number)) = binding {
            return self.local_type(number);
        }
        match declared_type(self.scope, self.owner, binding) {
            Some(typ) => typ.copy(self.alloc),
            None => Ok(TypeRef::Unit),
        }
    }

    /// The type of the `var` field of the current object that a name stands for.
    #[tactic(auto, unfolding(crate::specs::Writer::context_of, crate::specs::Written::var_typ))]
    pub fn var_type(&self, binding: Binding) -> Result<TypeRef, Memory>
        ensures { IfOk result (λ t. t ≡ var_typ (context_of self.now) binding) }
    {
        match var_field(self.scope, self.owner, binding) {
            Some(field) => field.typ.copy(self.alloc),
            None => Ok(TypeRef::Unit),
        }
    }

    /// The types of the fields of the module, by 0, or of a literal.
    pub fn field_types(&self, literal: u32) -> Result<TypeList, Memory>
        ensures { IfOk result (λ ts. ts ≡ field_typs (context_of self.now) literal) }
    {
        field_types(self.alloc, self.scope, literal)
    }

    /// The method of a name that a type has, or one without parameters and effect that gives `()`.
    #[tactic(auto, unfolding(crate::specs::Writer::context_of, crate::specs::Written::method_at, crate::specs::Written::params_of, crate::specs::Written::effect_of, crate::specs::Written::result_of))]
    fn method_of(&self, typ: &TypeRef, name: &Text) -> Result<Method, Memory>
        ensures params { IfOk result (λ m. m.params ≡ params_of (context_of self.now) (method_at (context_of self.now) typ.now name.now)) }
        ensures effect { IfOk result (λ m. m.effect ≡ effect_of (context_of self.now) (method_at (context_of self.now) typ.now name.now)) }
        ensures result { IfOk result (λ m. m.result ≡ result_of (context_of self.now) (method_at (context_of self.now) typ.now name.now)) }
    {
        match find_method(self.alloc, self.core, self.number, typ, name)? {
            Some(method) => Ok(method),
            None => Ok(no_method(self.alloc)),
        }
    }

    /// .. for steps that are gathered, which remember that memory was wanting for it.
    pub fn method_for(&self, out: &mut Output, typ: &TypeRef, name: &Text) -> Method
        ensures { Writes [] (IsMethod (context_of self.now) typ.now name.now result) out.old out.new }
    {
        match self.method_of(typ, name) {
            Ok(method) => method,
            Err(Memory) => {
                out.lose();
                no_method(self.alloc)
            }
        }
    }

    /// The type of a call of a method of a name on a receiver of a type.
    pub fn call_type(&self, receiver: &TypeRef, name: &Text) -> Result<TypeRef, Memory>
        ensures { IfOk result (λ t. t ≡ result_of (context_of self.now) (method_at (context_of self.now) receiver.now name.now)) }
    {
        let method = self.method_of(receiver, name)?;
        Ok(method.result)
    }
}
