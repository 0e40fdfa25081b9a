//! The own node of each form, behind those of its parts.

ghost use Rattle.std.specs.Prelude.{◌≡◌, [], IfOk, true, slice_get};
ghost use Rattle.std.specs.Option.{option_copied};
ghost use Rattle.wy_effects.specs.EffSet.{union};
ghost use Rattle.wy_types.specs.Program.{scope_of};
ghost use Rattle.wy_types.specs.View.{value_of};
ghost use Rattle.wy_rules.specs.Typing.{binding_type};
ghost use Rattle.wy_rules.specs.Canonical.{same_type};
ghost use Rattle.wy_cert.specs.declared.certificate.Rule.TheVariants as by;
ghost use Rattle.wy_proving.specs.Reading.{same_types, val_holds, part_stands};
ghost use Rattle.wy_recheck.specs.Nodes.{IsReader, reading_of, lists_of, node_read, this_read, name_read, unary_read, binary_read, text_read, call_read, new_read, ascribed_read, assigned_read, chosen_read, closed, closing, left, IsVal, IsRead};

use crate::failure::Failure;
use crate::reader::{Form, Read, Reader, Several, same};
use crate::types::type_at;
use wy_cert::Rule;
use wy_effects::set::EffSet;
use wy_premises::{
    binary_result, declared_type, field_types, joined, text_operands, text_result, unary_result,
    united, var_field,
};
use wy_text::fault::Place;
use wy_text::text::{Memory, Text};
use wy_types::code::{BinaryOperator, Binding, TextOperator, UnaryOperator, Value, Variable};
use wy_types::methods::find_method;
use wy_types::types::{Method, TypeRef};

/// A statement that was read: a node of T-Seq is to come behind the rest of the block.
#[derive(Drop)]
pub struct Waiting {
    /// Whether the premises of T-Seq hold.
    pub holds: bool,
    pub place: Place,
    /// The effect of the statement.
    pub effect: EffSet,
}

impl Reader<'_> {
    /// A part with no effect.
    fn without_effect(&self, typ: TypeRef) -> Read
        ensures { result ≡ record { typ = typ; effect = [] } }
    {
        Read {
            typ,
            effect: EffSet::empty(self.alloc),
        }
    }

    /// The node of a literal number, text, truth value or `()`.
    pub fn literal(&self, at: &mut usize, place: Place, typ: TypeRef) -> Result<Read, Failure>
        requires reader { IsReader self.now }
        ensures { IsRead self.now.nodes.now (node_read self.now at.old true by.Lit place 0 typ []) at.new result }
    {
        let form = Form {
            rule: Rule::Lit,
            place,
            parts: 0,
        };
        self.read_node(at, true, form, self.without_effect(typ))
    }

    /// .. of `this`.
    pub fn this(&self, at: &mut usize, place: Place) -> Result<Read, Failure>
        requires reader { IsReader self.now }
        ensures { IsRead self.now.nodes.now (this_read self.now at.old place) at.new result }
    {
        let form = Form {
            rule: Rule::This,
            place,
            parts: 0,
        };
        match self.owner {
            None => Err(Failure::At(*at as u64)),
            Some(literal) => {
                self.read_node(
                    at,
                    true,
                    form,
                    self.without_effect(TypeRef::Own { literal }),
                )
            }
        }
    }

    /// The type of what a name stands for.
    fn type_of_name(&self, binding: Binding) -> Option<&TypeRef>
        ensures { option_copied result ≡ binding_type (reading_of self.now) (scope_of self.now.scope.now) self.now.locals.now self.now.owner binding }
    {
        match binding {
            Binding::Variable(Variable::Local(number)) => type_at(self.locals, number),
            Binding::Variable(Variable::Parameter { .. }) | Binding::Field(_) | Binding::Own(_) =>
                declared_type(self.scope, self.owner, binding),
        }
    }

    /// .. of a name.
    pub fn name(&self, at: &mut usize, place: Place, binding: Binding) -> Result<Read, Failure>
        requires reader { IsReader self.now }
        ensures { IsRead self.now.nodes.now (name_read self.now at.old place binding) at.new result }
    {
        let form = Form {
            rule: Rule::Var,
            place,
            parts: 0,
        };
        match self.type_of_name(binding) {
            None => Err(Failure::At(*at as u64)),
            Some(typ) => {
                let typ = typ.copy(self.alloc)?;
                self.read_node(at, true, form, self.without_effect(typ))
            }
        }
    }

    /// .. of an operation on one operand.
    pub fn unary(
        &self,
        at: &mut usize,
        place: Place,
        operator: UnaryOperator,
        operand: Read,
    ) -> Result<Read, Failure>
        requires reader { IsReader self.now }
        ensures { IsRead self.now.nodes.now (unary_read self.now at.old place operator operand) at.new result }
    {
        let form = Form {
            rule: Rule::Op,
            place,
            parts: 1,
        };
        match unary_result(operator, &operand.typ) {
            None => Err(Failure::At(*at as u64)),
            Some(typ) => {
                operand.effect.is_set();
                let effect = operand.effect;
                self.read_node(at, true, form, Read { typ, effect })
            }
        }
    }

    /// .. of an operation on two operands.
    pub fn binary(
        &self,
        at: &mut usize,
        place: Place,
        operator: BinaryOperator,
        first: Read,
        second: Read,
    ) -> Result<Read, Failure>
        requires reader { IsReader self.now }
        ensures { IsRead self.now.nodes.now (binary_read self.now at.old place operator first second) at.new result }
    {
        let form = Form {
            rule: Rule::Op,
            place,
            parts: 2,
        };
        let holds = same(&second.typ, &first.typ);
        match binary_result(operator, &first.typ) {
            None => Err(Failure::At(*at as u64)),
            Some(typ) => {
                second.effect.is_set();
                let effect = united(first.effect, second.effect)?;
                self.read_node(at, holds, form, Read { typ, effect })
            }
        }
    }

    /// .. of an operation on texts.
    pub fn text_call(
        &self,
        at: &mut usize,
        place: Place,
        operator: TextOperator,
        parts: usize,
        operands: Several,
    ) -> Result<Read, Failure>
        requires reader { IsReader self.now }
        ensures { IsRead self.now.nodes.now (text_read self.now at.old place operator parts operands) at.new result }
    {
        let form = Form {
            rule: Rule::Op,
            place,
            parts,
        };
        let types = text_operands(self.alloc, operator)?;
        let holds = self.same_types(operands.types.as_slice(), types.as_slice());
        let typ = text_result(operator);
        let effect = operands.effect;
        self.read_node(at, holds, form, Read { typ, effect })
    }

    /// .. of a call, with so many parts: its receiver and its arguments.
    pub fn call(
        &self,
        at: &mut usize,
        place: Place,
        name: &Text,
        parts: usize,
        receiver: Read,
        arguments: Several,
    ) -> Result<Read, Failure>
        requires reader { IsReader self.now }
        ensures { IsRead self.now.nodes.now (call_read self.now at.old place name.now parts receiver arguments) at.new result }
    {
        let form = Form {
            rule: Rule::Call,
            place,
            parts,
        };
        match find_method(self.alloc, self.core, self.number, &receiver.typ, name)? {
            None => Err(Failure::At(*at as u64)),
            Some(method) => self.found_call(at, form, receiver.effect, arguments, method),
        }
    }

    /// .. of a call of this method, on a receiver with an effect.
    fn found_call(
        &self,
        at: &mut usize,
        form: Form,
        effect: EffSet,
        arguments: Several,
        method: Method,
    ) -> Result<Read, Failure>
        requires reader { IsReader self.now }
        ensures { IsRead self.now.nodes.now (node_read self.now at.old (same_types (reading_of self.now) same_type (lists_of self.now) arguments.types method.params) form.rule form.place form.parts method.result (union effect (union arguments.effect method.effect))) at.new result }
    {
        let holds = self.same_types(arguments.types.as_slice(), method.params.as_slice());
        let effect = joined(effect, arguments.effect, method.effect)?;
        let typ = method.result;
        self.read_node(at, holds, form, Read { typ, effect })
    }

    /// .. of a new object of a literal.
    pub fn new_object(
        &self,
        at: &mut usize,
        place: Place,
        literal: u32,
        parts: usize,
        initialisers: Several,
    ) -> Result<Read, Failure>
        requires reader { IsReader self.now }
        ensures { IsRead self.now.nodes.now (new_read self.now at.old place literal parts initialisers) at.new result }
    {
        let form = Form {
            rule: Rule::New,
            place,
            parts,
        };
        let types = field_types(self.alloc, self.scope, literal)?;
        let holds = self.same_types(initialisers.types.as_slice(), types.as_slice());
        let typ = TypeRef::Own { literal };
        let effect = initialisers.effect;
        self.read_node(at, holds, form, Read { typ, effect })
    }

    /// .. of a value at a type that is written.
    pub fn ascription(
        &self,
        at: &mut usize,
        place: Place,
        written: &TypeRef,
        value: Read,
    ) -> Result<Read, Failure>
        requires reader { IsReader self.now }
        ensures { IsRead self.now.nodes.now (ascribed_read self.now at.old place written.now value) at.new result }
    {
        let form = Form {
            rule: Rule::Asc,
            place,
            parts: 1,
        };
        let holds = same(&value.typ, written);
        let typ = written.copy(self.alloc)?;
        let effect = value.effect;
        self.read_node(at, holds, form, Read { typ, effect })
    }

    /// .. of an assignment.
    pub fn assignment(
        &self,
        at: &mut usize,
        place: Place,
        binding: Binding,
        value: Read,
    ) -> Result<Read, Failure>
        requires reader { IsReader self.now }
        ensures { IsRead self.now.nodes.now (assigned_read self.now at.old place binding value) at.new result }
    {
        let form = Form {
            rule: Rule::Set,
            place,
            parts: 1,
        };
        match var_field(self.scope, self.owner, binding) {
            None => Err(Failure::At(*at as u64)),
            Some(field) => {
                let holds = same(&value.typ, &field.typ);
                let typ = TypeRef::Unit;
                let effect = value.effect;
                self.read_node(at, holds, form, Read { typ, effect })
            }
        }
    }

    /// .. of an `if`, whose condition is at Bool and whose branches are of one type.
    pub fn choice(
        &self,
        at: &mut usize,
        place: Place,
        test: Read,
        first: Read,
        second: Read,
    ) -> Result<Read, Failure>
        requires reader { IsReader self.now }
        ensures { IsRead self.now.nodes.now (chosen_read self.now at.old place test first second) at.new result }
    {
        let form = Form {
            rule: Rule::If,
            place,
            parts: 3,
        };
        let holds = same(&test.typ, &TypeRef::Bool) && same(&second.typ, &first.typ);
        let effect = joined(test.effect, first.effect, second.effect)?;
        let typ = first.typ;
        self.read_node(at, holds, form, Read { typ, effect })
    }

    // ----------------------------------------------------------------------------
    // Blocks

    /// Whether a `val` of a number may have this initialiser of this type: its type is the initialiser's and the written one, and
    /// without that the initialiser is no `if`.
    pub fn val_holds(
        &self,
        number: u32,
        written: &Option<TypeRef>,
        value: &Value,
        typ: &TypeRef,
    ) -> bool
        ensures { result ≡ val_holds (reading_of self.now) same_type (lists_of self.now) (slice_get self.now.locals.now number) written.now (value_of value.now) typ.now }
    {
        let Some(local) = type_at(self.locals, number) else {
            return false;
        };
        if !same(local, typ) {
            return false;
        }
        match written {
            None => matches!(value, Value::Plain(_)),
            Some(written) => same(typ, written),
        }
    }

    /// The node of a `val` behind its initialiser.
    pub fn val(
        &self,
        at: &mut usize,
        place: Place,
        number: u32,
        written: &Option<TypeRef>,
        value: &Value,
        initialiser: Read,
    ) -> Result<Waiting, Failure>
        ensures { IsVal self.now at.old at.new (val_holds (reading_of self.now) same_type (lists_of self.now) (slice_get self.now.locals.now number) written.now (value_of value.now) initialiser.typ) place initialiser result }
    {
        let form = Form {
            rule: Rule::Val,
            place,
            parts: 1,
        };
        let holds = self.val_holds(number, written, value, &initialiser.typ);
        self.pass_untyped(at, holds, form, &initialiser.effect)?;
        Ok(Waiting {
            holds: true,
            place,
            effect: initialiser.effect,
        })
    }

    /// The node of a T-Seq behind the rest of a block.
    fn close(&self, at: &mut usize, waiting: &Waiting, rest: Read) -> Result<Read, Failure>
        requires reader { IsReader self.now }
        ensures { IsRead self.now.nodes.now (closed self.now waiting.now rest.typ rest.effect at.old (left self.now at.old)) at.new result }
    {
        let form = Form {
            rule: Rule::Seq,
            place: waiting.place,
            parts: 2,
        };
        let effect = united(waiting.effect.copy()?, rest.effect)?;
        let typ = rest.typ;
        self.read_node(at, waiting.holds, form, Read { typ, effect })
    }

    /// .. of all statements of a block, the last one first.
    pub fn close_all(
        &self,
        at: &mut usize,
        waiting: &[Waiting],
        last: Read,
    ) -> Result<Read, Failure>
        requires reader { IsReader self.now }
        ensures { IsRead self.now.nodes.now (closing self.now waiting.now (part_stands last.typ last.effect at.old (left self.now at.old))) at.new result }
    {
        let mut part = last;
        let mut open = waiting.len();
        while open > 0 {
            open -= 1;
            part = self.close(at, &waiting[open], part)?;
        }
        Ok(part)
    }
}
