//! The nodes that are listed for a scope, read against its bodies: each form's parts in the order of evaluation, and then its own
//! node.

ghost use Rattle.std.specs.Prelude.{◌≡◌, ◌<◌, ◌++◌, ◌∷◌, [], ℕ, IfErr, OnOk, IfOk, None, length, slice_get, Some};
ghost use Rattle.wy_effects.specs.EffSet.{union};
ghost use Rattle.wy_types.specs.Code.{Unary, TextCall, New, Ascribe, Assign};
ghost use Rattle.wy_types.specs.View.{expr_of, value_of, values_of, block_of};
ghost use Rattle.wy_types.specs.Program.{Scope as ProgramScope, program_of, scope_of, body_of};
ghost use Rattle.wy_types.specs.Types.{is_plain};
ghost use Rattle.wy_types.specs.Core.{IsCore};
ghost use Rattle.wy_proving.specs.Certified.{types_of, annotated_pairs, plain_pairs, named_types};
ghost use Rattle.wy_proving.specs.Reading.{bodies_stand};
ghost use Rattle.wy_proving.specs.Proving.{nodes_read};
ghost use Rattle.wy_proving.specs.Unproved.{FailsAt};
ghost use Rattle.wy_proving.specs.declared.proof.CertTest.TheVariants.{Nodes};
ghost use Rattle.wy_recheck.specs.PairSet.{StandsFor};
ghost use Rattle.wy_recheck.specs.Standing.{FailsFirst};
ghost use Rattle.wy_recheck.specs.Nodes.{IsReader, pairs_in, expr_read, value_read, values_read, block_read, body_node_read, block_body_read, fields_read, second_read, called_read, start_read, body_read, bodies_read, scope_read, IsRead, AreRead, BodiesAreRead, ScopeIsRead, IsStatement, AreStatements};

use crate::failure::Failure;
use crate::forms::Waiting;
use crate::pair_set::PairSet;
use crate::reader::{Form, Read, Reader, Several, same};
use crate::types::type_at;
use crate::vals::has_vals;
use std::alloc::Global;
use wy_cert::{CertScope, Rule};
use wy_effects::set::EffSet;
use wy_premises::{field_types, mark, united};
use wy_text::fault::Place;
use wy_text::list::Items;
use wy_text::text::{Memory, Text};
use wy_types::code::{
    BinaryOperator, Binding, Block, Expr, Stmt, TextOperator, UnaryOperator, Value,
};
use wy_types::resolved::{Body, Core, ScopeKind, Start};
use wy_types::types::{TypeList, TypeRef};

/// Several parts with one more behind them.
fn with_part(mut several: Several, next: Read) -> Result<Several, Memory>
    ensures { IfOk result (λ u. u ≡ record { types = several.types ++ next.typ ∷ []; effect = union several.effect next.effect }) }
{
    several.types.push(next.typ)?;
    Ok(Several {
        types: several.types,
        effect: united(several.effect, next.effect)?,
    })
}

impl Reader<'_> {
    /// An expression: its parts in the order of evaluation, and its own node.
    #[cycle(reading)]
    fn read_expr(&self, at: &mut usize, expr: &Expr) -> Result<Read, Failure>
        requires reader { IsReader self.now }
        ensures { IsRead self.now.nodes.now (expr_read self.now at.old (expr_of expr.now)) at.new result }
    {
        match expr {
            Expr::Int(place, _) => self.literal(at, *place, TypeRef::Int),
            Expr::Text(place, _) => self.literal(at, *place, TypeRef::Text),
            Expr::Bool(place, _) => self.literal(at, *place, TypeRef::Bool),
            Expr::Unit(place) => self.literal(at, *place, TypeRef::Unit),
            Expr::This(place) => self.this(at, *place),
            Expr::Name(place, binding) => self.name(at, *place, *binding),
            Expr::Unary(place, operator, x) => self.read_unary(at, *place, *operator, x),
            Expr::Binary(place, operator, x, y) => {
                let first = self.read_expr(at, x)?;
                self.read_second(at, *place, *operator, first, y)
            }
            Expr::TextCall(place, operator, values) => {
                self.read_text_call(at, *place, *operator, values)
            }
            Expr::Call(place, x, name, values) => {
                let receiver = self.read_expr(at, x)?;
                self.read_arguments(at, *place, receiver, name, values)
            }
            Expr::New(place, literal, values) => self.read_new(at, *place, *literal, values),
            Expr::Ascribe(place, x, typ) => self.read_ascription(at, *place, x, typ),
            Expr::Assign(place, binding, x) => self.read_assignment(at, *place, *binding, x),
        }
    }

    /// An operation on one operand.
    #[cycle(reading)]
    fn read_unary(
        &self,
        at: &mut usize,
        place: Place,
        operator: UnaryOperator,
        x: &Expr,
    ) -> Result<Read, Failure>
        requires reader { IsReader self.now }
        ensures { IsRead self.now.nodes.now (expr_read self.now at.old (Unary place operator (expr_of x.now))) at.new result }
    {
        let operand = self.read_expr(at, x)?;
        self.unary(at, place, operator, operand)
    }

    /// An operation on two operands, the first of which is read.
    #[cycle(reading)]
    fn read_second(
        &self,
        at: &mut usize,
        place: Place,
        operator: BinaryOperator,
        first: Read,
        y: &Expr,
    ) -> Result<Read, Failure>
        requires reader { IsReader self.now }
        ensures { IsRead self.now.nodes.now (second_read self.now at.old place operator first (expr_of y.now)) at.new result }
    {
        let second = self.read_expr(at, y)?;
        self.binary(at, place, operator, first, second)
    }

    /// An operation on texts.
    #[cycle(reading)]
    fn read_text_call(
        &self,
        at: &mut usize,
        place: Place,
        operator: TextOperator,
        values: &Vec<Value>,
    ) -> Result<Read, Failure>
        requires reader { IsReader self.now }
        ensures { IsRead self.now.nodes.now (expr_read self.now at.old (TextCall place operator (values_of values.now.items))) at.new result }
    {
        let operands = self.read_values(at, values)?;
        self.text_call(at, place, operator, values.len(), operands)
    }

    /// A call of a method of this name, whose receiver is read.
    #[cycle(reading)]
    fn read_arguments(
        &self,
        at: &mut usize,
        place: Place,
        receiver: Read,
        name: &Text,
        values: &Vec<Value>,
    ) -> Result<Read, Failure>
        requires reader { IsReader self.now }
        ensures { IsRead self.now.nodes.now (called_read self.now at.old place receiver name.now (values_of values.now.items)) at.new result }
    {
        let arguments = self.read_values(at, values)?;
        self.call(at, place, name, values.len() + 1, receiver, arguments)
    }

    /// An object literal.
    #[cycle(reading)]
    fn read_new(
        &self,
        at: &mut usize,
        place: Place,
        literal: u32,
        values: &Vec<Value>,
    ) -> Result<Read, Failure>
        requires reader { IsReader self.now }
        ensures { IsRead self.now.nodes.now (expr_read self.now at.old (New place literal (values_of values.now.items))) at.new result }
    {
        let initialisers = self.read_values(at, values)?;
        self.new_object(at, place, literal, values.len(), initialisers)
    }

    /// A value at a type that is written.
    #[cycle(reading)]
    fn read_ascription(
        &self,
        at: &mut usize,
        place: Place,
        x: &Value,
        typ: &TypeRef,
    ) -> Result<Read, Failure>
        requires reader { IsReader self.now }
        ensures { IsRead self.now.nodes.now (expr_read self.now at.old (Ascribe place (value_of x.now) typ.now)) at.new result }
    {
        let value = self.read_value(at, x)?;
        self.ascription(at, place, typ, value)
    }

    /// An assignment.
    #[cycle(reading)]
    fn read_assignment(
        &self,
        at: &mut usize,
        place: Place,
        binding: Binding,
        x: &Value,
    ) -> Result<Read, Failure>
        requires reader { IsReader self.now }
        ensures { IsRead self.now.nodes.now (expr_read self.now at.old (Assign place binding (value_of x.now))) at.new result }
    {
        let value = self.read_value(at, x)?;
        self.assignment(at, place, binding, value)
    }

    /// A value.
    #[cycle(reading)]
    fn read_value(&self, at: &mut usize, value: &Value) -> Result<Read, Failure>
        requires reader { IsReader self.now }
        ensures { IsRead self.now.nodes.now (value_read self.now at.old (value_of value.now)) at.new result }
    {
        match value {
            Value::Plain(expr) => self.read_expr(at, expr),
            Value::If(place, condition, first, second) => {
                let test = self.read_expr(at, condition)?;
                let first = self.read_block(at, first)?;
                let second = self.read_block(at, second)?;
                self.choice(at, *place, test, first, second)
            }
        }
    }

    /// Values, one after the other.
    #[cycle(reading)]
    fn read_values(&self, at: &mut usize, values: &Vec<Value>) -> Result<Several, Failure>
        requires reader { IsReader self.now }
        ensures { AreRead self.now.nodes.now (values_read self.now at.old (values_of values.now.items)) at.new result }
    {
        let mut sofar = Several {
            types: Items::new(self.alloc),
            effect: EffSet::empty(self.alloc),
        };
        for i in 0..values.len() {
            let next = self.read_value(at, &values[i])?;
            sofar.effect.is_set();
            next.effect.is_set();
            sofar = with_part(sofar, next)?;
        }
        sofar.effect.is_set();
        Ok(sofar)
    }

    /// A statement that stands before others, but for its node of T-Seq.
    #[cycle(reading)]
    fn read_statement(&self, at: &mut usize, statement: &Stmt) -> Result<Waiting, Failure>
        requires reader { IsReader self.now }
        ensures { IsStatement self.now at.old at.new statement.now result }
    {
        match statement {
            Stmt::Val(place, number, written, x) => {
                let value = self.read_value(at, x)?;
                self.val(at, *place, *number, written, x, value)
            }
            Stmt::Do(x) => {
                let value = self.read_value(at, x)?;
                Ok(Waiting {
                    holds: same(&value.typ, &TypeRef::Unit),
                    place: mark(x),
                    effect: value.effect,
                })
            }
        }
    }

    /// The statements of a block that stand before its last value.
    #[cycle(reading)]
    fn read_statements(&self, at: &mut usize, block: &Block) -> Result<Items<Waiting>, Failure>
        requires reader { IsReader self.now }
        ensures { AreStatements self.now at.old at.new block.now.statements.items result }
    {
        let mut waiting = Items::new(self.alloc);
        for i in 0..block.statements.len() {
            let next = self.read_statement(at, &block.statements[i])?;
            waiting.push(next)?;
        }
        Ok(waiting)
    }

    /// A block: the nodes of T-Seq stand behind its last value.
    #[cycle(reading)]
    fn read_block(&self, at: &mut usize, block: &Block) -> Result<Read, Failure>
        requires reader { IsReader self.now }
        ensures { IsRead self.now.nodes.now (block_read self.now at.old (block_of block.now)) at.new result }
    {
        let waiting = self.read_statements(at, block)?;
        let last = self.read_value(at, &block.last)?;
        self.close_all(at, waiting.as_slice(), last)
    }
}

// ----------------------------------------------------------------------------
// Bodies

impl Reader<'_> {
    /// The node of a body, whose type is its own or not, and whose effect is to be within the declared one.
    fn body_node(
        &self,
        at: &mut usize,
        place: Place,
        parts: usize,
        holds: bool,
        effect: &EffSet,
        declared: &EffSet,
    ) -> Result<(), Failure>
        requires reader { IsReader self.now }
        ensures { BodiesAreRead self.now.nodes.now (body_node_read self.now at.old holds effect.now declared.now place parts) at.new result }
    {
        let form = Form {
            rule: Rule::Body,
            place,
            parts,
        };
        let holds = holds && self.allows(effect, declared);
        self.pass_untyped(at, holds, form, &EffSet::empty(self.alloc))
    }

    /// A block that a body is, at its type and within its effect.
    fn read_block_body(
        &self,
        at: &mut usize,
        place: Place,
        block: &Block,
        typ: &TypeRef,
        declared: &EffSet,
    ) -> Result<(), Failure>
        requires reader { IsReader self.now }
        ensures { BodiesAreRead self.now.nodes.now (block_body_read self.now at.old place (block_of block.now) typ.now declared.now) at.new result }
    {
        let read = self.read_block(at, block)?;
        let holds = same(&read.typ, typ);
        self.body_node(at, place, 1, holds, &read.effect, declared)
    }

    /// The initialisers of a scope's fields.
    fn read_fields(&self, at: &mut usize, values: &Vec<Value>) -> Result<(), Failure>
        requires reader { IsReader self.now }
        ensures { BodiesAreRead self.now.nodes.now (fields_read self.now at.old (values_of values.now.items)) at.new result }
    {
        let scope = self.scope;
        let types = field_types(self.alloc, scope, 0)?;
        let read = self.read_values(at, values)?;
        let holds = self.same_types(read.types.as_slice(), types.as_slice());
        self.body_node(
            at,
            scope.start_place,
            values.len(),
            holds,
            &read.effect,
            &scope.start_effect,
        )
    }

    /// The start of a scope.
    fn read_start(&self, at: &mut usize) -> Result<(), Failure>
        requires reader { IsReader self.now }
        requires owner { self.now.owner ≡ None }
        ensures { BodiesAreRead self.now.nodes.now (start_read self.now at.old) at.new result }
    {
        let scope = self.scope;
        match &scope.start {
            Start::Init(values) => self.read_fields(at, values),
            Start::Run(block) => {
                let declared = &scope.start_effect;
                self.read_block_body(at, scope.start_place, block, &TypeRef::Unit, declared)
            }
        }
    }

    /// A method's body.
    fn read_body(&self, at: &mut usize, body: &Body) -> Result<(), Failure>
        requires reader { IsReader self.now }
        ensures { BodiesAreRead self.now.nodes.now (body_read self.now at.old (body_of body.now)) at.new result }
    {
        let reader = Reader {
            owner: Some(body.owner),
            ..*self
        };
        let signature = &body.signature;
        reader.read_block_body(
            at,
            body.place,
            &body.block,
            &signature.result,
            &signature.effect,
        )
    }

    /// Bodies in their order.
    fn read_bodies(&self, at: &mut usize) -> Result<(), Failure>
        requires reader { IsReader self.now }
        ensures { BodiesAreRead self.now.nodes.now (bodies_read self.now at.old (scope_of self.now.scope.now).bodies) at.new result }
    {
        let bodies = self.scope.bodies.as_slice();
        for i in 0..bodies.len() {
            self.read_body(at, &bodies[i])?;
        }
        Ok(())
    }

    /// All nodes: those of the start and of the bodies, and no more.
    fn read_scope(&self) -> Result<(), Failure>
        requires reader { IsReader self.now }
        requires owner { self.now.owner ≡ None }
        ensures { ScopeIsRead (scope_read self.now) result }
    {
        let mut at = 0;
        self.read_start(&mut at)?;
        self.read_bodies(&mut at)?;
        if at < self.nodes.len() {
            return Err(Failure::At(at as u64));
        }
        Ok(())
    }
}

/// The types of these numbers; none where one names no type.
fn named_types(
    alloc: Global,
    types: &[TypeRef],
    numbers: &[u32],
) -> Result<Option<TypeList>, Memory>
    ensures { IfOk result (λ o. o ≡ named_types types.now numbers.now) }
{
    let mut named = Items::new(alloc);
    for number in numbers {
        match type_at(types, *number) {
            None => return Ok(None),
            Some(typ) => named.push(typ.copy(alloc)?)?,
        }
    }
    Ok(Some(named))
}

/// Whether a scope of a kind is a plain module.
fn is_plain(kind: ScopeKind) -> bool
    ensures { result ≡ is_plain kind }
{
    match kind {
        ScopeKind::Plain => true,
        ScopeKind::Pure | ScopeKind::Resource | ScopeKind::Program => false,
    }
}

/// The pairs by which the nodes of a kind of scope are read.
fn pairs_of<'a>(plain: bool, annotated: &'a PairSet, bare: &'a PairSet) -> &'a PairSet
    ensures { (c : CertScope) → StandsFor annotated.now (annotated_pairs c) → StandsFor bare.now (plain_pairs c) → StandsFor result.now (pairs_in c plain) }
{
    if plain {
        return bare;
    }
    annotated
}

/// Reads the nodes that a certificate lists for the scope of a number against the scope's bodies, over the types and pairs that
/// it lists: each node is to say what its form and the nodes before it give, a T-Sub may stand after any part where its pair is
/// listed, and none may be left. `At` comes exactly where one does not, with the number of the first; that is the number of all
/// nodes where one is missing, and 0 where there is not one listed type for each `val` (docs/LANGUAGE.md, "Certificates").
pub fn read_nodes(
    alloc: Global,
    core: &Core,
    number: u16,
    types: &[TypeRef],
    pairs: &PairSet,
    plain: &PairSet,
    part: &CertScope,
) -> Result<(), Failure>
    requires core { IsCore (program_of core.now) }
    requires there { number < length core.now.scopes }
    requires types { types.now ≡ types_of part.now }
    requires pairs { StandsFor pairs.now (annotated_pairs part.now) }
    requires plain { StandsFor plain.now (plain_pairs part.now) }
    ensures hold { OnOk result ((s : ProgramScope) → slice_get (program_of core.now).scopes number ≡ Some s → (at : ℕ) × (nodes_read (program_of core.now) number s part.now ≡ bodies_stand at [])) }
    ensures first { IfErr result (λ f. (s : ProgramScope) → slice_get (program_of core.now).scopes number ≡ Some s → FailsFirst (FailsAt (program_of core.now) number s part.now Nodes) f) }
{
    let scope = &core.scopes.as_slice()[number as usize];
    if !has_vals(scope, part.locals.len()) {
        return Err(Failure::At(0));
    }
    let Some(locals) = named_types(alloc, types, part.locals.as_slice())? else {
        return Err(Failure::At(0));
    };
    let bare = is_plain(scope.kind);
    let reader = Reader {
        alloc,
        core,
        number,
        scope,
        plain: bare,
        part,
        types,
        listed: pairs_of(bare, pairs, plain),
        locals: locals.as_slice(),
        nodes: part.nodes.as_slice(),
        owner: None,
    };
    reader.read_scope()
}
