//! The steps of the parts of a body: a walk that adds those of each part before its own.

ghost use Rattle.std.specs.Prelude.{◌≡◌, ◌∷◌, [], Some, false};
ghost use Rattle.wy_effects.specs.EffSet.{union};
ghost use Rattle.wy_types.specs.Code.{Name, Unary, TextCall, New, Ascribe, Assign};
ghost use Rattle.wy_types.specs.View.{expr_of, value_of, values_of, block_of};
ghost use Rattle.wy_rules.specs.Derivations.{block_mark};
ghost use Rattle.wy_cert.specs.declared.certificate.Rule.TheVariants.{If, Seq as SeqRule};
ghost use Rattle.wy_proving.specs.Steps.{step};
ghost use Rattle.wy_certify.specs.Gathered.{Adds, Gives, Writes, WritesAll, WritesAt, WritesBack, WritesCall, WritesExpr, WritesFront, WritesOperand, WritesOwn, WritesRun, WritesRunAt, WritesSecond, WritesStmt};
ghost use Rattle.wy_certify.specs.Written.{local_typ, stmt_mark};
ghost use Rattle.wy_certify.specs.Writer.{context_of};

use crate::output::Output;
use crate::rows::{binary_row, unary_row};
use crate::sets::{copied, unite, united};
use crate::typed::Typed;
use crate::writer::Writer;
use wy_cert::Rule;
use wy_effects::set::{EffSet, SetList};
use wy_premises::{expr_mark, mark, text_operands, text_result};
use wy_text::fault::Place;
use wy_text::list::Items;
use wy_text::text::Text;
use wy_types::code::{
    BinaryOperator, Binding, Block, Expr, Stmt, TextOperator, UnaryOperator, Value,
};
use wy_types::types::TypeRef;

/// The place of a statement.
fn stmt_mark(statement: &Stmt) -> Place
    ensures { result ≡ stmt_mark statement.now }
{
    match statement {
        Stmt::Val(place, _, _, _) => *place,
        Stmt::Do(value) => mark(value),
    }
}

/// The mark of a block.
pub fn block_mark(block: &Block) -> Place
    ensures { result ≡ block_mark (block_of block.now) }
{
    match block.statements.first() {
        Some(statement) => stmt_mark(statement),
        None => mark(&block.last),
    }
}

/// T-Seq, of a statement with this effect and of what stands behind it, which gives what both do.
fn close_statement(out: &mut Output, statement: &Stmt, effect: &EffSet, rest: &mut Typed)
    ensures steps { Adds (step SeqRule (stmt_mark statement.now) 2 (Some rest.old.typ) (union effect.now rest.old.effect) ∷ []) out.old out.new }
    ensures typ { rest.new.typ ≡ rest.old.typ }
    ensures effect { rest.new.effect ≡ union effect.now rest.old.effect }
{
    unite(effect, &mut rest.effect);
    let place = stmt_mark(statement);
    out.add_typed(Rule::Seq, place, 2, &rest.typ, &rest.effect)
}

impl<'a> Writer<'a> {
    /// A name.
    fn write_name(&self, out: &mut Output, place: Place, binding: Binding) -> Typed
        ensures { WritesExpr (context_of self.now) (Name place binding) result out.old out.new }
    {
        let typ = out.take(self.name_type(binding));
        out.leaf(Rule::Var, place, typ)
    }

    /// An `if` at the type that is asked for, whose parts are written and have this effect.
    fn write_if(&self, out: &mut Output, place: Place, expected: &TypeRef, effect: EffSet) -> Typed
        ensures { Writes (step If place 3 (Some expected.now) effect ∷ []) (Gives expected.now effect result) out.old out.new }
    {
        let typ = out.take(expected.copy(self.alloc));
        out.given(Rule::If, place, 3, typ, effect)
    }

    /// An expression, at the type that its rule gives.
    #[cycle(writing)]
    fn write_expr(&self, out: &mut Output, expr: &Expr) -> Typed
        ensures { WritesExpr (context_of self.now) (expr_of expr.now) result out.old out.new }
    {
        match expr {
            Expr::Int(place, _) => out.leaf(Rule::Lit, *place, TypeRef::Int),
            Expr::Text(place, _) => out.leaf(Rule::Lit, *place, TypeRef::Text),
            Expr::Bool(place, _) => out.leaf(Rule::Lit, *place, TypeRef::Bool),
            Expr::Unit(place) => out.leaf(Rule::Lit, *place, TypeRef::Unit),
            Expr::This(place) => out.leaf(Rule::This, *place, self.object_type()),
            Expr::Name(place, binding) => self.write_name(out, *place, *binding),
            Expr::Unary(place, operator, x) => self.write_unary(out, *place, *operator, x),
            Expr::Binary(place, operator, x, y) => {
                let first = self.write_expr(out, x);
                self.write_second(out, *place, *operator, first, expr_mark(x), y)
            }
            Expr::TextCall(place, operator, values) => {
                self.write_text_call(out, *place, *operator, values)
            }
            Expr::Call(place, x, name, values) => {
                let receiver = self.write_expr(out, x);
                self.write_call(out, *place, receiver, name, values)
            }
            Expr::New(place, literal, values) => self.write_new(out, *place, *literal, values),
            Expr::Ascribe(place, value, typ) => self.write_ascription(out, *place, value, typ),
            Expr::Assign(place, binding, value) => {
                self.write_assignment(out, *place, *binding, value)
            }
        }
    }

    /// An expression at the type that is asked for: its effect.
    #[cycle(writing)]
    fn write_operand(&self, out: &mut Output, x: &Expr, expected: &TypeRef) -> EffSet
        ensures { WritesOperand (context_of self.now) (expr_of x.now) expected.now result out.old out.new }
    {
        let part = self.write_expr(out, x);
        out.subsumed(expr_mark(x), part, expected)
    }

    /// An operation on one operand.
    #[cycle(writing)]
    fn write_unary(
        &self,
        out: &mut Output,
        place: Place,
        operator: UnaryOperator,
        x: &Expr,
    ) -> Typed
        ensures { WritesExpr (context_of self.now) (Unary place operator (expr_of x.now)) result out.old out.new }
    {
        let row = unary_row(operator);
        let effect = self.write_operand(out, x, &row.operand);
        let none = EffSet::empty(self.alloc);
        out.operation(place, 1, row.result, effect, none)
    }

    /// An operation on two operands, the first of which is written and gives this.
    #[cycle(writing)]
    fn write_second(
        &self,
        out: &mut Output,
        place: Place,
        operator: BinaryOperator,
        first: Typed,
        first_mark: Place,
        y: &Expr,
    ) -> Typed
        ensures { WritesSecond (context_of self.now) place operator first first_mark (expr_of y.now) result out.old out.new }
    {
        let row = binary_row(operator, &first.typ);
        let effect = out.subsumed(first_mark, first, &row.operand);
        let second = self.write_operand(out, y, &row.operand);
        out.two_operands(place, row.result, effect, second)
    }

    /// An operation on texts.
    #[cycle(writing)]
    fn write_text_call(
        &self,
        out: &mut Output,
        place: Place,
        operator: TextOperator,
        values: &Vec<Value>,
    ) -> Typed
        ensures { WritesExpr (context_of self.now) (TextCall place operator (values_of values.now.items)) result out.old out.new }
    {
        let types = out.take_types(text_operands(self.alloc, operator));
        let effect = self.write_values(out, values, types.as_slice());
        let typ = text_result(operator);
        out.given(Rule::Op, place, values.len(), typ, effect)
    }

    /// A call of a method of this name, on a receiver that is written and gives this.
    #[cycle(writing)]
    fn write_call(
        &self,
        out: &mut Output,
        place: Place,
        receiver: Typed,
        name: &Text,
        values: &Vec<Value>,
    ) -> Typed
        ensures { WritesCall (context_of self.now) place receiver name.now (values_of values.now.items) result out.old out.new }
    {
        let method = self.method_for(out, &receiver.typ, name);
        let arguments = self.write_values(out, values, method.params.as_slice());
        let effect = united(receiver.effect, united(arguments, method.effect));
        out.given(Rule::Call, place, values.len() + 1, method.result, effect)
    }

    /// An object literal.
    #[cycle(writing)]
    fn write_new(&self, out: &mut Output, place: Place, literal: u32, values: &Vec<Value>) -> Typed
        ensures { WritesExpr (context_of self.now) (New place literal (values_of values.now.items)) result out.old out.new }
    {
        let types = out.take_types(self.field_types(literal));
        let effect = self.write_values(out, values, types.as_slice());
        let typ = TypeRef::Own { literal };
        out.given(Rule::New, place, values.len(), typ, effect)
    }

    /// A value with its type.
    #[cycle(writing)]
    fn write_ascription(
        &self,
        out: &mut Output,
        place: Place,
        value: &Value,
        typ: &TypeRef,
    ) -> Typed
        ensures { WritesExpr (context_of self.now) (Ascribe place (value_of value.now) typ.now) result out.old out.new }
    {
        let effect = self.write_at(out, value, typ);
        let given = out.take(typ.copy(self.alloc));
        out.given(Rule::Asc, place, 1, given, effect)
    }

    /// An assignment.
    #[cycle(writing)]
    fn write_assignment(
        &self,
        out: &mut Output,
        place: Place,
        binding: Binding,
        value: &Value,
    ) -> Typed
        ensures { WritesExpr (context_of self.now) (Assign place binding (value_of value.now)) result out.old out.new }
    {
        let typ = out.take(self.var_type(binding));
        let effect = self.write_at(out, value, &typ);
        out.given(Rule::Set, place, 1, TypeRef::Unit, effect)
    }

    /// A value: an `if` at the type that is asked for, another at its own.
    #[cycle(writing)]
    fn write_value(&self, out: &mut Output, value: &Value, expected: &TypeRef) -> Typed
        ensures { WritesOwn (context_of self.now) (value_of value.now) expected.now result out.old out.new }
    {
        match value {
            Value::Plain(x) => self.write_expr(out, x),
            Value::If(place, test, first, second) => {
                let test = self.write_operand(out, test, &TypeRef::Bool);
                let first = self.write_block_at(out, first, expected);
                let second = self.write_block_at(out, second, expected);
                self.write_if(out, *place, expected, united(test, united(first, second)))
            }
        }
    }

    /// A value at the type that is asked for: its effect.
    #[cycle(writing)]
    fn write_at(&self, out: &mut Output, value: &Value, expected: &TypeRef) -> EffSet
        ensures { WritesAt (context_of self.now) (value_of value.now) expected.now result out.old out.new }
    {
        let part = self.write_value(out, value, expected);
        out.subsumed(mark(value), part, expected)
    }

    /// Values, each at the type that is asked for, as far as there are types: their effect.
    #[cycle(writing)]
    pub fn write_values(&self, out: &mut Output, values: &Vec<Value>, types: &[TypeRef]) -> EffSet
        ensures { WritesAll (context_of self.now) (values_of values.now.items) types.now result out.old out.new }
    {
        let mut sofar = EffSet::empty(self.alloc);
        for i in 0..values.len() {
            if i >= types.len() {
                return sofar;
            }
            let effect = self.write_at(out, &values[i], &types[i]);
            unite(&effect, &mut sofar);
            sofar.is_set();
        }
        sofar
    }

    /// The initialiser of the `val` of a number, at its type: its effect.
    #[cycle(writing)]
    fn write_initialiser(&self, out: &mut Output, number: u32, value: &Value) -> EffSet
        ensures { WritesAt (context_of self.now) (value_of value.now) (local_typ (context_of self.now) number) result out.old out.new }
    {
        let typ = out.take(self.local_type(number));
        self.write_at(out, value, &typ)
    }

    /// A statement: its effect. What T-Seq says of it comes after the rest of its block.
    #[cycle(writing)]
    fn write_statement(&self, out: &mut Output, statement: &Stmt) -> EffSet
        ensures { WritesStmt (context_of self.now) statement.now result out.old out.new }
    {
        match statement {
            Stmt::Val(place, number, _, value) => {
                let effect = self.write_initialiser(out, *number, value);
                out.add_untyped(Rule::Val, *place, 1, copied(&effect));
                effect
            }
            Stmt::Do(value) => self.write_at(out, value, &TypeRef::Unit),
        }
    }

    /// The statements of a block before its last value: their effects.
    #[cycle(writing)]
    fn write_statements(&self, out: &mut Output, statements: &Vec<Stmt>) -> SetList
        ensures { WritesFront (context_of self.now) statements.now.items result out.old out.new }
    {
        let mut effects = Items::new(self.alloc);
        for i in 0..statements.len() {
            let effect = self.write_statement(out, &statements[i]);
            out.keep(&mut effects, effect);
        }
        effects
    }

    /// T-Seq for each of these statements with these effects, from the last one to the first, round what they stand before.
    fn close_statements(
        &self,
        out: &mut Output,
        statements: &Vec<Stmt>,
        effects: &[EffSet],
        last: Typed,
    ) -> Typed
        ensures enough { out.new.wanting ≡ false → out.old.wanting ≡ false }
        ensures whole { WritesBack (context_of self.now) statements.now.items effects.now last result out.old out.new }
    {
        let mut rest = last;
        for i in (0..statements.len()).rev() {
            match effects.get(i) {
                Some(effect) => close_statement(out, &statements[i], effect, &mut rest),
                None => out.lose(),
            }
        }
        rest
    }

    /// A block: where its last value is an `if` it has the type that is asked for, else that value's own.
    #[cycle(writing)]
    fn write_block(&self, out: &mut Output, block: &Block, expected: &TypeRef) -> Typed
        ensures { WritesRun (context_of self.now) (block_of block.now) expected.now result out.old out.new }
    {
        let effects = self.write_statements(out, &block.statements);
        let last = self.write_value(out, &block.last, expected);
        self.close_statements(out, &block.statements, effects.as_slice(), last)
    }

    /// A block at the type that is asked for: its effect.
    #[cycle(writing)]
    pub fn write_block_at(&self, out: &mut Output, block: &Block, expected: &TypeRef) -> EffSet
        ensures { WritesRunAt (context_of self.now) (block_of block.now) expected.now result out.old out.new }
    {
        let part = self.write_block(out, block, expected);
        out.subsumed(block_mark(block), part, expected)
    }
}
