//! Judging a value or a block: a walk that types each part at its least type, or stops at the first failing node
//! (docs/LANGUAGE.md, "First failing node").

ghost use Rattle.std.specs.Prelude.{◌≡◌, [], IfOk, None, Some, length};
ghost use Rattle.wy_effects.specs.EffSet.{union};
ghost use Rattle.wy_types.specs.Program.{program_of, scope_of};
ghost use Rattle.wy_types.specs.View.{expr_of, value_of, values_of, block_of};
ghost use Rattle.wy_types.specs.Code.{Unary, TextCall, New, Ascribe, Assign};
ghost use Rattle.wy_types.specs.declared.code.Stmt.TheVariants.{Val};
ghost use Rattle.wy_types.specs.Fitting.{IsTypeOf};
ghost use Rattle.wy_judge.specs.Inference as inferred;
ghost use Rattle.wy_judge.specs.Outcomes.{IsBoth, chosen_fit, push_fit};
ghost use Rattle.wy_judge.specs.Results.{IfInferred, IfFit, IfFits, IfStep, IfPassed, fit_of, fits_of};
ghost use Rattle.wy_judge.specs.Tables.{ExprReady, ValueReady, ValuesReady, BlockReady};
ghost use Rattle.wy_judge.specs.Walk.{IsWalk, Asks, Here};
ghost use Rattle.wy_judge.specs.Judging.{TypesInRange, StmtReady, IsCallable, ArgumentsTo, CalledTo, SecondTo, InfersTo, FitsTo, AllFitTo, BlockFitsTo, ProbesTo, AllProbeTo, BlockProbesTo, StatesTo, StepsTo};

use crate::outcomes::{Fit, Fits, Least, Stop, fails};
use crate::targets::{Target, fitted, target_of, type_of_binding};
use crate::walk::{Known, Walk, put};
use wy_effects::set::EffSet;
use wy_premises::{
    binary_result, field_types, joined, mark, text_operands, text_result, unary_result, united,
    var_field,
};
use wy_text::fault::{Place, RuleName};
use wy_text::text::{Memory, Text};
use wy_types::code::{
    BinaryOperator, Binding, Block, Expr, Stmt, TextOperator, UnaryOperator, Value,
};
use wy_types::types::{Method, TypeRef};

/// A call of this method, on a receiver with an effect and with arguments with another.
fn called(method: Method, effect: EffSet, arguments: EffSet) -> Result<Least, Stop>
    ensures { IfInferred result (λ u. u ≡ inferred.Least method.result (union effect (union arguments method.effect))) }
{
    let effect = joined(effect, arguments, method.effect)?;
    let typ = method.result;
    Ok(Least { typ, effect })
}

/// An operation on two operands.
fn operation(
    place: Place,
    operator: BinaryOperator,
    first: Least,
    second: Least,
) -> Result<Least, Stop>
    ensures { IfInferred result (λ u. IsBoth place operator (inferred.Least first.typ first.effect) (inferred.Least second.typ second.effect) u) }
{
    let same = first.typ.same(&second.typ);
    let Some(typ) = binary_result(operator, &first.typ) else {
        return Err(fails(place, RuleName::TOp, 1));
    };
    if !same {
        return Err(fails(place, RuleName::TOp, 2));
    }
    Ok(Least {
        typ,
        effect: united(first.effect, second.effect)?,
    })
}

/// An `if`: its condition at Bool, both branches at its type.
fn chosen(place: Place, test: Fit, first: Fit, second: Fit) -> Result<Fit, Stop>
    ensures { IfFit result (λ u. u ≡ chosen_fit place (fit_of test) (fit_of first) (fit_of second)) }
{
    let Fit::Has(test) = test else {
        return Err(fails(place, RuleName::TIf, 1));
    };
    let Fit::Has(first) = first else {
        return Err(fails(place, RuleName::TIf, 2));
    };
    let Fit::Has(second) = second else {
        return Err(fails(place, RuleName::TIf, 3));
    };
    Ok(Fit::Has(joined(test, first, second)?))
}

/// Several values with one more, which has this number.
fn push_fit(sofar: Fits, number: usize, next: Fit) -> Result<Fits, Memory>
    ensures { IfOk result (λ u. fits_of u ≡ push_fit (fits_of sofar) number (fit_of next)) }
{
    match sofar {
        Fits::Have(effect) => match next {
            Fit::Has(more) => Ok(Fits::Have(united(effect, more)?)),
            Fit::Misfit => Ok(Fits::Misfit(number)),
        },
        Fits::Misfit(first) => Ok(Fits::Misfit(first)),
    }
}

impl<'a> Walk<'a> {
    /// A type without an effect.
    fn least(&self, typ: TypeRef) -> Least
        ensures { result ≡ record { typ = typ; effect = [] } }
    {
        Least {
            typ,
            effect: EffSet::empty(self.alloc),
        }
    }

    /// An expression by itself: its least type and effect, or the first failing node in it.
    #[cycle(judging)]
    fn infer(&self, known: &mut Known<'_>, expr: &Expr) -> Result<Least, Stop>
        requires walk { IsWalk self.now }
        requires asks { Asks self.now known.old.pairs.about }
        requires ready { Here self.now ExprReady self.now.owner known.old.vals.items (expr_of expr.now) }
        ensures outcome { IfInferred result (λ u. Here self.now InfersTo self.now.owner known.old.vals.items known.new.vals.items (expr_of expr.now) u) }
        ensures asks { Asks self.now known.new.pairs.about }
    {
        match expr {
            Expr::Int(_, _) => Ok(self.least(TypeRef::Int)),
            Expr::Text(_, _) => Ok(self.least(TypeRef::Text)),
            Expr::Bool(_, _) => Ok(self.least(TypeRef::Bool)),
            Expr::Unit(_) => Ok(self.least(TypeRef::Unit)),
            Expr::This(_) => match self.owner {
                Some(literal) => Ok(self.least(TypeRef::Own { literal })),
                None => unreachable!(),
            },
            Expr::Name(_, binding) => {
                match type_of_binding(self.scope, &known.vals, self.owner, *binding) {
                    Some(typ) => Ok(self.least(typ.copy(self.alloc)?)),
                    None => unreachable!(),
                }
            }
            Expr::Unary(place, operator, x) => self.infer_unary(known, *place, *operator, x),
            Expr::Binary(place, operator, x, y) => {
                let first = self.infer(known, x)?;
                self.infer_second(known, *place, *operator, first, y)
            }
            Expr::TextCall(place, operator, values) => {
                self.infer_text_call(known, *place, *operator, values)
            }
            Expr::Call(place, receiver, name, values) => {
                let receiver = self.infer(known, receiver)?;
                self.infer_call(known, *place, receiver, name, values)
            }
            Expr::New(place, literal, values) => self.infer_new(known, *place, *literal, values),
            Expr::Ascribe(place, value, typ) => self.infer_ascription(known, *place, value, typ),
            Expr::Assign(place, binding, value) => {
                self.infer_assignment(known, *place, *binding, value)
            }
        }
    }

    /// An operation on one operand.
    #[cycle(judging)]
    fn infer_unary(
        &self,
        known: &mut Known<'_>,
        place: Place,
        operator: UnaryOperator,
        x: &Expr,
    ) -> Result<Least, Stop>
        requires walk { IsWalk self.now }
        requires asks { Asks self.now known.old.pairs.about }
        requires ready { Here self.now ExprReady self.now.owner known.old.vals.items (Unary place operator (expr_of x.now)) }
        ensures outcome { IfInferred result (λ u. Here self.now InfersTo self.now.owner known.old.vals.items known.new.vals.items (Unary place operator (expr_of x.now)) u) }
        ensures asks { Asks self.now known.new.pairs.about }
    {
        let operand = self.infer(known, x)?;
        match unary_result(operator, &operand.typ) {
            Some(typ) => Ok(Least {
                typ,
                effect: operand.effect,
            }),
            None => Err(fails(place, RuleName::TOp, 1)),
        }
    }

    /// An operation on two operands, the first of which came to this.
    #[cycle(judging)]
    fn infer_second(
        &self,
        known: &mut Known<'_>,
        place: Place,
        operator: BinaryOperator,
        first: Least,
        y: &Expr,
    ) -> Result<Least, Stop>
        requires walk { IsWalk self.now }
        requires asks { Asks self.now known.old.pairs.about }
        requires ready { Here self.now ExprReady self.now.owner known.old.vals.items (expr_of y.now) }
        ensures outcome { IfInferred result (λ u. Here self.now SecondTo self.now.owner known.old.vals.items known.new.vals.items place operator (inferred.Least first.typ first.effect) (expr_of y.now) u) }
        ensures asks { Asks self.now known.new.pairs.about }
    {
        let second = self.infer(known, y)?;
        operation(place, operator, first, second)
    }

    /// An operation on texts.
    #[cycle(judging)]
    fn infer_text_call(
        &self,
        known: &mut Known<'_>,
        place: Place,
        operator: TextOperator,
        values: &Vec<Value>,
    ) -> Result<Least, Stop>
        requires walk { IsWalk self.now }
        requires asks { Asks self.now known.old.pairs.about }
        requires ready { Here self.now ExprReady self.now.owner known.old.vals.items (TextCall place operator (values_of values.now.items)) }
        ensures outcome { IfInferred result (λ u. Here self.now InfersTo self.now.owner known.old.vals.items known.new.vals.items (TextCall place operator (values_of values.now.items)) u) }
        ensures asks { Asks self.now known.new.pairs.about }
    {
        let types = text_operands(self.alloc, operator)?;
        match self.fit_all(known, values, types.as_slice())? {
            Fits::Have(effect) => Ok(Least {
                typ: text_result(operator),
                effect,
            }),
            Fits::Misfit(number) => Err(fails(place, RuleName::TOp, number as u8 + 1)),
        }
    }

    /// A call of a method of this name, whose receiver came to this.
    #[cycle(judging)]
    fn infer_call(
        &self,
        known: &mut Known<'_>,
        place: Place,
        receiver: Least,
        name: &Text,
        values: &Vec<Value>,
    ) -> Result<Least, Stop>
        requires walk { IsWalk self.now }
        requires asks { Asks self.now known.old.pairs.about }
        requires range { IsTypeOf (program_of self.now.core.now) self.now.number receiver.typ }
        requires ready { Here self.now ValuesReady self.now.owner known.old.vals.items (values_of values.now.items) }
        ensures outcome { IfInferred result (λ u. Here self.now CalledTo self.now.owner known.old.vals.items known.new.vals.items place (inferred.Least receiver.typ receiver.effect) name.now values.now.items u) }
        ensures asks { Asks self.now known.new.pairs.about }
    {
        let arity = values.len();
        let target = target_of(self.alloc, self.core, self.number, receiver, name, arity)?;
        self.infer_arguments(known, place, target, values)
    }

    /// The arguments of a call, by what its receiver offers.
    #[cycle(judging)]
    fn infer_arguments(
        &self,
        known: &mut Known<'_>,
        place: Place,
        target: Target,
        values: &Vec<Value>,
    ) -> Result<Least, Stop>
        requires walk { IsWalk self.now }
        requires asks { Asks self.now known.old.pairs.about }
        requires target { Here self.now IsCallable self.now.owner values.now.items target }
        requires ready { Here self.now ValuesReady self.now.owner known.old.vals.items (values_of values.now.items) }
        ensures outcome { IfInferred result (λ u. Here self.now ArgumentsTo self.now.owner known.old.vals.items known.new.vals.items place target values.now.items u) }
        ensures asks { Asks self.now known.new.pairs.about }
    {
        match target {
            Target::Without(premise) => self.probe_arguments(known, place, premise, values),
            Target::Found(effect, method) => {
                self.fit_arguments(known, place, effect, method, values)
            }
        }
    }

    /// The arguments of a call whose receiver offers no method for them: this premise is false.
    #[cycle(judging)]
    fn probe_arguments(
        &self,
        known: &mut Known<'_>,
        place: Place,
        premise: u8,
        values: &Vec<Value>,
    ) -> Result<Least, Stop>
        requires walk { IsWalk self.now }
        requires asks { Asks self.now known.old.pairs.about }
        requires ready { Here self.now ValuesReady self.now.owner known.old.vals.items (values_of values.now.items) }
        ensures outcome { IfInferred result (λ u. Here self.now ArgumentsTo self.now.owner known.old.vals.items known.new.vals.items place (Target.Without premise) values.now.items u) }
        ensures asks { Asks self.now known.new.pairs.about }
    {
        self.probe_all(known, values)?;
        Err(fails(place, RuleName::TCall, premise))
    }

    /// The arguments of a call of this method, on a receiver with an effect.
    #[cycle(judging)]
    fn fit_arguments(
        &self,
        known: &mut Known<'_>,
        place: Place,
        effect: EffSet,
        method: Method,
        values: &Vec<Value>,
    ) -> Result<Least, Stop>
        requires walk { IsWalk self.now }
        requires asks { Asks self.now known.old.pairs.about }
        requires method { Here self.now IsCallable self.now.owner values.now.items (Target.Found effect method) }
        requires ready { Here self.now ValuesReady self.now.owner known.old.vals.items (values_of values.now.items) }
        ensures outcome { IfInferred result (λ u. Here self.now ArgumentsTo self.now.owner known.old.vals.items known.new.vals.items place (Target.Found effect method) values.now.items u) }
        ensures asks { Asks self.now known.new.pairs.about }
    {
        match self.fit_all(known, values, method.params.as_slice())? {
            Fits::Have(arguments) => called(method, effect, arguments),
            Fits::Misfit(_) => Err(fails(place, RuleName::TCall, 4)),
        }
    }

    /// A new object of a literal.
    #[cycle(judging)]
    fn infer_new(
        &self,
        known: &mut Known<'_>,
        place: Place,
        literal: u32,
        values: &Vec<Value>,
    ) -> Result<Least, Stop>
        requires walk { IsWalk self.now }
        requires asks { Asks self.now known.old.pairs.about }
        requires ready { Here self.now ExprReady self.now.owner known.old.vals.items (New place literal (values_of values.now.items)) }
        ensures outcome { IfInferred result (λ u. Here self.now InfersTo self.now.owner known.old.vals.items known.new.vals.items (New place literal (values_of values.now.items)) u) }
        ensures asks { Asks self.now known.new.pairs.about }
    {
        let types = field_types(self.alloc, self.scope, literal)?;
        match self.fit_all(known, values, types.as_slice())? {
            Fits::Have(effect) => Ok(Least {
                typ: TypeRef::Own { literal },
                effect,
            }),
            Fits::Misfit(_) => Err(fails(place, RuleName::TNew, 1)),
        }
    }

    /// A value at a type that is written.
    #[cycle(judging)]
    fn infer_ascription(
        &self,
        known: &mut Known<'_>,
        place: Place,
        value: &Value,
        typ: &TypeRef,
    ) -> Result<Least, Stop>
        requires walk { IsWalk self.now }
        requires asks { Asks self.now known.old.pairs.about }
        requires ready { Here self.now ExprReady self.now.owner known.old.vals.items (Ascribe place (value_of value.now) typ.now) }
        ensures outcome { IfInferred result (λ u. Here self.now InfersTo self.now.owner known.old.vals.items known.new.vals.items (Ascribe place (value_of value.now) typ.now) u) }
        ensures asks { Asks self.now known.new.pairs.about }
    {
        match self.fit(known, value, typ)? {
            Fit::Has(effect) => Ok(Least {
                typ: typ.copy(self.alloc)?,
                effect,
            }),
            Fit::Misfit => Err(fails(place, RuleName::TAsc, 1)),
        }
    }

    /// An assignment.
    #[cycle(judging)]
    fn infer_assignment(
        &self,
        known: &mut Known<'_>,
        place: Place,
        binding: Binding,
        value: &Value,
    ) -> Result<Least, Stop>
        requires walk { IsWalk self.now }
        requires asks { Asks self.now known.old.pairs.about }
        requires ready { Here self.now ExprReady self.now.owner known.old.vals.items (Assign place binding (value_of value.now)) }
        ensures outcome { IfInferred result (λ u. Here self.now InfersTo self.now.owner known.old.vals.items known.new.vals.items (Assign place binding (value_of value.now)) u) }
        ensures asks { Asks self.now known.new.pairs.about }
    {
        match var_field(self.scope, self.owner, binding) {
            Some(field) => match self.fit(known, value, &field.typ)? {
                Fit::Has(effect) => Ok(Least {
                    typ: TypeRef::Unit,
                    effect,
                }),
                Fit::Misfit => Err(fails(place, RuleName::TSet, 2)),
            },
            None => {
                self.probe(known, value)?;
                Err(fails(place, RuleName::TSet, 1))
            }
        }
    }

    /// A value at the type that its place expects.
    #[cycle(judging)]
    fn fit(&self, known: &mut Known<'_>, value: &Value, typ: &TypeRef) -> Result<Fit, Stop>
        requires walk { IsWalk self.now }
        requires asks { Asks self.now known.old.pairs.about }
        requires expected { IsTypeOf (program_of self.now.core.now) self.now.number typ.now }
        requires ready { Here self.now ValueReady self.now.owner known.old.vals.items (value_of value.now) }
        ensures outcome { IfFit result (λ u. Here self.now FitsTo self.now.owner known.old.vals.items known.new.vals.items (value_of value.now) typ.now u) }
        ensures asks { Asks self.now known.new.pairs.about }
    {
        match value {
            Value::Plain(expr) => {
                let least = self.infer(known, expr)?;
                Ok(fitted(&mut known.pairs, least, typ)?)
            }
            Value::If(place, test, first, second) => {
                let least = self.infer(known, test)?;
                let test = fitted(&mut known.pairs, least, &TypeRef::Bool)?;
                let first = self.fit_block(known, first, typ)?;
                let second = self.fit_block(known, second, typ)?;
                chosen(*place, test, first, second)
            }
        }
    }

    /// A value where no type is expected: only the nodes in it count.
    #[cycle(judging)]
    fn probe(&self, known: &mut Known<'_>, value: &Value) -> Result<(), Stop>
        requires walk { IsWalk self.now }
        requires asks { Asks self.now known.old.pairs.about }
        requires ready { Here self.now ValueReady self.now.owner known.old.vals.items (value_of value.now) }
        ensures outcome { IfPassed result (λ o. Here self.now ProbesTo self.now.owner known.old.vals.items known.new.vals.items (value_of value.now) o) }
        ensures asks { Asks self.now known.new.pairs.about }
    {
        match value {
            Value::Plain(expr) => {
                self.infer(known, expr)?;
                Ok(())
            }
            Value::If(_, test, first, second) => {
                self.infer(known, test)?;
                self.probe_block(known, first)?;
                self.probe_block(known, second)
            }
        }
    }

    /// Several values, each at its type.
    #[cycle(judging)]
    pub fn fit_all(
        &self,
        known: &mut Known<'_>,
        values: &Vec<Value>,
        types: &[TypeRef],
    ) -> Result<Fits, Stop>
        requires walk { IsWalk self.now }
        requires asks { Asks self.now known.old.pairs.about }
        requires expected { Here self.now TypesInRange self.now.owner types.now }
        requires as_many { length values.now.items ≡ length types.now }
        requires ready { Here self.now ValuesReady self.now.owner known.old.vals.items (values_of values.now.items) }
        ensures outcome { IfFits result (λ u. Here self.now AllFitTo self.now.owner known.old.vals.items known.new.vals.items values.now.items types.now u) }
        ensures asks { Asks self.now known.new.pairs.about }
    {
        let mut sofar = Fits::Have(EffSet::empty(self.alloc));
        for i in 0..values.len() {
            let next = self.fit(known, &values[i], &types[i])?;
            next.is_set();
            sofar = push_fit(sofar, i, next)?;
        }
        Ok(sofar)
    }

    /// Several values where no type is expected.
    #[cycle(judging)]
    fn probe_all(&self, known: &mut Known<'_>, values: &Vec<Value>) -> Result<(), Stop>
        requires walk { IsWalk self.now }
        requires asks { Asks self.now known.old.pairs.about }
        requires ready { Here self.now ValuesReady self.now.owner known.old.vals.items (values_of values.now.items) }
        ensures outcome { IfPassed result (λ o. Here self.now AllProbeTo self.now.owner known.old.vals.items known.new.vals.items values.now.items o) }
        ensures asks { Asks self.now known.new.pairs.about }
    {
        for i in 0..values.len() {
            self.probe(known, &values[i])?;
        }
        Ok(())
    }

    /// A statement that stands before others: its effect.
    #[cycle(judging)]
    fn step(&self, known: &mut Known<'_>, statement: &Stmt) -> Result<EffSet, Stop>
        requires walk { IsWalk self.now }
        requires asks { Asks self.now known.old.pairs.about }
        requires ready { Here self.now StmtReady self.now.owner known.old.vals.items statement.now }
        ensures outcome { IfStep result (λ u. Here self.now StatesTo self.now.owner known.old.vals.items known.new.vals.items statement.now u) }
        ensures asks { Asks self.now known.new.pairs.about }
    {
        match statement {
            Stmt::Val(place, val, Some(typ), value) => {
                self.step_typed(known, *place, *val, typ, value)
            }
            Stmt::Val(place, val, None, value) => self.step_untyped(known, *place, *val, value),
            Stmt::Do(value) => match self.fit(known, value, &TypeRef::Unit)? {
                Fit::Has(effect) => Ok(effect),
                Fit::Misfit => Err(fails(mark(value), RuleName::TSeq, 1)),
            },
        }
    }

    /// A `val` with a type.
    #[cycle(judging)]
    fn step_typed(
        &self,
        known: &mut Known<'_>,
        place: Place,
        val: u32,
        typ: &TypeRef,
        value: &Value,
    ) -> Result<EffSet, Stop>
        requires walk { IsWalk self.now }
        requires asks { Asks self.now known.old.pairs.about }
        requires ready { Here self.now StmtReady self.now.owner known.old.vals.items (Val place val (Some typ.now) value.now) }
        ensures outcome { IfStep result (λ u. Here self.now StatesTo self.now.owner known.old.vals.items known.new.vals.items (Val place val (Some typ.now) value.now) u) }
        ensures asks { Asks self.now known.new.pairs.about }
    {
        match self.fit(known, value, typ)? {
            Fit::Has(effect) => {
                put(&mut known.vals, val, typ.copy(self.alloc)?)?;
                Ok(effect)
            }
            Fit::Misfit => Err(fails(place, RuleName::TVal, 1)),
        }
    }

    /// A `val` without a type.
    #[cycle(judging)]
    fn step_untyped(
        &self,
        known: &mut Known<'_>,
        place: Place,
        val: u32,
        value: &Value,
    ) -> Result<EffSet, Stop>
        requires walk { IsWalk self.now }
        requires asks { Asks self.now known.old.pairs.about }
        requires ready { Here self.now StmtReady self.now.owner known.old.vals.items (Val place val None value.now) }
        ensures outcome { IfStep result (λ u. Here self.now StatesTo self.now.owner known.old.vals.items known.new.vals.items (Val place val None value.now) u) }
        ensures asks { Asks self.now known.new.pairs.about }
    {
        match value {
            Value::Plain(expr) => {
                let least = self.infer(known, expr)?;
                put(&mut known.vals, val, least.typ)?;
                Ok(least.effect)
            }
            Value::If(_, _, _, _) => {
                self.probe(known, value)?;
                Err(fails(place, RuleName::TVal, 1))
            }
        }
    }

    /// The statements of a block that stand before its last value: their effect.
    #[cycle(judging)]
    fn steps(&self, known: &mut Known<'_>, block: &Block) -> Result<EffSet, Stop>
        requires walk { IsWalk self.now }
        requires asks { Asks self.now known.old.pairs.about }
        requires ready { Here self.now BlockReady self.now.owner known.old.vals.items (block_of block.now) }
        ensures outcome { IfStep result (λ u. Here self.now StepsTo self.now.owner known.old.vals.items known.new.vals.items block.now.statements.items (value_of block.now.last.value) u) }
        ensures asks { Asks self.now known.new.pairs.about }
    {
        let mut sofar = EffSet::empty(self.alloc);
        for i in 0..block.statements.len() {
            let next = self.step(known, &block.statements[i])?;
            sofar = united(sofar, next)?;
        }
        Ok(sofar)
    }

    /// A block at the type that its place expects.
    #[cycle(judging)]
    pub fn fit_block(
        &self,
        known: &mut Known<'_>,
        block: &Block,
        typ: &TypeRef,
    ) -> Result<Fit, Stop>
        requires walk { IsWalk self.now }
        requires asks { Asks self.now known.old.pairs.about }
        requires expected { IsTypeOf (program_of self.now.core.now) self.now.number typ.now }
        requires ready { Here self.now BlockReady self.now.owner known.old.vals.items (block_of block.now) }
        ensures outcome { IfFit result (λ u. Here self.now BlockFitsTo self.now.owner known.old.vals.items known.new.vals.items (block_of block.now) typ.now u) }
        ensures asks { Asks self.now known.new.pairs.about }
    {
        let before = self.steps(known, block)?;
        match self.fit(known, &block.last, typ)? {
            Fit::Has(last) => Ok(Fit::Has(united(before, last)?)),
            Fit::Misfit => Ok(Fit::Misfit),
        }
    }

    /// A block where no type is expected: only the nodes in it count.
    #[cycle(judging)]
    fn probe_block(&self, known: &mut Known<'_>, block: &Block) -> Result<(), Stop>
        requires walk { IsWalk self.now }
        requires asks { Asks self.now known.old.pairs.about }
        requires ready { Here self.now BlockReady self.now.owner known.old.vals.items (block_of block.now) }
        ensures outcome { IfPassed result (λ o. Here self.now BlockProbesTo self.now.owner known.old.vals.items known.new.vals.items (block_of block.now) o) }
        ensures asks { Asks self.now known.new.pairs.about }
    {
        self.steps(known, block)?;
        self.probe(known, &block.last)
    }
}
