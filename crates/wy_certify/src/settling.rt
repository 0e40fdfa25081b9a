//! The types of a scope's `val`s, found one after the other: those of the start, and then those of the bodies in their order. A
//! `val` has the type that it is written with, or else that of its initialiser, over the types that were found before.

ghost use Rattle.std.specs.Prelude.{◌≡◌, ◌<◌, [], IfOk, OnOk, None, Some, map, length, slice_get};
ghost use Rattle.wy_types.specs.View.{expr_of, value_of, values_of, block_of};
ghost use Rattle.wy_types.specs.Program.{Scope as ProgramScope, program_of, scope_of, body_of};
ghost use Rattle.wy_rules.specs.Canonical.{with_local};
ghost use Rattle.wy_certify.specs.Settling.{standing_of, knowing, val_typ, expr_settled, value_settled, values_settled, stmt_settled, front_settled, block_settled, start_settled, bodies_settled};
ghost use Rattle.wy_certify.specs.LocalsAt.{locals_at};

use crate::writer::Writer;
use std::alloc::Global;
use wy_text::list::Items;
use wy_text::text::Memory;
use wy_types::code::{Block, Expr, Stmt, Value};
use wy_types::resolved::{Body, Core, Scope, Start};
use wy_types::types::{TypeList, TypeRef};

/// The scope whose `val`s are settled, and the current object.
#[derive(Drop)]
pub struct Settler<'a> {
    pub alloc: Global,
    pub core: &'a Core,
    /// The scope's number among the scopes of the core.
    pub number: u16,
    pub scope: &'a Scope,
    /// The literal of the current object; none in the start of a scope.
    pub owner: Option<u32>,
}

/// Puts the type of the `val` of a number into the list. Where the list is too short the same type stands in between; in a core
/// `val`s are numbered in the order in which they are found, and nothing is in between.
fn put(alloc: Global, known: &mut Vec<TypeRef>, at: usize, typ: TypeRef) -> Result<(), Memory>
    ensures { OnOk result (known.new.items ≡ with_local at typ known.old.items) }
{
    if at < known.len() {
        known[at] = typ;
        return Ok(());
    }
    while known.len() < at {
        let copied = typ.copy(alloc)?;
        known.push(copied)?;
    }
    known.push(typ)?;
    Ok(())
}

impl<'a> Settler<'a> {
    /// The type of a `val`, over the types that are known.
    fn val_type(
        &self,
        known: &[TypeRef],
        written: &Option<TypeRef>,
        value: &Value,
    ) -> Result<TypeRef, Memory>
        ensures { IfOk result (λ t. t ≡ val_typ (knowing (standing_of self.now) known.now) written.now (value_of value.now)) }
    {
        if let Some(typ) = written {
            return typ.copy(self.alloc);
        }
        match value {
            Value::Plain(x) => {
                let writer = Writer {
                    alloc: self.alloc,
                    core: self.core,
                    number: self.number,
                    scope: self.scope,
                    locals: known,
                    owner: self.owner,
                };
                writer.expr_type(x)
            }
            Value::If(_, _, _, _) => Ok(TypeRef::Unit),
        }
    }

    /// The `val`s in an expression.
    #[cycle(settling)]
    fn settle_expr(&self, known: &mut Vec<TypeRef>, expr: &Expr) -> Result<(), Memory>
        ensures { OnOk result (known.new.items ≡ expr_settled (standing_of self.now) (expr_of expr.now) known.old.items) }
    {
        match expr {
            Expr::Int(_, _) => Ok(()),
            Expr::Text(_, _) => Ok(()),
            Expr::Bool(_, _) => Ok(()),
            Expr::Unit(_) => Ok(()),
            Expr::This(_) => Ok(()),
            Expr::Name(_, _) => Ok(()),
            Expr::Unary(_, _, x) => self.settle_expr(known, x),
            Expr::Binary(_, _, x, y) => {
                self.settle_expr(known, x)?;
                self.settle_expr(known, y)
            }
            Expr::TextCall(_, _, values) => self.settle_values(known, values),
            Expr::Call(_, x, _, values) => {
                self.settle_expr(known, x)?;
                self.settle_values(known, values)
            }
            Expr::New(_, _, values) => self.settle_values(known, values),
            Expr::Ascribe(_, value, _) => self.settle_value(known, value),
            Expr::Assign(_, _, value) => self.settle_value(known, value),
        }
    }

    /// .. in a value.
    #[cycle(settling)]
    fn settle_value(&self, known: &mut Vec<TypeRef>, value: &Value) -> Result<(), Memory>
        ensures { OnOk result (known.new.items ≡ value_settled (standing_of self.now) (value_of value.now) known.old.items) }
    {
        match value {
            Value::Plain(x) => self.settle_expr(known, x),
            Value::If(_, test, first, second) => {
                self.settle_expr(known, test)?;
                self.settle_block(known, first)?;
                self.settle_block(known, second)
            }
        }
    }

    /// .. in values.
    #[cycle(settling)]
    fn settle_values(&self, known: &mut Vec<TypeRef>, values: &Vec<Value>) -> Result<(), Memory>
        ensures { OnOk result (known.new.items ≡ values_settled (standing_of self.now) (values_of values.now.items) known.old.items) }
    {
        for value in values {
            self.settle_value(known, value)?;
        }
        Ok(())
    }

    /// A statement: a `val` once those in its initialiser are settled.
    #[cycle(settling)]
    fn settle_statement(&self, known: &mut Vec<TypeRef>, statement: &Stmt) -> Result<(), Memory>
        ensures { OnOk result (known.new.items ≡ stmt_settled (standing_of self.now) statement.now known.old.items) }
    {
        match statement {
            Stmt::Val(_, number, written, value) => {
                self.settle_value(known, value)?;
                let typ = self.val_type(known.as_slice(), written, value)?;
                put(self.alloc, known, *number as usize, typ)
            }
            Stmt::Do(value) => self.settle_value(known, value),
        }
    }

    /// A block.
    #[cycle(settling)]
    fn settle_block(&self, known: &mut Vec<TypeRef>, block: &Block) -> Result<(), Memory>
        ensures { OnOk result (known.new.items ≡ block_settled (standing_of self.now) (block_of block.now) known.old.items) }
    {
        for statement in &block.statements {
            self.settle_statement(known, statement)?;
        }
        self.settle_value(known, &block.last)
    }

    /// What the scope does at its start.
    fn settle_start(&self, known: &mut Vec<TypeRef>) -> Result<(), Memory>
        requires none { self.now.owner ≡ None }
        requires first { known.now.items ≡ [] }
        ensures { OnOk result (known.new.items ≡ start_settled (standing_of self.now)) }
    {
        match &self.scope.start {
            Start::Init(values) => self.settle_values(known, values),
            Start::Run(block) => self.settle_block(known, block),
        }
    }

    /// Bodies of the scope, in their order.
    fn settle_bodies(&self, known: &mut Vec<TypeRef>, bodies: &[Body]) -> Result<(), Memory>
        ensures { OnOk result (known.new.items ≡ bodies_settled (standing_of self.now) (map body_of bodies.now) known.old.items) }
    {
        for body in bodies {
            let settler = Settler {
                owner: Some(body.owner),
                ..*self
            };
            settler.settle_block(known, &body.block)?;
        }
        Ok(())
    }
}

/// A list of these types.
fn listed(alloc: Global, types: &[TypeRef]) -> Result<TypeList, Memory>
    ensures { IfOk result (λ ts. ts ≡ types.now) }
{
    let mut list = Items::new(alloc);
    for typ in types {
        list.push(typ.copy(alloc)?)?;
    }
    Ok(list)
}

/// The types of the `val`s of this scope of a number.
fn scope_types(alloc: Global, core: &Core, number: u16, scope: &Scope) -> Result<TypeList, Memory>
    ensures { IfOk result (λ us. us ≡ locals_at (program_of core.now) number (scope_of scope.now)) }
{
    let settler = Settler {
        alloc,
        core,
        number,
        scope,
        owner: None,
    };
    let mut known = Vec::new(alloc);
    settler.settle_start(&mut known)?;
    let bodies = scope.bodies.as_slice();
    settler.settle_bodies(&mut known, bodies)?;
    let types = known.as_slice();
    listed(alloc, types)
}

/// The types of the `val`s of the scope of a number, by their numbers, found one after the other: each has the type that it is
/// written with, or else the type of its initialiser (docs/LANGUAGE.md, "Typing of bodies" and "Certificates"). The one error is
/// want of memory.
pub fn found_types(alloc: Global, core: &Core, number: u16) -> Result<TypeList, Memory>
    requires there { number < length core.now.scopes }
    ensures { IfOk result (λ us. (s : ProgramScope) → slice_get (program_of core.now).scopes number ≡ Some s → us ≡ locals_at (program_of core.now) number s) }
{
    match core.scopes.get(number as usize) {
        Some(scope) => scope_types(alloc, core, number, scope),
        None => Ok(Items::new(alloc)),
    }
}
