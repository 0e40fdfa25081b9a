//! The types that expressions' own rules give, without a walk of arguments or of blocks: they go down receivers and first operands
//! alone.

ghost use Rattle.std.specs.Prelude.{◌≡◌, IfOk};
ghost use Rattle.wy_types.specs.View.{expr_of};
ghost use Rattle.wy_certify.specs.Written.{expr_typ};
ghost use Rattle.wy_certify.specs.Writer.{context_of};

use crate::rows::{binary_row, unary_row};
use crate::writer::Writer;
use wy_premises::text_result;
use wy_text::text::Memory;
use wy_types::code::Expr;
use wy_types::types::TypeRef;

impl<'a> Writer<'a> {
    /// The type that the rule of an expression gives.
    #[tactic(auto, unfolding(crate::specs::Written::expr_typ, crate::specs::Written::this_typ, crate::specs::Written::name_typ))]
    pub fn expr_type(&self, expr: &Expr) -> Result<TypeRef, Memory>
        ensures { IfOk result (λ t. t ≡ expr_typ (context_of self.now) (expr_of expr.now)) }
    {
        match expr {
            Expr::Int(_, _) => Ok(TypeRef::Int),
            Expr::Text(_, _) => Ok(TypeRef::Text),
            Expr::Bool(_, _) => Ok(TypeRef::Bool),
            Expr::Unit(_) => Ok(TypeRef::Unit),
            Expr::This(_) => Ok(self.object_type()),
            Expr::Name(_, binding) => self.name_type(*binding),
            Expr::Unary(_, operator, _) => Ok(unary_row(*operator).result),
            Expr::Binary(_, operator, x, _) => {
                let first = self.expr_type(x)?;
                Ok(binary_row(*operator, &first).result)
            }
            Expr::TextCall(_, operator, _) => Ok(text_result(*operator)),
            Expr::Call(_, x, name, _) => {
                let receiver = self.expr_type(x)?;
                self.call_type(&receiver, name)
            }
            Expr::New(_, literal, _) => Ok(TypeRef::Own { literal: *literal }),
            Expr::Ascribe(_, _, typ) => typ.copy(self.alloc),
            Expr::Assign(_, _, _) => Ok(TypeRef::Unit),
        }
    }
}
