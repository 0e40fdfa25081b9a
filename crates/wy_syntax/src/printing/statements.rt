//! Right sides, statements, parts and bodies, in lines with some indentations.
ghost use Rattle.std.specs.Prelude.{◌≡◌, ◌++◌, codes, suc, IfOk};
ghost use Rattle.wy_syntax.specs.Views.{expr_tree, part_tree, part_trees, rhs_tree, stmt_tree, stmt_trees, tail_tree};
ghost use Rattle.wy_syntax.specs.Collected.{Adds};
ghost use Rattle.wy_syntax.specs.Canonical.{block_text, expr_text, field_text, indented, level_of, newline, part_text, parts_text, placed, rhs_text, stmt_text, tail_text, type_text, written_type_text};

use crate::expressions::Expr;
use crate::printing::expressions::{CONDITION, is_lower, push_enclosed, push_expr};
use crate::printing::output::{Output, push};
use crate::printing::pieces::{Printed, push_behind, push_indentation};
use crate::printing::types::{push_signature, push_type};
use crate::statements::{FieldKind, Part, Rhs, Stmt, Tail};
use crate::types::{Name, TypeUse};

/// Adds the word that begins a field.
fn push_field_word(out: &mut Output, kind: FieldKind)
    ensures { Adds (field_text kind) out.old out.new }
{
    match kind {
        FieldKind::Val => push(out, b"val "),
        FieldKind::Var => push(out, b"var "),
    }
}

/// Adds a colon and a type, where one is written.
fn push_written_type(out: &mut Output, type_use: &Option<TypeUse>)
    ensures { Adds (written_type_text type_use.now) out.old out.new }
{
    if let Some(type_use) = type_use {
        push(out, b": ");
        push_type(out, type_use);
    }
}

/// Adds what stands before the equals sign of a `val`.
fn push_val(out: &mut Output, name: &Name, type_use: &Option<TypeUse>)
    ensures { Adds (codes "val " ++ name.now.text ++ written_type_text type_use.now) out.old out.new }
{
    push_behind(out, b"val ", name);
    push_written_type(out, type_use)
}

/// Adds what stands before the equals sign of a field.
fn push_field(out: &mut Output, kind: FieldKind, name: &Name, type_use: &TypeUse)
    ensures { Adds (field_text kind ++ name.now.text ++ codes ": " ++ type_text type_use.now) out.old out.new }
{
    push_field_word(out, kind);
    name.push_to(out);
    push(out, b": ");
    push_type(out, type_use)
}

/// Adds an expression and the end of its line.
fn push_value(out: &mut Output, e: &Expr)
    ensures { Adds (expr_text (expr_tree e.now) ++ newline) out.old out.new }
{
    push_expr(out, e);
    push(out, b"\n")
}

/// Adds the line of an `if` before its first block.
fn push_if(out: &mut Output, condition: &Expr)
    ensures { Adds (codes "if " ++ placed 1 (level_of (expr_tree condition.now)) (expr_text (expr_tree condition.now)) ++ newline) out.old out.new }
{
    push(out, b"if ");
    push_enclosed(out, condition, is_lower(condition, CONDITION));
    push(out, b"\n")
}

/// Adds the line between the two blocks of an `if`.
fn push_else(out: &mut Output, indents: usize)
    ensures { Adds (indented indents ++ codes "else" ++ newline) out.old out.new }
{
    push_indentation(out, indents);
    push(out, b"else\n")
}

/// Adds what stands behind an equals sign or alone, up to the end of its last line.
#[cycle(printing)]
fn push_rhs(out: &mut Output, rhs: &Rhs, indents: usize)
    ensures { Adds (rhs_text indents (rhs_tree rhs.now)) out.old out.new }
{
    match rhs {
        Rhs::New(_, parts) => {
            push(out, b"new\n");
            push_parts(out, parts, indents)
        }
        Rhs::Branch(_, condition, first, second) => {
            push_if(out, condition);
            push_block(out, first, indents);
            push_else(out, indents);
            push_block(out, second, indents)
        }
        Rhs::Value(e) => push_value(out, e),
    }
}

/// Adds an equals sign and what stands behind it.
#[cycle(printing)]
fn push_assigned(out: &mut Output, rhs: &Rhs, indents: usize)
    ensures { Adds (codes " = " ++ rhs_text indents (rhs_tree rhs.now)) out.old out.new }
{
    push(out, b" = ");
    push_rhs(out, rhs, indents)
}

/// Adds a statement.
#[cycle(printing)]
fn push_stmt(out: &mut Output, stmt: &Stmt, indents: usize)
    ensures { Adds (stmt_text indents (stmt_tree stmt.now)) out.old out.new }
{
    match stmt {
        Stmt::Val(name, type_use, rhs) => {
            push_val(out, name, type_use);
            push_assigned(out, rhs, indents)
        }
        Stmt::Assign(name, rhs) => {
            name.push_to(out);
            push_assigned(out, rhs, indents)
        }
        Stmt::Run(rhs) => push_rhs(out, rhs, indents),
    }
}

/// Adds statements, each in lines of its own, with one indentation more.
#[cycle(printing)]
fn push_block(out: &mut Output, block: &[Stmt], indents: usize)
    ensures { Adds (block_text (suc indents) (stmt_trees block.now)) out.old out.new }
{
    let Some(inside) = indents.checked_add(1) else {
        return out.lose();
    };
    for stmt in block {
        push_indentation(out, inside);
        push_stmt(out, stmt, inside);
    }
}

/// Adds a field or a method.
#[cycle(printing)]
fn push_part(out: &mut Output, part: &Part, indents: usize)
    ensures { Adds (part_text indents (part_tree part.now)) out.old out.new }
{
    match part {
        Part::Field(kind, name, type_use, rhs) => {
            push_field(out, *kind, name, type_use);
            push_assigned(out, rhs, indents)
        }
        Part::Method(signature, body) => {
            push_signature(out, signature);
            push_tail(out, body, indents)
        }
    }
}

/// Adds fields and methods, each in lines of its own, with one indentation more.
#[cycle(printing)]
pub fn push_parts(out: &mut Output, parts: &[Part], indents: usize)
    ensures { Adds (parts_text (suc indents) (part_trees parts.now)) out.old out.new }
{
    let Some(inside) = indents.checked_add(1) else {
        return out.lose();
    };
    for part in parts {
        push_indentation(out, inside);
        push_part(out, part, inside);
    }
}

/// Adds a body in the form in which it was written.
#[cycle(printing)]
pub fn push_tail(out: &mut Output, tail: &Tail, indents: usize)
    ensures { Adds (tail_text indents (tail_tree tail.now)) out.old out.new }
{
    match tail {
        Tail::Short(rhs) => push_assigned(out, rhs, indents),
        Tail::Long(block) => {
            push(out, b"\n");
            push_block(out, block, indents)
        }
    }
}
