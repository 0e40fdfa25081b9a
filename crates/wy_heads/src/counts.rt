//! The counts of this stage (docs/LANGUAGE.md, "Limits").

ghost use Rattle.std.specs.Prelude.{◌≡◌, ◌+◌, ◌<◌, ◌≤◌, ◌^◌, ℕ, List, map, max, length};
ghost use Rattle.wy_syntax.specs.Views.{part_tree, part_trees, rhs_tree, stmt_tree, stmt_trees, tail_tree};
ghost use Rattle.wy_heads.specs.Most.{with_parts, with_members, rhs_most, stmt_most, stmts_most, part_most, parts_most, tail_most};

use wy_syntax::items::Member;
use wy_syntax::statements::{Part, Rhs, Stmt, Tail};

/// The greatest numbers so far: methods of one type, module or literal, fields of one module or literal,
/// and parameters of one method or module.
#[derive(Clone, Copy)]
pub struct Most {
    pub methods: usize,
    pub fields: usize,
    pub parameters: usize,
}

/// With the counts of one list of fields and methods.
fn with_parts(most: Most, parts: &[Part]) -> Most
    ensures { result ≡ with_parts most (part_trees parts.now) }
{
    let mut methods = 0;
    let mut fields = 0;
    let mut parameters = most.parameters;
    for part in parts {
        match part {
            Part::Field(_, _, _, _) => fields += 1,
            Part::Method(signature, _) => {
                methods += 1;
                parameters = parameters.max(signature.params.len());
            }
        }
    }
    Most {
        methods: most.methods.max(methods),
        fields: most.fields.max(fields),
        parameters,
    }
}

/// With the counts of a type's members.
pub fn with_members(most: Most, members: &[Member]) -> Most
    ensures { result ≡ with_members most members.now }
{
    let mut methods = 0;
    let mut parameters = most.parameters;
    for member in members {
        match member {
            Member::Abstract(_) | Member::Bounded(_, _) | Member::Defined(_, _) => {}
            Member::Method(signature) => {
                methods += 1;
                parameters = parameters.max(signature.params.len());
            }
        }
    }
    Most {
        methods: most.methods.max(methods),
        fields: most.fields,
        parameters,
    }
}

/// With the counts of the literals of a right side.
#[cycle(most)]
fn rhs_most(most: Most, rhs: &Rhs) -> Most
    ensures { result ≡ rhs_most most (rhs_tree rhs.now) }
{
    match rhs {
        Rhs::New(_place, parts) => parts_most(with_parts(most, parts), parts),
        Rhs::Branch(_place, _condition, first, second) => {
            stmts_most(stmts_most(most, first), second)
        }
        Rhs::Value(_) => most,
    }
}

/// With the counts of the literals of a statement.
#[cycle(most)]
fn stmt_most(most: Most, stmt: &Stmt) -> Most
    ensures { result ≡ stmt_most most (stmt_tree stmt.now) }
{
    match stmt {
        Stmt::Val(_, _, rhs) => rhs_most(most, rhs),
        Stmt::Assign(_, rhs) => rhs_most(most, rhs),
        Stmt::Run(rhs) => rhs_most(most, rhs),
    }
}

/// With the counts of the literals of a block.
#[cycle(most)]
fn stmts_most(start: Most, block: &[Stmt]) -> Most
    ensures { result ≡ stmts_most start (stmt_trees block.now) }
{
    let mut most = start;
    for stmt in block {
        most = stmt_most(most, stmt);
    }
    most
}

/// With the counts of the literals in a field or a method.
#[cycle(most)]
fn part_most(most: Most, part: &Part) -> Most
    ensures { result ≡ part_most most (part_tree part.now) }
{
    match part {
        Part::Field(_, _, _, rhs) => rhs_most(most, rhs),
        Part::Method(_, body) => tail_most(most, body),
    }
}

/// With the counts of the literals in fields and methods.
#[cycle(most)]
fn parts_most(start: Most, parts: &[Part]) -> Most
    ensures { result ≡ parts_most start (part_trees parts.now) }
{
    let mut most = start;
    for part in parts {
        most = part_most(most, part);
    }
    most
}

/// With the counts of the literals of a body.
#[cycle(most)]
pub fn tail_most(most: Most, tail: &Tail) -> Most
    ensures { result ≡ tail_most most (tail_tree tail.now) }
{
    match tail {
        Tail::Short(rhs) => rhs_most(most, rhs),
        Tail::Long(block) => stmts_most(most, block),
    }
}

/// With the counts of a module's parts and of the literals in them.
pub fn module_most(most: Most, parts: &[Part]) -> Most
    ensures { result ≡ parts_most (with_parts most (part_trees parts.now)) (part_trees parts.now) }
{
    parts_most(with_parts(most, parts), parts)
}
