//! What each operator gives for the topmost operands.

ghost use Rattle.std.specs.Prelude.{◌≡◌, ◌≤◌, ◌∷◌, [], length, map, reverse, take, true, IfOk, MatchOption, OnErr, ⊤};
ghost use Rattle.wy_code.specs.Operations.{operator_meant, operand_count};
ghost use Rattle.wy_code.specs.Stores.{operand};
ghost use Rattle.wy_code.specs.Stores as stores;
ghost use Rattle.wy_device.specs.Operators.{operate};
ghost use Rattle.wy_device.specs.Operators as meant;
ghost use Rattle.wy_device.specs.Tapes.{Tapes};
ghost use Rattle.wy_machine.specs.Computing.{computed_meant, not_if, word_given, IsGiven};
ghost use Rattle.wy_machine.specs.States.{store_of};
ghost use Rattle.wy_machine.specs.Wanting.{builds_text};

use crate::arithmetic::{
    byte, difference, greater, greater_or_equal, less, less_or_equal, negated, negation, product,
    quotient, remainder, shown, sum,
};
use crate::computed::Computed;
use crate::stack::Stack;
use crate::store::Store;
use crate::texts::{byte_in, joined, part, same, size};
use crate::word::{Word, WordKind};
use std::alloc::Global;
use wy_code::code::Code;
use wy_code::instruction::Operator;
use wy_text::text::Memory;

/// How many operands an operator takes.
pub fn operand_count(operator: Operator) -> usize
    ensures { result ≡ operand_count operator }
{
    match operator {
        Operator::Negate | Operator::Not | Operator::Size | Operator::Byte | Operator::Show => 1,
        Operator::Part => 3,
        Operator::Add
        | Operator::Subtract
        | Operator::Multiply
        | Operator::Divide
        | Operator::Remainder
        | Operator::Join
        | Operator::Less
        | Operator::LessOrEqual
        | Operator::Greater
        | Operator::GreaterOrEqual
        | Operator::Equal
        | Operator::NotEqual
        | Operator::Code => 2,
    }
}

/// Whether two words are as asked: the same, or different.
fn compared(code: &Code, store: &Store, x: Word, y: Word, different: bool) -> Computed
    ensures { (tapes : Tapes) → computed_meant result
        ≡ meant.compared (not_if different) (operand (store_of code.now store.now tapes) x) (operand (store_of code.now store.now tapes) y) }
{
    match same(code, store, x, y) {
        Some(same) => Computed::Truth(same != different),
        None => Computed::Misfit,
    }
}

/// A number or a truth value as a word; `None` exactly where it is neither.
fn plain(computed: Computed) -> Option<Word>
    ensures { result ≡ word_given computed }
{
    match computed {
        Computed::Number(number) => Some(Word::new(WordKind::Int(number))),
        Computed::Truth(truth) => Some(Word::new(WordKind::Truth(truth))),
        Computed::Text(_) => None,
        Computed::Trap(_) => None,
        Computed::Misfit => None,
    }
}

/// What the most frequent operators, on two numbers, give for the topmost operands, as a word: a short way. `None` where
/// it is another operator, or traps; then `computed` tells.
#[inline(always)]
pub fn computed_plainly(stack: &Stack, operator: Operator) -> Option<Word>
    requires { operand_count operator ≤ length stack.now.running.operands }
    ensures { MatchOption result ⊤ (λ v. (operand_count operator ≡ 2) × ((w : stores.Store) →
        IsGiven v (operate (operator_meant operator) (map (operand w) (reverse (take (operand_count operator) stack.now.running.operands)))))) }
{
    match operator {
        Operator::Add => plain(sum(stack.operand(1), stack.operand(0))),
        Operator::Subtract => plain(difference(stack.operand(1), stack.operand(0))),
        Operator::Less => plain(less(stack.operand(1), stack.operand(0))),
        Operator::LessOrEqual => plain(less_or_equal(stack.operand(1), stack.operand(0))),
        Operator::Greater => plain(greater(stack.operand(1), stack.operand(0))),
        Operator::GreaterOrEqual => plain(greater_or_equal(stack.operand(1), stack.operand(0))),
        _ => None,
    }
}

/// What an operator gives for the topmost operands.
pub fn computed(
    alloc: Global,
    code: &Code,
    store: &Store,
    stack: &Stack,
    operator: Operator,
) -> Result<Computed, Memory>
    requires { operand_count operator ≤ length stack.now.running.operands }
    ensures gives { IfOk result (λ c. (tapes : Tapes) →
        computed_meant c ≡ operate (operator_meant operator) (map (operand (store_of code.now store.now tapes)) (reverse (take (operand_count operator) stack.now.running.operands)))) }
    ensures wants { OnErr result (builds_text operator ≡ true) }
{
    match operator {
        Operator::Negate => Ok(negated(stack.operand(0))),
        Operator::Not => Ok(negation(stack.operand(0))),
        Operator::Add => Ok(sum(stack.operand(1), stack.operand(0))),
        Operator::Subtract => Ok(difference(stack.operand(1), stack.operand(0))),
        Operator::Multiply => Ok(product(stack.operand(1), stack.operand(0))),
        Operator::Divide => Ok(quotient(stack.operand(1), stack.operand(0))),
        Operator::Remainder => Ok(remainder(stack.operand(1), stack.operand(0))),
        Operator::Join => joined(code, store, stack.operand(1), stack.operand(0)),
        Operator::Less => Ok(less(stack.operand(1), stack.operand(0))),
        Operator::LessOrEqual => Ok(less_or_equal(stack.operand(1), stack.operand(0))),
        Operator::Greater => Ok(greater(stack.operand(1), stack.operand(0))),
        Operator::GreaterOrEqual => Ok(greater_or_equal(stack.operand(1), stack.operand(0))),
        Operator::Equal => Ok(compared(code, store, stack.operand(1), stack.operand(0), false)),
        Operator::NotEqual => Ok(compared(code, store, stack.operand(1), stack.operand(0), true)),
        Operator::Size => Ok(size(code, store, stack.operand(0))),
        Operator::Part => part(
            alloc,
            code,
            store,
            stack.operand(2),
            stack.operand(1),
            stack.operand(0),
        ),
        Operator::Code => Ok(byte_in(code, store, stack.operand(1), stack.operand(0))),
        Operator::Byte => byte(alloc, stack.operand(0)),
        Operator::Show => shown(alloc, stack.operand(0)),
    }
}
