//! Rules as bytes.

ghost use Rattle.std.specs.Prelude.{◌≡◌, ◌<◌, [], ◌∷◌, IfNone, IfSome};
ghost use Rattle.wy_cert.specs.RuleLaws.{IsRuleSpelled, one_byte, rules_apart, rules_filled};
ghost use Rattle.wy_cert.specs.Spelled.{rule_byte};
ghost use Rattle.wy_cert.specs.declared.certificate.Rule.TheVariants as rule;

use crate::certificate::Rule;
use std::alloc::Global;
use wy_spelling::{ReadError, Spelled, WriteRefusal};

/// The rule that a byte says.
fn rule_of(byte: u8) -> Option<Rule>
    ensures found { IfSome result (λ r. rule_byte r ≡ byte) }
    ensures none { IfNone result (12 < byte) }
{
    match byte {
        0 => Some(Rule::Lit),
        1 => Some(Rule::Var),
        2 => Some(Rule::This),
        3 => Some(Rule::Call),
        4 => Some(Rule::New),
        5 => Some(Rule::If),
        6 => Some(Rule::Seq),
        7 => Some(Rule::Val),
        8 => Some(Rule::Set),
        9 => Some(Rule::Op),
        10 => Some(Rule::Asc),
        11 => Some(Rule::Body),
        12 => Some(Rule::Sub),
        _ => None,
    }
}

/// The byte of a rule.
fn byte_of(rule: Rule) -> u8
    ensures { result ≡ rule_byte rule }
{
    match rule {
        Rule::Lit => 0,
        Rule::Var => 1,
        Rule::This => 2,
        Rule::Call => 3,
        Rule::New => 4,
        Rule::If => 5,
        Rule::Seq => 6,
        Rule::Val => 7,
        Rule::Set => 8,
        Rule::Op => 9,
        Rule::Asc => 10,
        Rule::Body => 11,
        Rule::Sub => 12,
    }
}

impl Spelled for Rule {
    ghost IsSpelled = { IsRuleSpelled };

    ghost bytes_of = { one_byte };

    fn read(_alloc: Global, bytes: &[u8]) -> Result<(Rule, &[u8]), ReadError> {
        let [byte, rest @ ..] = bytes else {
            return Err(ReadError::Bad(0));
        };
        match rule_of(*byte) {
            Some(rule) => Ok((rule, rest)),
            None => Err(ReadError::Bad(bytes.len())),
        }
    }

    fn write(&self, out: &mut Vec<u8>) -> Result<(), WriteRefusal> {
        out.push(byte_of(*self))?;
        Ok(())
    }

    ghost some = { (rule.Lit, tt) };

    ghost apart = { rules_apart };

    ghost filled = { rules_filled };
}
