//! Expressions by recursive descent. `inner` is the depth that is left inside, and bounds the turns of
//! each loop; it is one less at each expression, argument or operand of a prefix in another.
ghost use Rattle.std.specs.Prelude.{◌≡◌, [], ◌∷◌, IfOk, map, pos};
ghost use Rattle.wy_syntax.specs.Tokens.{code, tok_of, toks};
ghost use Rattle.wy_syntax.specs.Views.{expr_tree};
ghost use Rattle.wy_parser.specs.Kinds as kinds;
ghost use Rattle.wy_parser.specs.Parsing.{commas, comma_part, value_of_int, value_of_kind};
ghost use Rattle.wy_parser.specs.ExprParsing.{arg_first, add_binary, minus_of, minus_digits, minus_edge, is_choice, number_alone, text_alone, one_argument, third_argument, several_arguments, built, parens, ascription, after_arg, atomic, call_part, add_call, post, minus, unary_at, compare_at, level_at, operand_at, choice_rest, choice_of, p_unary, p_expr, p_arg};
ghost use Rattle.wy_parser.specs.Reading.{Yes, choose};
ghost use Rattle.wy_parser.specs.Sorts.{number_of, Gives};

use crate::cursor::{begins, boxed, mark, name_of, name_token, take, text_of, word};
use crate::operators::{COMPARISONS, Level, operator_of};
use crate::sort::{Sort, sort_of};
use crate::stop::Stop;
use crate::types::type_use;
use std::alloc::{AllocError, Global};
use wy_syntax::expressions::Expr;
use wy_syntax::types::Name;
use wy_text::fault::Place;
use wy_text::token::{Token, TokenKind};

/// What an argument begins with.
pub const ARG_FIRST: [Sort; 15] = [
    Sort::KwIf,
    Sort::Name,
    Sort::Number,
    Sort::Text,
    Sort::KwThis,
    Sort::KwTrue,
    Sort::KwFalse,
    Sort::KwTextSize,
    Sort::KwTextPart,
    Sort::KwTextCode,
    Sort::KwTextByte,
    Sort::KwTextShow,
    Sort::SymOpenParen,
    Sort::SymMinus,
    Sort::SymNot,
];

const BUILT: [Sort; 5] = [
    Sort::KwTextSize,
    Sort::KwTextPart,
    Sort::KwTextCode,
    Sort::KwTextByte,
    Sort::KwTextShow,
];

/// The value of a number; 0 for what is none.
#[tactic(auto, using(crate::proofs::Numbers::value_rules))]
fn value_of(token: &Token) -> i64
    ensures { result ≡ pos (value_of_kind token.now.kind) }
{
    match &token.kind {
        TokenKind::Number(value) => at_least_zero(*value),
        _ => 0,
    }
}

#[tactic(auto, using(crate::proofs::Numbers::value_rules))]
fn at_least_zero(value: i64) -> i64
    ensures { result ≡ pos (value_of_int value) }
{
    if value < 0 { 0 } else { value }
}

/// The number that a `-` and these digits make.
#[tactic(auto, using(crate::proofs::Numbers::value_rules))]
fn minus_value(token: &Token) -> i64
    ensures { result ≡ minus_of (value_of_kind token.now.kind) }
{
    let value = value_of(token);
    -value
}

/// An expression in a box, and what stands behind it.
fn node<'a>(alloc: Global, e: Expr, rest: &'a [Token]) -> Result<(Box<Expr>, &'a [Token]), Stop<'a>>
    ensures { Gives (λ b. expr_tree b.value) result (Yes (expr_tree e) (toks rest.now)) }
{
    boxed(alloc, e, rest)
}

/// An operator's node with its operands.
fn binary(
    alloc: Global,
    symbol: &Token,
    left: Box<Expr>,
    right: Box<Expr>,
) -> Result<Box<Expr>, AllocError>
    ensures { IfOk result (λ r. expr_tree r.value ≡ add_binary (expr_tree left.value) (tok_of symbol.now, expr_tree right.value)) }
{
    let operator = operator_of(sort_of(&symbol.kind));
    Ok(Box::new(alloc, Expr::Binary(operator, left, right, symbol.place))?)
}

/// A call's node with its receiver and arguments.
fn call(
    alloc: Global,
    receiver: Box<Expr>,
    name: Name,
    arguments: Vec<Expr>,
) -> Result<Box<Expr>, AllocError>
    ensures { IfOk result (λ r. expr_tree r.value ≡ add_call (expr_tree receiver.value) (name, map expr_tree arguments.items)) }
{
    Ok(Box::new(alloc, Expr::Call(receiver, name, arguments))?)
}

/// Whether an expression is an `if`, which stands in parentheses only with a type.
fn is_choice(e: &Expr) -> bool
    ensures { result ≡ is_choice (expr_tree e.now) }
{
    match e {
        Expr::Choice(_, _, _, _) => true,
        _ => false,
    }
}

fn number<'a>(alloc: Global, tokens: &'a [Token]) -> Result<(Box<Expr>, &'a [Token]), Stop<'a>>
    ensures { Gives (λ b. expr_tree b.value) result (number_alone (toks tokens.now)) }
{
    let (token, rest) = take(tokens, &[Sort::Number])?;
    node(alloc, Expr::Number(value_of(token), token.place), rest)
}

fn text<'a>(alloc: Global, tokens: &'a [Token]) -> Result<(Box<Expr>, &'a [Token]), Stop<'a>>
    ensures { Gives (λ b. expr_tree b.value) result (text_alone (toks tokens.now)) }
{
    let (token, rest) = take(tokens, &[Sort::Text])?;
    let bytes = text_of(alloc, token)?;
    node(alloc, Expr::Text(bytes, token.place), rest)
}

/// The number behind a `-` whose place is given.
fn negative<'a>(
    alloc: Global,
    tokens: &'a [Token],
    place: Place,
) -> Result<(Box<Expr>, &'a [Token]), Stop<'a>>
    ensures { Gives (λ b. expr_tree b.value) result (choose code (kinds.Number ∷ []) (minus_digits place) (minus_edge place) (toks tokens.now)) }
{
    if begins(tokens, &[Sort::Number]) {
        let (token, rest) = take(tokens, &[Sort::Number])?;
        return node(alloc, Expr::Number(minus_value(token), place), rest);
    }
    let (_, rest) = mark(tokens, Sort::Edge)?;
    node(alloc, Expr::Number(i64::MIN, place), rest)
}

/// An argument: `if` with an expression on each side, or an expression.
#[cycle(expressions)]
#[tactic(auto, using(crate::proofs::Depths::arg_rules))]
pub fn arg<'a>(
    alloc: Global,
    tokens: &'a [Token],
    plain: bool,
    depth: usize,
) -> Result<(Box<Expr>, &'a [Token]), Stop<'a>>
    ensures { Gives (λ b. expr_tree b.value) result (p_arg plain depth (toks tokens.now)) }
{
    if depth == 0 {
        return Err(Stop::Deep);
    }
    if begins(tokens, &[Sort::KwIf]) {
        choice(alloc, tokens, plain, depth - 1)
    } else {
        operation(alloc, tokens, plain, depth - 1, Level::Or)
    }
}

/// An expression.
#[cycle(expressions)]
#[tactic(auto, using(crate::proofs::Depths::expr_rules))]
pub fn expr<'a>(
    alloc: Global,
    tokens: &'a [Token],
    plain: bool,
    depth: usize,
) -> Result<(Box<Expr>, &'a [Token]), Stop<'a>>
    ensures { Gives (λ b. expr_tree b.value) result (p_expr plain depth (toks tokens.now)) }
{
    if depth == 0 {
        return Err(Stop::Deep);
    }
    operation(alloc, tokens, plain, depth - 1, Level::Or)
}

/// An `if` with an expression on each side.
#[cycle(expressions)]
#[tactic(auto, unfolding(crate::specs::ExprParsing::choice_of))]
fn choice<'a>(
    alloc: Global,
    tokens: &'a [Token],
    plain: bool,
    inner: usize,
) -> Result<(Box<Expr>, &'a [Token]), Stop<'a>>
    ensures { Gives (λ b. expr_tree b.value) result (choice_of (p_expr plain inner) (p_arg plain inner) (toks tokens.now)) }
{
    let (place, rest) = mark(tokens, Sort::KwIf)?;
    let (condition, rest) = expr(alloc, rest, plain, inner)?;
    choice_rest(alloc, rest, place, condition, plain, inner)
}

/// What stands behind the condition of a choice.
#[cycle(expressions)]
#[tactic(auto, unfolding(crate::specs::ExprParsing::choice_rest))]
pub fn choice_rest<'a>(
    alloc: Global,
    tokens: &'a [Token],
    place: Place,
    condition: Box<Expr>,
    plain: bool,
    inner: usize,
) -> Result<(Box<Expr>, &'a [Token]), Stop<'a>>
    ensures { Gives (λ b. expr_tree b.value) result (choice_rest (p_arg plain inner) place (expr_tree condition.value) (toks tokens.now)) }
{
    let (_, rest) = mark(tokens, Sort::KwThen)?;
    let (first, rest) = arg(alloc, rest, plain, inner)?;
    let (_, rest) = mark(rest, Sort::KwElse)?;
    let (second, rest) = arg(alloc, rest, plain, inner)?;
    node(alloc, Expr::Choice(condition, first, second, place), rest)
}

/// Operands with operators of one level between, in groups to the left.
#[cycle(expressions)]
#[tactic(auto, using(crate::proofs::Depths::level_rules))]
fn operation<'a>(
    alloc: Global,
    tokens: &'a [Token],
    plain: bool,
    inner: usize,
    level: Level,
) -> Result<(Box<Expr>, &'a [Token]), Stop<'a>>
    ensures { Gives (λ b. expr_tree b.value) result (level_at plain inner level (toks tokens.now)) }
{
    let symbols = level.symbols();
    let (mut left, mut rest) = operand(alloc, tokens, plain, inner, level)?;
    for _ in 0..inner {
        if !begins(rest, symbols) {
            return Ok((left, rest));
        }
        let (symbol, after) = take(rest, symbols)?;
        let (right, after) = operand(alloc, after, plain, inner, level)?;
        left = binary(alloc, symbol, left, right)?;
        rest = after;
    }
    Err(Stop::Deep)
}

/// What stands between the operators of a level: what binds tighter.
#[cycle(expressions)]
#[tactic(auto, unfolding(crate::specs::ExprParsing::level_at, crate::specs::ExprParsing::operand_at))]
fn operand<'a>(
    alloc: Global,
    tokens: &'a [Token],
    plain: bool,
    inner: usize,
    level: Level,
) -> Result<(Box<Expr>, &'a [Token]), Stop<'a>>
    ensures { Gives (λ b. expr_tree b.value) result (operand_at plain inner level (toks tokens.now)) }
{
    match level {
        Level::Or => operation(alloc, tokens, plain, inner, Level::And),
        Level::And => comparison(alloc, tokens, plain, inner),
        Level::Sum => operation(alloc, tokens, plain, inner, Level::Product),
        Level::Product => prefix_in(alloc, tokens, plain, inner),
    }
}

/// A sum, or two with a comparison between.
#[cycle(expressions)]
#[tactic(auto, unfolding(crate::specs::ExprParsing::compare, crate::specs::ExprParsing::level_at))]
fn comparison<'a>(
    alloc: Global,
    tokens: &'a [Token],
    plain: bool,
    inner: usize,
) -> Result<(Box<Expr>, &'a [Token]), Stop<'a>>
    ensures { Gives (λ b. expr_tree b.value) result (compare_at plain inner (toks tokens.now)) }
{
    let (left, rest) = operation(alloc, tokens, plain, inner, Level::Sum)?;
    if !begins(rest, &COMPARISONS) {
        return Ok((left, rest));
    }
    let (symbol, rest) = take(rest, &COMPARISONS)?;
    let (right, rest) = operation(alloc, rest, plain, inner, Level::Sum)?;
    Ok((binary(alloc, symbol, left, right)?, rest))
}

/// The operand of a prefix.
#[cycle(expressions)]
#[tactic(auto, using(crate::proofs::Depths::unary_rules))]
fn prefix<'a>(
    alloc: Global,
    tokens: &'a [Token],
    plain: bool,
    depth: usize,
) -> Result<(Box<Expr>, &'a [Token]), Stop<'a>>
    ensures { Gives (λ b. expr_tree b.value) result (p_unary plain depth (toks tokens.now)) }
{
    if depth == 0 {
        return Err(Stop::Deep);
    }
    prefix_in(alloc, tokens, plain, depth - 1)
}

/// `-` or `!` and an operand, or what calls stand behind.
#[cycle(expressions)]
#[tactic(auto, unfolding(crate::specs::ExprParsing::unary, crate::specs::ExprParsing::bang))]
fn prefix_in<'a>(
    alloc: Global,
    tokens: &'a [Token],
    plain: bool,
    inner: usize,
) -> Result<(Box<Expr>, &'a [Token]), Stop<'a>>
    ensures { Gives (λ b. expr_tree b.value) result (unary_at plain inner (toks tokens.now)) }
{
    if begins(tokens, &[Sort::SymMinus, Sort::SymNot]) {
        if begins(tokens, &[Sort::SymMinus]) {
            minus(alloc, tokens, plain, inner)
        } else {
            let (place, rest) = mark(tokens, Sort::SymNot)?;
            let (e, rest) = prefix(alloc, rest, plain, inner)?;
            node(alloc, Expr::Not(e, place), rest)
        }
    } else {
        postfix(alloc, tokens, plain, inner)
    }
}

/// `-`: directly before a number it belongs to it.
#[cycle(expressions)]
#[tactic(auto, unfolding(crate::specs::ExprParsing::minus))]
fn minus<'a>(
    alloc: Global,
    tokens: &'a [Token],
    plain: bool,
    inner: usize,
) -> Result<(Box<Expr>, &'a [Token]), Stop<'a>>
    ensures { Gives (λ b. expr_tree b.value) result (minus (p_unary plain inner) (toks tokens.now)) }
{
    let (place, rest) = mark(tokens, Sort::SymMinus)?;
    if begins(rest, &[Sort::Number, Sort::Edge]) {
        return negative(alloc, rest, place);
    }
    let (e, rest) = prefix(alloc, rest, plain, inner)?;
    node(alloc, Expr::Negate(e, place), rest)
}

/// Something and the calls behind it.
#[cycle(expressions)]
#[tactic(auto, unfolding(crate::specs::ExprParsing::post))]
fn postfix<'a>(
    alloc: Global,
    tokens: &'a [Token],
    plain: bool,
    inner: usize,
) -> Result<(Box<Expr>, &'a [Token]), Stop<'a>>
    ensures { Gives (λ b. expr_tree b.value) result (post plain (p_arg plain inner) inner (toks tokens.now)) }
{
    let (mut e, mut rest) = atomic(alloc, tokens, plain, inner)?;
    for _ in 0..inner {
        if !begins(rest, &[Sort::SymDot]) {
            return Ok((e, rest));
        }
        let ((name, arguments), after) = call_part(alloc, rest, plain, inner)?;
        e = call(alloc, e, name, arguments)?;
        rest = after;
    }
    Err(Stop::Deep)
}

/// A dot, a method's name and its arguments.
#[cycle(expressions)]
#[tactic(auto, unfolding(crate::specs::ExprParsing::call_part))]
fn call_part<'a>(
    alloc: Global,
    tokens: &'a [Token],
    plain: bool,
    inner: usize,
) -> Result<((Name, Vec<Expr>), &'a [Token]), Stop<'a>>
    ensures { Gives (λ x. (x.0, map expr_tree x.1.items)) result (call_part (p_arg plain inner) inner (toks tokens.now)) }
{
    let (_, rest) = mark(tokens, Sort::SymDot)?;
    let (name, rest) = name_token(rest)?;
    let (_, rest) = mark(rest, Sort::SymOpenParen)?;
    let (arguments, rest) = arguments(alloc, rest, plain, inner)?;
    let (_, rest) = mark(rest, Sort::SymCloseParen)?;
    Ok(((name_of(alloc, name)?, arguments), rest))
}

/// Arguments with commas between, or none.
#[cycle(expressions)]
fn arguments<'a>(
    alloc: Global,
    tokens: &'a [Token],
    plain: bool,
    inner: usize,
) -> Result<(Vec<Expr>, &'a [Token]), Stop<'a>>
    ensures { Gives (λ v. map expr_tree v.items) result (commas arg_first (p_arg plain inner) inner (toks tokens.now)) }
{
    let mut items = Vec::new(alloc);
    if !begins(tokens, &ARG_FIRST) {
        return Ok((items, tokens));
    }
    let (first, mut rest) = arg(alloc, tokens, plain, inner)?;
    items.push(Box::into_inner(first))?;
    for _ in 0..inner {
        if !begins(rest, &[Sort::SymComma]) {
            return Ok((items, rest));
        }
        let (item, after) = comma_arg(alloc, rest, plain, inner)?;
        items.push(Box::into_inner(item))?;
        rest = after;
    }
    Err(Stop::Deep)
}

/// A comma and an argument.
#[cycle(expressions)]
fn comma_arg<'a>(
    alloc: Global,
    tokens: &'a [Token],
    plain: bool,
    inner: usize,
) -> Result<(Box<Expr>, &'a [Token]), Stop<'a>>
    ensures { Gives (λ b. expr_tree b.value) result (comma_part (p_arg plain inner) (toks tokens.now)) }
{
    let (_, rest) = mark(tokens, Sort::SymComma)?;
    arg(alloc, rest, plain, inner)
}

/// What stands alone or in parentheses.
#[cycle(expressions)]
#[tactic(auto, unfolding(crate::specs::ExprParsing::atomic))]
fn atomic<'a>(
    alloc: Global,
    tokens: &'a [Token],
    plain: bool,
    inner: usize,
) -> Result<(Box<Expr>, &'a [Token]), Stop<'a>>
    ensures { Gives (λ b. expr_tree b.value) result (atomic plain (p_arg plain inner) inner (toks tokens.now)) }
{
    if begins(tokens, &[Sort::Number]) {
        return number(alloc, tokens);
    }
    if begins(tokens, &[Sort::Text]) {
        return text(alloc, tokens);
    }
    if begins(tokens, &[Sort::KwTrue]) {
        let (place, rest) = mark(tokens, Sort::KwTrue)?;
        return node(alloc, Expr::True(place), rest);
    }
    if begins(tokens, &[Sort::KwFalse]) {
        let (place, rest) = mark(tokens, Sort::KwFalse)?;
        return node(alloc, Expr::False(place), rest);
    }
    if begins(tokens, &[Sort::KwThis]) {
        let (place, rest) = mark(tokens, Sort::KwThis)?;
        return node(alloc, Expr::This(place), rest);
    }
    if begins(tokens, &[Sort::Name]) {
        let (name, rest) = word(alloc, tokens)?;
        return node(alloc, Expr::Name(name), rest);
    }
    if begins(tokens, &BUILT) {
        built(alloc, tokens, plain, inner)
    } else {
        parens(alloc, tokens, plain, inner)
    }
}

/// `()`, an expression in parentheses, or an argument with a type in parentheses.
#[cycle(expressions)]
#[tactic(auto, unfolding(crate::specs::ExprParsing::parens))]
fn parens<'a>(
    alloc: Global,
    tokens: &'a [Token],
    plain: bool,
    inner: usize,
) -> Result<(Box<Expr>, &'a [Token]), Stop<'a>>
    ensures { Gives (λ b. expr_tree b.value) result (parens plain (p_arg plain inner) inner (toks tokens.now)) }
{
    let (place, rest) = mark(tokens, Sort::SymOpenParen)?;
    if begins(rest, &[Sort::SymCloseParen]) {
        let (_, rest) = mark(rest, Sort::SymCloseParen)?;
        return node(alloc, Expr::Unit(place), rest);
    }
    let (e, rest) = arg(alloc, rest, plain, inner)?;
    after_arg(alloc, rest, place, e, plain, inner)
}

/// A `text_` word and its arguments.
#[cycle(expressions)]
#[tactic(auto, unfolding(crate::specs::ExprParsing::built, crate::specs::ExprParsing::built1))]
fn built<'a>(
    alloc: Global,
    tokens: &'a [Token],
    plain: bool,
    inner: usize,
) -> Result<(Box<Expr>, &'a [Token]), Stop<'a>>
    ensures { Gives (λ b. expr_tree b.value) result (built (p_arg plain inner) (toks tokens.now)) }
{
    if begins(tokens, &[Sort::KwTextSize]) {
        let ((e, place), rest) = one_argument(alloc, tokens, Sort::KwTextSize, plain, inner)?;
        return node(alloc, Expr::TextSize(e, place), rest);
    }
    if begins(tokens, &[Sort::KwTextPart]) {
        return several_arguments(alloc, tokens, Sort::KwTextPart, true, plain, inner);
    }
    if begins(tokens, &[Sort::KwTextCode]) {
        return several_arguments(alloc, tokens, Sort::KwTextCode, false, plain, inner);
    }
    if begins(tokens, &[Sort::KwTextByte]) {
        let ((e, place), rest) = one_argument(alloc, tokens, Sort::KwTextByte, plain, inner)?;
        return node(alloc, Expr::TextByte(e, place), rest);
    }
    let ((e, place), rest) = one_argument(alloc, tokens, Sort::KwTextShow, plain, inner)?;
    node(alloc, Expr::TextShow(e, place), rest)
}

/// A word and one argument in parentheses.
#[cycle(expressions)]
#[tactic(auto, unfolding(crate::specs::ExprParsing::one_argument))]
fn one_argument<'a>(
    alloc: Global,
    tokens: &'a [Token],
    sort: Sort,
    plain: bool,
    inner: usize,
) -> Result<((Box<Expr>, Place), &'a [Token]), Stop<'a>>
    ensures { Gives (λ x. (expr_tree x.0.value, x.1)) result (one_argument (number_of sort) (p_arg plain inner) (toks tokens.now)) }
{
    let (place, rest) = mark(tokens, sort)?;
    let (_, rest) = mark(rest, Sort::SymOpenParen)?;
    let (e, rest) = arg(alloc, rest, plain, inner)?;
    let (_, rest) = mark(rest, Sort::SymCloseParen)?;
    Ok(((e, place), rest))
}

/// What stands behind two arguments: the end, or a third one before it.
#[cycle(expressions)]
fn third_argument<'a>(
    alloc: Global,
    tokens: &'a [Token],
    three: bool,
    text: Box<Expr>,
    from: Box<Expr>,
    place: Place,
    plain: bool,
    inner: usize,
) -> Result<(Box<Expr>, &'a [Token]), Stop<'a>>
    ensures { Gives (λ b. expr_tree b.value) result (third_argument three (p_arg plain inner) (expr_tree text.value) (expr_tree from.value) place (toks tokens.now)) }
{
    if three {
        let (_, rest) = mark(tokens, Sort::SymComma)?;
        let (to, rest) = arg(alloc, rest, plain, inner)?;
        let (_, rest) = mark(rest, Sort::SymCloseParen)?;
        node(alloc, Expr::TextPart(text, from, to, place), rest)
    } else {
        let (_, rest) = mark(tokens, Sort::SymCloseParen)?;
        node(alloc, Expr::TextCode(text, from, place), rest)
    }
}

/// A word and two arguments in parentheses, or three: `text_code`, or `text_part`.
#[cycle(expressions)]
#[tactic(auto, unfolding(crate::specs::ExprParsing::several_arguments))]
fn several_arguments<'a>(
    alloc: Global,
    tokens: &'a [Token],
    sort: Sort,
    three: bool,
    plain: bool,
    inner: usize,
) -> Result<(Box<Expr>, &'a [Token]), Stop<'a>>
    ensures { Gives (λ b. expr_tree b.value) result (several_arguments (number_of sort) three (p_arg plain inner) (toks tokens.now)) }
{
    let (place, rest) = mark(tokens, sort)?;
    let (_, rest) = mark(rest, Sort::SymOpenParen)?;
    let (text, rest) = arg(alloc, rest, plain, inner)?;
    let (_, rest) = mark(rest, Sort::SymComma)?;
    let (from, rest) = arg(alloc, rest, plain, inner)?;
    third_argument(alloc, rest, three, text, from, place, plain, inner)
}

/// `: T)` behind an expression in parentheses.
#[tactic(auto, unfolding(crate::specs::ExprParsing::ascription))]
fn ascription<'a>(
    alloc: Global,
    tokens: &'a [Token],
    place: Place,
    e: Box<Expr>,
    plain: bool,
    inner: usize,
) -> Result<(Box<Expr>, &'a [Token]), Stop<'a>>
    ensures { Gives (λ b. expr_tree b.value) result (ascription plain place (expr_tree e.value) inner (toks tokens.now)) }
{
    let (_, rest) = mark(tokens, Sort::SymColon)?;
    let (type_use, rest) = type_use(alloc, rest, plain, inner)?;
    let (_, rest) = mark(rest, Sort::SymCloseParen)?;
    node(
        alloc,
        Expr::Ascribe(e, Box::into_inner(type_use), place),
        rest,
    )
}

/// What stands behind an argument in parentheses: an `if` must have a type there.
fn after_arg<'a>(
    alloc: Global,
    tokens: &'a [Token],
    place: Place,
    e: Box<Expr>,
    plain: bool,
    inner: usize,
) -> Result<(Box<Expr>, &'a [Token]), Stop<'a>>
    ensures { Gives (λ b. expr_tree b.value) result (after_arg plain place (expr_tree e.value) inner (toks tokens.now)) }
{
    if is_choice(&e) {
        return ascription(alloc, tokens, place, e, plain, inner);
    }
    if begins(tokens, &[Sort::SymColon]) {
        return ascription(alloc, tokens, place, e, plain, inner);
    }
    let (_, rest) = mark(tokens, Sort::SymCloseParen)?;
    Ok((e, rest))
}
