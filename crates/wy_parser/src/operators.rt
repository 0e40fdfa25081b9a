//! The levels of operators, and the operator of each symbol.
ghost use Rattle.std.specs.Prelude.{◌≡◌};
ghost use Rattle.wy_parser.specs.ExprParsing.{operator_at, symbols_of};
ghost use Rattle.wy_parser.specs.Sorts.{number_of, numbers};

use crate::sort::Sort;
use wy_syntax::expressions::Operator;

/// A level of operators that group to the left. Comparisons, which do not, stand between `And` and `Sum`.
#[derive(Clone, Copy)]
pub enum Level {
    Or,
    And,
    Sum,
    Product,
}

const ORS: [Sort; 1] = [Sort::SymOrOr];

const ANDS: [Sort; 1] = [Sort::SymAndAnd];

const SUMS: [Sort; 3] = [Sort::SymPlus, Sort::SymMinus, Sort::SymPlusPlus];

const PRODUCTS: [Sort; 3] = [Sort::SymStar, Sort::SymSlash, Sort::SymPercent];

/// The symbols of comparisons.
pub const COMPARISONS: [Sort; 6] = [
    Sort::SymEqualEqual,
    Sort::SymNotEqual,
    Sort::SymLess,
    Sort::SymLessEqual,
    Sort::SymGreater,
    Sort::SymGreaterEqual,
];

impl Level {
    /// The symbols of the level's operators.
    pub fn symbols(self) -> &'static [Sort]
        ensures { numbers result.now ≡ symbols_of self }
    {
        match self {
            Level::Or => &ORS,
            Level::And => &ANDS,
            Level::Sum => &SUMS,
            Level::Product => &PRODUCTS,
        }
    }
}

/// The operator of a symbol.
pub fn operator_of(sort: Sort) -> Operator
    ensures { result ≡ operator_at (number_of sort) }
{
    match sort {
        Sort::SymAndAnd => Operator::And,
        Sort::SymEqualEqual => Operator::Equal,
        Sort::SymNotEqual => Operator::NotEqual,
        Sort::SymLess => Operator::Less,
        Sort::SymLessEqual => Operator::LessEqual,
        Sort::SymGreater => Operator::Greater,
        Sort::SymGreaterEqual => Operator::GreaterEqual,
        Sort::SymPlus => Operator::Plus,
        Sort::SymMinus => Operator::Minus,
        Sort::SymPlusPlus => Operator::Join,
        Sort::SymStar => Operator::Times,
        Sort::SymSlash => Operator::Divide,
        Sort::SymPercent => Operator::Remainder,
        _ => Operator::Or,
    }
}
