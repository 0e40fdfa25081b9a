//! What the typing rules look up, and the premises that ask no subtyping: what operators take and give, the types of fields and
//! names, the members of types and their bounds, and a line's module and arguments (docs/LANGUAGE.md, "Typing of bodies",
//! "Modules and lines" and "Upper bounds").
#![tactic(auto)]

mod arguments;
mod fields;
mod marks;
mod members;
mod operators;
mod respecting;

pub use arguments::{all_have_opened, disagreement, first_outside_member, is_of_kind};
pub use fields::{declared_type, field_types, fields_of, var_field};
pub use marks::{expr_mark, mark};
pub use members::{
    add_argument_sets, argument_type, arguments_sets, member_set, members_of, names_of, opened,
    opened_members, parameters_of,
};
pub use operators::{binary_result, joined, text_operands, text_result, unary_result, united};
pub use respecting::{first_outside, least_missing};
