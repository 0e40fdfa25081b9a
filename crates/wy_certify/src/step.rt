//! Steps: what each node of a certificate is to say, before types have numbers.

use wy_cert::Rule;
use wy_effects::set::EffSet;
use wy_text::fault::Place;
use wy_types::types::TypeRef;

/// A rule that is used, its place, how many parts it has, and the type and the effect that it gives.
#[derive(Drop)]
pub struct Step {
    pub rule: Rule,
    pub place: Place,
    pub parts: usize,
    /// Of T-Sub alone: the type of its part.
    pub below: Option<TypeRef>,
    /// None of a rule that gives no type.
    pub typ: Option<TypeRef>,
    pub effect: EffSet,
}
