//! Deeds, and the events of a run.

ghost use Rattle.std.specs.Prelude.{◌≡◌, ◌∷◌, [], IfOk, Some, None};
ghost use Rattle.wy_device.specs.Device.{deed_done, deed_failed};

use crate::operation::{Answer, Op};
use wy_text::list::Items;
use wy_text::text::{Memory, Text};

/// An operation that was asked of a device, through the grant of that name, and what it answered.
/// One with no answer failed.
#[derive(Drop)]
pub struct Deed {
    pub grant: Text,
    pub op: Op,
    pub answer: Option<Answer>,
}

/// The deeds of a device, in order.
pub type DeedList = Items<Deed>;

/// What happens in a run: a body of an instance is entered, an operation is done, or the body that was
/// entered last is left.
#[derive(Drop)]
pub enum Event {
    Enter { instance: Text, body: Text },
    Deed(Deed),
    Leave,
}

impl Deed {
    /// The deed of an operation that was answered.
    pub fn done(grant: &Text, op: &Op, answer: &Answer) -> Result<Deed, Memory>
        ensures { IfOk result (λ deed. deed ∷ [] ≡ deed_done grant.now op.now answer.now) }
    {
        Ok(Deed {
            grant: grant.copy()?,
            op: op.copy()?,
            answer: Some(answer.copy()?),
        })
    }

    /// The deed of an operation that failed.
    pub fn failed(grant: &Text, op: &Op) -> Result<Deed, Memory>
        ensures { IfOk result (λ deed. deed ∷ [] ≡ deed_failed grant.now op.now) }
    {
        Ok(Deed {
            grant: grant.copy()?,
            op: op.copy()?,
            answer: None,
        })
    }
}
