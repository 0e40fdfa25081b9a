//! The observer that keeps up what is used of each instance.

ghost use Rattle.wy_machine.specs.Steps.{outcome};

use crate::observing::Observer;
use crate::run_end::RunEnd;
use wy_code::code::Code;
use wy_device::operation::{Answer, Op};
use wy_meaning::Used;
use wy_text::text::Text;

impl<'a> Observer for Used<'a> {
    ghost use Rattle.wy_machine.specs.Observed.{HearsUse};

    ghost hears = { HearsUse };

    fn entered(&mut self, _code: &Code, instance: u32, _body: u32, _end: &mut RunEnd) -> bool {
        self.enter(instance as usize);
        true
    }

    fn left(&mut self, instance: u32, _end: &mut RunEnd) -> bool {
        self.leave(instance as usize);
        true
    }

    fn performed(
        &mut self,
        grant: &Text,
        op: &Op,
        _answer: Option<&Answer>,
        _end: &mut RunEnd,
    ) -> bool {
        self.perform(grant, op.name());
        true
    }
}
