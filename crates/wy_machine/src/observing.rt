//! Who is told what happens in a run.

ghost use Rattle.std.specs.Prelude.{◌≡◌, List, Result, Err};
ghost use Rattle.std.specs.Option.{option_copied};
ghost use Rattle.wy_code.specs.declared.code.Code.{Code as CodeRecord};
ghost use Rattle.wy_machine.specs.declared.run_end.RunEnd.{RunEnd as RunEndData};
ghost use Rattle.wy_machine.specs.Observing.{Told, Left, Did, entering};
ghost use Rattle.wy_machine.specs.Steps.{outcome};

use crate::run_end::RunEnd;
use wy_code::code::Code;
use wy_device::operation::{Answer, Op};
use wy_text::text::Text;

/// Who is told of each event of a run when it has happened. What it is told it may answer by ending the run: each method
/// gives whether the run goes on, else how it ends is put aside.
pub trait Observer {
    ghost hears: { Told → Self → Self → Result (Unit {0}) RunEndData → Type 0 };

    /// The body of a number is entered, in the instance of a number.
    fn entered(&mut self, code: &Code, instance: u32, body: u32, end: &mut RunEnd) -> bool
        ensures { hears (entering code.now instance body) self.old self.new (outcome result end.new) };

    /// A body of the instance of a number is left.
    fn left(&mut self, instance: u32, end: &mut RunEnd) -> bool
        ensures { hears (Left instance) self.old self.new (outcome result end.new) };

    /// An operation was asked of a device through the grant of that name, and answered so; with no answer it failed.
    fn performed(
        &mut self,
        grant: &Text,
        op: &Op,
        answer: Option<&Answer>,
        end: &mut RunEnd,
    ) -> bool
        ensures { hears (Did (record { grant = grant.now; op = op.now; answer = option_copied answer.entry })) self.old self.new (outcome result end.new) };
}

/// An observer that lets each run go on.
#[derive(Clone, Copy)]
pub struct Silent;

impl Observer for Silent {
    ghost use Rattle.std.specs.Prelude.{◌≡◌, Ok};

    ghost hears = { λ told a b r. r ≡ Ok tt };

    #[inline(always)]
    fn entered(&mut self, _code: &Code, _instance: u32, _body: u32, _end: &mut RunEnd) -> bool {
        true
    }

    #[inline(always)]
    fn left(&mut self, _instance: u32, _end: &mut RunEnd) -> bool {
        true
    }

    #[inline(always)]
    fn performed(
        &mut self,
        _grant: &Text,
        _op: &Op,
        _answer: Option<&Answer>,
        _end: &mut RunEnd,
    ) -> bool {
        true
    }
}
