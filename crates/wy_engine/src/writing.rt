//! Writes what a command has to say to `out`.

ghost use Rattle.wy_authority.specs.Report.{report_text};
ghost use Rattle.wy_engine.specs.Writing.{Wrote};

use crate::status::Status;
use std::alloc::Global;
use wy_authority::{Authority, write_report};
use wy_text::sink::{Sink, WriteError};
use wy_text::writing::write_all;

/// Writes what a command has to say to `out`, and returns the status.
pub fn write_out<O: Sink>(out: &mut O, text: &[u8]) -> Status
    ensures { Wrote text.now (O.state out.old) (O.state out.new) result }
{
    match write_all(out, text) {
        Ok(()) => Status::Ended,
        Err(WriteError::Failed) => Status::Unwritten,
        Err(WriteError::Memory) => Status::Memory,
    }
}

/// Writes the report of an authority to `out`, row by row, and returns the status.
pub fn write_report_out<O: Sink>(alloc: Global, out: &mut O, authority: &Authority) -> Status
    ensures { Wrote (report_text authority.now) (O.state out.old) (O.state out.new) result }
{
    match write_report(alloc, authority, out) {
        Ok(()) => Status::Ended,
        Err(WriteError::Failed) => Status::Unwritten,
        Err(WriteError::Memory) => Status::Memory,
    }
}
