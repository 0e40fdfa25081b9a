ghost use Rattle.std.specs.Prelude.{◌≡◌, ◌≤◌, ◌<◌, ◌+◌, ◌^◌, IfOk, OnOk, reverse, vec_len};
ghost use Rattle.wy_layout.specs.Gives.{within_of};
ghost use Rattle.wy_layout.specs.Layout as layout;
ghost use Rattle.wy_layout.specs.Lexed.{stack_after};
ghost use Rattle.wy_layout.specs.Outs.{step_is};
ghost use Rattle.wy_layout.specs.Widths.{above, is_top, rest, step_of};

use crate::refusal::Fault;
use wy_text::limit::{MOST_INDENTS, MOST_TOKENS};
use wy_text::text::Memory;

/// What stands before a line: an In, so many Outs, or so many Outs behind which the width is not open.
#[derive(Clone, Copy)]
pub enum Before {
    In,
    Out(usize),
    Wrong(usize),
}

/// Closes the open widths that are greater than a line's, and tells how many there were.
fn close_widths(widths: &mut Vec<usize>, width: usize) -> usize
    ensures count { result ≡ above width (reverse widths.old.items) }
    ensures left { reverse widths.new.items ≡ rest width (reverse widths.old.items) }
{
    let mut outs = 0;
    while let Some(top) = widths.last() {
        if *top <= width {
            break;
        }
        let _closed = widths.pop();
        outs += 1;
    }
    outs
}

/// Whether a width is the last of these.
fn is_last(widths: &[usize], width: usize) -> bool
    ensures { result ≡ is_top width (reverse widths.now) }
{
    match widths.last() {
        Some(top) => width == *top,
        None => false,
    }
}

/// What stands before a line of a width. The open widths, of which the last one is the greatest, are then
/// those behind the line.
pub fn next_line(widths: &mut Vec<usize>, width: usize) -> Result<Before, Memory>
    ensures step { IfOk result (λ s. step_is s ≡ step_of width (reverse widths.old.items)) }
    ensures stack { OnOk result (reverse widths.new.items ≡ stack_after width (reverse widths.old.items)) }
{
    let outs = close_widths(widths, width);
    if is_last(widths.as_slice(), width) {
        return Ok(Before::Out(outs));
    }
    if outs > 0 {
        return Ok(Before::Wrong(outs));
    }
    widths.push(width)?;
    Ok(Before::In)
}

/// How many tokens stand before a line.
pub fn mark_count(before: Before) -> usize
    ensures { result ≡ layout.mark_count (step_is before) }
{
    match before {
        Before::In => 1,
        Before::Out(outs) | Before::Wrong(outs) => outs,
    }
}

/// The first of what is wrong with the tokens before a line, behind so many tokens, where so many widths
/// are open, 0 among them.
pub fn opening(before: Before, earlier: usize, indents: usize) -> Option<Fault>
    requires { earlier + layout.mark_count (step_is before) < 2 ^ 64 }
    ensures { within_of result ≡ layout.opening (step_is before) earlier indents }
{
    if earlier + mark_count(before) > MOST_TOKENS {
        return Some(Fault::Tokens);
    }
    match before {
        Before::In if indents > MOST_INDENTS => Some(Fault::Indents),
        Before::Wrong(_) => Some(Fault::BadDedent),
        _ => None,
    }
}

/// The place of a fault in the order of those at one place.
pub fn rank(fault: Fault) -> u8
    ensures { result ≡ layout.rank fault }
{
    match fault {
        Fault::NameBytes => 0,
        Fault::Tokens => 1,
        Fault::Indents => 2,
        Fault::Marks => 3,
        Fault::NotUtf8 => 4,
        Fault::TabIndent => 5,
        Fault::BadDedent => 6,
        Fault::BadCharacter => 7,
        Fault::OpenText => 8,
        Fault::BadEscape => 9,
        Fault::NumberTooLarge => 10,
    }
}
