//! V-State and V-Depth at an instruction.

ghost use Rattle.std.specs.Prelude.{◌≡◌, ◌↔◌, ◌+◌, ◌<◌, ◌≤◌, List, length, slice_get, IsTrue, Some};
ghost use Rattle.wy_code.specs.Operations.{operand_count};
ghost use Rattle.wy_verified.specs.declared.known.Jumped.{Jumped};
ghost use Rattle.wy_verified.specs.Rules.{CanRead, CanSet};
ghost use Rattle.wy_verify.specs.Sites.{AreNoted, Site as Value_site};
ghost use Rattle.wy_verify.specs.Turns.{IsMain, IsConstant, IsReadSource, AreReadSources, IsFinished, IsInState, IsSameSet, MeetsTarget, StaysInside, BringsTo, TellsState, IsReady, IsDepth, FallsIn, captures_at, fields_at, popped_at, pushed_count};

use crate::jumps::Jumps;
use crate::knowing::Knowing;
use crate::site::Site;
use wy_code::code::Source;
use wy_code::instruction::{Constant, Instruction, Operator};
use wy_image::Target;
use wy_text::list::Items;

/// How many operands an operator takes.
pub fn operands_of(operator: Operator) -> usize
    ensures { result ≡ operand_count operator }
{
    match operator {
        Operator::Negate | Operator::Not | Operator::Size | Operator::Byte | Operator::Show => 1,
        Operator::Part => 3,
        _ => 2,
    }
}

/// How many fields a literal has.
pub fn field_count(site: &Site<'_>, literal: u32) -> usize
    ensures { result ≡ fields_at site.now literal }
{
    match site.literal(literal) {
        Some(found) => found.fields as usize,
        None => 0,
    }
}

/// How many operands an instruction pops.
pub fn popped(site: &Site<'_>, instruction: Instruction) -> usize
    ensures { result ≡ popped_at site.now instruction }
{
    match instruction {
        Instruction::Push(_) | Instruction::Load(_) | Instruction::Get(_) => 0,
        Instruction::Store(_)
        | Instruction::Set(_)
        | Instruction::Drop
        | Instruction::JumpFalse(_)
        | Instruction::Return => 1,
        Instruction::Op(operator) => operands_of(operator),
        Instruction::New(literal) => field_count(site, literal),
        Instruction::Call(_, arguments) => arguments as usize + 1,
        Instruction::Jump(_) | Instruction::Finish => 0,
    }
}

/// Whether the body is one of the program.
fn is_main(site: &Site<'_>) -> bool
    ensures { IsTrue result ↔ IsMain site.now }
{
    site.x() as usize == site.judged().code().instances.len()
}

/// Whether a constant may be pushed: only the program pushes grants and instances.
fn constant_passes(site: &Site<'_>, constant: Constant) -> bool
    ensures { IsTrue result ↔ IsConstant site.now constant }
{
    match constant {
        Constant::Grant(_) | Constant::Instance(_) => is_main(site),
        _ => true,
    }
}

/// Whether a value of the current object may be read: in an `init` body only the arguments.
fn can_read(site: &Site<'_>, number: u32) -> bool
    ensures { IsTrue result ↔ CanRead site.now.owner site.now.held number }
{
    match site.owner() {
        None => (number as usize) < site.held(),
        Some(_) => true,
    }
}

/// Whether a field may be set: in an `init` body the next one that is unset.
fn can_set(site: &Site<'_>, set: u32, number: u32) -> bool
    ensures { IsTrue result ↔ CanSet site.now.owner site.now.held set number }
{
    let number = number as usize;
    match site.owner() {
        None => number >= site.held() && number - site.held() == set as usize,
        Some(_) => site.held() <= number,
    }
}

/// Whether a captured value can be read.
fn source_passes(site: &Site<'_>, known: &Knowing, source: Source) -> bool
    ensures { IsTrue result ↔ IsReadSource site.now known.now.stored source }
{
    match source {
        Source::Slot(slot) => site.slot_kind(known, slot).is_some(),
        Source::Value(number) => site.value_kind(number).is_some() && can_read(site, number),
    }
}

/// Whether each captured value can be read.
fn sources_pass(site: &Site<'_>, known: &Knowing, sources: &Items<Source>) -> bool
    ensures { IsTrue result ↔ AreReadSources site.now known.now.stored sources.now }
{
    for at in 0..sources.len() {
        if !source_passes(site, known, source_at(sources, at)) {
            return false;
        }
    }
    true
}

/// The captured value of a number.
pub fn source_at(sources: &Items<Source>, at: usize) -> Source
    requires { at < length sources.now }
    ensures { slice_get sources.now at ≡ Some result }
{
    let Some(source) = sources.get(at) else {
        unreachable!()
    };
    *source
}

/// Whether the captured values of a literal can be read.
fn captures_pass(site: &Site<'_>, known: &Knowing, literal: u32) -> bool
    ensures { IsTrue result ↔ AreReadSources site.now known.now.stored (captures_at site.now literal) }
{
    match site.literal(literal) {
        Some(found) => sources_pass(site, known, &found.captures),
        None => true,
    }
}

/// Whether a first body may end: all fields are set, and the program leaves one operand, a module none.
fn finish_passes(site: &Site<'_>, known: &Knowing) -> bool
    ensures { IsTrue result ↔ IsFinished site.now known.now }
{
    let instances = site.judged().code().instances.len();
    let all = site.values(0).len();
    let set = known.set_count() as usize;
    if all < set || all - set != site.held() {
        return false;
    }
    match known.depth() {
        0 => (site.x() as usize) < instances,
        1 => site.x() as usize == instances,
        _ => false,
    }
}

/// Whether a store is into the slot of a `val`.
fn store_passes(site: &Site<'_>, slot: u32) -> bool
    ensures { IsTrue result ↔ ((site.now.body.parameters < slot) × (slot ≤ site.now.body.parameters + site.now.body.vals)) }
{
    let body = site.body();
    body.parameters < slot && slot - body.parameters <= body.vals
}

/// Whether the part of V-State that depends on the form of an instruction holds.
fn instruction_passes(site: &Site<'_>, known: &Knowing, instruction: Instruction) -> bool
    ensures { IsTrue result ↔ IsInState site.now known.now instruction }
{
    match instruction {
        Instruction::Push(constant) => constant_passes(site, constant),
        Instruction::Load(slot) => site.slot_kind(known, slot).is_some(),
        Instruction::Store(slot) => store_passes(site, slot),
        Instruction::Get(number) => site.value_kind(number).is_some() && can_read(site, number),
        Instruction::Set(number) => {
            site.value_kind(number).is_some() && can_set(site, known.set_count(), number)
        }
        Instruction::New(literal) => captures_pass(site, known, literal),
        Instruction::Return => known.depth() == 1,
        Instruction::Finish => finish_passes(site, known),
        _ => true,
    }
}

/// Whether as many fields are set as where an earlier jump led there, if one did.
fn is_same(set: u32, noted: Option<u32>) -> bool
    ensures { (s : Value_site) → (IsTrue result ↔ IsSameSet s set noted) }
{
    match noted {
        Some(other) => set == other,
        None => true,
    }
}

/// Whether what is known has what a target says, once `taken` operands are popped.
fn meets_state(known: &Knowing, taken: usize, target: &Target) -> bool
    requires { taken ≤ length known.now.operands }
    ensures { (s : Value_site) → (IsTrue result ↔ MeetsTarget s known.now taken target.now) }
{
    known.depth() - taken == target.operands.len() && known.has_stored(&target.stored)
}

/// Whether what is known has what a target says, once `taken` operands are popped, and as many fields set as noted.
fn meets(known: &Knowing, taken: usize, target: &Target, noted: Option<u32>) -> bool
    requires { taken ≤ length known.now.operands }
    ensures { (s : Value_site) → (IsTrue result ↔ (MeetsTarget s known.now taken target.now × IsSameSet s known.now.set noted)) }
{
    meets_state(known, taken, target) && is_same(known.set_count(), noted)
}

/// Whether a jump brings what the target says, once `taken` operands are popped.
fn brings_state(site: &Site<'_>, known: &Knowing, jumps: &Jumps, taken: usize, to: usize) -> bool
    requires inside { to < length site.now.body.instructions }
    requires taken { taken ≤ length known.now.operands }
    ensures { (js : List Jumped) → AreNoted jumps.now js → (IsTrue result ↔ BringsTo site.now known.now js taken to) }
{
    match site.target(to) {
        Some(target) => meets(known, taken, target, jumps.set_at(to)),
        None => is_same(known.set_count(), jumps.set_at(to)),
    }
}

/// Whether V-State holds at an instruction, apart from what falls in there.
pub fn state_passes(
    site: &Site<'_>,
    known: &Knowing,
    jumps: &Jumps,
    instruction: Instruction,
) -> bool
    requires { StaysInside site.now instruction }
    ensures decided { TellsState site.now known.now jumps.now instruction result }
    ensures ready { IsTrue result → IsReady site.now known.now instruction }
{
    if known.depth() < popped(site, instruction) || !instruction_passes(site, known, instruction) {
        return false;
    }
    match instruction {
        Instruction::Jump(to) => brings_state(site, known, jumps, 0, to as usize),
        Instruction::JumpFalse(to) => brings_state(site, known, jumps, 1, to as usize),
        _ => true,
    }
}

/// Whether what falls into a target has what the target says, and as many fields set as where a jump led there.
pub fn falls_in_state(known: &Knowing, target: &Target, noted: Option<u32>) -> bool
    ensures { (s : Value_site) → (IsTrue result ↔ FallsIn s known.now target.now noted) }
{
    meets(known, 0, target, noted)
}

/// Whether V-Depth holds at an instruction.
pub fn depth_passes(site: &Site<'_>, known: &Knowing, instruction: Instruction) -> bool
    requires { popped_at site.now instruction ≤ length known.now.operands }
    ensures { IsTrue result ↔ IsDepth site.now known.now instruction }
{
    let body = site.body();
    let reserved = 1 + body.parameters as usize + body.vals as usize;
    let kept = match instruction {
        Instruction::Return | Instruction::Finish => 0,
        _ => known.depth() - popped(site, instruction),
    };
    let needed = reserved + pushed(instruction);
    needed <= body.slots as usize && kept <= body.slots as usize - needed
}

/// How many operands an instruction pushes.
fn pushed(instruction: Instruction) -> usize
    ensures count { result ≡ pushed_count instruction }
    ensures few { result ≤ 1 }
{
    match instruction {
        Instruction::Push(_)
        | Instruction::Load(_)
        | Instruction::Get(_)
        | Instruction::Op(_)
        | Instruction::New(_)
        | Instruction::Call(_, _) => 1,
        _ => 0,
    }
}
