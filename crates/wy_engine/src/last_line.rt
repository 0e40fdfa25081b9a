ghost use Rattle.std.specs.Prelude.{◌≡◌, ◌++◌, codes, map, string_bytes, IfOk, OnOk};
ghost use Rattle.std.specs.Fmt.{decimal};
ghost use Rattle.wy_authority.specs.Report.{atom_text};
ghost use Rattle.wy_device.specs.Operation.{method_text};
ghost use Rattle.wy_device.specs.Traps.{trap_text};
ghost use Rattle.wy_machine.specs.TrapKinds.{trap_meant};
ghost use Rattle.wy_engine.specs.LastLine.{denial_line, fault_text, file_word, lacks_text, last_line, limit_line, place_text, row_text, scope_text, syntax_text, test_text, unproved_line};

use crate::status::{Status, SyntaxKind};
use std::alloc::Global;
use wy_device::operation::OpName;
use wy_machine::run_end::TrapKind;
use wy_proving::CertTest;
use wy_text::fault::{AtomName, Fault, Place};
use wy_text::limit::LimitName;
use wy_text::text::{Memory, Text};

/// What the last line of a call needs of its arguments: the file arguments, those of the texts among them, and the bounds of a run.
#[derive(Clone, Copy)]
pub struct LineWords<'a> {
    pub names: &'a [String],
    pub texts: &'a [String],
    pub steps: u64,
    pub depth: u32,
}

/// The last line of a call with invalid arguments.
const USAGE: &[u8] =
    b"usage: wyvern COMMAND [--steps N] [--depth N] [--folder GRANT=PATH]... FILE...\n";

/// Returns the file argument of a number, which counts from 1; the empty text if there is none.
fn word_of(names: &[String], file: u16) -> &str
    ensures { result.now ≡ file_word (map string_bytes names.now) file }
{
    match names.get(file.saturating_sub(1) as usize) {
        Some(name) => name.as_str(),
        None => "",
    }
}

/// Adds a text unchanged.
fn push_text(line: &mut Vec<u8>, text: &[u8]) -> Result<(), Memory>
    ensures { OnOk result (line.new.items ≡ line.old.items ++ text.now) }
{
    Ok(line.extend_from_slice(text)?)
}

fn push_number(alloc: Global, line: &mut Vec<u8>, number: u64) -> Result<(), Memory>
    ensures { OnOk result (line.new.items ≡ line.old.items ++ decimal number) }
{
    let digits = format!(in alloc; "{number}")?;
    push_text(line, digits.as_bytes())
}

/// Adds what a number is called and the number, which ends the line.
fn push_bound(alloc: Global, line: &mut Vec<u8>, called: &[u8], number: u64) -> Result<(), Memory>
    ensures { OnOk result (line.new.items ≡ line.old.items ++ (called.now ++ (decimal number ++ codes "\n"))) }
{
    push_text(line, called)?;
    push_number(alloc, line, number)?;
    push_text(line, b"\n")
}

fn push_place(
    alloc: Global,
    line: &mut Vec<u8>,
    names: &[String],
    place: Place,
) -> Result<(), Memory>
    ensures { OnOk result (line.new.items ≡ line.old.items ++ place_text (map string_bytes names.now) place) }
{
    push_text(line, word_of(names, place.file).as_bytes())?;
    push_text(line, b":")?;
    push_number(alloc, line, u64::from(place.line))?;
    push_text(line, b":")?;
    push_number(alloc, line, u64::from(place.column))
}

/// Adds the name of an atom.
fn push_atom(line: &mut Vec<u8>, atom: &AtomName) -> Result<(), Memory>
    ensures { OnOk result (line.new.items ≡ line.old.items ++ atom_text atom.now) }
{
    push_text(line, atom.owner.as_bytes())?;
    push_text(line, b".")?;
    push_text(line, atom.member.as_bytes())
}

fn push_lack(line: &mut Vec<u8>, atom: &Option<AtomName>) -> Result<(), Memory>
    ensures { OnOk result (line.new.items ≡ line.old.items ++ lacks_text atom.now) }
{
    let Some(atom) = atom else {
        return Ok(());
    };
    push_text(line, b" lacks ")?;
    push_atom(line, atom)
}

fn push_fault(alloc: Global, line: &mut Vec<u8>, fault: &Fault) -> Result<(), Memory>
    ensures { OnOk result (line.new.items ≡ line.old.items ++ fault_text fault.now) }
{
    push_text(line, fault.rule.text().as_bytes())?;
    push_text(line, b" premise ")?;
    push_number(alloc, line, u64::from(fault.premise))?;
    push_lack(line, &fault.atom)
}

/// Returns the word for what is wrong in a file.
fn syntax_word(kind: SyntaxKind) -> &'static str
    ensures { result.now ≡ syntax_text kind }
{
    match kind {
        SyntaxKind::NotUtf8 => "NotUtf8",
        SyntaxKind::TabIndent => "TabIndent",
        SyntaxKind::BadDedent => "BadDedent",
        SyntaxKind::BadCharacter => "BadCharacter",
        SyntaxKind::OpenText => "OpenText",
        SyntaxKind::BadEscape => "BadEscape",
        SyntaxKind::NumberTooLarge => "NumberTooLarge",
        SyntaxKind::Unexpected => "Unexpected",
    }
}

fn push_limit(alloc: Global, line: &mut Vec<u8>, name: LimitName) -> Result<(), Memory>
    ensures { OnOk result (line.new.items ≡ line.old.items ++ limit_line name) }
{
    push_text(line, b"limit: ")?;
    push_text(line, name.name().as_bytes())?;
    push_bound(alloc, line, b" ", name.number())
}

/// Returns the word for why a run trapped.
fn trap_word(kind: TrapKind) -> &'static str
    ensures { result.now ≡ trap_text (trap_meant kind) }
{
    match kind {
        TrapKind::Overflow => "Overflow",
        TrapKind::ZeroDivisor => "ZeroDivisor",
        TrapKind::BadPart => "BadPart",
        TrapKind::LongText => "LongText",
        TrapKind::BadName => "BadName",
        TrapKind::Crowded => "Crowded",
    }
}

/// Adds the number of a line of the policy, which is the first file.
fn push_row(alloc: Global, line: &mut Vec<u8>, names: &[String], row: u32) -> Result<(), Memory>
    ensures { OnOk result (line.new.items ≡ line.old.items ++ row_text (map string_bytes names.now) row) }
{
    push_text(line, word_of(names, 1).as_bytes())?;
    push_text(line, b":")?;
    push_number(alloc, line, u64::from(row))
}

/// Adds that a line of the policy is invalid.
fn push_bad_row(alloc: Global, line: &mut Vec<u8>, names: &[String], row: u32) -> Result<(), Memory>
    ensures { OnOk result (line.new.items ≡ line.old.items ++ (row_text (map string_bytes names.now) row ++ codes ": bad policy\n")) }
{
    push_row(alloc, line, names, row)?;
    push_text(line, b": bad policy\n")
}

/// Adds what a row of a policy denies: an instance and an atom.
fn push_denial(
    alloc: Global,
    line: &mut Vec<u8>,
    names: &[String],
    row: u32,
    instance: &Text,
    atom: &AtomName,
) -> Result<(), Memory>
    ensures { OnOk result (line.new.items ≡ line.old.items ++ denial_line (map string_bytes names.now) row instance.now atom.now) }
{
    push_row(alloc, line, names, row)?;
    push_text(line, b": denied: ")?;
    push_text(line, instance.as_bytes())?;
    push_text(line, b" ")?;
    push_atom(line, atom)?;
    push_text(line, b"\n")
}

/// Returns the word for a test of a certificate.
fn test_word(test: CertTest) -> &'static str
    ensures { result.now ≡ test_text test }
{
    match test {
        CertTest::Scopes => "C-Scopes",
        CertTest::Types => "C-Types",
        CertTest::Pairs => "C-Pairs",
        CertTest::Plain => "C-Plain",
        CertTest::Lines => "C-Lines",
        CertTest::Nodes => "C-Nodes",
    }
}

/// Adds at which byte the first file is no longer a certificate.
fn push_bad_certificate(
    alloc: Global,
    line: &mut Vec<u8>,
    names: &[String],
    at: u64,
) -> Result<(), Memory>
    ensures { OnOk result (line.new.items ≡ line.old.items ++ (file_word (map string_bytes names.now) 1 ++ (codes ": bad certificate at " ++ (decimal at ++ codes "\n")))) }
{
    push_text(line, word_of(names, 1).as_bytes())?;
    push_bound(alloc, line, b": bad certificate at ", at)
}

/// Adds that the certificate, which is the first file, does not prove the scope of a number.
fn push_scope(alloc: Global, line: &mut Vec<u8>, names: &[String], scope: u32) -> Result<(), Memory>
    ensures { OnOk result (line.new.items ≡ line.old.items ++ scope_text (map string_bytes names.now) scope) }
{
    push_text(line, word_of(names, 1).as_bytes())?;
    push_text(line, b": unproved ")?;
    push_number(alloc, line, u64::from(scope))
}

/// Adds what the certificate does not prove: a scope, a test, and the number at which the test fails.
fn push_unproved(
    alloc: Global,
    line: &mut Vec<u8>,
    names: &[String],
    scope: u32,
    test: CertTest,
    index: u64,
) -> Result<(), Memory>
    ensures { OnOk result (line.new.items ≡ line.old.items ++ unproved_line (map string_bytes names.now) scope test index) }
{
    push_scope(alloc, line, names, scope)?;
    push_text(line, b" ")?;
    push_text(line, test_word(test).as_bytes())?;
    push_bound(alloc, line, b" ", index)
}

/// Adds the operation of a grant that failed.
fn push_failed(line: &mut Vec<u8>, grant: &Text, op: OpName) -> Result<(), Memory>
    ensures { OnOk result (line.new.items ≡ line.old.items ++ (grant.now ++ (codes "." ++ (method_text op ++ codes ": failed\n")))) }
{
    push_text(line, grant.as_bytes())?;
    push_text(line, b".")?;
    push_text(line, op.method().as_bytes())?;
    push_text(line, b": failed\n")
}

/// Adds a place, what happened there, and the word for it.
fn push_at(
    alloc: Global,
    line: &mut Vec<u8>,
    names: &[String],
    place: Place,
    what: &[u8],
    word: &str,
) -> Result<(), Memory>
    ensures { OnOk result (line.new.items ≡ line.old.items ++ (place_text (map string_bytes names.now) place ++ (what.now ++ (word.now ++ codes "\n")))) }
{
    push_place(alloc, line, names, place)?;
    push_text(line, what)?;
    push_text(line, word.as_bytes())?;
    push_text(line, b"\n")
}

/// Adds that a program is refused, with the place and the fault.
fn push_refused(
    alloc: Global,
    line: &mut Vec<u8>,
    names: &[String],
    fault: &Fault,
) -> Result<(), Memory>
    ensures { OnOk result (line.new.items ≡ line.old.items ++ (place_text (map string_bytes names.now) fault.now.place ++ (codes ": refused: " ++ (fault_text fault.now ++ codes "\n")))) }
{
    push_place(alloc, line, names, fault.place)?;
    push_text(line, b": refused: ")?;
    push_fault(alloc, line, fault)?;
    push_text(line, b"\n")
}

/// Adds the file that was not read.
fn push_unread(line: &mut Vec<u8>, names: &[String], file: u16) -> Result<(), Memory>
    ensures { OnOk result (line.new.items ≡ line.old.items ++ (file_word (map string_bytes names.now) file ++ codes ": unread\n")) }
{
    push_text(line, word_of(names, file).as_bytes())?;
    push_text(line, b": unread\n")
}

/// Adds the last line of a status to a line.
fn push_last_line(
    alloc: Global,
    line: &mut Vec<u8>,
    words: LineWords<'_>,
    status: &Status,
) -> Result<(), Memory>
    ensures { OnOk result (line.new.items ≡ line.old.items ++ last_line (record { names = map string_bytes words.entry.names.now; texts = map string_bytes words.entry.texts.now; steps = words.entry.steps; depth = words.entry.depth }) status.now) }
{
    let LineWords {
        names,
        texts,
        steps,
        depth,
    } = words;
    match status {
        Status::Ended => Ok(()),
        Status::Usage => push_text(line, USAGE),
        Status::Unread(file) => push_unread(line, names, *file),
        Status::Syntax { place, kind } => {
            let word = syntax_word(*kind);
            push_at(alloc, line, texts, *place, b": syntax: ", word)
        }
        Status::Refused(fault) => push_refused(alloc, line, texts, fault),
        Status::Limit(name) => push_limit(alloc, line, *name),
        Status::Trap { kind, place } => {
            push_at(alloc, line, texts, *place, b": trap: ", trap_word(*kind))
        }
        Status::TooDeep => push_bound(alloc, line, b"too deep: ", u64::from(depth)),
        Status::Spent => push_bound(alloc, line, b"spent: ", steps),
        Status::DeviceFailed { grant, op } => push_failed(line, grant, *op),
        Status::Unwritten => push_text(line, b"unwritten\n"),
        Status::Memory => push_text(line, b"no memory\n"),
        Status::BadCert { at } => push_bad_certificate(alloc, line, names, *at),
        Status::Unproved { scope, test, index } => {
            push_unproved(alloc, line, names, *scope, *test, *index)
        }
        Status::Denied {
            line: row,
            instance,
            atom,
        } => push_denial(alloc, line, names, *row, instance, atom),
        Status::BadPolicy { line: row } => push_bad_row(alloc, line, names, *row),
    }
}

/// Returns the line that ends the report of a call with these arguments and this status (docs/LANGUAGE.md, "Statuses"). It is empty
/// for Ended.
pub fn last_line_of(alloc: Global, words: LineWords<'_>, status: &Status) -> Result<Vec<u8>, Memory>
    ensures { IfOk result (λ line. line.items ≡ last_line (record { names = map string_bytes words.entry.names.now; texts = map string_bytes words.entry.texts.now; steps = words.entry.steps; depth = words.entry.depth }) status.now) }
{
    let mut line = Vec::new(alloc);
    push_last_line(alloc, &mut line, words, status)?;
    Ok(line)
}
