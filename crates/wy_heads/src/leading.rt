//! Which modules lead to which, and the refusals of those that lead back to themselves
//! (docs/LANGUAGE.md, "Names").

ghost use Rattle.std.specs.Prelude.{◌≡◌, ◌≤◌, ◌+◌, ◌++◌, [], false, map, length, option_to_list, slice_index_or, IfOk, OnOk};
ghost use Rattle.wy_symbols.specs.Least.{noted};
ghost use Rattle.wy_symbols.specs.Declarations.{module_number};
ghost use Rattle.wy_heads.specs.Cycles.{named_modules};
ghost use Rattle.wy_syntax.specs.Collected as collected;
ghost use Rattle.wy_heads.specs.Lines.{line_module};
ghost use Rattle.wy_heads.specs.Leading.{numbers_of, edges_of, Adds, EachOnce, LeadsInside};
ghost use Rattle.wy_heads.specs.CycleRefusals.{AreReached, word_refusals, words_refusals, cycle_refusals, NotesCycles};
ghost use Rattle.wy_symbols.specs.Lent.{lent_name, module_tree};

use crate::cycles::reached_from;
use crate::marked::{Marked, Marks};
use crate::module_index::ModuleIndex;
use std::alloc::Global;
use wy_symbols::{Cause, ModuleView, Refusal, WrittenNames, add_names, note_at};
use wy_syntax::items::Line;
use wy_syntax::types::Name;
use wy_text::list::Items;
use wy_text::text::Memory;

/// The name of the module of a line.
fn line_module(line: &Line) -> &Name
    ensures { result.now ≡ line_module line.now }
{
    match line {
        Line::Instance(_, named, _) => named,
        Line::Import(_, named, _, _) => named,
    }
}

/// Adds the names of the modules of lines.
fn add_line_modules<'a>(words: &mut WrittenNames<'a>, lines: &'a [Line])
    ensures { collected.Adds (map line_module lines.now) words.old words.new }
{
    for line in lines {
        words.add(line_module(line));
    }
}

/// The words that name modules in a module's uses and lines.
#[tactic(auto, using(wy_symbols::proofs::NamesOfThings::names_alone))]
fn named_modules<'a>(alloc: Global, view: &ModuleView<'a>) -> Result<Vec<&'a Name>, Memory>
    ensures { IfOk result (λ ws. map lent_name ws.items ≡ named_modules (module_tree view.now)) }
{
    let mut words = WrittenNames::new(alloc);
    add_names(&mut words, view.uses);
    add_line_modules(&mut words, view.lines);
    words.all()
}

/// Adds the number of the module that a word names.
fn add_number(list: &mut Marked, modules: &ModuleIndex, word: &Name) -> Result<(), Memory>
    requires { list.old.below ≡ length modules.now }
    ensures bound { OnOk result (list.new.below ≡ list.old.below) }
    ensures added { OnOk result (Adds list.old.list (option_to_list (module_number (map module_tree modules.now) word.now.text)) list.new.list) }
{
    match modules.number(&word.text) {
        Some(number) => list.add(number),
        None => Ok(()),
    }
}

/// The numbers of the modules that words name, each once.
fn numbers_of(alloc: Global, modules: &ModuleIndex, words: &[&Name]) -> Result<Items<usize>, Memory>
    ensures { IfOk result (λ ks. Adds [] (numbers_of (map module_tree modules.now) (map lent_name words.now)) ks) }
{
    let mut list = Marked::new(alloc, modules.views().len())?;
    for word in words {
        add_number(&mut list, modules, word)?;
    }
    Ok(list.into_list())
}

/// For each module the numbers of those that its uses and lines name, each once.
fn edges_of(alloc: Global, modules: &ModuleIndex) -> Result<Vec<Items<usize>>, Memory>
    ensures { IfOk result (λ es. EachOnce (edges_of (map module_tree modules.now)) es.items) }
{
    let mut edges = Vec::new(alloc);
    let views = modules.views();
    for view in views {
        let words = named_modules(alloc, view)?;
        edges.push(numbers_of(alloc, modules, &words)?)?;
    }
    Ok(edges)
}

/// For each module the marks of those that are reached from it.
fn reached_of(alloc: Global, edges: &[Items<usize>]) -> Result<Vec<Marks>, Memory>
    requires { LeadsInside edges.now }
    ensures { IfOk result (λ rs. AreReached edges.now rs.items) }
{
    let mut reached = Vec::new(alloc);
    for start in 0..edges.len() {
        reached.push(reached_from(alloc, edges, start)?)?;
    }
    Ok(reached)
}

/// Whether a module is reached from another, by the marks of each.
fn is_reached(reached: &[Marks], from: usize, number: usize) -> bool
    ensures { result ≡ slice_index_or (slice_index_or reached.now from []) number false }
{
    match reached.get(from) {
        Some(marks) => marks.has(number),
        None => false,
    }
}

/// Notes Cycle at each word of the module of a number that names a module from which that one is reached.
fn note_words(
    modules: &ModuleIndex,
    reached: &[Marks],
    number: usize,
    words: &[&Name],
    least: &mut Option<Refusal>,
)
    ensures { least.new ≡ noted least.old (words_refusals reached.now (map module_tree modules.now) number (map lent_name words.now)) }
{
    for word in words {
        note_word(modules, reached, number, word, least);
    }
}

fn note_word(
    modules: &ModuleIndex,
    reached: &[Marks],
    number: usize,
    word: &Name,
    least: &mut Option<Refusal>,
)
    ensures { least.new ≡ noted least.old (word_refusals reached.now number word.now (module_number (map module_tree modules.now) word.now.text)) }
{
    if let Some(next) = modules.number(&word.text) {
        if is_reached(reached, next, number) {
            note_at(least, word.place, Cause::Cycle);
        }
    }
}

/// Notes Cycle by what is reached from each module.
fn note_reached(
    alloc: Global,
    modules: &ModuleIndex,
    reached: &[Marks],
    least: &mut Option<Refusal>,
) -> Result<(), Memory>
    ensures { OnOk result (least.new ≡ noted least.old (cycle_refusals reached.now (map module_tree modules.now) 0 (map module_tree modules.now))) }
{
    let views = modules.views();
    for i in 0..views.len() {
        let words = named_modules(alloc, &views[i])?;
        note_words(modules, reached, i, &words, least);
    }
    Ok(())
}

/// Notes Cycle at each use and line that leads back to the module that it stands in.
pub fn note_cycles(
    alloc: Global,
    modules: &ModuleIndex,
    least: &mut Option<Refusal>,
) -> Result<(), Memory>
    ensures { OnOk result (NotesCycles (map module_tree modules.now) least.old least.new) }
{
    let edges = edges_of(alloc, modules)?;
    let reached = reached_of(alloc, &edges)?;
    note_reached(alloc, modules, &reached, least)?;
    Ok(())
}
