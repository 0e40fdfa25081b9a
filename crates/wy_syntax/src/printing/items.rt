//! Items and the lines inside them, which have one indentation.
ghost use Rattle.std.specs.Prelude.{◌≡◌, ◌++◌, codes, map};
ghost use Rattle.wy_syntax.specs.Views.{inside_tree, item_tree};
ghost use Rattle.wy_syntax.specs.Collected.{Adds};
ghost use Rattle.wy_syntax.specs.Canonical.{after_blank, canonical_form, define_text, grant_text, in_order, init_text, inside_text, item_text, line_text, member_text, name_text, newline, param_text, set_text, use_text, with_commas};

use crate::items::{
    Define, Grant, Init, Inside, Item, Line, Member, PlainModule, Program, PureModule,
    ResourceModule, TypeDecl,
};
use crate::printing::output::{Output, push};
use crate::printing::pieces::{Printed, push_behind, push_each, push_list};
use crate::printing::statements::{push_parts, push_tail};
use crate::printing::types::{push_name_and_set, push_set, push_signature};
use crate::types::{Name, Param, SetUse};

/// What stands between two items.
const BLANK_LINE: [u8; 1] = [b'\n'];

/// Adds the line of an effect, a sign and a set.
fn push_effect_line(out: &mut Output, name: &Name, sign: &[u8], set: &SetUse)
    ensures { Adds (codes "  effect " ++ name.now.text ++ sign.now ++ set_text set.now ++ newline) out.old out.new }
{
    push(out, b"  effect ");
    push_name_and_set(out, name, sign, set);
    push(out, b"\n")
}

impl Printed for Member {
    ghost text = { member_text };

    fn push_to(&self, out: &mut Output) {
        match self {
            Member::Abstract(name) => {
                push_behind(out, b"  effect ", name);
                push(out, b"\n")
            }
            Member::Bounded(name, set) => push_effect_line(out, name, b" <= ", set),
            Member::Defined(name, set) => push_effect_line(out, name, b" = ", set),
            Member::Method(signature) => {
                push(out, b"  ");
                push_signature(out, signature);
                push(out, b"\n")
            }
        }
    }
}

/// Adds the word of a line, what it makes, the module that makes it and the arguments, with what closes them.
fn push_made(
    out: &mut Output,
    word: &[u8],
    name: &Name,
    maker: &Name,
    arguments: &[Name],
    closing: &[u8],
)
    ensures { Adds (word.now ++ name.now.text ++ codes " = " ++ maker.now.text ++ codes "(" ++ with_commas name_text arguments.now ++ closing.now) out.old out.new }
{
    push_behind(out, word, name);
    push_behind(out, b" = ", maker);
    push_list(out, b"(", arguments, closing)
}

impl Printed for Line {
    ghost text = { line_text };

    fn push_to(&self, out: &mut Output) {
        match self {
            Line::Instance(name, module, arguments) => push_made(
                out,
                b"  instance ",
                name,
                module,
                arguments.as_slice(),
                b")\n",
            ),
            Line::Import(name, module, arguments, bound) => {
                push_made(
                    out,
                    b"  import ",
                    name,
                    module,
                    arguments.as_slice(),
                    b") at ",
                );
                push_set(out, bound);
                push(out, b"\n")
            }
        }
    }
}

impl Printed for Define {
    ghost text = { define_text };

    fn push_to(&self, out: &mut Output) {
        push_effect_line(out, &self.name, b" = ", &self.effect)
    }
}

impl Printed for Grant {
    ghost text = { grant_text };

    fn push_to(&self, out: &mut Output) {
        push_behind(out, b"  grant ", &self.name);
        push_behind(out, b": ", &self.kind);
        push(out, b"\n")
    }
}

/// Adds a line for each used module.
fn push_uses(out: &mut Output, uses: &[Name])
    ensures { Adds (in_order use_text uses.now) out.old out.new }
{
    for name in uses {
        push_behind(out, b"  use ", name);
        push(out, b"\n");
    }
}

/// Adds the line of `init`, where there is one.
fn push_init(out: &mut Output, init: &Option<Init>)
    ensures { Adds (init_text init.now) out.old out.new }
{
    if let Some(init) = init {
        push(out, b"  init: ");
        push_set(out, &init.effect);
        push(out, b"\n");
    }
}

/// Adds what stands inside a pure or a resource module.
fn push_inside(out: &mut Output, inside: &Inside)
    ensures { Adds (inside_text (inside_tree inside.now)) out.old out.new }
{
    push_uses(out, inside.uses.as_slice());
    push_each(out, inside.lines.as_slice());
    push_each(out, inside.defines.as_slice());
    push_init(out, &inside.init);
    push_parts(out, &inside.parts, 0)
}

fn push_type_decl(out: &mut Output, decl: &TypeDecl)
    ensures { Adds (item_text (item_tree (Item.Type decl.now))) out.old out.new }
{
    push_behind(out, b"type ", &decl.name);
    push(out, b"\n");
    push_each(out, decl.members.as_slice())
}

fn push_pure(out: &mut Output, pure: &PureModule)
    ensures { Adds (item_text (item_tree (Item.Pure pure.now))) out.old out.new }
{
    push_behind(out, b"module ", &pure.name);
    push_behind(out, b": ", &pure.sealed);
    push(out, b"\n");
    push_inside(out, &pure.inside)
}

/// Adds the rest of the heading of a module with parameters, from its name on.
fn push_heading(out: &mut Output, name: &Name, params: &[Param], sealed: &Name)
    ensures { Adds (name.now.text ++ codes "(" ++ with_commas param_text params.now ++ codes "): " ++ sealed.now.text ++ newline) out.old out.new }
{
    name.push_to(out);
    push_list(out, b"(", params, b"): ");
    sealed.push_to(out);
    push(out, b"\n")
}

fn push_resource(out: &mut Output, resource: &ResourceModule)
    ensures { Adds (item_text (item_tree (Item.Resource resource.now))) out.old out.new }
{
    push(out, b"resource module ");
    push_heading(
        out,
        &resource.name,
        resource.params.as_slice(),
        &resource.sealed,
    );
    push_inside(out, &resource.inside)
}

fn push_plain(out: &mut Output, plain: &PlainModule)
    ensures { Adds (item_text (item_tree (Item.Plain plain.now))) out.old out.new }
{
    push(out, b"plain module ");
    push_heading(out, &plain.name, plain.params.as_slice(), &plain.sealed);
    push_parts(out, &plain.parts, 0)
}

fn push_program(out: &mut Output, program: &Program)
    ensures { Adds (item_text (item_tree (Item.Program program.now))) out.old out.new }
{
    push(out, b"program\n");
    push_each(out, program.grants.as_slice());
    push_uses(out, program.uses.as_slice());
    push_each(out, program.lines.as_slice());
    push(out, b"  run: ");
    push_set(out, &program.effect);
    push_tail(out, &program.body, 1)
}

/// Adds an item.
fn push_item(out: &mut Output, item: &Item)
    ensures { Adds (item_text (item_tree item.now)) out.old out.new }
{
    match item {
        Item::Type(decl) => push_type_decl(out, decl),
        Item::Pure(module) => push_pure(out, module),
        Item::Resource(module) => push_resource(out, module),
        Item::Plain(module) => push_plain(out, module),
        Item::Program(program) => push_program(out, program),
    }
}

/// Adds items, each behind a blank line.
fn push_after_blanks(out: &mut Output, items: &[Item])
    ensures { Adds (in_order after_blank (map item_tree items.now)) out.old out.new }
{
    for item in items {
        push(out, &BLANK_LINE);
        push_item(out, item);
    }
}

/// Adds items with one blank line between.
pub fn push_items(out: &mut Output, items: &[Item])
    ensures { Adds (canonical_form (map item_tree items.now)) out.old out.new }
{
    match items {
        [] => {},
        [first, others @ ..] => {
            push_item(out, first);
            push_after_blanks(out, others)
        }
    }
}
