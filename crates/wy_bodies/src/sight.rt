//! What is in sight in a body (docs/LANGUAGE.md, "Names"). A name is found by tables, and never by going
//! through what is in sight.

ghost use Rattle.std.specs.Prelude.{◌≡◌, ◌≤◌, ◌++◌, ◌∷◌, ◌-◌, [], List, ℕ, None, true, false, take, length, IfOk, OnOk};
ghost use Rattle.indexmap.specs.IndexMap.{get};
ghost use Rattle.wy_syntax.specs.Views.{part_trees};
ghost use Rattle.wy_symbols.specs.Declarations.{same_name, texts};
ghost use Rattle.wy_bodies.specs.Sight.{seen, binding_of};
ghost use Rattle.wy_bodies.specs.BodyRefusals.{field_names};
ghost use Rattle.wy_bodies.specs.InSight.{known, latest, frame, field_entries, sight_of};

use indexmap::IndexMap;
use std::alloc::Global;
use std::marker::Model;
use wy_symbols::Table;
use wy_syntax::statements::Part;
use wy_text::text::{Memory, Text};
use wy_types::code::{Binding, Variable};

/// A name in sight in a body, and what it stands for.
#[derive(Drop)]
pub struct Entry {
    pub name: Text,
    pub bound: Binding,
}

/// A variable and its number among those in sight.
#[derive(Clone, Copy)]
pub struct Latest {
    pub number: usize,
    pub variable: Variable,
}

/// A variable in sight, with the last one of its name before it.
#[derive(Drop)]
pub struct Known {
    pub name: Text,
    pub variable: Variable,
    pub hides: Option<Latest>,
}

/// The variables in sight, in the order in which they came into sight, and the last one of each name.
#[derive(Drop)]
pub struct Variables {
    known: Vec<Known>,
    latest: IndexMap<Text, Option<Latest>>,
}

impl Model for Variables {
    ghost use Rattle.std.specs.Prelude.{◌≡◌, ℕ, List, [], map};
    ghost use Rattle.indexmap.specs.IndexMap.{get};
    ghost use Rattle.wy_symbols.specs.Declarations.{same_name};
    ghost use Rattle.wy_bodies.specs.InSight.{Known, known_of, latest as latest_of, held, KeepsHidden};

    ghost Value = { List Known };

    ghost view = { λ v. map known_of v.known.items };

    ghost invariant = { λ v. ((x : List ℕ) → held (get same_name v.latest x) ≡ latest_of (map known_of v.known.items) x) × KeepsHidden [] v.known.items };
}

impl Variables {
    /// None. It takes no memory.
    pub fn new(alloc: Global) -> Variables
        ensures { result ≡ [] }
    {
        Variables {
            known: Vec::new(alloc),
            latest: IndexMap::new(alloc),
        }
    }

    /// How many there are. It takes no memory.
    pub fn len(&self) -> usize
        ensures { result ≡ length self.now }
    {
        self.known.len()
    }

    /// The last one of a name. It takes no memory.
    pub fn latest(&self, name: &Text) -> Option<Latest>
        ensures { result ≡ latest self.now name.now }
    {
        match self.latest.get(name) {
            Some(held) => *held,
            None => None,
        }
    }

    /// Brings a variable into sight, where it hides the others of its name.
    pub fn push(&mut self, name: &Text, variable: Variable) -> Result<(), Memory>
        ensures { OnOk result (self.new ≡ self.old ++ known name.now variable ∷ []) }
    {
        let hides = self.latest(name);
        let number = self.known.len();
        let key = name.copy()?;
        let name = name.copy()?;
        self.known.push(Known {
            name,
            variable,
            hides,
        })?;
        match self.latest.insert(key, Some(Latest { number, variable })) {
            Ok(_) => Ok(()),
            Err(_) => {
                self.known.pop();
                Err(Memory)
            }
        }
    }

    /// Takes the last one out of sight; what it hid is in sight again. It takes no memory.
    fn pop(&mut self)
        ensures { self.new ≡ take (length self.old - 1) self.old }
    {
        if let Some(last) = self.known.pop() {
            let Known { name, hides, .. } = last;
            let _kept = self.latest.insert(name, hides);
        }
    }

    /// Takes all but the first so many out of sight. It takes no memory.
    pub fn truncate(&mut self, count: usize)
        ensures { self.new ≡ take count self.old }
    {
        while self.known.len() > count {
            self.pop();
        }
    }
}

/// The current object, as its methods see it: how many variables were in sight when they began, its
/// fields, and whether there is one at all.
#[derive(Drop)]
pub struct Frame<'a> {
    start: usize,
    parts: &'a [Part],
    fields: IndexMap<Text, Binding>,
    in_method: bool,
}

impl<'a> Model for Frame<'a> {
    ghost use Rattle.std.specs.Prelude.{◌≡◌, ℕ, List};
    ghost use Rattle.indexmap.specs.IndexMap.{get};
    ghost use Rattle.wy_syntax.specs.Views.{part_trees};
    ghost use Rattle.wy_symbols.specs.Declarations.{same_name, texts};
    ghost use Rattle.wy_bodies.specs.Sight.{seen};
    ghost use Rattle.wy_bodies.specs.BodyRefusals.{field_names};
    ghost use Rattle.wy_bodies.specs.InSight.{Frame, frame, field_entries};

    ghost Value = { Frame };

    ghost view = { λ f. frame f.start (texts (field_names (part_trees f.parts.now))) f.in_method };

    ghost invariant = { λ f. (x : List ℕ) → get same_name f.fields x ≡ seen (field_entries 0 (texts (field_names (part_trees f.parts.now)))) x };
}

/// Adds the fields by their names; of those with one name the last stays.
fn add_fields(fields: &mut IndexMap<Text, Binding>, parts: &[Part]) -> Result<(), Memory>
    requires { (x : List ℕ) → get same_name fields.old x ≡ None }
    ensures { OnOk result ((x : List ℕ) → get same_name fields.new x ≡ seen (field_entries 0 (texts (field_names (part_trees parts.now)))) x) }
{
    let mut number: u16 = 0;
    for part in parts {
        match part {
            Part::Field(_, name, _, _) => {
                fields.insert(name.text.copy()?, Binding::Field(number))?;
                number = number.checked_add(1).ok_or(Memory)?;
            }
            Part::Method(_, _) => {}
        }
    }
    Ok(())
}

/// The fields by their names; of those with one name the last.
fn fields_of(alloc: Global, parts: &[Part]) -> Result<IndexMap<Text, Binding>, Memory>
    ensures { IfOk result (λ m. (x : List ℕ) → get same_name m x ≡ seen (field_entries 0 (texts (field_names (part_trees parts.now)))) x) }
{
    let mut fields = IndexMap::new(alloc);
    add_fields(&mut fields, parts)?;
    Ok(fields)
}

impl<'a> Frame<'a> {
    /// No object, where a module or the program starts.
    pub fn outermost(alloc: Global) -> Frame<'a>
        ensures { result ≡ frame 0 [] false }
    {
        Frame {
            start: 0,
            parts: &[],
            fields: IndexMap::new(alloc),
            in_method: false,
        }
    }

    /// The object with these fields and methods, where so many variables are in sight.
    pub fn inside(alloc: Global, start: usize, parts: &'a [Part]) -> Result<Frame<'a>, Memory>
        ensures { IfOk result (λ f. f ≡ frame start (texts (field_names (part_trees parts.now))) true) }
    {
        let fields = fields_of(alloc, parts)?;
        Ok(Frame {
            start,
            parts,
            fields,
            in_method: true,
        })
    }

    /// Whether there is a current object. It takes no memory.
    pub fn in_method(&self) -> bool
        ensures { result ≡ self.now.in_method }
    {
        self.in_method
    }

    /// What a name stands for that is a field or a variable. It takes no memory.
    #[tactic(auto, using(crate::proofs::InSights::seen_chosen))]
    fn binding(&self, variables: &Variables, name: &Text) -> Option<Binding>
        ensures { result ≡ seen (sight_of self.now variables.now).entries name.now }
    {
        let field = self.fields.get(name).copied();
        match variables.latest(name) {
            None => field,
            Some(latest) => {
                let variable = Binding::Variable(latest.variable);
                if latest.number >= self.start {
                    Some(variable)
                } else {
                    Some(field.unwrap_or(variable))
                }
            }
        }
    }
}

/// What a name stands for. Own names have numbers of 32 bits; no memory has room for more of them.
pub fn binding_of(
    own: &Table,
    frame: &Frame,
    variables: &Variables,
    name: &Text,
) -> Result<Option<Binding>, Memory>
    ensures { IfOk result (λ b. b ≡ binding_of own.now (sight_of frame.now variables.now) name.now) }
{
    match frame.binding(variables, name) {
        Some(bound) => Ok(Some(bound)),
        None => match own.number(name) {
            Some(number) => match u32::try_from(number) {
                Ok(number) => Ok(Some(Binding::Own(number))),
                Err(_) => Err(Memory),
            },
            None => Ok(None),
        },
    }
}
