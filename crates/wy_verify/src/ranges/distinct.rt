//! Tests that no two texts or numbers of a list are equal.

ghost use Rattle.std.specs.Prelude.{◌≡◌, ◌↔◌, ◌++◌, [], map, IsTrue, IfOk, MatchOption};
ghost use Rattle.wy_text.specs.Members.{In, Apart};
ghost use Rattle.wy_image.specs.declared.file.Grant.{Grant};
ghost use Rattle.wy_image.specs.declared.file.Instance.{Instance};
ghost use Rattle.wy_image.specs.declared.typing.Bounds.{Bounds};
ghost use Rattle.wy_verify.specs.RangeParts.{IsPut};

use indexmap::IndexSet;
use std::alloc::Global;
use std::marker::Model;
use wy_image::{Bounds, Grant, Instance};
use wy_text::text::{Memory, Text};

/// Texts that were met, each once. Contracts see the list of them.
#[derive(Drop)]
pub(super) struct Texts {
    texts: IndexSet<Text>,
}

impl Model for Texts {
    ghost use Rattle.std.specs.Prelude.{ℕ, List};

    ghost Value = { List (List ℕ) };

    ghost view = { λ t. t.texts.keys };
}

impl Texts {
    /// No texts. It takes no memory.
    pub(super) fn new(alloc: Global) -> Texts
        ensures { result ≡ [] }
    {
        Texts {
            texts: IndexSet::new(alloc),
        }
    }

    /// Puts a text behind the others, and returns whether it was not among them.
    pub(super) fn put(&mut self, text: &Text) -> Result<bool, Memory>
        ensures { IfOk result (IsPut self.old text.now self.new) }
    {
        if self.texts.contains(text) {
            return Ok(false);
        }
        self.texts.insert(text.copy()?)?;
        Ok(true)
    }

    /// Whether texts differ from each other and from those that were met.
    pub(super) fn take_texts(&mut self, texts: &[Text]) -> Result<bool, Memory>
        requires { Apart self.old }
        ensures { IfOk result (λ b. IsTrue b ↔ Apart (self.old ++ map (λ t. t) texts.now)) }
    {
        for text in texts {
            let fresh = self.put(text)?;
            if !fresh {
                return Ok(false);
            }
        }
        Ok(true)
    }

    /// Whether the names of grants differ from each other and from what was met.
    pub(super) fn take_grants(&mut self, grants: &[Grant]) -> Result<bool, Memory>
        requires { Apart self.old }
        ensures { IfOk result (λ b. IsTrue b ↔ Apart (self.old ++ map (λ (g : Grant). g.name) grants.now)) }
    {
        for grant in grants {
            let fresh = self.put(&grant.name)?;
            if !fresh {
                return Ok(false);
            }
        }
        Ok(true)
    }

    /// Whether the names of instances differ from each other and from what was met.
    pub(super) fn take_instances(&mut self, instances: &[Instance]) -> Result<bool, Memory>
        requires { Apart self.old }
        ensures { IfOk result (λ b. IsTrue b ↔ Apart (self.old ++ map (λ (i : Instance). i.name) instances.now)) }
    {
        for instance in instances {
            let fresh = self.put(&instance.name)?;
            if !fresh {
                return Ok(false);
            }
        }
        Ok(true)
    }

    /// Whether the names of bodies differ from each other and from what was met.
    pub(super) fn take_bodies(&mut self, bodies: &[Bounds]) -> Result<bool, Memory>
        requires { Apart self.old }
        ensures { IfOk result (λ b. IsTrue b ↔ Apart (self.old ++ map (λ (n : Bounds). n.name) bodies.now)) }
    {
        for body in bodies {
            let fresh = self.put(&body.name)?;
            if !fresh {
                return Ok(false);
            }
        }
        Ok(true)
    }
}

/// Whether no two numbers are equal.
pub(super) fn are_apart(alloc: Global, numbers: &[u32]) -> Result<bool, Memory>
    ensures { IfOk result (λ b. IsTrue b ↔ Apart numbers.now) }
{
    let seen = Numbers::each_once(alloc, numbers)?;
    Ok(seen.is_some())
}

/// Numbers of which no two are equal. Contracts see the list of them.
#[derive(Drop)]
pub(super) struct Numbers {
    numbers: IndexSet<u32>,
}

impl Model for Numbers {
    ghost use Rattle.std.specs.Prelude.{ℕ, List};

    ghost Value = { List ℕ };

    ghost view = { λ n. n.numbers.keys };
}

impl Numbers {
    /// These numbers, if no two of them are equal.
    pub(super) fn each_once(alloc: Global, numbers: &[u32]) -> Result<Option<Numbers>, Memory>
        ensures { IfOk result (λ o. MatchOption o (Apart numbers.now → ⊥) (λ n. (n ≡ numbers.now) × Apart numbers.now)) }
    {
        let mut seen = IndexSet::new(alloc);
        for number in numbers {
            if seen.contains(number) {
                return Ok(None);
            }
            seen.insert(*number)?;
        }
        Ok(Some(Numbers { numbers: seen }))
    }

    /// Whether a number is among them.
    pub(super) fn has(&self, number: u32) -> bool
        ensures { IsTrue result ↔ In number self.now }
    {
        self.numbers.contains(&number)
    }
}
