//! The bodies that are open, in space that is reserved from the start.

ghost use Rattle.std.specs.Prelude.{◌≡◌, ◌∷◌, [], ◌≤◌, ◌<◌, ◌+◌, ◌-◌, length, take, drop, reverse, IfOk, slice_set, slice_get, Some, IsSome, unwrap_or};
ghost use Rattle.wy_code.specs.Machine.{first_of};
ghost use Rattle.wy_code.specs.Stores as words;
ghost use Rattle.wy_machine.specs.Stacks.{words_in, pushed, with_operands, stored_in, at_address, jumped_unless, begun, entered, left};
ghost use Rattle.wy_machine.specs.Words.{truth_of};

use crate::word::{Word, WordKind};
use std::alloc::Global;
use std::marker::Model;
use wy_text::text::Memory;

/// Where a body that is open stands: its number and its instance's, the address of the instruction that
/// comes next, and where its slots and its operands begin.
#[derive(Clone, Copy)]
pub struct Frame {
    pub instance: u32,
    pub body: u32,
    pub at: usize,
    pub base: usize,
    pub top: usize,
}

/// The room of a stack: how many slots and operands a body has at most, and how many bodies may wait for
/// calls at once.
#[derive(Clone, Copy)]
pub struct Limits {
    pub words: usize,
    pub depth: u32,
}

/// The bodies that are open, with the slots and operands of all of them in one list, whose space is
/// reserved from the start: no call takes memory.
#[derive(Drop)]
pub struct Stack {
    words: Vec<Word>,
    running: Frame,
    callers: Vec<Frame>,
    limits: Limits,
}

impl Model for Stack {
    ghost use Rattle.std.specs.Prelude.{reverse, take, length, vec_capacity};
    ghost use Rattle.wy_machine.specs.Stacks.{open_body, open_bodies, IsStacked};
    ghost use Rattle.wy_machine.specs.OpenBodies.{StackState};

    ghost Value = { StackState };

    ghost view = { λ s. record { running = open_body s.running s.words.items; callers = open_bodies (reverse s.callers.items) (take s.running.base s.words.items); limits = s.limits } };

    ghost invariant = { λ s. IsStacked s.limits s.running (reverse s.callers.items) (length s.words.items) (vec_capacity s.words) (vec_capacity s.callers) };
}

impl Stack {
    /// One more operand.
    pub fn push(&mut self, word: Word)
        requires { words_in self.old < self.old.limits.words }
        ensures { self.new ≡ pushed word self.old }
    {
        self.words.push_reserved(word);
    }

    /// The slots of the body that runs.
    pub fn slots(&self) -> &[Word]
        ensures { result.now ≡ self.now.running.slots }
    {
        &self.words.as_slice()[self.running.base..self.running.top]
    }

    /// The operands of the body that runs, the topmost last.
    pub fn operands(&self) -> &[Word]
        ensures { result.now ≡ reverse self.now.running.operands }
    {
        &self.words.as_slice()[self.running.top..]
    }

    /// Drops the topmost operands.
    pub fn drop_operands(&mut self, count: usize)
        requires { count ≤ length self.old.running.operands }
        ensures { self.new ≡ with_operands (drop count self.old.running.operands) self.old }
    {
        let len = self.words.len() - count;
        self.words.truncate(len);
    }

    /// Writes a slot of the body that runs.
    pub fn set_slot(&mut self, slot: usize, word: Word)
        requires { slot < length self.old.running.slots }
        ensures { self.new ≡ record self.old { running = record (self.old.running) { slots = slice_set self.old.running.slots slot word } } }
    {
        let at = self.running.base + slot;
        self.words[at] = word;
    }

    /// Goes to an address.
    pub fn jump(&mut self, to: usize)
        ensures { self.new ≡ at_address to self.old }
    {
        self.running.at = to;
    }

    /// A stack for runs, with the body of no instance on it, and with all the space that it will need.
    pub fn new(alloc: Global, limits: Limits) -> Result<Stack, Memory>
        requires { 0 < limits.words }
        ensures { IfOk result (λ stack. stack.limits ≡ limits) }
    {
        let frames = limits.depth as usize + 1;
        let room = limits.words.checked_mul(frames).ok_or(Memory)?;
        let mut words = Vec::with_capacity(alloc, room)?;
        words.push_reserved(Word::new(WordKind::Unit));
        let running = Frame {
            instance: 0,
            body: 0,
            at: 0,
            base: 0,
            top: 1,
        };
        let callers = Vec::with_capacity(alloc, limits.depth as usize)?;
        Ok(Stack {
            words,
            running,
            callers,
            limits,
        })
    }

    /// The body that runs first in a run of an instance, with no other open.
    pub fn begin(&mut self, instance: u32, body: u32, this: Word, vals: u32)
        requires { 1 + vals ≤ self.old.limits.words }
        ensures { self.new ≡ begun self.old.limits instance body this vals }
    {
        self.callers.clear();
        self.words.truncate(1);
        self.words[0] = this;
        let top = 1 + vals as usize;
        self.words.resize(top, Word::new(WordKind::Unit)).unwrap();
        self.running = Frame {
            instance,
            body,
            at: 0,
            base: 0,
            top,
        };
    }

    /// How many bodies wait for a call.
    pub fn waiting(&self) -> usize
        ensures { result ≡ length self.now.callers }
    {
        self.callers.len()
    }

    /// The current object.
    pub fn this(&self) -> Word
        ensures { result ≡ first_of self.now.running.slots }
    {
        self.words[self.running.base]
    }

    /// A slot of the body that runs.
    pub fn slot(&self, slot: usize) -> Word
        requires { slot < length self.now.running.slots }
        ensures { slice_get self.now.running.slots slot ≡ Some result }
    {
        self.words[self.running.base + slot]
    }

    /// The operand with this many operands above it.
    pub fn operand(&self, above: usize) -> Word
        requires { above < length self.now.running.operands }
        ensures { slice_get self.now.running.operands above ≡ Some result }
    {
        self.words[self.words.len() - 1 - above]
    }

    /// The topmost operands, in the order in which they were pushed.
    pub fn arguments(&self, count: usize) -> &[Word]
        requires { count ≤ length self.now.running.operands }
        ensures { result.now ≡ reverse (take count self.now.running.operands) }
    {
        let at = self.words.len() - count;
        &self.words.as_slice()[at..]
    }

    /// Writes the topmost operand.
    pub fn set_operand(&mut self, word: Word)
        requires { 0 < length self.old.running.operands }
        ensures { self.new ≡ with_operands (word ∷ drop 1 self.old.running.operands) self.old }
    {
        let at = self.words.len() - 1;
        self.words[at] = word;
    }

    /// Takes the topmost operand.
    pub fn pop(&mut self) -> Word
        requires { 0 < length self.old.running.operands }
        ensures word { result ≡ first_of self.old.running.operands }
        ensures rest { self.new ≡ with_operands (drop 1 self.old.running.operands) self.old }
    {
        let word = self.operand(0);
        self.drop_operands(1);
        word
    }

    /// Takes the topmost operands, and pushes a word.
    pub fn give(&mut self, count: usize, word: Word)
        requires some { 0 < count }
        requires there { count ≤ length self.old.running.operands }
        ensures { self.new ≡ pushed word (with_operands (drop count self.old.running.operands) self.old) }
    {
        self.drop_operands(count - 1);
        self.set_operand(word);
    }

    /// Pushes a slot.
    pub fn load(&mut self, slot: usize)
        requires slot { slot < length self.old.running.slots }
        requires room { words_in self.old < self.old.limits.words }
        ensures { self.new ≡ pushed (unwrap_or (slice_get self.old.running.slots slot) words.Nothing) self.old }
    {
        let word = self.slot(slot);
        self.push(word);
    }

    /// Takes the topmost operand into a slot.
    pub fn store(&mut self, slot: usize)
        requires operand { 0 < length self.old.running.operands }
        requires slot { slot < length self.old.running.slots }
        ensures { self.new ≡ stored_in slot self.old }
    {
        let word = self.pop();
        self.set_slot(slot, word);
    }

    /// Takes the topmost operand, and goes to an address where it is false.
    pub fn jump_false(&mut self, to: usize)
        requires operand { 0 < length self.old.running.operands }
        requires truth { IsSome (truth_of (first_of self.old.running.operands)) }
        ensures { self.new ≡ jumped_unless (truth_of (first_of self.old.running.operands)) to (with_operands (drop 1 self.old.running.operands) self.old) }
    {
        match self.pop().truth() {
            Some(true) => {}
            Some(false) => self.jump(to),
            None => unreachable!(),
        }
    }

    /// The number of the running body's instance.
    pub fn instance(&self) -> u32
        ensures { result ≡ self.now.running.instance }
    {
        self.running.instance
    }

    /// The number of the running body.
    pub fn body(&self) -> u32
        ensures { result ≡ self.now.running.body }
    {
        self.running.body
    }

    /// The address of the instruction that comes next.
    pub fn at(&self) -> usize
        ensures { result ≡ self.now.running.at }
    {
        self.running.at
    }

    /// Begins a body, whose first slots are the topmost operands: the current object and the arguments.
    pub fn enter(&mut self, instance: u32, body: u32, arguments: u32, vals: u32)
        requires there { arguments < length self.old.running.operands }
        requires room { 1 + arguments + vals ≤ self.old.limits.words }
        requires few { length self.old.callers < self.old.limits.depth }
        ensures { self.new ≡ entered instance body arguments vals self.old }
    {
        let base = self.words.len() - 1 - arguments as usize;
        let top = self.words.len() + vals as usize;
        self.words.resize(top, Word::new(WordKind::Unit)).unwrap();
        self.callers.push_reserved(self.running);
        self.running = Frame {
            instance,
            body,
            at: 0,
            base,
            top,
        };
    }

    /// Ends the body that runs, and pushes a word in the one that called it.
    pub fn leave(&mut self, word: Word)
        requires { 0 < length self.old.callers }
        ensures { left word self.old ≡ Some self.new }
    {
        match self.callers.pop() {
            Some(caller) => {
                let base = self.running.base;
                self.words.truncate(base + 1);
                self.words[base] = word;
                self.running = caller;
            }
            None => unreachable!(),
        }
    }
}
