//! Shapes: the kinds of the operands and the locals before an instruction.

ghost use Rattle.std.specs.Prelude.{◌≡◌, ◌∷◌, [], length, OnOk, MatchOption, drop, slice_get};
ghost use Rattle.shape_lattice.specs.Locals.{is_missing, set_in};

use std::marker::Model;
use vm_model::{Kind, NoMemory};

/// The kinds of the operands, the top last, and of the locals, where None is a local that isn't set. Contracts see the top
/// first.
#[derive(Debug, Drop)]
pub struct Shape {
    pub stack: Vec<Kind>,
    pub locals: Vec<Option<Kind>>,
}

impl Model for Shape {
    ghost use Rattle.std.specs.Prelude.{reverse};
    ghost use Rattle.machine_model.specs.Shapes as plain;

    ghost Value = { plain.Shape };

    ghost view = { λ s. record { stack = reverse s.stack.items; locals = s.locals.items } };
}

impl Shape {
    /// Takes the top operand off, if there is one.
    pub fn pop(&mut self) -> Option<Kind>
        ensures stack { MatchOption result (self.old.stack ≡ []) (λ k. self.old.stack ≡ k ∷ self.new.stack) }
        ensures locals { self.new.locals ≡ self.old.locals }
    {
        self.stack.pop()
    }

    /// The kind of a local, if it is set and there.
    pub fn local(&self, local: u32) -> Option<Kind>
        ensures { result ≡ set_in (slice_get self.now.locals local) }
    {
        match self.locals.get(local as usize) {
            Some(found) => *found,
            None => None,
        }
    }

    /// Whether a local isn't set, or isn't there.
    pub fn is_missing(&self, local: u32) -> bool
        ensures { result ≡ is_missing (slice_get self.now.locals local) }
    {
        match self.local(local) {
            Some(_) => false,
            None => true,
        }
    }

    /// How many operands there are.
    pub fn depth(&self) -> usize
        ensures { result ≡ length self.now.stack }
    {
        self.stack.len()
    }

    /// The kind of the top operand, if there is one.
    pub fn top(&self) -> Option<Kind>
        ensures { MatchOption result (self.now.stack ≡ []) (λ k. self.now.stack ≡ k ∷ drop 1 self.now.stack) }
    {
        let len = self.stack.len();
        if len == 0 {
            None
        } else {
            Some(self.stack[len - 1])
        }
    }

    /// Puts an operand of this kind on top.
    pub fn push(&mut self, kind: Kind) -> Result<(), NoMemory>
        ensures stack { OnOk result (self.new.stack ≡ kind ∷ self.old.stack) }
        ensures locals { self.new.locals ≡ self.old.locals }
    {
        self.stack.push(kind)?;
        Ok(())
    }
}
