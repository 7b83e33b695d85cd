// A frame, and the ways in which an instruction of the thread alone changes it.
ghost use Rattle.std.specs.Prelude.{◌≡◌, ◌+◌, ◌<◌, ◌≤◌, ◌^◌, ◌∷◌, length, drop, slice_get, IfOk, OnOk};
ghost use Rattle.machine_model.specs.Operands.{next, branch, store, on_local, int_in, Goes};
ghost use Rattle.frame_actions.specs.Acts.{plain, HasRoom, acted_of, after, goes_if};

use crate::stack::Stack;
use std::alloc::Global;
use vm_model::{Lock, NoMemory, Value};

/// One call of a method (JVMS SE 8 §2.6): the number of the method, the place of its next instruction, and the lock that a
/// synchronized method holds.
#[derive(Drop)]
pub struct Frame {
    pub method: u32,
    pub place: u32,
    pub locals: Vec<Value>,
    pub stack: Stack,
    pub lock: Option<Lock>,
}

impl Frame {
    /// Makes room for an instruction.
    pub fn reserve(&mut self) -> Result<(), NoMemory>
        ensures frame { plain self.new ≡ plain self.old }
        ensures room { OnOk result (HasRoom self.new) }
    {
        self.stack.reserve()
    }

    /// The same frame again, with room for an instruction.
    pub fn copy(&self, alloc: Global) -> Result<Frame, NoMemory>
        ensures frame { IfOk result (λ f. plain f ≡ plain self.now) }
        ensures room { IfOk result HasRoom }
    {
        let Ok(locals) = Vec::from_slice(alloc, self.locals.as_slice()) else {
            return Err(NoMemory);
        };
        let mut stack = self.stack.copy(alloc)?;
        stack.reserve()?;
        Ok(Frame {
            method: self.method,
            place: self.place,
            locals,
            stack,
            lock: self.lock,
        })
    }

    /// Takes so many operands, and goes on to the next place.
    pub(crate) fn take(&mut self, taken: usize)
        requires { self.old.place < 2 ^ 31 }
        ensures room { self.old.stack.room ≤ self.new.stack.room }
        ensures method { self.new.method ≡ self.old.method }
        ensures frame { plain self.new ≡ next (plain self.old) (drop taken self.old.stack.values) }
    {
        self.stack.remove(taken);
        self.place += 1;
    }

    /// Takes so many operands, puts a value on top, and goes on to the next place.
    pub(crate) fn put(&mut self, taken: usize, value: Value)
        requires place { self.old.place < 2 ^ 31 }
        requires room { length self.old.stack.values < self.old.stack.room }
        ensures room { self.old.stack.room ≤ self.new.stack.room }
        ensures method { self.new.method ≡ self.old.method }
        ensures frame { plain self.new ≡ next (plain self.old) (value ∷ drop taken self.old.stack.values) }
    {
        self.stack.remove(taken);
        self.stack.push(value);
        self.place += 1;
    }

    /// Takes so many operands, puts a number on top, and goes on to the next place.
    pub(crate) fn put_int(&mut self, taken: usize, number: i32)
        requires place { self.old.place < 2 ^ 31 }
        requires room { length self.old.stack.values < self.old.stack.room }
        ensures room { self.old.stack.room ≤ self.new.stack.room }
        ensures method { self.new.method ≡ self.old.method }
        ensures frame { plain self.new ≡ next (plain self.old) (Value.Int number ∷ drop taken self.old.stack.values) }
    {
        self.put(taken, Value::Int(number));
    }

    /// Takes so many operands, and goes on to that place where the test holds, else to the next one.
    pub(crate) fn branch(&mut self, taken: usize, holds: bool, to: u32)
        requires { self.old.place < 2 ^ 31 }
        ensures room { self.old.stack.room ≤ self.new.stack.room }
        ensures method { self.new.method ≡ self.old.method }
        ensures frame { plain self.new ≡ branch holds (plain self.old) to (drop taken self.old.stack.values) }
    {
        self.stack.remove(taken);
        if holds {
            self.place = to;
        } else {
            self.place += 1;
        }
    }

    /// Takes so many operands, writes a local, and goes on to the next place; false, and no change, where there is no such local.
    pub(crate) fn store(&mut self, taken: usize, local: u32, value: Value) -> bool
        requires { self.old.place < 2 ^ 31 }
        ensures acted { goes_if result ≡ acted_of (on_local (slice_get self.old.locals.items local) (λ _. Goes (store (plain self.old) local value (drop taken self.old.stack.values)))) }
        ensures room { self.old.stack.room ≤ self.new.stack.room }
        ensures method { self.new.method ≡ self.old.method }
        ensures frame { plain self.new ≡ after (on_local (slice_get self.old.locals.items local) (λ _. Goes (store (plain self.old) local value (drop taken self.old.stack.values)))) (plain self.old) }
    {
        let local = local as usize;
        if local < self.locals.len() {
            self.stack.remove(taken);
            self.locals[local] = value;
            self.place += 1;
            true
        } else {
            false
        }
    }

    /// Takes so many operands, writes a number to a local, and goes on to the next place; false, and no change, where there is no
    /// such local.
    pub(crate) fn store_int(&mut self, taken: usize, local: u32, number: i32) -> bool
        requires { self.old.place < 2 ^ 31 }
        ensures acted { goes_if result ≡ acted_of (on_local (slice_get self.old.locals.items local) (λ _. Goes (store (plain self.old) local (Value.Int number) (drop taken self.old.stack.values)))) }
        ensures room { self.old.stack.room ≤ self.new.stack.room }
        ensures method { self.new.method ≡ self.old.method }
        ensures frame { plain self.new ≡ after (on_local (slice_get self.old.locals.items local) (λ _. Goes (store (plain self.old) local (Value.Int number) (drop taken self.old.stack.values)))) (plain self.old) }
    {
        self.store(taken, local, Value::Int(number))
    }

    /// The number in a local, if a number is there.
    pub(crate) fn int_local(&self, local: u32) -> Option<i32>
        ensures { result ≡ int_in (slice_get self.now.locals.items local) }
    {
        match self.locals.get(local as usize) {
            Some(Value::Int(n)) => Some(*n),
            _ => None,
        }
    }

    /// The value in a local, if there is such a local.
    pub(crate) fn local(&self, local: u32) -> Option<Value>
        ensures { result ≡ slice_get self.now.locals.items local }
    {
        self.locals.get(local as usize).copied()
    }
}
