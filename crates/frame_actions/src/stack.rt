// The operands of a frame.
ghost use Rattle.std.specs.Prelude.{◌≡◌, ◌+◌, ◌<◌, ◌≤◌, ◌∷◌, [], length, Some, None, OnOk, IfOk, MatchOption, take, drop, reverse, slice_get};
ghost use Rattle.machine_model.specs.Operands.{top_of, top_int_of};

use std::alloc::Global;
use std::marker::Model;
use vm_model::{NoMemory, Value};

/// The operands of a frame (JVMS SE 8 §2.6.2): contracts see them with the top first, and see how many there is room for.
#[derive(Drop)]
pub struct Stack {
    values: Vec<Value>,
}

impl Model for Stack {
    ghost use Rattle.std.specs.Prelude.{reverse, vec_capacity};
    ghost use Rattle.frame_actions.specs.StackView.{StackView};

    ghost Value = { StackView };

    ghost view = { λ s. record { values = reverse s.values.items; room = vec_capacity s.values } };
}

impl Stack {
    /// A stack without operands, and without room. It takes no memory.
    pub fn new(alloc: Global) -> Stack
        ensures { result.values ≡ [] }
    {
        Stack {
            values: Vec::new(alloc),
        }
    }

    /// Takes all operands away, and keeps the room. It takes no memory.
    pub fn clear(&mut self)
        ensures values { self.new.values ≡ [] }
        ensures room { self.new.room ≡ self.old.room }
    {
        self.values.clear();
    }

    /// Makes room for two more operands, which is the most that one instruction adds.
    pub fn reserve(&mut self) -> Result<(), NoMemory>
        ensures values { self.new.values ≡ self.old.values }
        ensures room { OnOk result (length self.new.values + 2 ≤ self.new.room) }
    {
        if self.values.capacity() - self.values.len() >= 2 {
            return Ok(());
        }
        match self.values.reserve(2) {
            Ok(()) => Ok(()),
            Err(_) => Err(NoMemory),
        }
    }

    /// Puts a value on top. It takes no memory.
    pub fn push(&mut self, value: Value)
        requires { length self.old.values < self.old.room }
        ensures values { self.new.values ≡ value ∷ self.old.values }
        ensures room { self.old.room ≤ self.new.room }
    {
        self.values.push_reserved(value);
    }

    /// How many operands there are.
    pub(crate) fn len(&self) -> usize
        ensures { result ≡ length self.now.values }
    {
        self.values.len()
    }

    /// The value below so many others, if there is one.
    pub(crate) fn peek(&self, depth: usize) -> Option<Value>
        ensures top { MatchOption result (top_of (drop depth self.now.values) ≡ None) (λ v. top_of (drop depth self.now.values) ≡ Some (v, drop (depth + 1) self.now.values)) }
        ensures get { result ≡ slice_get self.now.values depth }
    {
        let len = self.values.len();
        if depth < len {
            Some(self.values[len - 1 - depth])
        } else {
            None
        }
    }

    /// The number below so many other values, if there is a number.
    pub(crate) fn peek_int(&self, depth: usize) -> Option<i32>
        ensures { MatchOption result (top_int_of (drop depth self.now.values) ≡ None) (λ n. top_int_of (drop depth self.now.values) ≡ Some (n, drop (depth + 1) self.now.values)) }
    {
        match self.peek(depth) {
            Some(Value::Int(n)) => Some(n),
            _ => None,
        }
    }

    /// The second value and the top one, as far as they are there.
    pub(crate) fn pair(&self) -> (Option<Value>, Option<Value>)
        ensures second { MatchOption result.0 (top_of (drop 1 self.now.values) ≡ None) (λ v. top_of (drop 1 self.now.values) ≡ Some (v, drop 2 self.now.values)) }
        ensures top { MatchOption result.1 (top_of self.now.values ≡ None) (λ v. top_of self.now.values ≡ Some (v, drop 1 self.now.values)) }
    {
        (self.peek(1), self.peek(0))
    }

    /// The numbers in the second place and on top, as far as numbers are there.
    pub(crate) fn ints(&self) -> (Option<i32>, Option<i32>)
        ensures second { MatchOption result.0 (top_int_of (drop 1 self.now.values) ≡ None) (λ n. top_int_of (drop 1 self.now.values) ≡ Some (n, drop 2 self.now.values)) }
        ensures top { MatchOption result.1 (top_int_of self.now.values ≡ None) (λ n. top_int_of self.now.values ≡ Some (n, drop 1 self.now.values)) }
    {
        (self.peek_int(1), self.peek_int(0))
    }

    /// So many values from the top, or all where there are fewer, with the top last. It takes no memory.
    pub fn arguments(&self, count: usize) -> &[Value]
        ensures { result.now ≡ reverse (take count self.now.values) }
    {
        let len = self.values.len();
        &self.values[len.saturating_sub(count)..]
    }

    /// Takes so many values off, or all where there are fewer.
    pub fn remove(&mut self, count: usize)
        ensures values { self.new.values ≡ drop count self.old.values }
        ensures room { self.old.room ≤ self.new.room }
    {
        let len = self.values.len();
        self.values.truncate(len.saturating_sub(count));
    }

    /// The same operands again.
    pub(crate) fn copy(&self, alloc: Global) -> Result<Stack, NoMemory>
        ensures { IfOk result (λ stack. stack.values ≡ self.now.values) }
    {
        match Vec::from_slice(alloc, self.values.as_slice()) {
            Ok(values) => Ok(Stack { values }),
            Err(_) => Err(NoMemory),
        }
    }
}
