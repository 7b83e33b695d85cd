// Objects and arrays.
ghost use Rattle.std.specs.Prelude.{◌≡◌, ℕ, ◌+◌, ◌≤◌, [], ◌∷◌, ◌++◌, length, slice_get, slice_set, true, OnOk, OnErr, IfOk};

use std::alloc::Global;
use std::marker::Model;
use vm_model::{MOST_HEAP_WORDS, MOST_OBJECTS, NoMemory, ObjRef, Value};

/// An object with its class and fields, or an array with its items.
#[derive(Debug, Drop)]
pub struct Item {
    class: Option<u32>,
    words: Vec<Value>,
}

impl Model for Item {
    ghost use Rattle.machine_model.specs.Shared.{HeapItem};

    ghost Value = { HeapItem };

    ghost view = { λ i. record { class = i.class; words = i.words.items } };
}

impl Item {
    /// An object where it has a class, and else an array.
    pub fn new(class: Option<u32>, words: Vec<Value>) -> Item
        ensures { result ≡ record { class = class; words = words.items } }
    {
        Item { class, words }
    }

    fn class(&self) -> Option<u32>
        ensures { result ≡ self.now.class }
    {
        self.class
    }

    fn words(&self) -> &[Value]
        ensures { result.now ≡ self.now.words }
    {
        self.words.as_slice()
    }

    fn set(&mut self, place: u32, value: Value)
        ensures { self.new ≡ record { class = self.old.class; words = slice_set self.old.words place value } }
    {
        let place = place as usize;
        if place < self.words.len() {
            self.words[place] = value;
        }
    }

    fn copy(&self, alloc: Global) -> Result<Item, NoMemory>
        ensures { IfOk result (λ copied. copied ≡ self.now) }
    {
        Ok(Item {
            class: self.class,
            words: Vec::from_slice(alloc, self.words.as_slice())?,
        })
    }
}

/// All objects and arrays, by id, and how many words they take: one each, and one for each field or item.
#[derive(Debug, Drop)]
pub struct Heap {
    items: Vec<Item>,
    words: u32,
}

impl Model for Heap {
    ghost use Rattle.shared_world.specs.HeapTypes.{HeapState};

    ghost Value = { HeapState };

    ghost use Rattle.shared_world.specs.Heaps.{view_of, IsCounted};

    ghost view = { view_of };

    ghost invariant = { IsCounted };
}

/// Equal items, in this order.
fn copied(alloc: Global, items: &[Item]) -> Result<Vec<Item>, NoMemory>
    ensures { IfOk result (λ copies. copies.items ≡ items.now) }
{
    let mut copies = Vec::with_capacity(alloc, items.len())?;
    for item in items {
        copies.push(item.copy(alloc)?)?;
    }
    Ok(copies)
}

impl Heap {
    ghost use Rattle.machine_model.specs.Shared.{words_of};
    ghost use Rattle.machine_model.specs.Operations.{is_item_of, is_any_object, is_array_of, is_array, word_in, put_word};
    ghost use Rattle.shared_world.specs.HeapTypes.{has_words};

    /// No object and no array.
    pub fn new(alloc: Global) -> Heap
        ensures { result.items ≡ [] }
    {
        Heap {
            items: Vec::new(alloc),
            words: 0,
        }
    }

    /// How many objects and arrays there are; the next one gets this number as its id.
    pub fn len(&self) -> u32
        ensures { result ≡ length self.now.items }
    {
        self.items.len() as u32
    }

    /// How many words they take.
    pub fn words(&self) -> u32
        ensures { result ≡ words_of self.now.items }
    {
        self.words
    }

    /// Whether there is an object of this id and class.
    pub fn is_object(&self, obj: ObjRef) -> bool
        ensures { result ≡ is_item_of obj.class (slice_get self.now.items obj.id) }
    {
        match self.items.get(obj.id as usize) {
            Some(item) => match item.class() {
                Some(class) => class == obj.class,
                None => false,
            },
            None => false,
        }
    }

    /// Whether there is an object of this id, whatever its class.
    pub fn is_any_object(&self, id: u32) -> bool
        ensures { result ≡ is_any_object (slice_get self.now.items id) }
    {
        match self.items.get(id as usize) {
            Some(item) => item.class().is_some(),
            None => false,
        }
    }

    /// Whether there is an array of this id and length.
    pub fn is_array_of(&self, id: u32, len: u32) -> bool
        ensures { result ≡ is_array_of len (slice_get self.now.items id) }
    {
        match self.items.get(id as usize) {
            Some(item) => item.class().is_none() && item.words().len() == len as usize,
            None => false,
        }
    }

    /// Whether there is an array of this id.
    pub fn is_array(&self, id: u32) -> bool
        ensures { result ≡ is_array (slice_get self.now.items id) }
    {
        match self.items.get(id as usize) {
            Some(item) => item.class().is_none(),
            None => false,
        }
    }

    /// What an object's field or an array's item holds.
    pub fn word(&self, id: u32, place: u32) -> Option<Value>
        ensures { result ≡ word_in (slice_get self.now.items id) place }
    {
        match self.items.get(id as usize) {
            Some(item) => item.words().get(place as usize).copied(),
            None => None,
        }
    }

    /// Changes what an object's field or an array's item holds.
    pub fn set_word(&mut self, id: u32, place: u32, value: Value)
        ensures { self.new.items ≡ put_word (slice_get self.old.items id) place value self.old.items id }
    {
        let id = id as usize;
        if id < self.items.len() {
            self.items[id].set(place, value);
        }
    }

    /// Whether one more object or array of so many words, itself included, keeps the limits of 262,144 objects and arrays
    /// and 4,194,304 words.
    pub fn has_room(&self, words: u64) -> bool
        ensures { result ≡ has_words self.now.items words }
    {
        self.items.len() < MOST_OBJECTS && words <= MOST_HEAP_WORDS - self.words as u64
    }

    /// Makes room for one more item. The items stay, whatever the answer.
    pub fn reserve(&mut self) -> Result<(), NoMemory>
        ensures ok { OnOk result (1 ≤ self.new.room) }
        ensures items { self.new.items ≡ self.old.items }
    {
        self.items.reserve(1)?;
        Ok(())
    }

    /// Adds an object or an array. It takes no memory.
    pub fn push(&mut self, item: Item)
        requires reserved { 1 ≤ self.old.room }
        requires limits { has_words self.old.items (1 + length item.words) ≡ true }
        ensures { self.new.items ≡ self.old.items ++ item ∷ [] }
    {
        self.words += 1 + item.words().len() as u32;
        self.items.push_reserved(item);
    }

    /// An equal heap.
    pub fn copy(&self, alloc: Global) -> Result<Heap, NoMemory>
        ensures { IfOk result (λ heap. heap.items ≡ self.now.items) }
    {
        Ok(Heap {
            items: copied(alloc, self.items.as_slice())?,
            words: self.words,
        })
    }
}
