// Programs, whose lists contracts see as lists.
ghost use Rattle.std.specs.Prelude.{◌≡◌};
ghost use Rattle.std.specs.Option.{option_copied};

use crate::instr::Instr;
use crate::limits::FIRST_USER_CLASS;
use crate::name::Name;
use crate::value::{Kind, Value};
use std::marker::Model;

/// A field of an object. A class of threads has one more, hidden, at place 0: its Runnable target.
#[derive(Debug, Drop)]
pub struct Field {
    pub name: Name,
    pub kind: Kind,
}

/// A user class. `run` is the number of its own `run()V` that isn't static, if it has one.
#[derive(Debug, Drop)]
pub struct Class {
    pub name: Name,
    pub is_thread: bool,
    pub is_runnable: bool,
    pub fields: Vec<Field>,
    pub run: Option<u32>,
}

impl Model for Class {
    ghost use Rattle.vm_model.specs.Program.{PlainClass};

    ghost Value = { PlainClass };

    ghost view = { λ c. record { name = c.name; is_thread = c.is_thread; is_runnable = c.is_runnable; fields = c.fields.items; run = c.run } };
}

/// A static field, the number of its class, and the value that it has at the start.
#[derive(Debug, Drop)]
pub struct StaticSlot {
    pub class: u32,
    pub name: Name,
    pub kind: Kind,
    pub start: Value,
}

/// A method: the number of its class, its parameters without the receiver, what it gives back, and its code. A missing
/// limit is the one that its code needs.
#[derive(Debug, Drop)]
pub struct Method {
    pub class: u32,
    pub name: Name,
    pub params: Vec<Kind>,
    pub gives: Option<Kind>,
    pub is_static: bool,
    pub is_synchronized: bool,
    pub max_stack: Option<u32>,
    pub max_locals: Option<u32>,
    pub code: Vec<Instr>,
}

impl Model for Method {
    ghost use Rattle.vm_model.specs.Program.{PlainMethod};

    ghost Value = { PlainMethod };

    ghost view = { λ m. record { class = m.class; name = m.name; params = m.params.items; gives = m.gives; is_static = m.is_static; is_synchronized = m.is_synchronized; max_stack = m.max_stack; max_locals = m.max_locals; code = m.code.items } };
}

/// A linked program. Classes 0 to 22 are built in; class `FIRST_USER_CLASS` + i is item i of `classes`. `main` is the number of the method
/// that the first thread begins with.
#[derive(Debug, Drop)]
pub struct Program {
    pub classes: Vec<Class>,
    pub methods: Vec<Method>,
    pub statics: Vec<StaticSlot>,
    pub texts: Vec<Name>,
    pub main: u32,
}

impl Model for Program {
    ghost use Rattle.vm_model.specs.Program.{PlainProgram};

    ghost Value = { PlainProgram };

    ghost view = { λ p. record { classes = p.classes.items; methods = p.methods.items; statics = p.statics.items; texts = p.texts.items; main = p.main } };
}

impl Program {
    ghost use Rattle.vm_model.specs.Program.{method_at, instr_at, class_at, static_at, text_at};

    /// The method of this number, if there is one.
    pub fn method(&self, method: u32) -> Option<&Method>
        ensures { option_copied result ≡ method_at self.now method }
    {
        self.methods.get(method as usize)
    }

    /// The instruction at this place of this method, if there is one.
    pub fn instr_at(&self, method: u32, place: u32) -> Option<Instr>
        ensures { result ≡ instr_at self.now method place }
    {
        match self.methods.get(method as usize) {
            Some(m) => m.code.get(place as usize).copied(),
            None => None,
        }
    }

    /// The user class of this number, if there is one.
    pub fn class(&self, class: u32) -> Option<&Class>
        ensures { option_copied result ≡ class_at self.now class }
    {
        if class < FIRST_USER_CLASS {
            None
        } else {
            self.classes.get((class - FIRST_USER_CLASS) as usize)
        }
    }

    /// The static of this number, if there is one.
    pub fn static_slot(&self, slot: u32) -> Option<&StaticSlot>
        ensures { option_copied result ≡ static_at self.now slot }
    {
        self.statics.get(slot as usize)
    }

    /// The bytes of the text constant of this number; none where there is no such constant.
    pub fn text(&self, text: u32) -> &[u8]
        ensures { result.now ≡ text_at self.now text }
    {
        match self.texts.get(text as usize) {
            Some(name) => name.bytes(),
            None => &[],
        }
    }

    /// The number of the method that the first thread begins with.
    pub fn main_method(&self) -> u32
        ensures { result ≡ self.now.main }
    {
        self.main
    }
}
