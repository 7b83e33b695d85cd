// The names that classes declare, with their numbers.
ghost use Rattle.std.specs.Prelude.{◌≡◌, OnOk, IfOk, not};
ghost use Rattle.name_resolver.specs.Names as spec;
ghost use Rattle.name_resolver.specs.Words.{field_key, field_word, method_key};

use crate::index::Index;
use crate::words::{field_key, field_word, has, method_key};
use jasmin_lines::{ClassText, FieldText, MethodText, is};
use std::alloc::Global;
use std::marker::Model;
use vm_model::{FIRST_USER_CLASS, Name, NoMemory};

/// The numbers of the next class, static field, method and field of the text, and the place of the next field in an object of the
/// class. User classes are numbered from 32.
#[derive(Clone, Copy, Debug, PartialEq, Eq)]
pub struct Counts {
    pub classes: u32,
    pub statics: u32,
    pub methods: u32,
    pub fields: u32,
    pub places: u32,
}

/// What is declared, by name. Of several with one name the first counts.
#[derive(Drop)]
pub struct Names {
    /// The number of each class of the text.
    pub classes: Index,
    /// The slot of each static field, by its word and descriptor.
    pub statics: Index,
    /// The place in an object of each field that isn't static, by its word and descriptor.
    pub places: Index,
    /// The number of each field, by its word alone.
    pub fields: Index,
    /// The number of each static method, by its word with the descriptor.
    pub functions: Index,
    /// The number of each method that isn't static.
    pub instance_methods: Index,
    /// The number of each method.
    pub methods: Index,
    /// The classes that extend `java/lang/Thread`.
    pub threads: Index,
    /// The number of the method where the program begins.
    pub main: Option<u32>,
}

/// One more; counting ends far above each limit, where no text comes to.
pub fn next(n: u32) -> u32
    ensures { result ≡ spec.next n }
{
    if n < 0x7fff_ffff { n + 1 } else { n }
}

/// Whether a class extends `java/lang/Thread`.
pub fn is_thread(class: &ClassText) -> bool
    ensures { result ≡ spec.is_thread class.now }
{
    is(class.super_name.bytes(), b"java/lang/Thread")
}

/// Whether a member with these flags is static.
pub fn is_static(flags: &[Name]) -> bool
    ensures { result ≡ spec.is_static flags.now }
{
    has(flags, b"static")
}

/// Whether it is a class, and no `.interface` line, which stands as a class with an empty name.
pub fn is_named(class: &ClassText) -> bool
    ensures { result ≡ spec.is_named class.now }
{
    !class.name.bytes().is_empty()
}

fn is_main(method: &MethodText) -> bool
    ensures { result ≡ spec.is_main method.now }
{
    is(method.name.bytes(), b"main")
        && is(method.desc.bytes(), b"([Ljava/lang/String;)V")
        && has(&method.flags, b"public")
        && has(&method.flags, b"static")
}

fn first_main(found: Option<u32>, is_one: bool, number: u32) -> Option<u32>
    ensures { result ≡ spec.first_main found is_one number }
{
    match found {
        Some(number) => Some(number),
        None => { if is_one { Some(number) } else { None } }
    }
}

impl Counts {
    /// Before the first class.
    pub fn new() -> Counts
        ensures { result ≡ spec.no_counts }
    {
        Counts {
            classes: FIRST_USER_CLASS,
            statics: 0,
            methods: 0,
            fields: 0,
            places: 0,
        }
    }

    /// At the first line of a class: an object of a class of threads has its Runnable target at place 0.
    pub fn class_begun(self, class: &ClassText) -> Counts
        ensures { result ≡ spec.class_begun class.now self }
    {
        Counts {
            places: if is_thread(class) { 1 } else { 0 },
            ..self
        }
    }

    /// After a field.
    pub fn field_counted(self, field: &FieldText) -> Counts
        ensures { result ≡ spec.field_counted field.now self }
    {
        if is_static(&field.flags) {
            Counts {
                statics: next(self.statics),
                fields: next(self.fields),
                ..self
            }
        } else {
            Counts {
                places: next(self.places),
                fields: next(self.fields),
                ..self
            }
        }
    }

    /// After a method.
    pub fn method_counted(self) -> Counts
        ensures { result ≡ spec.method_counted self }
    {
        Counts {
            methods: next(self.methods),
            ..self
        }
    }

    /// After a class, where it is one.
    pub fn counted_if(self, is_one: bool) -> Counts
        ensures { result ≡ spec.counted_if is_one self }
    {
        if is_one {
            Counts {
                classes: next(self.classes),
                ..self
            }
        } else {
            self
        }
    }
}

fn add_if(
    alloc: Global,
    is_wanted: bool,
    rows: &mut Index,
    key: &[u8],
    number: u32,
) -> Result<(), NoMemory>
    ensures { OnOk result (rows.new ≡ spec.row_if is_wanted key.now number rows.old) }
{
    if is_wanted {
        rows.add(alloc, key, number)
    } else {
        Ok(())
    }
}

impl Names {
    /// Where nothing is declared.
    pub fn new(alloc: Global) -> Names
        ensures { result ≡ spec.no_names }
    {
        Names {
            classes: Index::new(alloc),
            statics: Index::new(alloc),
            places: Index::new(alloc),
            fields: Index::new(alloc),
            functions: Index::new(alloc),
            instance_methods: Index::new(alloc),
            methods: Index::new(alloc),
            threads: Index::new(alloc),
            main: None,
        }
    }

    fn add_class(
        &mut self,
        alloc: Global,
        class: &ClassText,
        counts: Counts,
    ) -> Result<(), NoMemory>
        ensures { OnOk result (self.new ≡ spec.with_class class.now counts self.old) }
    {
        let name = class.name.bytes();
        add_if(
            alloc,
            is_named(class),
            &mut self.classes,
            name,
            counts.classes,
        )?;
        add_if(alloc, is_thread(class), &mut self.threads, name, 1)
    }

    fn add_field(
        &mut self,
        alloc: Global,
        class: &[u8],
        field: &FieldText,
        counts: Counts,
    ) -> Result<(), NoMemory>
        ensures { OnOk result (self.new ≡ spec.with_field class.now field.now counts self.old) }
    {
        let is_static = is_static(&field.flags);
        let word = field_word(alloc, class, field.name.bytes())?;
        let key = field_key(alloc, &word, field.desc.bytes())?;
        add_if(alloc, is_static, &mut self.statics, &key, counts.statics)?;
        add_if(alloc, !is_static, &mut self.places, &key, counts.places)?;
        self.fields.add(alloc, &word, counts.fields)
    }

    fn add_method(
        &mut self,
        alloc: Global,
        class: &[u8],
        method: &MethodText,
        counts: Counts,
    ) -> Result<(), NoMemory>
        ensures { OnOk result (self.new ≡ spec.with_method class.now method.now counts self.old) }
    {
        let is_static = is_static(&method.flags);
        let number = counts.methods;
        let key = method_key(alloc, class, method.name.bytes(), method.desc.bytes())?;
        add_if(alloc, is_static, &mut self.functions, &key, number)?;
        add_if(alloc, !is_static, &mut self.instance_methods, &key, number)?;
        self.methods.add(alloc, &key, number)?;
        self.main = first_main(self.main, is_main(method), number);
        Ok(())
    }

    /// Adds the fields of a class.
    #[tactic(auto, unfolding(crate::specs::Names::with_fields))]
    fn add_fields(
        &mut self,
        alloc: Global,
        class: &[u8],
        fields: &[FieldText],
        counts: Counts,
    ) -> Result<Counts, NoMemory>
        ensures { IfOk result (λ n. (n, self.new) ≡ spec.with_fields class.now fields.now counts self.old) }
    {
        let mut counts = counts;
        let mut rest = fields;
        while let [field, after @ ..] = rest {
            self.add_field(alloc, class, field, counts)?;
            counts = counts.field_counted(field);
            rest = after;
        }
        Ok(counts)
    }

    /// Adds the methods of a class.
    #[tactic(auto, unfolding(crate::specs::Names::with_methods))]
    fn add_methods(
        &mut self,
        alloc: Global,
        class: &[u8],
        methods: &[MethodText],
        counts: Counts,
    ) -> Result<Counts, NoMemory>
        ensures { IfOk result (λ n. (n, self.new) ≡ spec.with_methods class.now methods.now counts self.old) }
    {
        let mut counts = counts;
        let mut rest = methods;
        while let [method, after @ ..] = rest {
            self.add_method(alloc, class, method, counts)?;
            counts = counts.method_counted();
            rest = after;
        }
        Ok(counts)
    }

    fn add_whole(
        &mut self,
        alloc: Global,
        class: &ClassText,
        counts: Counts,
    ) -> Result<Counts, NoMemory>
        ensures { IfOk result (λ n. (n, self.new) ≡ spec.with_whole class.now counts self.old) }
    {
        let name = class.name.bytes();
        self.add_class(alloc, class, counts)?;
        let counts = self.add_fields(alloc, name, &class.fields, counts.class_begun(class))?;
        self.add_methods(alloc, name, &class.methods, counts)
    }

    /// Adds classes with all that they declare.
    #[tactic(auto, unfolding(crate::specs::Names::with_classes))]
    fn add_classes(
        &mut self,
        alloc: Global,
        classes: &[ClassText],
        counts: Counts,
    ) -> Result<Counts, NoMemory>
        ensures { IfOk result (λ n. (n, self.new) ≡ spec.with_classes classes.now counts self.old) }
    {
        let mut counts = counts;
        let mut rest = classes;
        while let [class, after @ ..] = rest {
            let behind = self.add_whole(alloc, class, counts)?;
            counts = behind.counted_if(is_named(class));
            rest = after;
        }
        Ok(counts)
    }
}

/// The names of these classes, and how many there are.
#[tactic(auto, unfolding(crate::specs::Names::names_of))]
pub fn names_of(alloc: Global, classes: &[ClassText]) -> Result<(Counts, Names), NoMemory>
    ensures { IfOk result (λ x. (x.0, x.1) ≡ spec.names_of classes.now) }
{
    let mut names = Names::new(alloc);
    let counts = names.add_classes(alloc, classes, Counts::new())?;
    Ok((counts, names))
}
