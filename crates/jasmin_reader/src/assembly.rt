// Classes from the forms of lines, from the last one to the first: a label belongs to the instruction after it.
ghost use Rattle.std.specs.Prelude.{◌≡◌, [], IfOk, OnOk};
ghost use Rattle.jasmin_reader.specs.Assembly as spec;
ghost use Rattle.jasmin_lines.specs.Directives.{empty_class};
ghost use Rattle.jasmin_reader.specs.Turned.{turned_lines};
ghost use Rattle.jasmin_lines.specs.declared.form.Form.TheVariants as form;

use jasmin_lines::{CatchText, ClassText, FieldText, Form, LineText, MethodText, NameAt};
use std::alloc::Global;
use std::marker::Model;
use std::mem::replace;
use vm_model::{Name, NoMemory};

/// What stands in a method, the last first.
#[derive(Debug, Drop)]
struct Body {
    stack: Option<u32>,
    locals: Option<u32>,
    lines: Vec<LineText>,
    end_labels: Vec<Name>,
    catches: Vec<CatchText>,
}

impl Model for Body {
    ghost use Rattle.jasmin_reader.specs.Assembly.{PlainBody};
    ghost use Rattle.jasmin_reader.specs.Turned.{turned_lines};
    ghost use Rattle.std.specs.Prelude.{reverse};

    ghost Value = { PlainBody };

    ghost view = { λ b. record { stack = b.stack; locals = b.locals; lines = turned_lines b.lines.items; end_labels = reverse b.end_labels.items; catches = reverse b.catches.items } };
}

/// What stands in a class, the last first.
#[derive(Debug, Drop)]
struct Members {
    super_line: u32,
    super_name: Name,
    implements: Vec<NameAt>,
    fields: Vec<FieldText>,
    methods: Vec<MethodText>,
}

impl Model for Members {
    ghost use Rattle.jasmin_reader.specs.Assembly.{PlainMembers};
    ghost use Rattle.std.specs.Prelude.{reverse};

    ghost Value = { PlainMembers };

    ghost view = { λ m. record { super_line = m.super_line; super_name = m.super_name; implements = reverse m.implements.items; fields = reverse m.fields.items; methods = reverse m.methods.items } };
}

/// What the lines after give, the last first.
#[derive(Debug, Drop)]
struct Parts {
    body: Body,
    members: Members,
    classes: Vec<ClassText>,
}

impl Model for Parts {
    ghost use Rattle.jasmin_reader.specs.Assembly.{PlainParts};
    ghost use Rattle.std.specs.Prelude.{reverse};

    ghost Value = { PlainParts };

    ghost view = { λ p. record { body = p.body; members = p.members; classes = reverse p.classes.items } };
}

/// Lines in the text's order, of which the last came first, and so did the last label of each.
fn in_order(alloc: Global, lines: Vec<LineText>) -> Result<Vec<LineText>, NoMemory>
    ensures { IfOk result (λ v. v.items ≡ turned_lines lines.items) }
{
    let mut lines = lines;
    let mut turned = Vec::new(alloc);
    while let Some(mut line) = lines.pop() {
        line.labels.reverse();
        turned.push(line)?;
    }
    Ok(turned)
}

impl Body {
    fn new(alloc: Global) -> Body
        ensures { result ≡ spec.no_body }
    {
        Body {
            stack: None,
            locals: None,
            lines: Vec::new(alloc),
            end_labels: Vec::new(alloc),
            catches: Vec::new(alloc),
        }
    }

    /// An instruction comes before those that are there.
    fn add_line(&mut self, line: LineText) -> Result<(), NoMemory>
        ensures { OnOk result (self.new ≡ spec.with_line line self.old) }
    {
        let mut line = line;
        line.labels.reverse();
        self.lines.push(line)?;
        Ok(())
    }

    /// A label comes before the first instruction, or is one at the end.
    fn add_label(&mut self, label: Name) -> Result<(), NoMemory>
        ensures { OnOk result (self.new ≡ spec.with_label label self.old) }
    {
        match self.lines.pop() {
            Some(mut line) => {
                line.labels.push(label)?;
                self.lines.push(line)?;
            }
            None => self.end_labels.push(label)?,
        }
        Ok(())
    }

    /// The method of this first line.
    fn method(self, alloc: Global, begun: MethodText) -> Result<MethodText, NoMemory>
        ensures { IfOk result (λ m. m ≡ spec.method_of begun self) }
    {
        let mut method = begun;
        method.stack = self.stack;
        method.locals = self.locals;
        method.lines = in_order(alloc, self.lines)?;
        method.end_labels = self.end_labels;
        method.end_labels.reverse();
        method.catches = self.catches;
        method.catches.reverse();
        Ok(method)
    }
}

impl Members {
    fn new(alloc: Global) -> Result<Members, NoMemory>
        ensures { IfOk result (λ m. m ≡ spec.no_members) }
    {
        Ok(Members {
            super_line: 0,
            super_name: Name::of(alloc, b"")?,
            implements: Vec::new(alloc),
            fields: Vec::new(alloc),
            methods: Vec::new(alloc),
        })
    }

    /// The class of this first line.
    fn class(self, begun: ClassText) -> ClassText
        ensures { result ≡ spec.class_of begun self }
    {
        let mut class = begun;
        class.super_line = self.super_line;
        class.super_name = self.super_name;
        class.implements = self.implements;
        class.implements.reverse();
        class.fields = self.fields;
        class.fields.reverse();
        class.methods = self.methods;
        class.methods.reverse();
        class
    }
}

fn interface_at(alloc: Global, line: u32) -> Result<ClassText, NoMemory>
    ensures { IfOk result (λ c. c ≡ empty_class line [] []) }
{
    Ok(ClassText {
        line,
        flags: Vec::new(alloc),
        name: Name::of(alloc, b"")?,
        super_line: 0,
        super_name: Name::of(alloc, b"")?,
        implements: Vec::new(alloc),
        fields: Vec::new(alloc),
        methods: Vec::new(alloc),
    })
}

impl Parts {
    fn new(alloc: Global) -> Result<Parts, NoMemory>
        ensures { IfOk result (λ p. p ≡ spec.no_parts) }
    {
        Ok(Parts {
            body: Body::new(alloc),
            members: Members::new(alloc)?,
            classes: Vec::new(alloc),
        })
    }

    fn end_class(&mut self, alloc: Global, begun: ClassText) -> Result<(), NoMemory>
        ensures { OnOk result (self.new ≡ spec.with_form (form.Class begun) self.old) }
    {
        let members = replace(&mut self.members, Members::new(alloc)?);
        self.body = Body::new(alloc);
        self.classes.push(members.class(begun))?;
        Ok(())
    }

    fn end_method(&mut self, alloc: Global, begun: MethodText) -> Result<(), NoMemory>
        ensures { OnOk result (self.new ≡ spec.with_form (form.Method begun) self.old) }
    {
        let body = replace(&mut self.body, Body::new(alloc));
        self.members.methods.push(body.method(alloc, begun)?)?;
        Ok(())
    }

    /// A line comes before those that are there.
    fn add(&mut self, alloc: Global, form: Form) -> Result<(), NoMemory>
        ensures { OnOk result (self.new ≡ spec.with_form form self.old) }
    {
        match form {
            Form::Skipped => {}
            Form::Ignored => {}
            Form::End => {}
            Form::Interface(line) => self.classes.push(interface_at(alloc, line)?)?,
            Form::Class(class) => self.end_class(alloc, class)?,
            Form::Super(name) => {
                self.members.super_line = name.line;
                self.members.super_name = name.name;
            }
            Form::Implements(name) => self.members.implements.push(name)?,
            Form::Field(field) => self.members.fields.push(field)?,
            Form::Method(method) => self.end_method(alloc, method)?,
            Form::StackLimit(n) => self.body.stack = Some(n),
            Form::LocalsLimit(n) => self.body.locals = Some(n),
            Form::Catch(catch) => self.body.catches.push(catch)?,
            Form::Label(label) => self.body.add_label(label)?,
            Form::Code(line) => self.body.add_line(line)?,
        }
        Ok(())
    }
}

/// The classes of these lines.
#[tactic(auto, unfolding(crate::specs::Assembly::parts_of))]
pub fn classes_of(alloc: Global, forms: Vec<Form>) -> Result<Vec<ClassText>, NoMemory>
    ensures { IfOk result (λ v. v.items ≡ spec.classes_of forms.items) }
{
    let mut forms = forms;
    let mut parts = Parts::new(alloc)?;
    while let Some(form) = forms.pop() {
        parts.add(alloc, form)?;
    }
    let mut classes = parts.classes;
    classes.reverse();
    Ok(classes)
}
