// Which line may follow which.
ghost use Rattle.std.specs.Prelude.{◌≡◌, ◌∷◌, [], OnOk, bytes_eq, Ok, true, false};
ghost use Rattle.std.specs.List.{list_any};
ghost use Rattle.vm_model.specs.Failures.{Gives};
ghost use Rattle.jasmin_reader.specs.Grammar as spec;
ghost use Rattle.jasmin_reader.specs.Labels.{labels_in, are_new};

use crate::labels::Labels;
use jasmin_lines::{Form, Lexeme, Line, ReadKind, form_of, is_word};
use std::alloc::Global;
use std::marker::Model;
use vm_model::{Failure, Name, NoMemory};

/// What the lines so far have begun: a class, its super, a method, the limits and the labels of that method.
#[derive(Debug, Drop)]
pub struct State {
    has_class: bool,
    has_super: bool,
    is_inside: bool,
    has_stack: bool,
    has_locals: bool,
    labels: Labels,
}

impl Model for State {
    ghost use Rattle.jasmin_reader.specs.Grammar.{PlainState};

    ghost Value = { PlainState };

    ghost view = { λ s. record { has_class = s.has_class; has_super = s.has_super; is_inside = s.is_inside; has_stack = s.has_stack; has_locals = s.has_locals; labels = s.labels } };
}

fn only_if(kind: ReadKind, is_fault: bool, rest: Option<ReadKind>) -> Option<ReadKind>
    ensures { result ≡ spec.only_if kind is_fault rest }
{
    if is_fault { Some(kind) } else { rest }
}

fn may_stand_first(words: &[Lexeme]) -> bool
    ensures { result ≡ spec.may_stand_first words.now }
{
    match words {
        [] => false,
        [first, ..] => {
            is_word(b".source", first)
                || is_word(b".bytecode", first)
                || is_word(b".interface", first)
                || is_word(b".class", first)
        }
    }
}

fn is_end_of(words: &[Lexeme]) -> bool
    ensures { result ≡ spec.is_end_of words.now }
{
    match words {
        [a, b] => is_word(b".end", a) && is_word(b"method", b),
        _ => false,
    }
}

fn has_end(lines: &[Line]) -> bool
    ensures { result ≡ list_any spec.is_end lines.now }
{
    lines.iter().any(|line| is_end_of(&line.words))
}

impl State {
    pub fn new(alloc: Global) -> State
        ensures { result ≡ spec.nothing_begun }
    {
        State {
            has_class: false,
            has_super: false,
            is_inside: false,
            has_stack: false,
            has_locals: false,
            labels: Labels::new(alloc),
        }
    }

    /// Whether a class has begun whose super is still to come.
    pub fn lacks_super(&self) -> bool
        ensures { result ≡ spec.lacks_super self.now }
    {
        self.has_class && !self.has_super
    }

    fn has_label(&self, labels: &[Name]) -> bool
        ensures { result ≡ spec.has_label self.now labels.now }
    {
        labels.iter().any(|label| self.labels.has(label.bytes()))
    }

    fn has_this_label(&self, label: &Name) -> bool
        ensures { result ≡ spec.has_label self.now (label.now ∷ []) }
    {
        self.labels.has(label.bytes())
    }

    fn outside_methods(&self, rest: Option<ReadKind>) -> Option<ReadKind>
        ensures { result ≡ spec.outside_methods self.now rest }
    {
        only_if(ReadKind::InMethod, self.is_inside, rest)
    }

    fn inside_method(&self, rest: Option<ReadKind>) -> Option<ReadKind>
        ensures { result ≡ spec.inside_method self.now rest }
    {
        only_if(ReadKind::OutsideMethod, !self.is_inside, rest)
    }

    /// The least fault of a line that has its form, where these lines follow.
    fn misplaced(&self, lines: &[Line], form: &Form) -> Option<ReadKind>
        ensures { result ≡ spec.misplaced (list_any spec.is_end lines.now) self.now form.now }
    {
        match form {
            Form::Skipped => None,
            Form::Interface(_) => self.outside_methods(None),
            Form::Class(_) => {
                self.outside_methods(only_if(ReadKind::NoSuper, self.lacks_super(), None))
            }
            Form::Super(_) => {
                self.outside_methods(only_if(ReadKind::Repeat, self.has_super, None))
            }
            Form::Implements(_) => self.outside_methods(None),
            Form::Field(_) => {
                self.outside_methods(only_if(ReadKind::NoSuper, self.lacks_super(), None))
            }
            Form::Method(_) => {
                let unended = only_if(ReadKind::EndMissing, !has_end(lines), None);
                self.outside_methods(only_if(ReadKind::NoSuper, self.lacks_super(), unended))
            }
            Form::StackLimit(_) => {
                self.inside_method(only_if(ReadKind::Repeat, self.has_stack, None))
            }
            Form::LocalsLimit(_) => {
                self.inside_method(only_if(ReadKind::Repeat, self.has_locals, None))
            }
            Form::Ignored => self.inside_method(None),
            Form::Catch(_) => self.inside_method(None),
            Form::End => self.inside_method(None),
            Form::Label(label) => {
                let is_twice = self.has_this_label(label);
                self.inside_method(only_if(ReadKind::LabelTwice, is_twice, None))
            }
            Form::Code(line) => {
                let is_twice = self.has_label(&line.labels);
                self.inside_method(only_if(ReadKind::LabelTwice, is_twice, None))
            }
        }
    }

    /// A line's form, where these lines follow, or the least of its faults.
    #[tactic(auto, unfolding(crate::specs::Grammar::form_among))]
    pub fn form_among(
        &self,
        alloc: Global,
        line: &Line,
        lines: &[Line],
    ) -> Result<Form, Failure<ReadKind>>
        ensures { Gives (λ x. x) result (spec.form_among self.now line.now lines.now) }
    {
        if !self.has_class && !may_stand_first(&line.words) {
            return Err(Failure::Fault(ReadKind::NoClass));
        }
        let form = form_of(alloc, line.number, &line.words)?;
        match self.misplaced(lines, &form) {
            Some(kind) => Err(Failure::Fault(kind)),
            None => Ok(form),
        }
    }

    fn add_label(&mut self, alloc: Global, label: &Name) -> Result<(), NoMemory>
        requires { list_any (bytes_eq label.now) self.old.labels ≡ false }
        ensures { OnOk result (self.new ≡ spec.labelled (label.now ∷ []) self.old) }
    {
        self.labels.add(alloc, label.bytes())
    }

    fn add_labels(&mut self, alloc: Global, labels: &[Name]) -> Result<(), NoMemory>
        requires { are_new self.old.labels labels.now ≡ true }
        ensures { OnOk result (self.new ≡ spec.labelled labels.now self.old) }
    {
        let mut rest = labels;
        while let [label, after @ ..] = rest {
            self.add_label(alloc, label)?;
            rest = after;
        }
        Ok(())
    }

    /// What has begun after a line whose labels are new.
    pub fn go_on(&mut self, alloc: Global, form: &Form) -> Result<(), NoMemory>
        requires { are_new self.old.labels (labels_in form.now) ≡ true }
        ensures { OnOk result (self.new ≡ spec.next_state form.now self.old) }
    {
        match form {
            Form::Class(_) => {
                *self = State::new(alloc);
                self.has_class = true;
            }
            Form::Super(_) => self.has_super = true,
            Form::Method(_) => {
                self.is_inside = true;
                self.has_stack = false;
                self.has_locals = false;
                self.labels = Labels::new(alloc);
            }
            Form::End => self.is_inside = false,
            Form::StackLimit(_) => self.has_stack = true,
            Form::LocalsLimit(_) => self.has_locals = true,
            Form::Label(label) => self.add_label(alloc, label)?,
            Form::Code(line) => self.add_labels(alloc, &line.labels)?,
            _ => {}
        }
        Ok(())
    }
}
