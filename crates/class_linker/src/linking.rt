// From classes as text to a linked program.
ghost use Rattle.std.specs.Prelude.{◌≡◌, IfOk};
ghost use Rattle.class_linker.specs.Bodies.{texts_of};
ghost use Rattle.class_linker.specs.Linking as spec;

use crate::bodies::{Texts, judge_bodies, texts_of};
use crate::declarations::judge_classes;
use crate::fault::{LinkFault, Refusal};
use crate::program::{linked_classes, methods_of, slots_of};
use jasmin_lines::ClassText;
use name_resolver::{Counts, LinkKind, Names, names_of};
use std::alloc::Global;
use vm_model::{NoMemory, Program};

fn unless_found(found: Option<Refusal>) -> Result<(), LinkFault>
    ensures { spec.Gives result (spec.unless_found found) }
{
    match found {
        Some(refusal) => Err(LinkFault::At {
            kind: refusal.kind,
            line: refusal.line,
        }),
        None => Ok(()),
    }
}

fn main_of(main: Option<u32>) -> Result<u32, LinkFault>
    ensures { spec.Gives result (spec.main_of main) }
{
    match main {
        Some(number) => Ok(number),
        None => Err(LinkFault::At {
            kind: LinkKind::NoMain,
            line: 0,
        }),
    }
}

fn program_of(
    alloc: Global,
    names: &Names,
    thread_run: u32,
    texts: Texts,
    main: u32,
    classes: &[ClassText],
) -> Result<Program, NoMemory>
    ensures { IfOk result (λ p. p ≡ spec.program_of names.now thread_run texts main classes.now) }
{
    Ok(Program {
        classes: linked_classes(alloc, names, classes)?,
        methods: methods_of(alloc, names, thread_run, texts.rows(), classes)?,
        statics: slots_of(alloc, names, classes)?,
        texts: texts.into_names(),
        main,
    })
}

/// The first fault of declarations and of bodies.
fn judged(
    alloc: Global,
    names: &Names,
    thread_run: u32,
    texts: &Texts,
    classes: &[ClassText],
) -> Result<(), LinkFault>
    ensures { spec.Gives result (spec.judged classes.now names.now thread_run texts.now) }
{
    let declared = judge_classes(alloc, names, classes, Counts::new(), None)?;
    unless_found(declared)?;
    let coded = judge_bodies(alloc, names, thread_run, texts.rows(), classes, None)?;
    unless_found(coded)
}

#[tactic(auto, unfolding(crate::specs::Linking::linked_with))]
fn linked_with(
    alloc: Global,
    classes: &[ClassText],
    names: &Names,
    thread_run: u32,
) -> Result<Program, LinkFault>
    ensures { spec.Gives result (spec.linked_with classes.now names.now thread_run (texts_of classes.now)) }
{
    let texts = texts_of(alloc, classes)?;
    judged(alloc, names, thread_run, &texts, classes)?;
    let main = main_of(names.main)?;
    Ok(program_of(alloc, names, thread_run, texts, main, classes)?)
}

/// The linked program of classes.
///
/// Names become numbers: classes, fields, methods, text constants and labels, each in the order of the text. After the methods
/// of the text comes that of `java/lang/Thread` itself, its `run`. What each name may stand for, and the limits, are in
/// docs/TEXT.md.
///
/// Classes with a fault give no program. Faults of declarations come before those of bodies; in each the least line counts,
/// and of one line the least kind. A missing `main` comes last, at line 0.
#[tactic(auto, unfolding(crate::specs::Linking::linking))]
pub fn link(alloc: Global, classes: &[ClassText]) -> Result<Program, LinkFault>
    ensures { spec.Gives result (spec.linking classes.now) }
{
    let (counts, names) = names_of(alloc, classes)?;
    linked_with(alloc, classes, &names, counts.methods)
}
