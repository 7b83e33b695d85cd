// Classes that are linked to a program, and classes that are not, with the number of the fault and its line.
use crate::texts::{classes_of, joined};
use class_linker::{LinkFault, link};
use std::alloc::Global;
use std::test::Fail;
use vm_model::{Instr, NoMemory, Program};

/// The number of a text's fault and its line; nothing where it is linked.
fn fault_of(alloc: Global, text: &str) -> Result<Option<(u8, u32)>, NoMemory> {
    let classes = classes_of(alloc, text)?;
    match link(alloc, &classes) {
        Ok(_) => Ok(None),
        Err(LinkFault::At { kind, line }) => Ok(Some((kind.number(), line))),
        Err(LinkFault::NoMemory) => Err(NoMemory),
    }
}

/// The program of a text that is linked.
fn program_of(alloc: Global, text: &str) -> Result<Program, NoMemory> {
    let classes = classes_of(alloc, text)?;
    match link(alloc, &classes) {
        Ok(program) => Ok(program),
        Err(_) => Err(NoMemory),
    }
}

// What stands before the members of a class, which begin at line 3, and a main after them.
const BEFORE_MEMBERS: &str = ".class A\n.super java/lang/Object\n";

const AFTER_MEMBERS: &str =
    ".method public static main([Ljava/lang/String;)V\nreturn\n.end method\n";

// A class of threads with fields and methods, and a main, whose body begins at line 10.
const BEFORE_BODY: &str =
    ".class A\n.super java/lang/Thread\n.field static s I\n.field x I\n.method f(I[I)LA;\n.end method\n.method static g()V\n.end method\n.method public static main([Ljava/lang/String;)V\n";

const AFTER_BODY: &str = "return\n.end method\n";

/// Whether a class with these members has this fault.
fn is_of_members(
    alloc: Global,
    members: &str,
    wanted: Option<(u8, u32)>,
) -> Result<bool, NoMemory> {
    let text = joined(alloc, BEFORE_MEMBERS, members, AFTER_MEMBERS)?;
    Ok(fault_of(alloc, &text)? == wanted)
}

/// Whether a main with this body has this fault.
fn is_of_body(alloc: Global, body: &str, wanted: Option<(u8, u32)>) -> Result<bool, NoMemory> {
    let text = joined(alloc, BEFORE_BODY, body, AFTER_BODY)?;
    Ok(fault_of(alloc, &text)? == wanted)
}

/// Whether the first instruction of a main with this body is this one.
fn begins_with(alloc: Global, body: &str, wanted: Instr) -> Result<bool, NoMemory> {
    let text = joined(alloc, BEFORE_BODY, body, AFTER_BODY)?;
    let program = program_of(alloc, &text)?;
    Ok(program.instr_at(program.main_method(), 0) == Some(wanted))
}

// Members, and the number of their fault and its line.
const MEMBERS_REFUSED: [(&str, (u8, u32)); 53] = [
    (".field x Z\n", (9, 3)),
    (".field x D\n", (9, 3)),
    (".field x [Z\n", (9, 3)),
    (".field x [[I\n", (9, 3)),
    (".field x [[[I\n", (9, 3)),
    (".field x [LA;\n", (9, 3)),
    (".field x [LB;\n", (9, 3)),
    (".field x [Ljava/lang/String;\n", (9, 3)),
    (".field x LB;\n", (2, 3)),
    (".field x Ljava/lang/System;\n", (2, 3)),
    (".field x V\n", (7, 3)),
    (".field x II\n", (7, 3)),
    (".field x [\n", (7, 3)),
    (".field x [V\n", (7, 3)),
    (".field x [[\n", (7, 3)),
    (".field x L;\n", (7, 3)),
    (".field x LA\n", (7, 3)),
    (".field x La.b;\n", (7, 3)),
    (".field x LB;I\n", (7, 3)),
    (".field x I = 3\n", (9, 3)),
    (".field static x [I = 3\n", (9, 3)),
    (".field native x I\n", (9, 3)),
    (".field x I\n.field x I\n", (6, 4)),
    (".field x I\n.field static x LB;\n", (2, 4)),
    (".field x I\n.field static x Z\n", (6, 4)),
    (".implements java/lang/Runnable\n", (4, 3)),
    (".implements B\n", (4, 3)),
    (
        ".implements java/lang/Runnable\n.class A\n.super java/lang/Object\n.method run()V\n.end method\n",
        (4, 3),
    ),
    (".implements B\n.method run()V\n.end method\n", (9, 3)),
    (
        ".method static run()V\n.end method\n.implements java/lang/Runnable\n",
        (4, 5),
    ),
    (".method f(Z)V\n.end method\n", (9, 3)),
    (".method f()[Z\n.end method\n", (9, 3)),
    (".method f([Ljava/lang/String;)V\n.end method\n", (9, 3)),
    (".method f(LB;)V\n.end method\n", (2, 3)),
    (".method f()LB;\n.end method\n", (2, 3)),
    (".method f(Q)LB;\n.end method\n", (2, 3)),
    (".method f(QLB;)V\n.end method\n", (7, 3)),
    (".method f(V)V\n.end method\n", (7, 3)),
    (".method f()\n.end method\n", (7, 3)),
    (".method f()II\n.end method\n", (7, 3)),
    (".method <init>()I\n.end method\n", (7, 3)),
    (".method <init>()Z\n.end method\n", (7, 3)),
    (".method static <init>()V\n.end method\n", (9, 3)),
    (".method <clinit>()V\n.end method\n", (9, 3)),
    (".method static wait()V\n.end method\n", (9, 3)),
    (".method abstract f()V\n.end method\n", (9, 3)),
    (
        ".method f()V\n.end method\n.method static f()V\n.end method\n",
        (6, 5),
    ),
    (".method f()V\n.limit stack 1025\n.end method\n", (8, 3)),
    (".method f()V\n.limit locals 257\n.end method\n", (8, 3)),
    (".method f(IIIIIIIIIIIIIIIII)V\n.end method\n", (8, 3)),
    (".method f(ZZZZZZZZZZZZZZZZZ)V\n.end method\n", (8, 3)),
    (".method main([Ljava/lang/String;)I\n.end method\n", (9, 3)),
    // faults of declarations before those of bodies
    (".method f()V\ngoto L\n.end method\n.field x Z\n", (9, 6)),
];

const MEMBERS_TAKEN: [&str; 11] = [
    "",
    ".field static s I = -3\n.field static t I\n.field x [I\n.field y LA;\n",
    ".field x Ljava/lang/Object;\n.field y Ljava/lang/AssertionError;\n",
    ".method f()V\n.end method\n.method f(I)V\n.end method\n.method f()I\n.end method\n",
    ".method run()V\n.end method\n.implements java/lang/Runnable\n.implements java/lang/Runnable\n",
    ".method <init>(Ljava/lang/String;)V\n.end method\n",
    ".method f()V\n.limit stack 1024\n.limit locals 256\n.end method\n",
    ".method f(IIIIIIIIIIIIIIII)V\n.end method\n",
    ".method main(I)V\n.end method\n",
    ".method start(I)V\n.end method\n.method wait()I\n.end method\n",
    ".method f()V\ngoto L\nL:\n.end method\n",
];

/// The first row that is judged otherwise.
fn wrong_in_members_refused(alloc: Global) -> Result<Option<usize>, NoMemory> {
    for (at, (members, wanted)) in MEMBERS_REFUSED.iter().enumerate() {
        if !is_of_members(alloc, members, Some(*wanted))? {
            return Ok(Some(at));
        }
    }
    Ok(None)
}

#[test]
fn members_refused(rt: HostRuntime) -> Result<(), Fail> {
    assert_eq!(rt; wrong_in_members_refused(rt.alloc())?, None);
    Ok(())
}

/// The first row that is judged otherwise.
fn wrong_in_members_taken(alloc: Global) -> Result<Option<usize>, NoMemory> {
    for (at, members) in MEMBERS_TAKEN.iter().enumerate() {
        if !is_of_members(alloc, members, None)? {
            return Ok(Some(at));
        }
    }
    Ok(None)
}

#[test]
fn members_taken(rt: HostRuntime) -> Result<(), Fail> {
    assert_eq!(rt; wrong_in_members_taken(rt.alloc())?, None);
    Ok(())
}

// Bodies, and the number of the fault of their first line.
const BODIES_REFUSED: [(&str, u8); 52] = [
    ("new B\n", 2),
    ("new java/lang/System\n", 2),
    ("new java/lang/Runnable\n", 9),
    ("new java/lang/String\n", 9),
    ("new java/io/PrintStream\n", 9),
    ("new java/lang/VirtualMachineError\n", 9),
    ("getstatic A/y I\n", 3),
    ("getstatic A/x I\n", 3),
    ("putstatic A/x I\n", 3),
    ("getfield A/s I\n", 3),
    ("putfield A/s I\n", 3),
    ("getstatic A/s Z\n", 3),
    ("getstatic A/s [I\n", 3),
    ("getstatic A/s Q\n", 3),
    ("getstatic A/s LB;\n", 2),
    ("getstatic B/s I\n", 2),
    ("getstatic java/lang/Object/s I\n", 3),
    ("getstatic java/lang/System/out I\n", 2),
    ("getstatic java/lang/System/err Ljava/io/PrintStream;\n", 2),
    ("putstatic java/lang/System/out Ljava/io/PrintStream;\n", 3),
    ("getfield java/lang/System/out Ljava/io/PrintStream;\n", 3),
    ("goto L\n", 5),
    ("ifeq l\nL: nop\n", 5),
    ("invokestatic A/h()V\n", 4),
    ("invokestatic A/g(I)V\n", 4),
    ("invokestatic A/f(I[I)LA;\n", 4),
    ("invokevirtual A/g()V\n", 4),
    ("invokespecial A/g()V\n", 4),
    ("invokestatic B/g()V\n", 2),
    ("invokestatic A/g(LB;)V\n", 2),
    ("invokestatic A/g()LB;\n", 2),
    ("invokevirtual A/main([Ljava/lang/String;)V\n", 4),
    ("invokespecial A/<init>()V\n", 4),
    ("invokestatic A/<clinit>()V\n", 4),
    ("invokevirtual java/lang/Object/<init>()V\n", 4),
    ("invokespecial java/lang/String/<init>()V\n", 4),
    ("invokespecial java/lang/VirtualMachineError/<init>()V\n", 4),
    (
        "invokespecial java/lang/AssertionError/<init>(Ljava/lang/String;)V\n",
        4,
    ),
    (
        "invokespecial java/lang/Object/<init>(Ljava/lang/Runnable;)V\n",
        4,
    ),
    ("invokestatic java/lang/Object/notify()V\n", 4),
    ("invokevirtual java/lang/String/notify()V\n", 4),
    ("invokevirtual java/lang/Object/wait(J)V\n", 4),
    ("invokevirtual java/lang/Object/start()V\n", 4),
    ("invokevirtual java/lang/Thread/yield()V\n", 4),
    ("invokestatic java/lang/Object/yield()V\n", 4),
    ("invokevirtual java/lang/Runnable/run()V\n", 4),
    ("invokevirtual java/io/PrintStream/println(Z)V\n", 4),
    ("newarray byte\n", 9),
    ("newarray\n", 9),
    ("tableswitch 1\n", 9),
    ("checkcast A\n", 9),
    (".catch all from L to L using L\n", 9),
];

/// The first row that is judged otherwise.
fn wrong_in_bodies_refused(alloc: Global) -> Result<Option<usize>, NoMemory> {
    for (at, (body, wanted)) in BODIES_REFUSED.iter().enumerate() {
        if !is_of_body(alloc, body, Some((*wanted, 10)))? {
            return Ok(Some(at));
        }
    }
    Ok(None)
}

#[test]
fn bodies_refused(rt: HostRuntime) -> Result<(), Fail> {
    assert_eq!(rt; wrong_in_bodies_refused(rt.alloc())?, None);
    Ok(())
}

// Bodies, and their first instruction. Methods have the numbers 0 to 2, and Thread's own run has 3.
const BODIES_TAKEN: [(&str, Instr); 52] = [
    ("iadd\n", Instr::Iadd),
    ("dup_x2\n", Instr::DupX2),
    ("areturn\n", Instr::Areturn),
    ("iconst_m1\n", Instr::Push(-1)),
    ("ldc \"a\"\n", Instr::PushText(0)),
    ("iload 255\n", Instr::Iload(255)),
    ("istore_0\n", Instr::Istore(0)),
    ("aload_2\n", Instr::Aload(2)),
    ("astore 3\n", Instr::Astore(3)),
    ("iinc 4 -5\n", Instr::Iinc { local: 4, by: -5 }),
    ("ifeq L\nnop\nL:\n", Instr::Ifeq(2)),
    ("ifle L\nL:\n", Instr::Ifle(1)),
    ("if_icmpge L\nL:\n", Instr::IfIcmpge(1)),
    ("if_acmpne L\nL:\n", Instr::IfAcmpne(1)),
    ("ifnull L\nL:\n", Instr::Ifnull(1)),
    ("L: goto L\n", Instr::Goto(0)),
    ("new A\n", Instr::New(32)),
    ("new java/lang/Object\n", Instr::New(0)),
    ("new java/lang/AssertionError\n", Instr::New(22)),
    ("newarray int\n", Instr::NewArray),
    ("getstatic A/s I\n", Instr::GetStatic(0)),
    ("putstatic A/s I\n", Instr::PutStatic(0)),
    (
        "getfield A/x I\n",
        Instr::GetField {
            class: 32,
            place: 1,
        },
    ),
    (
        "putfield A/x I\n",
        Instr::PutField {
            class: 32,
            place: 1,
        },
    ),
    (
        "getstatic java/lang/System/out Ljava/io/PrintStream;\n",
        Instr::Out,
    ),
    ("invokestatic A/g()V\n", Instr::InvokeStatic(1)),
    (
        "invokestatic A/main([Ljava/lang/String;)V\n",
        Instr::InvokeStatic(2),
    ),
    ("invokevirtual A/f(I[I)LA;\n", Instr::InvokeVirtual(0)),
    ("invokespecial A/f(I[I)LA;\n", Instr::InvokeSpecial(0)),
    ("invokevirtual A/run()V\n", Instr::InvokeVirtual(3)),
    ("invokespecial A/run()V\n", Instr::InvokeSpecial(3)),
    ("invokevirtual java/lang/Thread/run()V\n", Instr::RunOf(1)),
    (
        "invokespecial java/lang/Thread/run()V\n",
        Instr::InvokeSpecial(3),
    ),
    ("invokevirtual A/start()V\n", Instr::Start),
    ("invokevirtual java/lang/Thread/join()V\n", Instr::Join),
    ("invokestatic A/yield()V\n", Instr::Yield),
    ("invokestatic java/lang/Thread/yield()V\n", Instr::Yield),
    ("invokevirtual A/wait()V\n", Instr::Wait),
    (
        "invokevirtual java/lang/Runnable/notify()V\n",
        Instr::Notify,
    ),
    (
        "invokespecial java/lang/Error/notifyAll()V\n",
        Instr::NotifyAll,
    ),
    (
        "invokevirtual java/io/PrintStream/println()V\n",
        Instr::Println,
    ),
    (
        "invokevirtual java/io/PrintStream/println(I)V\n",
        Instr::PrintInt { newline: true },
    ),
    (
        "invokevirtual java/io/PrintStream/print(I)V\n",
        Instr::PrintInt { newline: false },
    ),
    (
        "invokevirtual java/io/PrintStream/println(Ljava/lang/String;)V\n",
        Instr::PrintText { newline: true },
    ),
    (
        "invokevirtual java/io/PrintStream/print(Ljava/lang/String;)V\n",
        Instr::PrintText { newline: false },
    ),
    (
        "invokespecial java/lang/Object/<init>()V\n",
        Instr::Init {
            class: 0,
            text: false,
        },
    ),
    (
        "invokespecial java/lang/Thread/<init>()V\n",
        Instr::Init {
            class: 1,
            text: false,
        },
    ),
    (
        "invokespecial java/lang/Thread/<init>(Ljava/lang/Runnable;)V\n",
        Instr::InitRunnable,
    ),
    (
        "invokespecial java/lang/AssertionError/<init>()V\n",
        Instr::Init {
            class: 22,
            text: false,
        },
    ),
    (
        "invokespecial java/lang/OutOfMemoryError/<init>(Ljava/lang/String;)V\n",
        Instr::Init {
            class: 21,
            text: true,
        },
    ),
    ("monitorenter\n", Instr::MonitorEnter),
    ("athrow\n", Instr::Athrow),
];

/// The first row that is judged otherwise.
fn wrong_in_bodies_taken(alloc: Global) -> Result<Option<usize>, NoMemory> {
    for (at, (body, wanted)) in BODIES_TAKEN.iter().enumerate() {
        if !begins_with(alloc, body, *wanted)? {
            return Ok(Some(at));
        }
    }
    Ok(None)
}

#[test]
fn bodies_taken(rt: HostRuntime) -> Result<(), Fail> {
    assert_eq!(rt; wrong_in_bodies_taken(rt.alloc())?, None);
    Ok(())
}

/// Whether a text has this fault.
fn is_of_text(alloc: Global, text: &str, wanted: Option<(u8, u32)>) -> Result<bool, NoMemory> {
    Ok(fault_of(alloc, text)? == wanted)
}

const TEXTS_REFUSED: [(&str, (u8, u32)); 11] = [
    (
        ".class java/lang/System\n.super java/lang/Object\n.field out Ljava/io/PrintStream;\n.method public static main([Ljava/lang/String;)V\ngetstatic java/lang/System/out Ljava/io/PrintStream;\n.end method\n",
        (3, 5),
    ),
    ("", (1, 0)),
    (".class A\n.super java/lang/Object\n", (1, 0)),
    (
        ".class A\n.super java/lang/Object\n.method static main([Ljava/lang/String;)V\n.end method\n",
        (1, 0),
    ),
    (
        ".class A\n.super java/lang/Object\n.class A\n.super java/lang/Object\n",
        (6, 3),
    ),
    (".class java/lang/Thread\n.super java/lang/Object\n", (6, 1)),
    (".class abstract A\n.super java/lang/Object\n", (9, 1)),
    (".class A\n.super java/lang/Integer\n", (9, 2)),
    (".class A\n.super A\n", (9, 2)),
    (".interface A\n.class A\n.super java/lang/Object\n", (9, 1)),
    (
        ".class A\n.super java/lang/Object\n.method f()V\ngoto X\n.end method\n",
        (5, 4),
    ),
];

/// The first row that is judged otherwise.
fn wrong_in_texts_refused(alloc: Global) -> Result<Option<usize>, NoMemory> {
    for (at, (text, wanted)) in TEXTS_REFUSED.iter().enumerate() {
        if !is_of_text(alloc, text, Some(*wanted))? {
            return Ok(Some(at));
        }
    }
    Ok(None)
}

#[test]
fn texts_refused(rt: HostRuntime) -> Result<(), Fail> {
    assert_eq!(rt; wrong_in_texts_refused(rt.alloc())?, None);
    Ok(())
}

const WHOLE: &str =
    ".class A\n.super java/lang/Object\n.field static s I = 7\n.field static o LB;\n.field x [I\n.method public static synchronized main([Ljava/lang/String;)V\n.limit stack 3\nldc \"b\"\nldc \"a\"\nldc \"b\"\n.end method\n.class B\n.super java/lang/Thread\n.implements java/lang/Runnable\n.method run()V\n.end method\n";

/// Whether the program is that of the text above.
fn is_whole(program: &Program) -> bool {
    let has_all = program.main == 0 && program.classes.len() == 2 && program.methods.len() == 3;
    let has_texts = program.texts.len() == 2 && program.statics.len() == 2;
    let are_numbered = program.text(0) == b"b".as_slice() && program.text(1) == b"a".as_slice();
    let pushes_first = program.instr_at(0, 2) == Some(Instr::PushText(0));
    let runs_target = program.instr_at(2, 6) == Some(Instr::RunOf(2));
    has_all && has_texts && are_numbered && pushes_first && runs_target
}

fn whole_is_linked(alloc: Global) -> Result<bool, NoMemory> {
    let program = program_of(alloc, WHOLE)?;
    Ok(is_whole(&program))
}

#[test]
fn whole_program(rt: HostRuntime) -> Result<(), Fail> {
    assert!(rt; whole_is_linked(rt.alloc())?);
    Ok(())
}

const OWN_SYSTEM: &str =
    ".class java/lang/System\n.super java/lang/Object\n.field out Ljava/io/PrintStream;\n.method public static main([Ljava/lang/String;)V\ngetfield java/lang/System/out Ljava/io/PrintStream;\nputfield java/lang/System/out Ljava/io/PrintStream;\n.end method\n";

const READ_OUT: Instr = Instr::GetField {
    class: 32,
    place: 0,
};

const WRITE_OUT: Instr = Instr::PutField {
    class: 32,
    place: 0,
};

/// Whether the first two instructions of its main are the field's read and write.
fn own_system_is_linked(alloc: Global) -> Result<bool, NoMemory> {
    let program = program_of(alloc, OWN_SYSTEM)?;
    let is_read = program.instr_at(0, 0) == Some(READ_OUT);
    let is_written = program.instr_at(0, 1) == Some(WRITE_OUT);
    Ok(is_read && is_written)
}

#[test]
fn class_named_system(rt: HostRuntime) -> Result<(), Fail> {
    assert!(rt; own_system_is_linked(rt.alloc())?);
    Ok(())
}

/// A text of so many pieces, each with its number between two texts if it has one, and how it is judged.
struct Pieces {
    before: &'static str,
    first: &'static str,
    is_numbered: bool,
    last: &'static str,
    count: u32,
    after: &'static str,
    wanted: Option<(u8, u32)>,
}

/// The pieces from number 0 on.
fn repeated(alloc: Global, row: &Pieces) -> Result<String, NoMemory> {
    let mut text = String::new(alloc);
    for number in 0..row.count {
        text.push_str(row.first)?;
        if row.is_numbered {
            text.push_str(&format!(in alloc; "{number}")?)?;
        }
        text.push_str(row.last)?;
    }
    Ok(text)
}

fn is_judged(alloc: Global, row: &Pieces) -> Result<bool, NoMemory> {
    let middle = repeated(alloc, row)?;
    let text = joined(alloc, row.before, &middle, row.after)?;
    Ok(fault_of(alloc, &text)? == row.wanted)
}

const BEFORE_METHOD: &str = ".class A\n.super java/lang/Object\n.method f()V\n";

const AFTER_METHOD: &str =
    ".end method\n.method public static main([Ljava/lang/String;)V\nreturn\n.end method\n";

const BEFORE_TEXT: &str =
    ".class A\n.super java/lang/Thread\n.field static s I\n.field x I\n.method f(I[I)LA;\n.end method\n.method static g()V\n.end method\n.method public static main([Ljava/lang/String;)V\nldc \"";

const AFTER_TEXT: &str = "\"\nreturn\n.end method\n";

const CLASS_WITH_MAIN: &str =
    ".class A\n.super java/lang/Object\n.method public static main([Ljava/lang/String;)V\nreturn\n.end method\n";

/// The first row that is judged otherwise.
fn first_wrong(alloc: Global, rows: &[Pieces]) -> Result<Option<usize>, NoMemory> {
    for (at, row) in rows.iter().enumerate() {
        if !is_judged(alloc, row)? {
            return Ok(Some(at));
        }
    }
    Ok(None)
}

// Instructions of a body, and bytes of a text: as many as there may be, and one more.
const BODIES_AT_LIMIT: [Pieces; 4] = [
    Pieces {
        before: BEFORE_METHOD,
        first: "nop\n",
        is_numbered: false,
        last: "",
        count: 16384,
        after: AFTER_METHOD,
        wanted: None,
    },
    Pieces {
        before: BEFORE_METHOD,
        first: "nop\n",
        is_numbered: false,
        last: "",
        count: 16385,
        after: AFTER_METHOD,
        wanted: Some((8, 16388)),
    },
    Pieces {
        before: BEFORE_TEXT,
        first: "a",
        is_numbered: false,
        last: "",
        count: 200,
        after: AFTER_TEXT,
        wanted: None,
    },
    Pieces {
        before: BEFORE_TEXT,
        first: "a",
        is_numbered: false,
        last: "",
        count: 201,
        after: AFTER_TEXT,
        wanted: Some((8, 10)),
    },
];

#[test]
fn bodies_at_their_limit(rt: HostRuntime) -> Result<(), Fail> {
    assert_eq!(rt; first_wrong(rt.alloc(), &BODIES_AT_LIMIT)?, None);
    Ok(())
}

// Fields of a class, and statics of a program: as many as there may be, and one more.
const FIELDS_AT_LIMIT: [Pieces; 4] = [
    Pieces {
        before: BEFORE_MEMBERS,
        first: ".field public x",
        is_numbered: true,
        last: " I\n",
        count: 64,
        after: AFTER_MEMBERS,
        wanted: None,
    },
    Pieces {
        before: BEFORE_MEMBERS,
        first: ".field public x",
        is_numbered: true,
        last: " I\n",
        count: 65,
        after: AFTER_MEMBERS,
        wanted: Some((8, 67)),
    },
    Pieces {
        before: BEFORE_MEMBERS,
        first: ".field static x",
        is_numbered: true,
        last: " I\n",
        count: 1024,
        after: AFTER_MEMBERS,
        wanted: None,
    },
    Pieces {
        before: BEFORE_MEMBERS,
        first: ".field static x",
        is_numbered: true,
        last: " I\n",
        count: 1025,
        after: AFTER_MEMBERS,
        wanted: Some((8, 1027)),
    },
];

#[test]
fn fields_at_their_limit(rt: HostRuntime) -> Result<(), Fail> {
    assert_eq!(rt; first_wrong(rt.alloc(), &FIELDS_AT_LIMIT)?, None);
    Ok(())
}

// Methods: as many as there may be, and one more.
const METHODS_AT_LIMIT: [Pieces; 2] = [
    Pieces {
        before: BEFORE_MEMBERS,
        first: ".method m",
        is_numbered: true,
        last: "()V\n.end method\n",
        count: 1023,
        after: AFTER_MEMBERS,
        wanted: None,
    },
    Pieces {
        before: BEFORE_MEMBERS,
        first: ".method m",
        is_numbered: true,
        last: "()V\n.end method\n",
        count: 1024,
        after: AFTER_MEMBERS,
        wanted: Some((8, 2051)),
    },
];

#[test]
fn methods_at_their_limit(rt: HostRuntime) -> Result<(), Fail> {
    assert_eq!(rt; first_wrong(rt.alloc(), &METHODS_AT_LIMIT)?, None);
    Ok(())
}

// Classes: as many as there may be, and one more.
const CLASSES_AT_LIMIT: [Pieces; 2] = [
    Pieces {
        before: CLASS_WITH_MAIN,
        first: ".class B",
        is_numbered: true,
        last: "\n.super java/lang/Thread\n",
        count: 255,
        after: "",
        wanted: None,
    },
    Pieces {
        before: CLASS_WITH_MAIN,
        first: ".class B",
        is_numbered: true,
        last: "\n.super java/lang/Thread\n",
        count: 256,
        after: "",
        wanted: Some((8, 516)),
    },
];

#[test]
fn classes_at_their_limit(rt: HostRuntime) -> Result<(), Fail> {
    assert_eq!(rt; first_wrong(rt.alloc(), &CLASSES_AT_LIMIT)?, None);
    Ok(())
}
