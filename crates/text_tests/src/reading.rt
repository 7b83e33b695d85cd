// Texts that are read and written again, and texts that break the grammar, with the line that breaks it.
use crate::texts::{classes_in, classes_of, joined};
use jasmin_lines::{ClassText, MethodText, ReadKind};
use jasmin_reader::ReadFault;
use jasmin_writer::write_classes;
use std::alloc::Global;
use std::test::Fail;
use vm_model::NoMemory;

/// Whether a text reads well and is then written as this one.
fn is_written(alloc: Global, text: &str, wanted: &str) -> Result<bool, NoMemory> {
    let classes = classes_of(alloc, text)?;
    let written = write_classes(alloc, &classes)?;
    Ok(written.as_slice() == wanted.as_bytes())
}

/// Whether a text has a fault of this number at this line.
fn is_refused(alloc: Global, text: &str, number: u8, at: u32) -> Result<bool, NoMemory> {
    match classes_in(alloc, text) {
        Ok(_) => Ok(false),
        Err(ReadFault::At { kind, line }) => Ok(kind.number() == number && line == at),
        Err(ReadFault::NoMemory) => Err(NoMemory),
    }
}

// What stands before the members of a class, which begin at line 3.
const BEFORE_MEMBERS: &str = ".class A\n.super B\n";

// What stands before the body of a class's method, which begins at line 4, and after it.
const BEFORE_BODY: &str = ".class A\n.super B\n.method m()V\n";

const AFTER_BODY: &str = ".end method\n";

/// Whether a text between two others is written as this one between them, and this one as it stands.
fn are_canonical(
    alloc: Global,
    before: &str,
    middle: &str,
    wanted: &str,
    after: &str,
) -> Result<bool, NoMemory> {
    let text = joined(alloc, before, middle, after)?;
    let best = joined(alloc, before, wanted, after)?;
    Ok(is_written(alloc, &text, &best)? && is_written(alloc, &best, &best)?)
}

/// Whether a text between two others has a fault of this number at this line.
fn is_refused_between(
    alloc: Global,
    before: &str,
    middle: &str,
    after: &str,
    number: u8,
    at: u32,
) -> Result<bool, NoMemory> {
    let text = joined(alloc, before, middle, after)?;
    is_refused(alloc, &text, number, at)
}

// Each text, and its canonical text, which is read and written as it stands.
const TEXTS: [(&str, &str); 14] = [
    ("", ""),
    ("\n ; nothing\n\t\r\n", ""),
    (".source A.j\n.bytecode 50.0\n", ""),
    (".class A\n.super B", ".class A\n.super B\n"),
    (
        "; a class\n\n.source A.j\n\t.class A ; named A\n.bytecode 50.0\n .super\tB ;\n;\n.source 5\n.source \"A\"\n",
        ".class A\n.super B\n",
    ),
    (
        ".class A\r\n.super B\r\n.field x I\r\n.method m()V\r\nL: nop\r\n.end method\r\n",
        ".class A\n.super B\n.field x I\n.method m()V\nL:\nnop\n.end method\n",
    ),
    // flags and names of classes
    (
        ".class native interface abstract public super final public abstract A\n.super B\n",
        ".class public final super abstract interface native A\n.super B\n",
    ),
    (
        ".class public\n.super super\n",
        ".class public\n.super super\n",
    ),
    (
        ".class public public\n.super final\n",
        ".class public public\n.super final\n",
    ),
    (
        ".class a//b\n.super /a\n.implements a/\n.implements /\n",
        ".class a//b\n.super /a\n.implements a/\n.implements /\n",
    ),
    (
        ".class a-$_1\n.implements D\n.implements C\n.super B\n.implements D\n",
        ".class a-$_1\n.super B\n.implements D\n.implements C\n.implements D\n",
    ),
    // several classes
    (
        ".class A\n.super B\n.method m()V\n.limit stack 1\nL: nop\n.end method\n.class C\n.super B\n.method m()V\n.limit stack 2\nL: nop\n.end method\n",
        ".class A\n.super B\n.method m()V\n.limit stack 1\nL:\nnop\n.end method\n.class C\n.super B\n.method m()V\n.limit stack 2\nL:\nnop\n.end method\n",
    ),
    (".interface\n", ".interface\n"),
    (
        ".interface public a.b 5 \"c\"\n.class A\n.interface\n.super B\n.field x I\n.interface .class\n.class C\n.super D\n",
        ".interface\n.class A\n.super B\n.field x I\n.interface\n.interface\n.class C\n.super D\n",
    ),
];

/// The first row that is judged otherwise.
fn wrong_in_texts_read(alloc: Global) -> Result<Option<usize>, NoMemory> {
    for (at, (text, wanted)) in TEXTS.iter().enumerate() {
        if !are_canonical(alloc, "", text, wanted, "")? {
            return Ok(Some(at));
        }
    }
    Ok(None)
}

#[test]
fn texts_read(rt: HostRuntime) -> Result<(), Fail> {
    assert_eq!(rt; wrong_in_texts_read(rt.alloc())?, None);
    Ok(())
}

const MEMBERS: [(&str, &str); 11] = [
    // fields
    (
        ".field native interface abstract transient volatile final static protected private public x I\n",
        ".field public private protected static final volatile transient abstract interface native x I\n",
    ),
    (
        ".field static public static s I = -5\n.field x [I\n.field a a.b(\n",
        ".field public static s I = -5\n.field x [I\n.field a a.b(\n",
    ),
    (
        ".field s I = 2147483647\n.field t I = -2147483648\n.field u I = -0\n",
        ".field s I = 2147483647\n.field t I = -2147483648\n.field u I = 0\n",
    ),
    // the descriptor is `=`
    (".field static I =\n", ".field static I =\n"),
    (".field static static I\n", ".field static static I\n"),
    (".field x I\n.field x I\n", ".field x I\n.field x I\n"),
    // methods
    (
        ".method native interface abstract synchronized final static protected private public static m()V\n.end method\n",
        ".method public private protected static final synchronized abstract interface native m()V\n.end method\n",
    ),
    (
        ".method <clinit>()V\n.end method\n.method public <init>(I)V\n.end method\n",
        ".method <clinit>()V\n.end method\n.method public <init>(I)V\n.end method\n",
    ),
    (
        ".method public static main([Ljava/lang/String;)V\n.end method\n.method m(()x\n.end method\n",
        ".method public static main([Ljava/lang/String;)V\n.end method\n.method m(()x\n.end method\n",
    ),
    (
        ".method 5()V\n.limit stack 1\nL: nop\n.end method\n.method 5()V\n.limit stack 2\n.limit locals 1\nL:\n.end method\n",
        ".method 5()V\n.limit stack 1\nL:\nnop\n.end method\n.method 5()V\n.limit stack 2\n.limit locals 1\nL:\n.end method\n",
    ),
    // in another order
    (
        ".method m()V\n.end method\n.field x I\n.implements C\n.method n()V\n.end method\n.field y I\n.implements D\n",
        ".implements C\n.implements D\n.field x I\n.field y I\n.method m()V\n.end method\n.method n()V\n.end method\n",
    ),
];

/// The first row that is judged otherwise.
fn wrong_in_members_read(alloc: Global) -> Result<Option<usize>, NoMemory> {
    for (at, (members, wanted)) in MEMBERS.iter().enumerate() {
        if !are_canonical(alloc, BEFORE_MEMBERS, members, wanted, "")? {
            return Ok(Some(at));
        }
    }
    Ok(None)
}

#[test]
fn members_read(rt: HostRuntime) -> Result<(), Fail> {
    assert_eq!(rt; wrong_in_members_read(rt.alloc())?, None);
    Ok(())
}

const BODIES: [(&str, &str); 26] = [
    ("", ""),
    // lines that are no instructions
    (
        ".limit locals 2\nnop\n.limit stack 3\n",
        ".limit stack 3\n.limit locals 2\nnop\n",
    ),
    (
        ".limit stack 0\n.limit locals 2147483647\n",
        ".limit stack 0\n.limit locals 2147483647\n",
    ),
    (
        ".line 3\n.var 0 is x I from A to B\n.throws java/lang/Exception\nnop\n.line\n.var\n.throws \"a\" 5\n",
        "nop\n",
    ),
    (
        ".source A.j\nnop\n.bytecode 50.0\n; .limit stack 1\n\n nop ; 5\n",
        "nop\nnop\n",
    ),
    (
        ".catch all from A to B using C\nA: nop\n.catch a/b from to to from using using\nB:\nC: return\nD:\n",
        "A:\nnop\nB:\nC:\nreturn\nD:\n.catch all from A to B using C\n.catch a/b from to to from using using\n",
    ),
    // labels
    ("L: nop\nreturn\n", "L:\nnop\nreturn\n"),
    (
        "nop\nL:\nM:\n\nN: return\nP: nop\n",
        "nop\nL:\nM:\nN:\nreturn\nP:\nnop\n",
    ),
    ("L:\n", "L:\n"),
    ("nop\nM:\nL:\n", "nop\nM:\nL:\n"),
    (
        "L:\n.line 3\nM: nop\n.limit stack 1\nN:\n.limit locals 1\n",
        ".limit stack 1\n.limit locals 1\nL:\nM:\nnop\nN:\n",
    ),
    (
        "5: goto nop\nnop: nop\n-:\n$_: goto -\n",
        "5:\ngoto nop\nnop:\nnop\n-:\n$_:\ngoto -\n",
    ),
    // pushes
    (
        "iconst_m1\niconst_0\niconst_1\niconst_2\niconst_3\niconst_4\niconst_5\n",
        "ldc -1\nldc 0\nldc 1\nldc 2\nldc 3\nldc 4\nldc 5\n",
    ),
    (
        "bipush -128\nbipush 127\nsipush -32768\nsipush 32767\nldc 007\nldc -0\nldc -2147483648\nldc 2147483647\n",
        "ldc -128\nldc 127\nldc -32768\nldc 32767\nldc 7\nldc 0\nldc -2147483648\nldc 2147483647\n",
    ),
    (
        "ldc \"a\\tb\\\"c\\\\\"\nldc \"\\n\\r\\'\tx\"\nldc \"\"\nldc \";\"\nldc \"5\" ; a\n",
        "ldc \"a\\tb\\\"c\\\\\"\nldc \"\\n\\r'\\tx\"\nldc \"\"\nldc \";\"\nldc \"5\"\n",
    ),
    // local variables
    (
        "iload_0\niload_1\niload_2\niload_3\niload 0\niload 255\nistore_0\nistore_1\nistore_2\nistore_3\nistore 007\n",
        "iload 0\niload 1\niload 2\niload 3\niload 0\niload 255\nistore 0\nistore 1\nistore 2\nistore 3\nistore 7\n",
    ),
    (
        "aload_0\naload_1\naload_2\naload_3\naload 255\nastore_0\nastore_1\nastore_2\nastore_3\nastore 4\n",
        "aload 0\naload 1\naload 2\naload 3\naload 255\nastore 0\nastore 1\nastore 2\nastore 3\nastore 4\n",
    ),
    (
        "iinc 1 -128\niinc 0 127\niinc 255 0\n",
        "iinc 1 -128\niinc 0 127\niinc 255 0\n",
    ),
    // members and classes
    (
        "getstatic A/f I\nputstatic a/b/c [I\ngetfield A/- Lx/Y;\nputfield a//f a.b\n",
        "getstatic A/f I\nputstatic a/b/c [I\ngetfield A/- Lx/Y;\nputfield a//f a.b\n",
    ),
    (
        "invokestatic A/f()V\ninvokevirtual a/b/f(La/b;)La/b;\ninvokespecial A/<init>()V\ninvokestatic a//<clinit>(())\n",
        "invokestatic A/f()V\ninvokevirtual a/b/f(La/b;)La/b;\ninvokespecial A/<init>()V\ninvokestatic a//<clinit>(())\n",
    ),
    ("new A\nnew a/b\nnew 5/\n", "new A\nnew a/b\nnew 5/\n"),
    (
        "newarray int\nnewarray byte\nnewarray\nnewarray int int\nnewarray \"int\"\n",
        "newarray int\nnewarray\nnewarray\nnewarray\nnewarray\n",
    ),
    // what takes a label
    (
        "ifeq L\nifne L\niflt L\nifge L\nifgt L\nifle L\nif_icmpeq L\nif_icmpne L\nif_icmplt L\nif_icmpge L\nif_icmpgt L\nif_icmple L\nif_acmpeq L\nif_acmpne L\nifnull L\nifnonnull L\ngoto L\n",
        "ifeq L\nifne L\niflt L\nifge L\nifgt L\nifle L\nif_icmpeq L\nif_icmpne L\nif_icmplt L\nif_icmpge L\nif_icmpgt L\nif_icmple L\nif_acmpeq L\nif_acmpne L\nifnull L\nifnonnull L\ngoto L\n",
    ),
    // what takes nothing
    (
        "nop\naconst_null\npop\npop2\ndup\ndup_x1\ndup_x2\ndup2\nswap\niadd\nisub\nimul\nineg\nidiv\nirem\nishl\nishr\niushr\niand\nior\nixor\narraylength\niaload\niastore\nmonitorenter\nmonitorexit\nathrow\nreturn\nireturn\nareturn\n",
        "nop\naconst_null\npop\npop2\ndup\ndup_x1\ndup_x2\ndup2\nswap\niadd\nisub\nimul\nineg\nidiv\nirem\nishl\nishr\niushr\niand\nior\nixor\narraylength\niaload\niastore\nmonitorenter\nmonitorexit\nathrow\nreturn\nireturn\nareturn\n",
    ),
    // out of the profile: whatever stands after it
    (
        "L: tableswitch 1 2 x\nldc_w 3\nlookupswitch\ninvokeinterface A/f()V 2\nanewarray a.b\nwide iload 5\njsr \"L\"\n",
        "L:\ntableswitch\nldc_w\nlookupswitch\ninvokeinterface\nanewarray\nwide\njsr\n",
    ),
    (
        "ret 1\ngoto_w L\njsr_w L\nldc2_w 5\ninvokedynamic a\ncheckcast A\ninstanceof A\nmultianewarray [[I 2\naaload\naastore\nbaload\nbastore\ncaload\ncastore\nsaload\nsastore\ni2b\ni2c\ni2s\ni2l\ni2f\ni2d\nlcmp 1\n",
        "ret\ngoto_w\njsr_w\nldc2_w\ninvokedynamic\ncheckcast\ninstanceof\nmultianewarray\naaload\naastore\nbaload\nbastore\ncaload\ncastore\nsaload\nsastore\ni2b\ni2c\ni2s\ni2l\ni2f\ni2d\nlcmp\n",
    ),
];

/// The first row that is judged otherwise.
fn wrong_in_bodies_read(alloc: Global) -> Result<Option<usize>, NoMemory> {
    for (at, (body, wanted)) in BODIES.iter().enumerate() {
        if !are_canonical(alloc, BEFORE_BODY, body, wanted, AFTER_BODY)? {
            return Ok(Some(at));
        }
    }
    Ok(None)
}

#[test]
fn bodies_read(rt: HostRuntime) -> Result<(), Fail> {
    assert_eq!(rt; wrong_in_bodies_read(rt.alloc())?, None);
    Ok(())
}

// Each text, the number of its fault, and the line that has it.
const REFUSED_TEXTS: [(&str, u8, u32); 47] = [
    // before the first class
    ("nop", 1, 1),
    ("\n; a\n.super A\n", 1, 3),
    (".source A.j\n.bytecode 5\n.interface a\nL:\n", 1, 4),
    (".foo", 1, 1),
    ("5", 1, 1),
    ("\".class\" A", 1, 1),
    (".end method\n", 1, 1),
    (".line 3\n", 1, 1),
    (".field x I\n", 1, 1),
    (".method m()V\n.end method\n", 1, 1),
    ("nop 1\n.class\n", 1, 1),
    ("a/b: goto\n", 1, 1),
    (".Class A\n", 1, 1),
    // words of the lines that may stand there
    (".source\n", 4, 1),
    (".source a b\n", 4, 1),
    (".bytecode\n", 4, 1),
    (".bytecode 1 2\n", 4, 1),
    (".class\n", 4, 1),
    (".class foo A\n", 4, 1),
    (".class static A\n", 4, 1),
    (".class public 5 A\n", 4, 1),
    (".class 5\n", 4, 1),
    (".class \"A\"\n", 4, 1),
    (".class foo a.b\n", 4, 1),
    (".class a.b\n", 5, 1),
    (".class public A;\n", 5, 1),
    (".class A:\n", 5, 1),
    // before a class's super
    (".class A\n.field x I\n.super B\n", 8, 2),
    (".class A\n.method m()V\n.end method\n", 8, 2),
    (".class A\n.method m()V\nfoo\n", 8, 2),
    (".class A\n.implements B\n\n.class C\n.super D\n", 8, 4),
    (".class A", 8, 1),
    (".class A\n", 8, 1),
    (".class A\n\n", 8, 2),
    (".class A\n\n  ", 8, 3),
    (".class A\n\n\n; a\n", 8, 4),
    (".class A\n.implements B\n.interface\n", 8, 3),
    (".class A\n.super B\n.class C\n\n", 8, 4),
    (".class A\n.super\n", 4, 2),
    (".class A\n.super B C\n", 4, 2),
    (".class A\n.super 5\n", 4, 2),
    (".class A\n.super \"B\"\n", 4, 2),
    (".class A\n.super A$B.\n", 5, 2),
    (".class A\n.super <init>\n", 5, 2),
    (".class A\nnop\n", 6, 2),
    (".class A\nL:\n", 6, 2),
    (".class A\n.end method\n", 6, 2),
];

/// The first row that is judged otherwise.
fn wrong_in_texts_refused(alloc: Global) -> Result<Option<usize>, NoMemory> {
    for (at, (text, kind, line)) in REFUSED_TEXTS.iter().enumerate() {
        if !is_refused(alloc, text, *kind, *line)? {
            return Ok(Some(at));
        }
    }
    Ok(None)
}

#[test]
fn texts_refused(rt: HostRuntime) -> Result<(), Fail> {
    assert_eq!(rt; wrong_in_texts_refused(rt.alloc())?, None);
    Ok(())
}

const REFUSED_MEMBERS: [(&str, u8, u32); 82] = [
    // first words
    (".foo\n", 2, 3),
    (".X:\n", 2, 3),
    (".\n", 2, 3),
    (".Super B\n", 2, 3),
    (".field: x I\n", 2, 3),
    ("foo\n", 3, 3),
    ("a.b\n", 3, 3),
    ("5\n", 3, 3),
    ("\"a\"\n", 3, 3),
    ("\n\nL: .field x I\n", 3, 5),
    // words of a line
    (".super\n", 4, 3),
    (".super 5\n", 4, 3),
    (".implements\n", 4, 3),
    (".implements C D\n", 4, 3),
    (".implements 5\n", 4, 3),
    (".implements a.b\n", 5, 3),
    (".class\n", 4, 3),
    (".class foo C\n", 4, 3),
    (".class a.b\n", 5, 3),
    (".source\n", 4, 3),
    (".field\n", 4, 3),
    (".field I\n", 4, 3),
    (".field = 5\n", 4, 3),
    (".field I = 5\n", 4, 3),
    (".field static s 5\n", 4, 3),
    (".field static s \"I\"\n", 4, 3),
    (".field static 5 I\n", 4, 3),
    (".field synchronized s I\n", 4, 3),
    (".field static s I 5\n", 4, 3),
    (".field static s I = x\n", 4, 3),
    (".field static s I = \"x\"\n", 4, 3),
    (".field static s I = 5 5\n", 4, 3),
    (".field static s I \"=\" 5\n", 4, 3),
    (".field foo a/b I\n", 4, 3),
    (".field static a/b 5\n", 4, 3),
    (".field static a/b I\n", 5, 3),
    (".field = I\n", 5, 3),
    (".field <init> I = 5\n", 5, 3),
    (".method\n", 4, 3),
    (".method main\n.end method\n", 4, 3),
    (".method m)(\n.end method\n", 4, 3),
    (".method m(\n.end method\n", 4, 3),
    (".method m ()V\n.end method\n", 4, 3),
    (".method m() V\n.end method\n", 4, 3),
    (".method volatile m()V\n.end method\n", 4, 3),
    (".method 5\n.end method\n", 4, 3),
    (".method \"m()V\"\n.end method\n", 4, 3),
    (".method ()V\n.end method\n", 5, 3),
    (".method a/m()V\n.end method\n", 5, 3),
    (".method <foo>()V\n.end method\n", 5, 3),
    (".method static main\nfoo\n", 4, 3),
    // outside methods
    ("nop\n", 6, 3),
    ("L:\n", 6, 3),
    ("L: nop\n", 6, 3),
    (".limit stack 1\n", 6, 3),
    (".limit locals 1\n", 6, 3),
    (".line 3\n", 6, 3),
    (".var\n", 6, 3),
    (".throws A\n", 6, 3),
    (".end method\n", 6, 3),
    (".catch a from b to c using d\n", 6, 3),
    (".method m()V\n.end method\n.end method\n", 6, 5),
    (".method m()V\nL:\n.end method\nL:\n", 6, 6),
    (".method m()V\n.end method\n.class C\nnop\n", 6, 6),
    // a method that doesn't end
    (".method m()V\nnop\n", 10, 3),
    (".method m()V\nfoo\n.class\n", 10, 3),
    (".method m()V\n.end\n.end class\n.end method now\n", 10, 3),
    (
        ".method m()V\nL: .end method\n; .end method\n.end \"method\"\n",
        10,
        3,
    ),
    (".method m()V\n.end method\n\n.method n()V\n", 10, 6),
    // twice
    (".super B\n", 12, 3),
    (".field x I\n.super C\n", 12, 4),
    (".class C\n.super B\n.super D\n", 12, 5),
    // the least of a line's faults, and the first of two lines
    (".limit foo 1\n", 4, 3),
    (".end class\n", 4, 3),
    (".catch a from b\n", 4, 3),
    ("a/b: nop\n", 5, 3),
    ("a/b: goto\n", 4, 3),
    ("a/b: foo\n", 3, 3),
    ("goto a.b\n", 5, 3),
    ("foo\n.foo\n", 3, 3),
    (".super B\nfoo\n", 12, 3),
    ("nop\nfoo\n", 6, 3),
];

/// The first row that is judged otherwise.
fn wrong_in_members_refused(alloc: Global) -> Result<Option<usize>, NoMemory> {
    for (at, (members, kind, line)) in REFUSED_MEMBERS.iter().enumerate() {
        if !is_refused_between(alloc, BEFORE_MEMBERS, members, "", *kind, *line)? {
            return Ok(Some(at));
        }
    }
    Ok(None)
}

#[test]
fn members_refused(rt: HostRuntime) -> Result<(), Fail> {
    assert_eq!(rt; wrong_in_members_refused(rt.alloc())?, None);
    Ok(())
}

const REFUSED_BODIES: [(&str, u8, u32); 143] = [
    // first words
    (".foo\n", 2, 4),
    (".X:\n", 2, 4),
    ("foo\n", 3, 4),
    ("a.b\n", 3, 4),
    ("NOP\n", 3, 4),
    ("iconst_6\n", 3, 4),
    ("iload_4\n", 3, 4),
    ("5 nop\n", 3, 4),
    ("\"nop\"\n", 3, 4),
    ("L: .line 3\n", 3, 4),
    ("L: M:\n", 3, 4),
    ("L: M: nop\n", 3, 4),
    ("L: 5\n", 3, 4),
    ("L :\n", 3, 4),
    // words of a line that is no instruction
    (".limit\n", 4, 4),
    (".limit stack\n", 4, 4),
    (".limit 3\n", 4, 4),
    (".limit foo 3\n", 4, 4),
    (".limit \"stack\" 3\n", 4, 4),
    (".limit 3 stack\n", 4, 4),
    (".limit stack -1\n", 4, 4),
    (".limit locals -1\n", 4, 4),
    (".limit stack x\n", 4, 4),
    (".limit stack \"3\"\n", 4, 4),
    (".limit stack 3 4\n", 4, 4),
    (".end\n", 4, 4),
    (".end class\n", 4, 4),
    (".end 5\n", 4, 4),
    (".end method m\n", 4, 4),
    (".catch\n", 4, 4),
    (".catch A from B to C\n", 4, 4),
    (".catch A to B from C using D\n", 4, 4),
    (".catch A from B to C by D\n", 4, 4),
    (".catch A from B to C using D E\n", 4, 4),
    (".catch 5 from B to C using D\n", 4, 4),
    (".catch A from 5 to C using D\n", 4, 4),
    (".catch A from B to \"C\" using D\n", 4, 4),
    (".catch A from B to C using 5\n", 4, 4),
    (".catch a.b from B to C using 5\n", 4, 4),
    (".catch a.b from B to C using D\n", 5, 4),
    (".catch A from a/b to C using D\n", 5, 4),
    (".catch A from B to a/b using D\n", 5, 4),
    (".catch A from B to C using D:\n", 5, 4),
    (".source\n", 4, 4),
    (".bytecode a b\n", 4, 4),
    // operands
    ("nop 1\n", 4, 4),
    ("return x\n", 4, 4),
    ("iconst_0 1\n", 4, 4),
    ("bipush\n", 4, 4),
    ("bipush 128\n", 4, 4),
    ("bipush -129\n", 4, 4),
    ("bipush x\n", 4, 4),
    ("bipush \"1\"\n", 4, 4),
    ("bipush 1 2\n", 4, 4),
    ("sipush 32768\n", 4, 4),
    ("sipush -32769\n", 4, 4),
    ("ldc\n", 4, 4),
    ("ldc x\n", 4, 4),
    ("ldc 1 2\n", 4, 4),
    ("ldc \"a\"\"b\"\n", 4, 4),
    ("iload\n", 4, 4),
    ("iload 256\n", 4, 4),
    ("iload -1\n", 4, 4),
    ("iload x\n", 4, 4),
    ("iload 1 2\n", 4, 4),
    ("istore 256\n", 4, 4),
    ("aload 256\n", 4, 4),
    ("astore -1\n", 4, 4),
    ("iload_0 1\n", 4, 4),
    ("astore_3 3\n", 4, 4),
    ("iinc\n", 4, 4),
    ("iinc 1\n", 4, 4),
    ("iinc 1 128\n", 4, 4),
    ("iinc 1 -129\n", 4, 4),
    ("iinc 256 1\n", 4, 4),
    ("iinc -1 1\n", 4, 4),
    ("iinc 1 x\n", 4, 4),
    ("iinc 1 1 1\n", 4, 4),
    ("goto\n", 4, 4),
    ("goto 5\n", 4, 4),
    ("goto \"a\"\n", 4, 4),
    ("goto L M\n", 4, 4),
    ("goto a.b 5\n", 4, 4),
    ("goto a.b\n", 5, 4),
    ("ifeq a/b\n", 5, 4),
    ("if_icmplt L:\n", 5, 4),
    ("getstatic\n", 4, 4),
    ("getstatic A/f\n", 4, 4),
    ("getstatic f I\n", 4, 4),
    ("getstatic A/f 5\n", 4, 4),
    ("getstatic A/f \"I\"\n", 4, 4),
    ("getstatic 5 I\n", 4, 4),
    ("getstatic A/f I I\n", 4, 4),
    ("putfield a.b 5\n", 4, 4),
    ("getstatic A/ I\n", 5, 4),
    ("getstatic /f I\n", 5, 4),
    ("putstatic / I\n", 5, 4),
    ("getfield A.B/f I\n", 5, 4),
    ("putfield A/<init> I\n", 5, 4),
    ("invokestatic\n", 4, 4),
    ("invokestatic A/f\n", 4, 4),
    ("invokestatic f()V\n", 4, 4),
    ("invokestatic f(La/b;)V\n", 4, 4),
    ("invokestatic A/f)(\n", 4, 4),
    ("invokestatic A/f()V 1\n", 4, 4),
    ("invokestatic 5\n", 4, 4),
    ("invokevirtual \"A/f()V\"\n", 4, 4),
    ("invokestatic A/()V\n", 5, 4),
    ("invokevirtual /f()V\n", 5, 4),
    ("invokespecial A/<foo>()V\n", 5, 4),
    ("invokespecial <init>/f()V\n", 5, 4),
    ("new\n", 4, 4),
    ("new 5\n", 4, 4),
    ("new \"A\"\n", 4, 4),
    ("new A B\n", 4, 4),
    ("new a.b\n", 5, 4),
    // names of labels
    ("a/b:\n", 5, 4),
    (":\n", 5, 4),
    (": nop\n", 5, 4),
    ("L::\n", 5, 4),
    ("a/b: nop\n", 5, 4),
    ("a/b: nop 1\n", 4, 4),
    ("a/b: goto\n", 4, 4),
    ("a/b: foo\n", 3, 4),
    // lines of a class
    (".class C\n", 7, 4),
    (".super C\n", 7, 4),
    (".implements C\n", 7, 4),
    (".field x I\n", 7, 4),
    (".method n()V\n", 7, 4),
    ("nop\n\n.interface a\n", 7, 6),
    (".field x\n", 4, 4),
    (".class a.b\n", 5, 4),
    // labels twice
    ("L:\nL:\n", 9, 5),
    ("L: nop\nnop\nL: nop\n", 9, 6),
    ("L:\nnop\nL: nop\n", 9, 6),
    ("L: nop\nM:\nL:\n", 9, 6),
    ("L:\nL: nop 1\n", 4, 5),
    ("L:\nL: foo\n", 3, 5),
    // limits twice
    (".limit stack 1\n.limit stack 1\n", 12, 5),
    (
        ".limit locals 1\n.limit stack 1\nnop\n.limit locals 2\n",
        12,
        7,
    ),
    (".limit stack 1\n.limit stack x\n", 4, 5),
    (".limit stack 1\n.limit stack 1\nfoo\n", 12, 5),
    ("goto a.b\nfoo\n", 5, 4),
];

/// The first row that is judged otherwise.
fn wrong_in_bodies_refused(alloc: Global) -> Result<Option<usize>, NoMemory> {
    for (at, (body, kind, line)) in REFUSED_BODIES.iter().enumerate() {
        if !is_refused_between(alloc, BEFORE_BODY, body, AFTER_BODY, *kind, *line)? {
            return Ok(Some(at));
        }
    }
    Ok(None)
}

#[test]
fn bodies_refused(rt: HostRuntime) -> Result<(), Fail> {
    assert_eq!(rt; wrong_in_bodies_refused(rt.alloc())?, None);
    Ok(())
}

/// A body of so many labels, each before an instruction.
fn labels_up_to(alloc: Global, count: u32) -> Result<String, NoMemory> {
    let mut body = String::new(alloc);
    for n in 0..count {
        let line = format!(in alloc; "L{n}:\nnop\n")?;
        body.push_str(&line)?;
    }
    Ok(body)
}

/// Whether so many labels are read and written as they stand.
fn are_labels_written(alloc: Global, count: u32) -> Result<bool, NoMemory> {
    let body = labels_up_to(alloc, count)?;
    let text = joined(alloc, BEFORE_BODY, &body, AFTER_BODY)?;
    is_written(alloc, &text, &text)
}

#[test]
fn many_labels_read(rt: HostRuntime) -> Result<(), Fail> {
    assert!(rt; are_labels_written(rt.alloc(), 3_000)?);
    Ok(())
}

// Lines after 3,000 labels, and the line of the label that stands there twice.
const LABELS_TWICE: [(&str, u32); 2] = [("L0:\n", 6_004), ("nop\nL1500: nop\n", 6_005)];

/// Whether the last of these lines has a label a second time.
fn is_label_twice(alloc: Global, last: &str, line: u32) -> Result<bool, NoMemory> {
    let body = labels_up_to(alloc, 3_000)?;
    let whole = joined(alloc, &body, last, AFTER_BODY)?;
    is_refused_between(alloc, BEFORE_BODY, &whole, "", 9, line)
}

/// The first row that is judged otherwise.
fn wrong_in_second_label_far_from_the_first(alloc: Global) -> Result<Option<usize>, NoMemory> {
    for (at, (last, line)) in LABELS_TWICE.iter().enumerate() {
        if !is_label_twice(alloc, last, *line)? {
            return Ok(Some(at));
        }
    }
    Ok(None)
}

#[test]
fn second_label_far_from_the_first(rt: HostRuntime) -> Result<(), Fail> {
    assert_eq!(rt; wrong_in_second_label_far_from_the_first(rt.alloc())?, None);
    Ok(())
}

/// Adds the lines of a method and of what stands in it.
fn add_method(method: &MethodText, lines: &mut Vec<u32>) -> Result<(), NoMemory> {
    lines.push(method.line)?;
    for line in &method.lines {
        lines.push(line.line)?;
    }
    for catch in &method.catches {
        lines.push(catch.line)?;
    }
    Ok(())
}

/// Adds the lines of a class and of what stands in it.
fn add_class(class: &ClassText, lines: &mut Vec<u32>) -> Result<(), NoMemory> {
    lines.push(class.line)?;
    lines.push(class.super_line)?;
    for name in &class.implements {
        lines.push(name.line)?;
    }
    for field in &class.fields {
        lines.push(field.line)?;
    }
    for method in &class.methods {
        add_method(method, lines)?;
    }
    Ok(())
}

/// The lines of classes and of what stands in them.
fn lines_of(alloc: Global, classes: &[ClassText]) -> Result<Vec<u32>, NoMemory> {
    let mut lines = Vec::new(alloc);
    for class in classes {
        add_class(class, &mut lines)?;
    }
    Ok(lines)
}

const SPREAD: &str =
    "; a\n.class A\n\n.implements C\n.super B\n.method m()V\n.catch all from L to L using L\nL:\n\nnop\nM: nop\n.end method\n.field x I\n.interface\n";

const SPREAD_LINES: [u32; 10] = [2, 5, 4, 13, 6, 10, 11, 7, 14, 0];

fn are_lines_kept(alloc: Global) -> Result<bool, NoMemory> {
    let classes = classes_of(alloc, SPREAD)?;
    let lines = lines_of(alloc, &classes)?;
    Ok(lines.as_slice() == SPREAD_LINES.as_slice())
}

#[test]
fn lines_of_what_is_read(rt: HostRuntime) -> Result<(), Fail> {
    assert!(rt; are_lines_kept(rt.alloc())?);
    Ok(())
}

#[test]
fn numbers_of_kinds(rt: HostRuntime) {
    let kinds = [
        (ReadKind::NoClass, 1),
        (ReadKind::BadDirective, 2),
        (ReadKind::BadMnemonic, 3),
        (ReadKind::BadOperand, 4),
        (ReadKind::BadName, 5),
        (ReadKind::OutsideMethod, 6),
        (ReadKind::InMethod, 7),
        (ReadKind::NoSuper, 8),
        (ReadKind::LabelTwice, 9),
        (ReadKind::EndMissing, 10),
        (ReadKind::TooMany, 11),
        (ReadKind::Repeat, 12),
    ];
    for (kind, number) in kinds {
        assert_eq!(rt; kind.number(), number);
    }
}
