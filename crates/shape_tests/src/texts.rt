// Which texts are verified. The rows follow JVMS SE 8 §4.10.1.9 and §4.10.2.2, in the project's own profile.

use shape_verifier::ShapeKind;
use std::alloc::Global;
use std::test::Fail;
use tool_stages::{ProgramFault, accept};

/// A text whose first method has this head, from its parameters on, and this code.
fn text_of(alloc: Global, head: &[u8], code: &[u8]) -> Result<Vec<u8>, Fail> {
    let mut text = Vec::from_slice(alloc, FRONT)?;
    text.extend_from_slice(head)?;
    text.extend_from_slice(code)?;
    text.extend_from_slice(BACK)?;
    Ok(text)
}

/// Whether the text of a method is refused for this fault of its shapes at this instruction.
fn is_refused(alloc: Global, row: &Row) -> Result<bool, Fail> {
    let text = text_of(alloc, row.head, row.code)?;
    Ok(match accept(alloc, &text) {
        Err(ProgramFault::Shape { kind, method, at }) => {
            kind == row.kind && method == 0 && at == row.at
        }
        _ => false,
    })
}

/// A method, and the fault of its shapes.
struct Row {
    head: &'static [u8],
    code: &'static [u8],
    kind: ShapeKind,
    at: u32,
}

/// A class of threads whose first method is to be judged; after it a plain class and one that implements Runnable.
const FRONT: &[u8] =
    b".class A\n.super java/lang/Thread\n.field static n I\n.field static o Ljava/lang/Object;\n.field static r Ljava/lang/Runnable;\n.field static a LA;\n.field f I\n.method static t";

const BACK: &[u8] =
    b".end method\n.method g(I)I\niload_1\nireturn\n.end method\n.method static s(I)V\nreturn\n.end method\n.method public static main([Ljava/lang/String;)V\nreturn\n.end method\n.class B\n.super java/lang/Object\n.method h()V\nreturn\n.end method\n.class C\n.super java/lang/Object\n.implements java/lang/Runnable\n.method public run()V\nreturn\n.end method\n";

/// Operands that are missing, and stacks of unequal depths.
const MISSING: [Row; 20] = [
    Row {
        head: b"()V\n",
        code: b"iadd\npop\nreturn\n",
        kind: ShapeKind::Depth,
        at: 0,
    },
    Row {
        head: b"()V\n",
        code: b"pop\nreturn\n",
        kind: ShapeKind::Depth,
        at: 0,
    },
    Row {
        head: b"()V\n",
        code: b"iconst_0\npop2\nreturn\n",
        kind: ShapeKind::Depth,
        at: 1,
    },
    Row {
        head: b"()V\n",
        code: b"dup\nreturn\n",
        kind: ShapeKind::Depth,
        at: 0,
    },
    Row {
        head: b"()V\n",
        code: b"iconst_0\ndup_x1\nreturn\n",
        kind: ShapeKind::Depth,
        at: 1,
    },
    Row {
        head: b"()V\n",
        code: b"iconst_0\niconst_0\ndup_x2\nreturn\n",
        kind: ShapeKind::Depth,
        at: 2,
    },
    Row {
        head: b"()V\n",
        code: b"iconst_0\ndup2\nreturn\n",
        kind: ShapeKind::Depth,
        at: 1,
    },
    Row {
        head: b"()V\n",
        code: b"iconst_0\nswap\nreturn\n",
        kind: ShapeKind::Depth,
        at: 1,
    },
    Row {
        head: b"()V\n",
        code: b"ineg\nreturn\n",
        kind: ShapeKind::Depth,
        at: 0,
    },
    Row {
        head: b"()V\n",
        code: b"iconst_0\nputfield A/f I\nreturn\n",
        kind: ShapeKind::Depth,
        at: 1,
    },
    Row {
        head: b"()V\n",
        code: b"putstatic A/n I\nreturn\n",
        kind: ShapeKind::Depth,
        at: 0,
    },
    Row {
        head: b"()V\n",
        code: b"iconst_0\niconst_0\niastore\nreturn\n",
        kind: ShapeKind::Depth,
        at: 2,
    },
    Row {
        head: b"()V\n",
        code: b"iconst_0\ninvokevirtual A/g(I)I\npop\nreturn\n",
        kind: ShapeKind::Depth,
        at: 1,
    },
    Row {
        head: b"()V\n",
        code: b"invokestatic A/s(I)V\nreturn\n",
        kind: ShapeKind::Depth,
        at: 0,
    },
    Row {
        head: b"()I\n",
        code: b"ireturn\n",
        kind: ShapeKind::Depth,
        at: 0,
    },
    Row {
        head: b"()V\n",
        code: b"athrow\n",
        kind: ShapeKind::Depth,
        at: 0,
    },
    Row {
        head: b"()V\n",
        code: b"iconst_0\nifeq L\niconst_1\nL:\nreturn\n",
        kind: ShapeKind::Depth,
        at: 3,
    },
    Row {
        head: b"()V\n",
        code: b"L:\niconst_0\ngoto L\n",
        kind: ShapeKind::Depth,
        at: 0,
    },
    Row {
        head: b"()V\n",
        code: b"invokestatic A/s(I)V\n",
        kind: ShapeKind::Depth,
        at: 0,
    },
    Row {
        head: b"()V\n.limit locals 1\n",
        code: b"astore_1\nreturn\n",
        kind: ShapeKind::Depth,
        at: 0,
    },
];

/// Values of other kinds than are wanted.
const OTHER_KINDS: [Row; 41] = [
    Row {
        head: b"()V\n",
        code: b"aconst_null\niconst_1\niadd\npop\nreturn\n",
        kind: ShapeKind::Kind,
        at: 2,
    },
    Row {
        head: b"()V\n",
        code: b"aconst_null\nineg\npop\nreturn\n",
        kind: ShapeKind::Kind,
        at: 1,
    },
    Row {
        head: b"()V\n",
        code: b"aconst_null\nifeq L\nL:\nreturn\n",
        kind: ShapeKind::Kind,
        at: 1,
    },
    Row {
        head: b"()V\n",
        code: b"iconst_0\nifnull L\nL:\nreturn\n",
        kind: ShapeKind::Kind,
        at: 1,
    },
    Row {
        head: b"()V\n",
        code: b"iconst_0\naconst_null\nif_acmpeq L\nL:\nreturn\n",
        kind: ShapeKind::Kind,
        at: 2,
    },
    Row {
        head: b"()V\n",
        code: b"iconst_0\naconst_null\nif_icmpeq L\nL:\nreturn\n",
        kind: ShapeKind::Kind,
        at: 2,
    },
    Row {
        head: b"()V\n",
        code: b"iconst_0\nputstatic A/o Ljava/lang/Object;\nreturn\n",
        kind: ShapeKind::Kind,
        at: 1,
    },
    Row {
        head: b"()V\n",
        code: b"new B\nputstatic A/r Ljava/lang/Runnable;\nreturn\n",
        kind: ShapeKind::Kind,
        at: 1,
    },
    Row {
        head: b"()V\n",
        code: b"ldc \"x\"\nputstatic A/o Ljava/lang/Object;\nreturn\n",
        kind: ShapeKind::Kind,
        at: 1,
    },
    Row {
        head: b"()V\n",
        code: b"new java/lang/Object\nputstatic A/a LA;\nreturn\n",
        kind: ShapeKind::Kind,
        at: 1,
    },
    Row {
        head: b"()V\n",
        code: b"new B\ngetfield A/f I\npop\nreturn\n",
        kind: ShapeKind::Kind,
        at: 1,
    },
    Row {
        head: b"()V\n",
        code: b"new A\naconst_null\nputfield A/f I\nreturn\n",
        kind: ShapeKind::Kind,
        at: 2,
    },
    Row {
        head: b"()V\n",
        code: b"new B\narraylength\npop\nreturn\n",
        kind: ShapeKind::Kind,
        at: 1,
    },
    Row {
        head: b"()V\n",
        code: b"aconst_null\naconst_null\niaload\npop\nreturn\n",
        kind: ShapeKind::Kind,
        at: 2,
    },
    Row {
        head: b"()V\n",
        code: b"aconst_null\nnewarray int\npop\nreturn\n",
        kind: ShapeKind::Kind,
        at: 1,
    },
    Row {
        head: b"()V\n",
        code: b"ldc \"x\"\nmonitorenter\nreturn\n",
        kind: ShapeKind::Kind,
        at: 1,
    },
    Row {
        head: b"()V\n",
        code: b"iconst_0\nmonitorexit\nreturn\n",
        kind: ShapeKind::Kind,
        at: 1,
    },
    Row {
        head: b"()V\n",
        code: b"new java/lang/Object\nathrow\n",
        kind: ShapeKind::Kind,
        at: 1,
    },
    Row {
        head: b"()V\n",
        code: b"new B\niconst_0\ninvokevirtual A/g(I)I\npop\nreturn\n",
        kind: ShapeKind::Kind,
        at: 2,
    },
    Row {
        head: b"()V\n",
        code: b"aconst_null\ninvokestatic A/s(I)V\nreturn\n",
        kind: ShapeKind::Kind,
        at: 1,
    },
    Row {
        head: b"()V\n",
        code: b"new B\ninvokevirtual java/lang/Thread/start()V\nreturn\n",
        kind: ShapeKind::Kind,
        at: 1,
    },
    Row {
        head: b"()V\n",
        code: b"new B\ninvokespecial java/lang/Thread/<init>()V\nreturn\n",
        kind: ShapeKind::Kind,
        at: 1,
    },
    Row {
        head: b"()V\n",
        code: b"aconst_null\ninvokestatic A/main([Ljava/lang/String;)V\nreturn\n",
        kind: ShapeKind::Kind,
        at: 1,
    },
    Row {
        head: b"()V\n",
        code: b"new A\naconst_null\npop\niconst_0\ninvokespecial java/lang/Thread/<init>(Ljava/lang/Runnable;)V\nreturn\n",
        kind: ShapeKind::Kind,
        at: 4,
    },
    Row {
        head: b"()V\n",
        code: b"new A\niconst_0\ninvokevirtual java/io/PrintStream/println(I)V\nreturn\n",
        kind: ShapeKind::Kind,
        at: 2,
    },
    Row {
        head: b"()V\n",
        code: b"iconst_0\nistore_0\naload_0\npop\nreturn\n",
        kind: ShapeKind::Kind,
        at: 2,
    },
    Row {
        head: b"()V\n",
        code: b"aconst_null\nistore_0\nreturn\n",
        kind: ShapeKind::Kind,
        at: 1,
    },
    Row {
        head: b"()V\n",
        code: b"iconst_0\nastore_0\nreturn\n",
        kind: ShapeKind::Kind,
        at: 1,
    },
    Row {
        head: b"()V\n",
        code: b"aconst_null\nastore_0\niload_0\npop\nreturn\n",
        kind: ShapeKind::Kind,
        at: 2,
    },
    Row {
        head: b"()V\n",
        code: b"aconst_null\nastore_0\niinc 0 1\nreturn\n",
        kind: ShapeKind::Kind,
        at: 2,
    },
    Row {
        head: b"()I\n",
        code: b"return\n",
        kind: ShapeKind::Kind,
        at: 0,
    },
    Row {
        head: b"()V\n",
        code: b"iconst_0\nireturn\n",
        kind: ShapeKind::Kind,
        at: 1,
    },
    Row {
        head: b"()Ljava/lang/Object;\n",
        code: b"iconst_0\nireturn\n",
        kind: ShapeKind::Kind,
        at: 1,
    },
    Row {
        head: b"()Ljava/lang/Object;\n",
        code: b"iconst_0\nareturn\n",
        kind: ShapeKind::Kind,
        at: 1,
    },
    Row {
        head: b"()Ljava/lang/Object;\n",
        code: b"ldc \"x\"\nareturn\n",
        kind: ShapeKind::Kind,
        at: 1,
    },
    Row {
        head: b"()I\n",
        code: b"aconst_null\nareturn\n",
        kind: ShapeKind::Kind,
        at: 1,
    },
    Row {
        head: b"()V\n",
        code: b"iconst_0\nifeq L\niconst_1\ngoto M\nL:\naconst_null\nM:\npop\nreturn\n",
        kind: ShapeKind::Kind,
        at: 5,
    },
    Row {
        head: b"()V\n",
        code: b"iconst_0\nifeq L\nldc \"x\"\ngoto M\nL:\nnew B\nM:\npop\nreturn\n",
        kind: ShapeKind::Kind,
        at: 5,
    },
    Row {
        head: b"()V\n",
        code: b"iconst_0\nifeq L\nnew A\ngoto M\nL:\nnew B\nM:\ninvokevirtual B/h()V\nreturn\n",
        kind: ShapeKind::Kind,
        at: 5,
    },
    Row {
        head: b"()V\n",
        code: b"iconst_0\nifeq L\niconst_1\nnewarray int\ngoto M\nL:\nnew B\nM:\narraylength\npop\nreturn\n",
        kind: ShapeKind::Kind,
        at: 6,
    },
    Row {
        head: b"()V\n.limit locals 1\n",
        code: b"aconst_null\nistore_1\nreturn\n",
        kind: ShapeKind::Kind,
        at: 1,
    },
];

/// Locals that are not set, control after the last instruction, and limits.
const OTHERS: [Row; 17] = [
    Row {
        head: b"()V\n",
        code: b"iload_0\npop\nreturn\n",
        kind: ShapeKind::Unset,
        at: 0,
    },
    Row {
        head: b"()V\n",
        code: b"aload_0\npop\nreturn\n",
        kind: ShapeKind::Unset,
        at: 0,
    },
    Row {
        head: b"()V\n",
        code: b"iinc 0 1\nreturn\n",
        kind: ShapeKind::Unset,
        at: 0,
    },
    Row {
        head: b"()V\n",
        code: b"iconst_0\nifeq L\niconst_1\nistore_1\nL:\niload_1\npop\nreturn\n",
        kind: ShapeKind::Unset,
        at: 4,
    },
    Row {
        head: b"()V\n",
        code: b"iconst_0\nifeq L\niconst_1\nistore_1\ngoto M\nL:\naconst_null\nastore_1\nM:\niload_1\npop\nreturn\n",
        kind: ShapeKind::Unset,
        at: 7,
    },
    Row {
        head: b"()V\n.limit locals 1\n",
        code: b"iload_1\npop\nreturn\n",
        kind: ShapeKind::Unset,
        at: 0,
    },
    Row {
        head: b"()V\n",
        code: b"",
        kind: ShapeKind::FallsOff,
        at: 0,
    },
    Row {
        head: b"()V\n",
        code: b"nop\n",
        kind: ShapeKind::FallsOff,
        at: 0,
    },
    Row {
        head: b"()V\n",
        code: b"goto L\nL:\n",
        kind: ShapeKind::FallsOff,
        at: 0,
    },
    Row {
        head: b"()V\n",
        code: b"iconst_0\nifeq L\nreturn\nL:\n",
        kind: ShapeKind::FallsOff,
        at: 1,
    },
    Row {
        head: b"()V\n",
        code: b"L:\niconst_0\nifeq L\n",
        kind: ShapeKind::FallsOff,
        at: 1,
    },
    Row {
        head: b"()V\n.limit stack 1\n",
        code: b"iconst_0\niconst_0\npop2\nreturn\n",
        kind: ShapeKind::Limit,
        at: 1,
    },
    Row {
        head: b"()V\n.limit stack 0\n",
        code: b"iconst_0\n",
        kind: ShapeKind::Limit,
        at: 0,
    },
    Row {
        head: b"()V\n.limit locals 1\n",
        code: b"iconst_0\nistore_1\nreturn\n",
        kind: ShapeKind::Limit,
        at: 1,
    },
    Row {
        head: b"(II)V\n.limit locals 1\n",
        code: b"return\n",
        kind: ShapeKind::Limit,
        at: 0,
    },
    Row {
        head: b"(II)V\n.limit locals 1\n",
        code: b"",
        kind: ShapeKind::Limit,
        at: 0,
    },
    Row {
        head: b"()V\n.limit locals 1\n",
        code: b"iload_1\niadd\nreturn\n",
        kind: ShapeKind::Unset,
        at: 0,
    },
];

/// Heads and codes of methods that are verified.
const RIGHT: [(&[u8], &[u8]); 30] = [
    (b"()V\n.limit stack 0\n.limit locals 0\n", b"return\n"),
    (
        b"()V\n",
        b"new A\nputstatic A/r Ljava/lang/Runnable;\nreturn\n",
    ),
    (
        b"()V\n",
        b"new java/lang/Thread\nputstatic A/r Ljava/lang/Runnable;\nreturn\n",
    ),
    (
        b"()V\n",
        b"new C\nputstatic A/r Ljava/lang/Runnable;\nreturn\n",
    ),
    (
        b"()V\n",
        b"aconst_null\niconst_0\ninvokevirtual java/io/PrintStream/println(I)V\nreturn\n",
    ),
    (
        b"()V\n",
        b"aconst_null\nputstatic A/r Ljava/lang/Runnable;\nreturn\n",
    ),
    (
        b"()V\n",
        b"new A\nputstatic A/o Ljava/lang/Object;\nreturn\n",
    ),
    (
        b"()V\n",
        b"new A\ninvokevirtual java/lang/Thread/start()V\nreturn\n",
    ),
    (
        b"()V\n",
        b"iconst_1\nnewarray int\nputstatic A/o Ljava/lang/Object;\nreturn\n",
    ),
    (b"()V\n", b"iconst_1\nnewarray int\nmonitorenter\nreturn\n"),
    (b"()V\n", b"aconst_null\nmonitorenter\nreturn\n"),
    (b"()V\n", b"aconst_null\nathrow\n"),
    (b"()V\n", b"new java/lang/ArithmeticException\nathrow\n"),
    (b"()V\n", b"aconst_null\niconst_0\niaload\npop\nreturn\n"),
    (b"()V\n", b"aconst_null\narraylength\npop\nreturn\n"),
    (
        b"()V\n",
        b"aconst_null\niconst_0\ninvokevirtual A/g(I)I\npop\nreturn\n",
    ),
    (b"()V\n", b"aconst_null\nifnull L\nL:\nreturn\n"),
    (
        b"()V\n",
        b"getstatic java/lang/System/out Ljava/io/PrintStream;\nldc \"x\"\ninvokevirtual java/io/PrintStream/println(Ljava/lang/String;)V\nreturn\n",
    ),
    (
        b"()V\n",
        b"getstatic java/lang/System/out Ljava/io/PrintStream;\naconst_null\ninvokevirtual java/io/PrintStream/println(Ljava/lang/String;)V\nreturn\n",
    ),
    (b"()Ljava/lang/Object;\n", b"new A\nareturn\n"),
    (b"()Ljava/lang/String;\n", b"ldc \"x\"\nareturn\n"),
    (b"(I)I\n", b"iload_0\nireturn\n"),
    (
        b"()V\n",
        b"iconst_0\nifeq L\nnew A\ngoto M\nL:\nnew B\nM:\nputstatic A/o Ljava/lang/Object;\nreturn\n",
    ),
    (
        b"()V\n",
        b"iconst_0\nifeq L\nnew java/lang/ArithmeticException\ngoto M\nL:\nnew java/lang/NullPointerException\nM:\nathrow\n",
    ),
    (
        b"()V\n",
        b"iconst_0\nifeq L\niconst_1\nnewarray int\ngoto M\nL:\nnew B\nM:\nmonitorenter\nreturn\n",
    ),
    (
        b"()V\n",
        b"iconst_0\nifeq L\niconst_1\nnewarray int\ngoto M\nL:\naconst_null\nM:\narraylength\npop\nreturn\n",
    ),
    (
        b"()V\n",
        b"iconst_0\nifeq L\naconst_null\ngoto M\nL:\nnew B\nM:\ninvokevirtual B/h()V\nreturn\n",
    ),
    (
        b"()V\n",
        b"iconst_0\nifeq L\niconst_1\nistore_1\ngoto M\nL:\naconst_null\nastore_1\nM:\nreturn\n",
    ),
    (
        b"(LA;)V\n",
        b"L:\naload_0\nputstatic A/o Ljava/lang/Object;\nnew B\nastore_0\ngoto L\n",
    ),
    (b"()V\n", b"goto M\nL:\niadd\nM:\nreturn\n"),
];

#[test]
fn operands_are_missing(rt: HostRuntime) -> Result<(), Fail> {
    let alloc = rt.alloc();
    for row in &MISSING {
        assert!(rt; is_refused(alloc, row)?);
    }
    Ok(())
}

#[test]
fn kinds_are_wanted(rt: HostRuntime) -> Result<(), Fail> {
    let alloc = rt.alloc();
    for row in &OTHER_KINDS {
        assert!(rt; is_refused(alloc, row)?);
    }
    Ok(())
}

#[test]
fn locals_and_limits(rt: HostRuntime) -> Result<(), Fail> {
    let alloc = rt.alloc();
    for row in &OTHERS {
        assert!(rt; is_refused(alloc, row)?);
    }
    Ok(())
}

#[test]
fn methods_are_verified(rt: HostRuntime) -> Result<(), Fail> {
    let alloc = rt.alloc();
    for (head, code) in RIGHT {
        let text = text_of(alloc, head, code)?;
        assert!(rt; accept(alloc, &text).is_ok());
    }
    Ok(())
}
