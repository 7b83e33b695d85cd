//! The text of the drill.

ghost use Rattle.std.specs.Prelude.{◌≡◌, ◌≤◌, ◌++◌, List, ℕ, OnOk, IfOk};
ghost use Rattle.vm_model.specs.declared.limits.TheConstants.{MOST_DRILL_WORKERS};
ghost use Rattle.drill_program.specs.Texts as spec;

use report_writer::{put, put_number};
use std::alloc::Global;
use vm_model::NoMemory;

/// Adds a word and a number on a line.
#[tactic(auto, unfolding(crate::specs::Texts::numbered))]
fn put_numbered(out: &mut Vec<u8>, word: &[u8], n: u32) -> Result<(), NoMemory>
    ensures { OnOk result (out.new.items ≡ out.old.items ++ spec.numbered word.now n) }
{
    put(out, word)?;
    put(out, b" ")?;
    put_number(out, u64::from(n))?;
    put(out, b"\n")
}

#[tactic(auto, unfolding(crate::specs::Texts::class_text))]
fn put_class(out: &mut Vec<u8>) -> Result<(), NoMemory>
    ensures { OnOk result (out.new.items ≡ out.old.items ++ spec.class_text) }
{
    put(
        out,
        b".class public Drill\n.super java/lang/Thread\n.field static n I\n.method public <init>()V\n.limit stack 1\n.limit locals 1\naload_0\ninvokespecial java/lang/Thread/<init>()V\nreturn\n.end method\n",
    )
}

#[tactic(auto, unfolding(crate::specs::Texts::add_text))]
fn put_add(out: &mut Vec<u8>) -> Result<(), NoMemory>
    ensures { OnOk result (out.new.items ≡ out.old.items ++ spec.add_text) }
{
    put(
        out,
        b".method static synchronized add()V\n.limit stack 2\n.limit locals 0\ngetstatic Drill/n I\niconst_1\niadd\nputstatic Drill/n I\nreturn\n.end method\n",
    )
}

#[tactic(auto, unfolding(crate::specs::Texts::run_text))]
fn put_run(out: &mut Vec<u8>) -> Result<(), NoMemory>
    ensures { OnOk result (out.new.items ≡ out.old.items ++ spec.run_text) }
{
    put(
        out,
        b".method public run()V\n.limit stack 2\n.limit locals 2\niconst_0\nistore_1\nLoop:\niload_1\nsipush 1000\nif_icmpge Out\ninvokestatic Drill/add()V\niinc 1 1\ngoto Loop\nOut:\nreturn\n.end method\n",
    )
}

#[tactic(auto, unfolding(crate::specs::Texts::main_text))]
fn put_main(out: &mut Vec<u8>) -> Result<(), NoMemory>
    ensures { OnOk result (out.new.items ≡ out.old.items ++ spec.main_text) }
{
    put(
        out,
        b".method public static main([Ljava/lang/String;)V\n.limit stack 2\n",
    )
}

#[tactic(auto, unfolding(crate::specs::Texts::new_text))]
fn put_new(out: &mut Vec<u8>) -> Result<(), NoMemory>
    ensures { OnOk result (out.new.items ≡ out.old.items ++ spec.new_text) }
{
    put(out, b"new Drill\ndup\ninvokespecial Drill/<init>()V\n")
}

#[tactic(auto, unfolding(crate::specs::Texts::made_text))]
fn put_made(out: &mut Vec<u8>, local: u32) -> Result<(), NoMemory>
    ensures { OnOk result (out.new.items ≡ out.old.items ++ spec.made_text local) }
{
    put_new(out)?;
    put_numbered(out, b"astore", local)
}

#[tactic(auto, unfolding(crate::specs::Texts::started_text))]
fn put_started(out: &mut Vec<u8>, local: u32) -> Result<(), NoMemory>
    ensures { OnOk result (out.new.items ≡ out.old.items ++ spec.started_text local) }
{
    put_numbered(out, b"aload", local)?;
    put(out, b"invokevirtual Drill/start()V\n")
}

#[tactic(auto, unfolding(crate::specs::Texts::joined_text))]
fn put_joined(out: &mut Vec<u8>, local: u32) -> Result<(), NoMemory>
    ensures { OnOk result (out.new.items ≡ out.old.items ++ spec.joined_text local) }
{
    put_numbered(out, b"aload", local)?;
    put(out, b"invokevirtual Drill/join()V\n")
}

#[tactic(auto, unfolding(crate::specs::Texts::end_text))]
fn put_end(out: &mut Vec<u8>) -> Result<(), NoMemory>
    ensures { OnOk result (out.new.items ≡ out.old.items ++ spec.end_text) }
{
    put(
        out,
        b"getstatic java/lang/System/out Ljava/io/PrintStream;\ngetstatic Drill/n I\ninvokevirtual java/io/PrintStream/println(I)V\nreturn\n.end method\n",
    )
}

fn put_all_made(out: &mut Vec<u8>, workers: u32) -> Result<(), NoMemory>
    requires { workers ≤ MOST_DRILL_WORKERS }
    ensures { OnOk result (out.new.items ≡ out.old.items ++ spec.of_workers spec.made_text workers) }
{
    for i in 0..workers {
        put_made(out, 1 + i)?;
    }
    Ok(())
}

fn put_all_started(out: &mut Vec<u8>, workers: u32) -> Result<(), NoMemory>
    requires { workers ≤ MOST_DRILL_WORKERS }
    ensures { OnOk result (out.new.items ≡ out.old.items ++ spec.of_workers spec.started_text workers) }
{
    for i in 0..workers {
        put_started(out, 1 + i)?;
    }
    Ok(())
}

fn put_all_joined(out: &mut Vec<u8>, workers: u32) -> Result<(), NoMemory>
    requires { workers ≤ MOST_DRILL_WORKERS }
    ensures { OnOk result (out.new.items ≡ out.old.items ++ spec.of_workers spec.joined_text workers) }
{
    for i in 0..workers {
        put_joined(out, 1 + i)?;
    }
    Ok(())
}

#[tactic(auto, unfolding(crate::specs::Texts::head_text))]
fn put_head(out: &mut Vec<u8>) -> Result<(), NoMemory>
    ensures { OnOk result (out.new.items ≡ out.old.items ++ spec.head_text) }
{
    put_class(out)?;
    put_add(out)?;
    put_run(out)?;
    put_main(out)
}

#[tactic(auto, unfolding(crate::specs::Texts::body_text))]
fn put_body(out: &mut Vec<u8>, workers: u32) -> Result<(), NoMemory>
    requires { workers ≤ MOST_DRILL_WORKERS }
    ensures { OnOk result (out.new.items ≡ out.old.items ++ spec.body_text workers) }
{
    put_all_made(out, workers)?;
    put_all_started(out, workers)?;
    put_all_joined(out, workers)
}

#[tactic(auto, unfolding(crate::specs::Texts::drill_text))]
fn put_whole(out: &mut Vec<u8>, workers: u32) -> Result<(), NoMemory>
    requires { workers ≤ MOST_DRILL_WORKERS }
    ensures { OnOk result (out.new.items ≡ out.old.items ++ spec.drill_text workers) }
{
    put_head(out)?;
    put_numbered(out, b".limit locals", workers + 1)?;
    put_body(out, workers)?;
    put_end(out)
}

/// The text of a program of so many workers, from 1 to 60. Each adds 1 to a static 1,000 times, in a synchronized method.
/// Every run of it that is done has 4,004 events a worker and 3 more, and prints 1,000 times the number of workers.
pub fn drill_text(alloc: Global, workers: u32) -> Result<Vec<u8>, NoMemory>
    requires some { 1 ≤ workers }
    requires few { workers ≤ MOST_DRILL_WORKERS }
    ensures { IfOk result (λ text. text.items ≡ spec.drill_text workers) }
{
    let mut out = Vec::new(alloc);
    put_whole(&mut out, workers)?;
    Ok(out)
}
