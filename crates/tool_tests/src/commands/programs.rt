//! Programs that the commands are tried on, their logs, and what is printed of them.

/// The sum of 1 to 10 in a static field: 23 events.
pub const SUM: &[u8] =
    b".class public Sum\n.super java/lang/Object\n.field static s I\n.method public static main([Ljava/lang/String;)V\n.limit stack 2\n.limit locals 2\niconst_1\nistore_1\nLoop:\ngetstatic Sum/s I\niload_1\niadd\nputstatic Sum/s I\niinc 1 1\niload_1\nbipush 10\nif_icmple Loop\ngetstatic java/lang/System/out Ljava/io/PrintStream;\ngetstatic Sum/s I\ninvokevirtual java/io/PrintStream/println(I)V\nreturn\n.end method\n";

/// The log of the sum's run.
pub const SUM_LOG: &[u8] = b"\x44\x4A\x56\x4C\x01\x80\x80\x40\x01\x01\x00\x16\xF0";

/// What is printed of that run.
pub const SUM_TEXT: &[u8] = b"events 23\nintervals 1\nend done\noutput 3\n55\n";

/// A `main` that only returns: one event.
pub const SHORTEST: &[u8] =
    b".class A\n.super java/lang/Object\n.method public static main([Ljava/lang/String;)V\nreturn\n.end method\n";

/// The log of its run.
pub const SHORTEST_LOG: &[u8] = b"\x44\x4A\x56\x4C\x01\x80\x80\x40\x01\x01\x00\x00\xF0";

/// What is printed of its run.
pub const SHORTEST_TEXT: &[u8] = b"events 1\nintervals 1\nend done\noutput 0\n";

/// A division, which touches its thread alone: one event.
pub const DIVISION: &[u8] =
    b".class A\n.super java/lang/Object\n.method public static main([Ljava/lang/String;)V\niconst_1\niconst_1\nidiv\npop\nreturn\n.end method\n";

/// A program that adds what isn't there.
pub const UNDERFLOW: &[u8] =
    b".class A\n.super java/lang/Object\n.method public static main([Ljava/lang/String;)V\niadd\npop\nreturn\n.end method\n";

/// A `main` that enters a monitor twice and waits, and a thread that notifies it.
pub const TWICE: &[u8] =
    b".class Twice\n.super java/lang/Thread\n.field static o Ljava/lang/Object;\n.method public <init>()V\naload_0\ninvokespecial java/lang/Thread/<init>()V\nreturn\n.end method\n.method public run()V\ngetstatic Twice/o Ljava/lang/Object;\nastore_1\naload_1\nmonitorenter\naload_1\ninvokevirtual java/lang/Object/notify()V\naload_1\nmonitorexit\nreturn\n.end method\n.method public static main([Ljava/lang/String;)V\nnew java/lang/Object\ndup\ninvokespecial java/lang/Object/<init>()V\nastore_1\naload_1\nputstatic Twice/o Ljava/lang/Object;\nnew Twice\ndup\ninvokespecial Twice/<init>()V\ninvokevirtual Twice/start()V\naload_1\nmonitorenter\naload_1\nmonitorenter\naload_1\ninvokevirtual java/lang/Object/wait()V\naload_1\nmonitorexit\naload_1\nmonitorexit\nreturn\n.end method\n";

/// Two threads that each add 1 to a static with no lock; `main` joins both and throws an `Error` where the static isn't 2.
pub const WRITERS: &[u8] =
    b".class public W\n.super java/lang/Thread\n.field static n I\n.method public <init>()V\naload_0\ninvokespecial java/lang/Thread/<init>()V\nreturn\n.end method\n.method public run()V\ngetstatic W/n I\niconst_1\niadd\nputstatic W/n I\nreturn\n.end method\n.method public static main([Ljava/lang/String;)V\nnew W\ndup\ninvokespecial W/<init>()V\nastore_1\nnew W\ndup\ninvokespecial W/<init>()V\nastore_2\naload_1\ninvokevirtual W/start()V\naload_2\ninvokevirtual W/start()V\naload_1\ninvokevirtual W/join()V\naload_2\ninvokevirtual W/join()V\ngetstatic W/n I\niconst_2\nif_icmpeq Good\nnew java/lang/Error\ndup\ninvokespecial java/lang/Error/<init>()V\nathrow\nGood:\nreturn\n.end method\n";

/// The log of the writers' run by the ring without switches.
pub const WRITERS_LOG: &[u8] =
    b"\x44\x4A\x56\x4C\x01\x80\x80\x40\x03\x02\x00\x03\x06\x03\x01\x04\x02\x01\x07\x02\xF0";

/// The log of the writers' run by the schedule 3, 7, 7: thread 1 runs first, then `main` goes on, then thread 2.
pub const SWITCHED_LOG: &[u8] =
    b"\x44\x4A\x56\x4C\x01\x80\x80\x40\x03\x03\x00\x02\x03\x01\x03\x02\x01\x03\x02\x01\x08\x02\xF0";

/// A division by zero that nothing catches.
pub const FAULTY: &[u8] =
    b".class A\n.super java/lang/Object\n.method public static main([Ljava/lang/String;)V\niconst_1\niconst_0\nidiv\npop\nreturn\n.end method\n";
