// A thread by itself.
ghost use Rattle.std.specs.Prelude.{◌≡◌, ◌≤◌, ◌↔◌, IfOk, IsOk, OnOk, OnErr, IsSome, IsTrue, Some, length};
ghost use Rattle.vm_model.specs.declared.limits.TheConstants.{MOST_LOCAL_STEPS};
ghost use Rattle.vm_model.specs.Program.{method_at};
ghost use Rattle.machine_model.specs.Frames.{Ended};
ghost use Rattle.machine_model.specs.Effect.{lock_if as model_lock_if};
ghost use Rattle.machine_model.specs.LocalStep.{begun_in, class_of, first_of_main, first_of_thread, is_synchronized};
ghost use Rattle.local_machine.specs.Further.{IsAtRest, IsFurther};
ghost use Rattle.local_machine.specs.LocalView.{IsReady, absorbed_by, advanced, fresh};

use crate::calls::{first_frame, no_spares};
use crate::completion::Ready;
use crate::copy::{copy_completion, copy_frames};
use crate::phase::Phase;
use crate::reach::reach;
use crate::reply::{answer, outcome_after};
use frame_actions::{Frame, lock_if, run_method};
use std::alloc::Global;
use std::marker::Model;
use vm_model::{Lock, NoMemory, ObjRef, Op, Plain, Program, Reply, Value};

/// One thread by itself: its frames, how many steps it made since the last reply, and the operation that it asks for once that
/// is reached. Frames that are done are kept for the room that they have, and are no part of its value.
#[derive(Drop)]
pub struct Local {
    phase: Phase,
    top: Frame,
    below: Vec<Frame>,
    spares: Vec<Frame>,
    steps: u32,
    ready: Option<Ready>,
}

impl Model for Local {
    ghost use Rattle.local_machine.specs.LocalView.{LocalView};

    ghost Value = { LocalView };

    ghost use Rattle.local_machine.specs.LocalFields.{IsSound, view_of};

    ghost view = { view_of };

    ghost invariant = { IsSound };
}

impl Local {
    /// A thread at the begin of this method.
    fn begin(
        alloc: Global,
        program: &Program,
        method: u32,
        arguments: &[Value],
        lock: Option<Lock>,
    ) -> Result<Local, NoMemory>
        ensures { IfOk result (λ l. l ≡ fresh (begun_in program.now method arguments.now lock)) }
    {
        let mut spares = no_spares(alloc)?;
        let top = first_frame(alloc, program, method, arguments, lock, &mut spares)?;
        let below = Vec::new(alloc);
        match lock {
            Some(_) => Ok(Local {
                phase: Phase::Entering,
                top,
                below,
                spares,
                steps: 0,
                ready: None,
            }),
            None => Ok(Local {
                phase: Phase::Plain,
                top,
                below,
                spares,
                steps: 0,
                ready: None,
            }),
        }
    }

    /// The main thread before its first step (JVMS SE 8 §5.2). The argument of `main` is null. It isn't ready.
    pub fn first(alloc: Global, plain: &Plain) -> Result<Local, NoMemory>
        ensures { IfOk result (λ l. l ≡ fresh (first_of_main plain.now)) }
    {
        let program = plain.program();
        let main = program.main_method();
        let lock = lock_of_static(program, main);
        Local::begin(alloc, program, main, &[Value::Null], lock)
    }

    /// A thread that was started for this object, before its first step: at the `run()V` of the object's class, or at that of
    /// `Thread` where the class has none (JLS SE 8 §17, `Thread.start`). It isn't ready.
    pub fn of_thread(alloc: Global, plain: &Plain, target: ObjRef) -> Result<Local, NoMemory>
        ensures { IfOk result (λ l. l ≡ fresh (first_of_thread plain.now target)) }
    {
        let program = plain.program();
        let run = run_method(program, target.class);
        let lock = lock_of_object(program, run, target.id);
        let object = Value::Obj {
            id: target.id,
            class: target.class,
        };
        Local::begin(alloc, program, run, &[object], lock)
    }

    /// Whether the thread has ended.
    pub fn is_ended(&self) -> bool
        ensures { IsTrue result ↔ (self.now.state ≡ Ended) }
    {
        matches!(self.phase, Phase::Ended)
    }

    /// Whether the next operation is reached. An ended thread is never ready.
    pub fn is_ready(&self) -> bool
        ensures { result ≡ self.now.is_ready }
    {
        self.ready.is_some()
    }

    /// How many steps of its own the thread made since the last reply: at most `MOST_LOCAL_STEPS`.
    pub fn steps(&self) -> u32
        ensures value { result ≡ self.now.steps }
        ensures few { result ≤ MOST_LOCAL_STEPS }
    {
        self.steps
    }

    /// The operation that a ready thread asks for. There is none where the thread isn't ready, is ended, or stands at an
    /// instruction that misses an operand, which verified code never does.
    pub fn operation(&self) -> Option<Op>
        ensures { result ≡ self.now.pending }
    {
        match &self.ready {
            Some(ready) => ready.op,
            None => None,
        }
    }

    /// The operation that a ready thread asks for, where there is one. It takes no memory.
    pub fn pending(&self) -> Op
        requires { IsSome self.now.pending }
        ensures { self.now.pending ≡ Some result }
    {
        self.operation().unwrap()
    }

    /// Runs the thread's own instructions until the next operation is reached, at most `MOST_LOCAL_STEPS` of them since the last reply, and
    /// makes the room that the reply will need. A thread that is ready or ended stays as it is. Where memory is missing the
    /// thread stands some steps further on the same way, and the next call goes on from there.
    pub fn advance(&mut self, alloc: Global, plain: &Plain) -> Result<(), NoMemory>
        ensures ok { OnOk result (self.new ≡ advanced plain.now self.old) }
        ensures err { OnErr result (advanced plain.now self.new ≡ advanced plain.now self.old) }
        ensures further { OnErr result (IsFurther plain.now self.old self.new) }
        ensures stays { IsAtRest self.old → IsOk result × (self.new ≡ self.old) }
    {
        if self.ready.is_some() {
            return Ok(());
        }
        let program = plain.program();
        self.ready = reach(
            alloc,
            program,
            self.phase,
            &mut self.top,
            &mut self.below,
            &mut self.spares,
            &mut self.steps,
        )?;
        Ok(())
    }

    /// Goes on after the reply to the operation that the thread asked for. It isn't ready then. It takes no memory.
    pub fn absorb(&mut self, plain: &Plain, reply: Reply)
        requires { IsReady plain.now self.old }
        ensures { self.new ≡ fresh (absorbed_by plain.now self.old.pending self.old.state reply) }
    {
        self.steps = 0;
        let Some(ready) = self.ready.take() else {
            return;
        };
        let Some(op) = ready.op else {
            return;
        };
        answer(
            outcome_after(op, reply),
            ready.completion,
            &mut self.phase,
            &mut self.top,
            &mut self.below,
            &mut self.spares,
        );
    }

    /// The same thread again.
    pub fn copy(&self, alloc: Global) -> Result<Local, NoMemory>
        ensures { IfOk result (λ l. l ≡ self.now) }
    {
        let top = self.top.copy(alloc)?;
        let below = copy_frames(alloc, self.below.as_slice())?;
        let spares = no_spares(alloc)?;
        let phase = self.phase;
        let steps = self.steps;
        match &self.ready {
            Some(ready) => {
                let completion = copy_completion(alloc, &ready.completion)?;
                let op = ready.op;
                Ok(Local {
                    phase,
                    top,
                    below,
                    spares,
                    steps,
                    ready: Some(Ready { op, completion }),
                })
            }
            None => Ok(Local {
                phase,
                top,
                below,
                spares,
                steps,
                ready: None,
            }),
        }
    }
}

/// The lock of a static method, if it is synchronized.
fn lock_of_static(program: &Program, method: u32) -> Option<Lock>
    ensures { result ≡ model_lock_if (is_synchronized (method_at program.now method)) (Lock.Class (class_of (method_at program.now method))) }
{
    match program.method(method) {
        Some(m) => lock_if(m.is_synchronized, Lock::Class(m.class)),
        None => None,
    }
}

/// The lock of a method on this object, if it is synchronized.
fn lock_of_object(program: &Program, method: u32, id: u32) -> Option<Lock>
    ensures { result ≡ model_lock_if (is_synchronized (method_at program.now method)) (Lock.Object id) }
{
    match program.method(method) {
        Some(m) => lock_if(m.is_synchronized, Lock::Object(id)),
        None => None,
    }
}
