// What each instruction does.
ghost use Rattle.std.specs.Prelude.{◌≡◌, ◌+◌, ◌<◌, ◌≤◌, ◌^◌, length};
ghost use Rattle.vm_model.specs.declared.limits.TheConstants.{MOST_TEXT_BYTES};
ghost use Rattle.machine_model.specs.Effect.{effect};
ghost use Rattle.frame_actions.specs.Acts.{plain, acted_of, after};

use crate::accessing::{of_array, of_field, of_monitor, of_static};
use crate::acted::Acted;
use crate::arithmetic::{of_one, of_two_numbers};
use crate::calling::{call, construct, give, of_thread, print};
use crate::frame::Frame;
use crate::jumping::{jump_of_one, jump_of_references, jump_of_two};
use crate::moving::{constant, of_local, order};
use vm_model::{Instr, Program};

/// What this instruction does at this frame (JVMS SE 8 §6.5). A step of the thread alone changes the frame; nothing else does.
pub fn act(frame: &mut Frame, program: &Program, instr: Instr) -> Acted
    requires place { frame.old.place < 2 ^ 31 }
    requires room { length frame.old.stack.values + 2 ≤ frame.old.stack.room }
    requires few { length program.now.methods ≤ MOST_TEXT_BYTES }
    ensures acted { result ≡ acted_of (effect program.now instr (plain frame.old)) }
    ensures room { frame.old.stack.room ≤ frame.new.stack.room }
    ensures method { frame.new.method ≡ frame.old.method }
    ensures frame { plain frame.new ≡ after (effect program.now instr (plain frame.old)) (plain frame.old) }
{
    match instr {
        Instr::Push(_) | Instr::PushText(_) | Instr::PushNull | Instr::Out => {
            constant(frame, program, instr)
        }
        Instr::Iload(_)
        | Instr::Istore(_)
        | Instr::Aload(_)
        | Instr::Astore(_)
        | Instr::Iinc { .. } => { of_local(frame, program, instr) }
        Instr::Nop
        | Instr::Pop
        | Instr::Pop2
        | Instr::Dup
        | Instr::DupX1
        | Instr::DupX2
        | Instr::Dup2
        | Instr::Swap => { order(frame, program, instr) }
        Instr::Iadd
        | Instr::Isub
        | Instr::Imul
        | Instr::Idiv
        | Instr::Irem
        | Instr::Ishl
        | Instr::Ishr
        | Instr::Iushr
        | Instr::Iand
        | Instr::Ior
        | Instr::Ixor => { of_two_numbers(frame, program, instr) }
        Instr::Ineg | Instr::ArrayLength => of_one(frame, program, instr),
        Instr::Ifeq(_)
        | Instr::Ifne(_)
        | Instr::Iflt(_)
        | Instr::Ifge(_)
        | Instr::Ifgt(_)
        | Instr::Ifle(_) => { jump_of_one(frame, program, instr) }
        Instr::IfIcmpeq(_)
        | Instr::IfIcmpne(_)
        | Instr::IfIcmplt(_)
        | Instr::IfIcmpge(_)
        | Instr::IfIcmpgt(_)
        | Instr::IfIcmple(_) => { jump_of_two(frame, program, instr) }
        Instr::IfAcmpeq(_)
        | Instr::IfAcmpne(_)
        | Instr::Ifnull(_)
        | Instr::Ifnonnull(_)
        | Instr::Goto(_) => { jump_of_references(frame, program, instr) }
        Instr::GetStatic(_) | Instr::PutStatic(_) | Instr::New(_) => of_static(
            frame, program, instr,
        ),
        Instr::GetField { .. } | Instr::PutField { .. } => of_field(frame, program, instr),
        Instr::Iaload | Instr::Iastore | Instr::NewArray => of_array(frame, program, instr),
        Instr::MonitorEnter | Instr::MonitorExit | Instr::Wait | Instr::Notify | Instr::NotifyAll =>
            { of_monitor(frame, program, instr) }
        Instr::InvokeStatic(_)
        | Instr::InvokeVirtual(_)
        | Instr::InvokeSpecial(_)
        | Instr::RunOf(_) => { call(frame, program, instr) }
        Instr::Return | Instr::Ireturn | Instr::Areturn | Instr::Athrow => give(
            frame, program, instr,
        ),
        Instr::Start | Instr::Join | Instr::Yield => of_thread(frame, program, instr),
        Instr::Init { .. } | Instr::InitRunnable => construct(frame, program, instr),
        Instr::Println | Instr::PrintInt { .. } | Instr::PrintText { .. } => print(
            frame, program, instr,
        ),
    }
}
