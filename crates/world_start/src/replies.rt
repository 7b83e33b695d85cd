// Which reply may be one to which operation.
ghost use Rattle.std.specs.Prelude.{◌≡◌, Some};
ghost use Rattle.machine_model.specs.Operations.{is_unit as is_unit_reply, is_new_object as is_object_of, is_new_array as is_array_of, is_kind as is_same_kind, raises as raises_kind, makes as makes_such, begins as begins_thread, waits as waits_for};

use crate::start::Start;
use vm_model::{FaultKind, Kind, Op, Reply, Value};

fn is_unit(reply: Reply) -> bool
    ensures { result ≡ is_unit_reply reply }
{
    match reply {
        Reply::Unit => true,
        Reply::Got(_) => false,
        Reply::Made(_) => false,
        Reply::Began(_) => false,
        Reply::Waits(_) => false,
        Reply::Raise(_) => false,
    }
}

fn is_new_object(class: u32, value: Value) -> bool
    ensures { result ≡ is_object_of class value }
{
    match value {
        Value::Int(_) => false,
        Value::Null => false,
        Value::Obj { class: found, .. } => found == class,
        Value::Arr { .. } => false,
        Value::Text(_) => false,
        Value::Stream => false,
    }
}

fn is_new_array(len: u32, value: Value) -> bool
    ensures { result ≡ is_array_of len value }
{
    match value {
        Value::Int(_) => false,
        Value::Null => false,
        Value::Obj { .. } => false,
        Value::Arr { len: found, .. } => found == len,
        Value::Text(_) => false,
        Value::Stream => false,
    }
}

fn makes_object(class: u32, reply: Reply) -> bool
    ensures { result ≡ makes_such (is_object_of class) reply }
{
    match reply {
        Reply::Unit => false,
        Reply::Got(_) => false,
        Reply::Made(value) => is_new_object(class, value),
        Reply::Began(_) => false,
        Reply::Waits(_) => false,
        Reply::Raise(_) => false,
    }
}

fn makes_array(len: u32, reply: Reply) -> bool
    ensures { result ≡ makes_such (is_array_of len) reply }
{
    match reply {
        Reply::Unit => false,
        Reply::Got(_) => false,
        Reply::Made(value) => is_new_array(len, value),
        Reply::Began(_) => false,
        Reply::Waits(_) => false,
        Reply::Raise(_) => false,
    }
}

fn begins(reply: Reply) -> bool
    ensures { result ≡ begins_thread reply }
{
    match reply {
        Reply::Unit => false,
        Reply::Got(_) => false,
        Reply::Made(_) => false,
        Reply::Began(_) => true,
        Reply::Waits(_) => false,
        Reply::Raise(_) => false,
    }
}

fn waits(reply: Reply) -> bool
    ensures { result ≡ waits_for reply }
{
    match reply {
        Reply::Unit => false,
        Reply::Got(_) => false,
        Reply::Made(_) => false,
        Reply::Began(_) => false,
        Reply::Waits(_) => true,
        Reply::Raise(_) => false,
    }
}

fn is_heap_full(reply: Reply) -> bool
    ensures { result ≡ raises_kind FaultKind.HeapFull reply }
{
    matches!(reply, Reply::Raise(FaultKind::HeapFull))
}

fn is_monitor_state(reply: Reply) -> bool
    ensures { result ≡ raises_kind FaultKind.MonitorState reply }
{
    matches!(reply, Reply::Raise(FaultKind::MonitorState))
}

fn is_thread_state(reply: Reply) -> bool
    ensures { result ≡ raises_kind FaultKind.ThreadState reply }
{
    matches!(reply, Reply::Raise(FaultKind::ThreadState))
}

fn is_threads_full(reply: Reply) -> bool
    ensures { result ≡ raises_kind FaultKind.ThreadsFull reply }
{
    matches!(reply, Reply::Raise(FaultKind::ThreadsFull))
}

fn is_output_full(reply: Reply) -> bool
    ensures { result ≡ raises_kind FaultKind.OutputFull reply }
{
    matches!(reply, Reply::Raise(FaultKind::OutputFull))
}

impl Start {
    ghost use Rattle.machine_model.specs.Operations.{fits_reply, gets};

    fn gets(&self, kind: Option<Kind>, reply: Reply) -> bool
        ensures { result ≡ gets self.now kind reply }
    {
        match reply {
            Reply::Unit => false,
            Reply::Got(value) => self.fits_declared(value, kind),
            Reply::Made(_) => false,
            Reply::Began(_) => false,
            Reply::Waits(_) => false,
            Reply::Raise(_) => false,
        }
    }

    /// Whether the reply may be one to the operation: of the forms that the operation is answered by, with a value of the
    /// kind that is declared, or a new object or array as it was asked for. It looks at no world.
    pub fn fits(&self, op: &Op, reply: &Reply) -> bool
        ensures { result ≡ fits_reply self.now op.now reply.now }
    {
        let reply = *reply;
        match *op {
            Op::GetStatic { slot } => self.gets(self.static_kind(slot), reply),
            Op::PutStatic { .. } => is_unit(reply),
            Op::GetField { obj, place } => self.gets(self.field_kind(obj.class, place), reply),
            Op::PutField { .. } => is_unit(reply),
            Op::ArrayLoad { .. } => self.gets(Some(Kind::Int), reply),
            Op::ArrayStore { .. } => is_unit(reply),
            Op::New { class } => makes_object(class, reply) || is_heap_full(reply),
            Op::NewArray { len } => makes_array(len, reply) || is_heap_full(reply),
            Op::Enter { .. } => is_unit(reply),
            Op::Exit { .. } => is_unit(reply) || is_monitor_state(reply),
            Op::Wait { .. } => waits(reply) || is_monitor_state(reply),
            Op::Resume { .. } => is_unit(reply),
            Op::Notify { .. } => is_unit(reply) || is_monitor_state(reply),
            Op::NotifyAll { .. } => is_unit(reply) || is_monitor_state(reply),
            Op::Start { .. } => {
                begins(reply) || (is_thread_state(reply) || is_threads_full(reply))
            }
            Op::Join { .. } => is_unit(reply),
            Op::Print { .. } => is_unit(reply) || is_output_full(reply),
            Op::Yield => is_unit(reply),
            Op::Tick => is_unit(reply),
            Op::ThreadEnd => is_unit(reply),
            Op::Fault { .. } => is_unit(reply),
        }
    }
}
