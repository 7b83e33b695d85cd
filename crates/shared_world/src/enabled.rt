// When an operation may be done.
ghost use Rattle.std.specs.Prelude.{◌≡◌};
ghost use Rattle.machine_model.specs.Operations.{is_piece as is_known_piece};

use crate::rows;
use crate::state::State;
use vm_model::{ObjRef, Op, Piece, Value};
use world_start::Start;

/// Whether there is what is to be printed.
fn is_piece(start: &Start, piece: Piece) -> bool
    ensures { result ≡ is_known_piece start.now piece }
{
    match piece {
        Piece::Int(_) => true,
        Piece::Text(text) => start.has_text(text),
        Piece::Null => true,
        Piece::Nothing => true,
    }
}

impl State {
    ghost use Rattle.machine_model.specs.Operations.{is_enabled, is_there};

    /// Whether what the value names is there.
    fn is_there(&self, start: &Start, value: Value) -> bool
        ensures { result ≡ is_there start.now self.now value }
    {
        match value {
            Value::Int(_) => true,
            Value::Null => true,
            Value::Obj { id, class } => self.is_object(ObjRef { id, class }),
            Value::Arr { id, len } => self.is_array_of(id, len),
            Value::Text(text) => start.has_text(text),
            Value::Stream => true,
        }
    }

    /// Whether the thread may do this now. It takes no memory.
    pub fn is_enabled(&self, start: &Start, thread: u32, op: Op) -> bool
        ensures { result ≡ is_enabled start.now self.now thread op }
    {
        match op {
            Op::GetStatic { slot } => {
                rows::is_ready(self.rows(), thread) && (slot as usize) < self.statics().len()
            }
            Op::PutStatic { slot, value } => {
                rows::is_ready(self.rows(), thread)
                    && ((slot as usize) < self.statics().len()
                        && (self.is_there(start, value)
                            && start.fits_declared(value, start.static_kind(slot))))
            }
            Op::GetField { obj, place } => {
                rows::is_ready(self.rows(), thread)
                    && (self.is_object(obj) && self.word(obj.id, place).is_some())
            }
            Op::PutField { obj, place, value } => {
                rows::is_ready(self.rows(), thread)
                    && (self.is_object(obj)
                        && (self.word(obj.id, place).is_some()
                            && (self.is_there(start, value)
                                && start.fits_declared(value, start.field_kind(obj.class, place)))))
            }
            Op::ArrayLoad { arr, index } => {
                rows::is_ready(self.rows(), thread)
                    && (self.is_array(arr) && self.word(arr, index).is_some())
            }
            Op::ArrayStore { arr, index, .. } => {
                rows::is_ready(self.rows(), thread)
                    && (self.is_array(arr) && self.word(arr, index).is_some())
            }
            Op::New { class } => rows::is_ready(self.rows(), thread) && start.is_class(class),
            Op::NewArray { .. } => rows::is_ready(self.rows(), thread),
            Op::Enter { lock } => {
                rows::is_ready(self.rows(), thread) && self.monitors().is_free_for(lock, thread)
            }
            Op::Exit { lock } => {
                rows::is_ready(self.rows(), thread) && self.monitors().exists(lock)
            }
            Op::Wait { lock } => {
                rows::is_ready(self.rows(), thread) && self.monitors().exists(lock)
            }
            Op::Resume { lock, count } => {
                rows::may_resume(self.rows(), thread, lock, count) && self.monitors().is_free(lock)
            }
            Op::Notify { lock } => {
                rows::is_ready(self.rows(), thread) && self.monitors().exists(lock)
            }
            Op::NotifyAll { lock } => {
                rows::is_ready(self.rows(), thread) && self.monitors().exists(lock)
            }
            Op::Start { target } => {
                rows::is_ready(self.rows(), thread)
                    && (self.is_object(target) && start.is_thread(target.class))
            }
            Op::Join { obj } => {
                rows::is_ready(self.rows(), thread)
                    && (self.is_any_object(obj) && !rows::is_running(self.rows(), obj))
            }
            Op::Print { piece, .. } => {
                rows::is_ready(self.rows(), thread) && is_piece(start, piece)
            }
            Op::Yield => rows::is_ready(self.rows(), thread),
            Op::Tick => rows::is_ready(self.rows(), thread),
            Op::ThreadEnd => rows::is_ready(self.rows(), thread),
            Op::Fault { .. } => rows::is_ready(self.rows(), thread),
        }
    }
}
