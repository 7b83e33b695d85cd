// The shared state, and what each operation does to it.
ghost use Rattle.std.specs.Prelude.{◌≡◌, ℕ, ◌+◌, ◌≤◌, [], ◌∷◌, ◌++◌, length, slice_get, slice_set, replicate, pos, true, Ok, None, Some, if◌then◌else◌, IsTrue, IsSome, OnOk, OnErr, IfOk};
ghost use Rattle.vm_model.specs.declared.limits.TheConstants.{MOST_EVENTS};
ghost use Rattle.machine_model.specs.Operations.{got as got_of, first_of};

use crate::heap::{Heap, Item};
use crate::rows;
use machine_model::{Kept, Row, RowState};
use monitor_table::{MonitorTable, Owned, Waited};
use std::alloc::Global;
use std::marker::Model;
use vm_model::{
    Fault, FaultKind, Lock, MOST_OUTPUT_BYTES, MOST_THREADS, NoMemory, ObjRef, Op, Piece, Reply,
    Value,
};
use world_start::Start;

/// The shared state: the statics, the objects and arrays, their monitors, the threads that were started, what was printed,
/// and the fault that ended the run, if one did.
#[derive(Debug, Drop)]
pub struct State {
    statics: Vec<Value>,
    heap: Heap,
    monitors: MonitorTable,
    rows: Vec<Row>,
    output: Vec<u8>,
    fault: Option<Fault>,
}

impl Model for State {
    ghost use Rattle.machine_model.specs.Shared.{SharedState};

    ghost Value = { SharedState };

    ghost view = { λ s. record { statics = s.statics.items; heap = s.heap.items; monitors = s.monitors; rows = s.rows.items; output = s.output.items; fault = s.fault } };
}

fn got(value: Option<Value>) -> Reply
    ensures { result ≡ got_of value }
{
    match value {
        Some(value) => Reply::Got(value),
        None => Reply::Unit,
    }
}

fn set_static(statics: &mut [Value], slot: u32, value: Value)
    ensures { statics.new ≡ slice_set statics.old slot value }
{
    let slot = slot as usize;
    if slot < statics.len() {
        statics[slot] = value;
    }
}

/// The longest of these waiters, if there is one.
fn longest(waiters: &[u32]) -> &[u32]
    ensures { result.now ≡ first_of waiters.now }
{
    if waiters.is_empty() {
        waiters
    } else {
        &waiters[..1]
    }
}

fn line_end(newline: bool) -> &'static [u8]
    ensures { result.now ≡ (if newline then 10 ∷ [] else []) }
{
    if newline { b"\n" } else { b"" }
}

/// Adds these bytes after the output, of which nothing is copied unless it has to move.
fn append(output: &mut Vec<u8>, bytes: &[u8], end: &[u8]) -> Result<(), NoMemory>
    ensures ok { OnOk result (output.new.items ≡ output.old.items ++ (bytes.now ++ end.now)) }
    ensures err { OnErr result (output.new.items ≡ output.old.items) }
{
    output.reserve(bytes.len() + end.len())?;
    match output.extend_from_slice(bytes) {
        Ok(()) => {}
        Err(_) => unreachable!(),
    }
    match output.extend_from_slice(end) {
        Ok(()) => Ok(()),
        Err(_) => unreachable!(),
    }
}

impl State {
    ghost use Rattle.machine_model.specs.Shared.{start as first_state, words_of, is_live_row, exited, waited, one_notified, all_notified, monitor_at};
    ghost use Rattle.machine_model.specs.Operations.{is_enabled, is_ready, is_object, is_there, may_resume, word_in, word_at, put_word, has_room, with_item, set_monitor, as_owner, answers, enter, resume, notify_rows, release_all, end_thread, begin, print, printed, make, apply, set_row, free_for, free_lock, is_any_object, is_array, is_array_of};
    ghost use Rattle.monitor_table.specs.Locks.{monitor_of};
    ghost use Rattle.shared_world.specs.Kept.{AreWithin};
    ghost use Rattle.shared_world.specs.Worlds.{takes_memory};

    /// The state at the start of a program.
    pub fn new(alloc: Global, start: &Start) -> Result<State, NoMemory>
        ensures { IfOk result (λ s. s ≡ first_state start.now) }
    {
        let statics = start.first_statics(alloc)?;
        // More classes than numbers for them would take more memory than there is.
        let Ok(classes) = u32::try_from(start.class_count()) else {
            return Err(NoMemory);
        };
        let monitors = MonitorTable::new(alloc, classes)?;
        let mut rows = Vec::new(alloc);
        rows.push(Row {
            state: RowState::Live,
            target: None,
            kept: None,
        })?;
        Ok(State {
            statics,
            heap: Heap::new(alloc),
            monitors,
            rows,
            output: Vec::new(alloc),
            fault: None,
        })
    }

    /// An equal state.
    pub fn copy(&self, alloc: Global) -> Result<State, NoMemory>
        ensures { IfOk result (λ s. s ≡ self.now) }
    {
        Ok(State {
            statics: Vec::from_slice(alloc, self.statics.as_slice())?,
            heap: self.heap.copy(alloc)?,
            monitors: self.monitors.copy(alloc)?,
            rows: Vec::from_slice(alloc, self.rows.as_slice())?,
            output: Vec::from_slice(alloc, self.output.as_slice())?,
            fault: self.fault,
        })
    }

    /// What the statics hold, by slot.
    pub fn statics(&self) -> &[Value]
        ensures { result.now ≡ self.now.statics }
    {
        self.statics.as_slice()
    }

    /// The monitors of all locks.
    pub fn monitors(&self) -> &MonitorTable
        ensures { result.now ≡ self.now.monitors }
    {
        &self.monitors
    }

    /// The threads that were started, by number.
    pub fn rows(&self) -> &[Row]
        ensures { result.now ≡ self.now.rows }
    {
        self.rows.as_slice()
    }

    /// All bytes that were printed.
    pub fn output(&self) -> &[u8]
        ensures { result.now ≡ self.now.output }
    {
        self.output.as_slice()
    }

    /// The fault that ended the run, if one did.
    pub fn fault(&self) -> Option<Fault>
        ensures { result ≡ self.now.fault }
    {
        self.fault
    }

    /// How many objects and arrays were made.
    pub fn objects(&self) -> u32
        ensures { result ≡ length self.now.heap }
    {
        self.heap.len()
    }

    /// How many words the objects and arrays take.
    pub fn words(&self) -> u32
        ensures { result ≡ words_of self.now.heap }
    {
        self.heap.words()
    }

    /// Whether there is an object of this id and class.
    pub fn is_object(&self, obj: ObjRef) -> bool
        ensures { result ≡ is_object self.now obj }
    {
        self.heap.is_object(obj)
    }

    /// Whether there is an object of this id, whatever its class.
    pub fn is_any_object(&self, id: u32) -> bool
        ensures { result ≡ is_any_object (slice_get self.now.heap id) }
    {
        self.heap.is_any_object(id)
    }

    /// Whether there is an array of this id.
    pub fn is_array(&self, id: u32) -> bool
        ensures { result ≡ is_array (slice_get self.now.heap id) }
    {
        self.heap.is_array(id)
    }

    /// Whether there is an array of this id and length.
    pub fn is_array_of(&self, id: u32, len: u32) -> bool
        ensures { result ≡ is_array_of len (slice_get self.now.heap id) }
    {
        self.heap.is_array_of(id, len)
    }

    /// What an object's field or an array's item holds.
    pub fn word(&self, id: u32, place: u32) -> Option<Value>
        ensures { result ≡ word_at self.now id place }
    {
        self.heap.word(id, place)
    }

    fn make(&mut self, alloc: Global, item: Item, value: Value) -> Result<Reply, NoMemory>
        requires { has_room self.old (1 + length item.words) ≡ true }
        ensures ok { IfOk result (λ reply. make self.old item value ≡ answers self.new reply) }
        ensures err { OnErr result (self.new ≡ self.old) }
    {
        self.heap.reserve()?;
        self.monitors.add_object(alloc)?;
        self.heap.push(item);
        Ok(Reply::Made(value))
    }

    fn make_object(&mut self, alloc: Global, start: &Start, class: u32) -> Result<Reply, NoMemory>
        ensures ok { IfOk result (λ reply. apply start.now self.old 0 (Op.New class) ≡ answers self.new reply) }
        ensures err { OnErr result (self.new ≡ self.old) }
    {
        let words = start.first_fields(alloc, class)?;
        if !self.heap.has_room(1 + words.len() as u64) {
            return Ok(Reply::Raise(FaultKind::HeapFull));
        }
        let id = self.heap.len();
        self.make(
            alloc,
            Item::new(Some(class), words),
            Value::Obj { id, class },
        )
    }

    fn make_array(&mut self, alloc: Global, len: u32) -> Result<Reply, NoMemory>
        ensures ok { IfOk result (λ reply. make self.old (record { class = None; words = replicate len (Value.Int (pos 0)) }) (Value.Arr (length self.old.heap) len) ≡ answers self.new reply) }
        ensures err { OnErr result (self.new ≡ self.old) }
    {
        if !self.heap.has_room(1 + len as u64) {
            return Ok(Reply::Raise(FaultKind::HeapFull));
        }
        let mut words = Vec::new(alloc);
        words.resize(len as usize, Value::Int(0))?;
        let id = self.heap.len();
        self.make(alloc, Item::new(None, words), Value::Arr { id, len })
    }

    fn enter(&mut self, thread: u32, lock: Lock)
        requires free { IsTrue (free_for (monitor_at self.old.monitors lock) thread) }
        requires few { AreWithin MOST_EVENTS self.old.monitors }
        ensures { self.new ≡ enter self.old thread lock (monitor_at self.old.monitors lock) }
    {
        self.monitors.enter(lock, thread);
    }

    fn exit(&mut self, thread: u32, lock: Lock) -> Reply
        requires { IsSome (monitor_at self.old.monitors lock) }
        ensures { as_owner self.old thread (monitor_at self.old.monitors lock) (λ m. answers (set_monitor self.old lock (exited m)) Reply.Unit) ≡ answers self.new result }
    {
        match self.monitors.exit(lock, thread) {
            Owned::Done => Reply::Unit,
            Owned::NotOwner => Reply::Raise(FaultKind::MonitorState),
        }
    }

    fn wait(&mut self, thread: u32, lock: Lock) -> Result<Reply, NoMemory>
        requires exists { IsSome (monitor_at self.old.monitors lock) }
        requires few { AreWithin MOST_EVENTS self.old.monitors }
        ensures ok { IfOk result (λ reply. as_owner self.old thread (monitor_at self.old.monitors lock) (λ m. answers (record (set_monitor self.old lock (waited m thread)) { rows = set_row self.old.rows thread RowState.Waiting (Some (record { lock = lock; count = m.count })) }) (Reply.Waits m.count)) ≡ answers self.new reply) }
        ensures err { OnErr result (self.new ≡ self.old) }
    {
        match self.monitors.wait(lock, thread)? {
            Waited::Count(count) => {
                rows::set_row(
                    &mut self.rows,
                    thread,
                    RowState::Waiting,
                    Some(Kept { lock, count }),
                );
                Ok(Reply::Waits(count))
            }
            Waited::NotOwner => Ok(Reply::Raise(FaultKind::MonitorState)),
        }
    }

    fn resume(&mut self, thread: u32, lock: Lock, count: u32)
        requires { IsTrue (free_lock (monitor_at self.old.monitors lock)) }
        ensures { self.new ≡ resume self.old thread lock count (monitor_at self.old.monitors lock) }
    {
        self.monitors.resume(lock, thread, count);
        rows::set_row(&mut self.rows, thread, RowState::Live, None);
    }

    fn notify(&mut self, thread: u32, lock: Lock) -> Reply
        requires { IsSome (monitor_at self.old.monitors lock) }
        ensures { as_owner self.old thread (monitor_at self.old.monitors lock) (λ m. answers (record (set_monitor self.old lock (one_notified m)) { rows = notify_rows self.old.rows (first_of m.waiters) }) Reply.Unit) ≡ answers self.new result }
    {
        if !self.monitors.owns(lock, thread) {
            return Reply::Raise(FaultKind::MonitorState);
        }
        rows::notify_rows(&mut self.rows, longest(self.monitors.waiting(lock)));
        self.monitors.notify(lock, thread);
        Reply::Unit
    }

    fn notify_all(&mut self, thread: u32, lock: Lock) -> Reply
        requires { IsSome (monitor_at self.old.monitors lock) }
        ensures { as_owner self.old thread (monitor_at self.old.monitors lock) (λ m. answers (record (set_monitor self.old lock (all_notified m)) { rows = notify_rows self.old.rows m.waiters }) Reply.Unit) ≡ answers self.new result }
    {
        if !self.monitors.owns(lock, thread) {
            return Reply::Raise(FaultKind::MonitorState);
        }
        rows::notify_rows(&mut self.rows, self.monitors.waiting(lock));
        self.monitors.notify_all(lock, thread);
        Reply::Unit
    }

    fn begin(&mut self, target: ObjRef) -> Result<Reply, NoMemory>
        ensures ok { IfOk result (λ reply. begin self.old target ≡ answers self.new reply) }
        ensures err { OnErr result (self.new ≡ self.old) }
    {
        if rows::was_started(&self.rows, target.id) {
            return Ok(Reply::Raise(FaultKind::ThreadState));
        }
        let thread = self.rows.len();
        if thread >= MOST_THREADS as usize {
            return Ok(Reply::Raise(FaultKind::ThreadsFull));
        }
        self.rows.push(Row {
            state: RowState::Live,
            target: Some(target),
            kept: None,
        })?;
        Ok(Reply::Began(thread as u32))
    }

    fn print(&mut self, bytes: &[u8], newline: bool) -> Result<Reply, NoMemory>
        ensures ok { IfOk result (λ reply. print self.old (bytes.now ++ (if newline then 10 ∷ [] else [])) ≡ answers self.new reply) }
        ensures err { OnErr result (self.new ≡ self.old) }
    {
        let end = line_end(newline);
        if self.output.len() + (bytes.len() + end.len()) > MOST_OUTPUT_BYTES {
            return Ok(Reply::Raise(FaultKind::OutputFull));
        }
        append(&mut self.output, bytes, end)?;
        Ok(Reply::Unit)
    }

    fn print_piece(
        &mut self,
        alloc: Global,
        start: &Start,
        piece: Piece,
        newline: bool,
    ) -> Result<Reply, NoMemory>
        ensures ok { IfOk result (λ reply. print self.old (printed start.now piece newline) ≡ answers self.new reply) }
        ensures err { OnErr result (self.new ≡ self.old) }
    {
        match piece {
            Piece::Int(n) => {
                let digits = n.to_string(alloc)?;
                self.print(digits.as_bytes(), newline)
            }
            Piece::Text(text) => self.print(start.text(text), newline),
            Piece::Null => self.print(b"null", newline),
            Piece::Nothing => self.print(b"", newline),
        }
    }

    fn release_all(&mut self, target: Option<ObjRef>)
        ensures { self.new ≡ release_all self.old target }
    {
        let Some(target) = target else {
            return;
        };
        let lock = Lock::Object(target.id);
        if !self.monitors.exists(lock) {
            return;
        }
        rows::notify_rows(&mut self.rows, self.monitors.waiting(lock));
        self.monitors.release_waiters(lock);
    }

    fn end_thread(&mut self, thread: u32)
        ensures { self.new ≡ end_thread self.old thread }
    {
        let target = rows::target(&self.rows, thread);
        self.release_all(target);
        rows::set_row(&mut self.rows, thread, RowState::Ended, None);
    }

    /// Does an enabled operation. It makes its growths before it changes anything.
    pub fn apply(
        &mut self,
        alloc: Global,
        start: &Start,
        thread: u32,
        op: Op,
    ) -> Result<Reply, NoMemory>
        requires enabled { is_enabled start.now self.old thread op ≡ true }
        requires few { AreWithin MOST_EVENTS self.old.monitors }
        ensures ok { IfOk result (λ reply. apply start.now self.old thread op ≡ answers self.new reply) }
        ensures err { OnErr result (self.new ≡ self.old) }
        ensures memory { OnErr result (IsTrue (takes_memory op)) }
    {
        match op {
            Op::GetStatic { slot } => Ok(got(self.statics.get(slot as usize).copied())),
            Op::PutStatic { slot, value } => {
                set_static(&mut self.statics, slot, value);
                Ok(Reply::Unit)
            }
            Op::GetField { obj, place } => Ok(got(self.heap.word(obj.id, place))),
            Op::PutField { obj, place, value } => {
                self.heap.set_word(obj.id, place, value);
                Ok(Reply::Unit)
            }
            Op::ArrayLoad { arr, index } => Ok(got(self.heap.word(arr, index))),
            Op::ArrayStore { arr, index, value } => {
                self.heap.set_word(arr, index, Value::Int(value));
                Ok(Reply::Unit)
            }
            Op::New { class } => self.make_object(alloc, start, class),
            Op::NewArray { len } => self.make_array(alloc, len),
            Op::Enter { lock } => {
                self.enter(thread, lock);
                Ok(Reply::Unit)
            }
            Op::Exit { lock } => Ok(self.exit(thread, lock)),
            Op::Wait { lock } => self.wait(thread, lock),
            Op::Resume { lock, count } => {
                self.resume(thread, lock, count);
                Ok(Reply::Unit)
            }
            Op::Notify { lock } => Ok(self.notify(thread, lock)),
            Op::NotifyAll { lock } => Ok(self.notify_all(thread, lock)),
            Op::Start { target } => self.begin(target),
            Op::Join { .. } => Ok(Reply::Unit),
            Op::Print { piece, newline } => self.print_piece(alloc, start, piece, newline),
            Op::Yield => Ok(Reply::Unit),
            Op::Tick => Ok(Reply::Unit),
            Op::ThreadEnd => {
                self.end_thread(thread);
                Ok(Reply::Unit)
            }
            Op::Fault { kind, method, at } => {
                self.fault = Some(Fault {
                    kind,
                    thread,
                    method,
                    at,
                });
                Ok(Reply::Unit)
            }
        }
    }
}
