// The monitors of all locks.
ghost use Rattle.std.specs.Prelude.{◌≡◌, ◌↔◌, ℕ, ◌-◌, ◌<◌, ◌^◌, [], length, replicate, is_some, if◌then◌else◌, Contains, IsTrue, IsSome, OnOk, OnErr, IfOk};
ghost use Rattle.machine_model.specs.Shared.{free_monitor};
ghost use Rattle.std.specs.Option.{option_copied};

use crate::monitor::Monitor;
use std::alloc::Global;
use std::marker::Model;
use vm_model::{FIRST_USER_CLASS, Lock, NoMemory};

/// What a call did that only the owner of a lock may make.
#[derive(Clone, Copy, Debug, PartialEq, Eq)]
pub enum Owned {
    Done,
    /// The lock is free or another thread owns it. Nothing was changed.
    NotOwner,
}

/// What a wait did.
#[derive(Clone, Copy, Debug, PartialEq, Eq)]
pub enum Waited {
    /// The thread waits from now on. It had entered the lock so often.
    Count(u32),
    /// The lock is free or another thread owns it. Nothing was changed.
    NotOwner,
}

/// The monitors of all locks (JLS SE 8 §17.1 and §17.2): one for each object and array, by its id, and one for each user
/// class, by its number, which begins at 32. Threads are named by their numbers. It keeps no threads itself: that a
/// thread which waits or was notified makes no other call is the caller's concern.
#[derive(Debug, Drop)]
pub struct MonitorTable {
    objects: Vec<Monitor>,
    classes: Vec<Monitor>,
}

impl Model for MonitorTable {
    ghost use Rattle.machine_model.specs.Shared.{Monitors};

    ghost Value = { Monitors };

    ghost view = { λ t. record { objects = t.objects.items; classes = t.classes.items } };
}

/// So many free monitors.
fn free_monitors(alloc: Global, count: u32) -> Result<Vec<Monitor>, NoMemory>
    ensures { IfOk result (λ monitors. monitors.items ≡ replicate count free_monitor) }
{
    let mut monitors = Vec::with_capacity(alloc, count as usize)?;
    for _i in 0..count {
        monitors.push(Monitor::new(alloc))?;
    }
    Ok(monitors)
}

/// Equal monitors.
fn copied(alloc: Global, monitors: &[Monitor]) -> Result<Vec<Monitor>, NoMemory>
    ensures { IfOk result (λ copies. copies.items ≡ monitors.now) }
{
    let mut copies = Vec::with_capacity(alloc, monitors.len())?;
    for monitor in monitors {
        copies.push(monitor.copy(alloc)?)?;
    }
    Ok(copies)
}

impl MonitorTable {
    ghost use Rattle.machine_model.specs.Shared.{monitor_at, with_monitor, with_object, entered, exited, waited, resumed, one_notified, all_notified};
    ghost use Rattle.machine_model.specs.Operations.{free_for, free_lock};
    ghost use Rattle.monitor_table.specs.Locks.{monitor_of, owns};
    ghost use Rattle.monitor_table.specs.Answers.{owned, waited_with};

    /// One free monitor for each of so many user classes, the first of which has number 32, and none for objects.
    pub fn new(alloc: Global, classes: u32) -> Result<MonitorTable, NoMemory>
        ensures { IfOk result (λ table. table ≡ record { objects = []; classes = replicate classes free_monitor }) }
    {
        Ok(MonitorTable {
            objects: Vec::new(alloc),
            classes: free_monitors(alloc, classes)?,
        })
    }

    /// One more free monitor, for the next object or array.
    pub fn add_object(&mut self, alloc: Global) -> Result<(), NoMemory>
        ensures ok { OnOk result (self.new ≡ with_object self.old) }
        ensures err { OnErr result (self.new ≡ self.old) }
    {
        self.objects.push(Monitor::new(alloc))?;
        Ok(())
    }

    fn monitor(&self, lock: Lock) -> Option<&Monitor>
        ensures { option_copied result ≡ monitor_at self.now lock }
    {
        match lock {
            Lock::Object(id) => self.objects.get(id as usize),
            Lock::Class(class) => {
                if class < FIRST_USER_CLASS {
                    None
                } else {
                    self.classes.get((class - FIRST_USER_CLASS) as usize)
                }
            }
        }
    }

    /// Whether there is such a lock.
    pub fn exists(&self, lock: Lock) -> bool
        ensures { result ≡ is_some (monitor_at self.now lock) }
    {
        self.monitor(lock).is_some()
    }

    /// Whether this thread owns the lock. A lock that doesn't exist has no owner.
    pub fn owns(&self, lock: Lock, thread: u32) -> bool
        ensures { result ≡ owns self.now lock thread }
    {
        match self.monitor(lock) {
            Some(monitor) => monitor.is_owner(thread),
            None => false,
        }
    }

    /// Whether the lock exists and nobody owns it.
    pub fn is_free(&self, lock: Lock) -> bool
        ensures { result ≡ free_lock (monitor_at self.now lock) }
    {
        match self.monitor(lock) {
            Some(monitor) => monitor.is_free(),
            None => false,
        }
    }

    /// Whether the lock exists, and is free or this thread's.
    pub fn is_free_for(&self, lock: Lock, thread: u32) -> bool
        ensures { result ≡ free_for (monitor_at self.now lock) thread }
    {
        match self.monitor(lock) {
            Some(monitor) => monitor.is_free() || monitor.is_owner(thread),
            None => false,
        }
    }

    /// The thread that owns the lock.
    pub fn owner(&self, lock: Lock) -> Option<u32>
        requires { IsSome (monitor_at self.now lock) }
        ensures { result ≡ (monitor_of self.now lock).owner }
    {
        match self.monitor(lock) {
            Some(monitor) => monitor.owner(),
            None => None,
        }
    }

    /// How often the owner entered the lock and didn't exit it again; 0 where it is free.
    pub fn count(&self, lock: Lock) -> u32
        requires { IsSome (monitor_at self.now lock) }
        ensures { result ≡ (monitor_of self.now lock).count }
    {
        match self.monitor(lock) {
            Some(monitor) => monitor.count(),
            None => 0,
        }
    }

    /// The threads that wait on the lock, the longest one first.
    pub fn waiting(&self, lock: Lock) -> &[u32]
        requires { IsSome (monitor_at self.now lock) }
        ensures value { result.now ≡ (monitor_of self.now lock).waiters }
        ensures few { length result.now < 2 ^ 32 }
    {
        match self.monitor(lock) {
            Some(monitor) => monitor.waiters(),
            None => &[],
        }
    }

    /// How many threads wait on the lock.
    pub fn waiters(&self, lock: Lock) -> u32
        requires { IsSome (monitor_at self.now lock) }
        ensures { result ≡ length (monitor_of self.now lock).waiters }
    {
        self.waiting(lock).len() as u32
    }

    /// Whether the thread waits on the lock.
    pub fn waits(&self, lock: Lock, thread: u32) -> bool
        requires { IsSome (monitor_at self.now lock) }
        ensures { IsTrue result ↔ Contains (monitor_of self.now lock).waiters thread }
    {
        self.waiting(lock).contains(&thread)
    }

    /// The thread takes the lock, or enters it once more.
    pub fn enter(&mut self, lock: Lock, thread: u32)
        requires free { IsTrue (free_for (monitor_at self.old lock) thread) }
        requires count { (monitor_of self.old lock).count < 2 ^ 32 - 1 }
        ensures { self.new ≡ with_monitor self.old lock (entered (monitor_of self.old lock) thread) }
    {
        match lock {
            Lock::Object(id) => self.objects[id as usize].enter(thread),
            Lock::Class(class) => self.classes[(class - FIRST_USER_CLASS) as usize].enter(thread),
        }
    }

    /// The thread exits the lock once, which is free after the last time.
    pub fn exit(&mut self, lock: Lock, thread: u32) -> Owned
        requires { IsSome (monitor_at self.old lock) }
        ensures owned { result ≡ owned (owns self.old lock thread) }
        ensures table { self.new ≡ (if owns self.old lock thread then with_monitor self.old lock (exited (monitor_of self.old lock)) else self.old) }
    {
        if !self.owns(lock, thread) {
            return Owned::NotOwner;
        }
        match lock {
            Lock::Object(id) => self.objects[id as usize].exit(),
            Lock::Class(class) => self.classes[(class - FIRST_USER_CLASS) as usize].exit(),
        }
        Owned::Done
    }

    /// The thread gives the lock up wholly and waits after all others. After `NoMemory` nothing is changed.
    pub fn wait(&mut self, lock: Lock, thread: u32) -> Result<Waited, NoMemory>
        requires exists { IsSome (monitor_at self.old lock) }
        requires few { length (monitor_of self.old lock).waiters < 2 ^ 32 - 1 }
        ensures ok { IfOk result (λ w. w ≡ waited_with (owns self.old lock thread) (monitor_of self.old lock).count) }
        ensures table { OnOk result (self.new ≡ (if owns self.old lock thread then with_monitor self.old lock (waited (monitor_of self.old lock) thread) else self.old)) }
        ensures err { OnErr result (self.new ≡ self.old) }
    {
        if !self.owns(lock, thread) {
            return Ok(Waited::NotOwner);
        }
        let count = self.count(lock);
        match lock {
            Lock::Object(id) => self.objects[id as usize].wait(thread)?,
            Lock::Class(class) => self.classes[(class - FIRST_USER_CLASS) as usize].wait(thread)?,
        }
        Ok(Waited::Count(count))
    }

    /// The thread takes a free lock again, entered so often as before its wait.
    pub fn resume(&mut self, lock: Lock, thread: u32, count: u32)
        requires { IsTrue (free_lock (monitor_at self.old lock)) }
        ensures { self.new ≡ with_monitor self.old lock (resumed (monitor_of self.old lock) thread count) }
    {
        match lock {
            Lock::Object(id) => self.objects[id as usize].resume(thread, count),
            Lock::Class(class) => self.classes[(class - FIRST_USER_CLASS) as usize].resume(
                thread, count,
            ),
        }
    }

    /// The longest waiter of the lock, if there is one, waits no more.
    pub fn notify(&mut self, lock: Lock, thread: u32) -> Owned
        requires { IsSome (monitor_at self.old lock) }
        ensures owned { result ≡ owned (owns self.old lock thread) }
        ensures table { self.new ≡ (if owns self.old lock thread then with_monitor self.old lock (one_notified (monitor_of self.old lock)) else self.old) }
    {
        if !self.owns(lock, thread) {
            return Owned::NotOwner;
        }
        match lock {
            Lock::Object(id) => self.objects[id as usize].notify(),
            Lock::Class(class) => self.classes[(class - FIRST_USER_CLASS) as usize].notify(),
        }
        Owned::Done
    }

    /// Nobody waits on the lock any more.
    pub fn notify_all(&mut self, lock: Lock, thread: u32) -> Owned
        requires { IsSome (monitor_at self.old lock) }
        ensures owned { result ≡ owned (owns self.old lock thread) }
        ensures table { self.new ≡ (if owns self.old lock thread then with_monitor self.old lock (all_notified (monitor_of self.old lock)) else self.old) }
    {
        if !self.owns(lock, thread) {
            return Owned::NotOwner;
        }
        self.release_waiters(lock);
        Owned::Done
    }

    /// Nobody waits on the lock any more, whoever owns it: a thread's end does so on its object.
    pub fn release_waiters(&mut self, lock: Lock)
        requires { IsSome (monitor_at self.old lock) }
        ensures { self.new ≡ with_monitor self.old lock (all_notified (monitor_of self.old lock)) }
    {
        match lock {
            Lock::Object(id) => self.objects[id as usize].notify_all(),
            Lock::Class(class) => self.classes[(class - FIRST_USER_CLASS) as usize].notify_all(),
        }
    }

    /// An equal table.
    pub fn copy(&self, alloc: Global) -> Result<MonitorTable, NoMemory>
        ensures { IfOk result (λ table. table ≡ self.now) }
    {
        Ok(MonitorTable {
            objects: copied(alloc, self.objects.as_slice())?,
            classes: copied(alloc, self.classes.as_slice())?,
        })
    }
}
