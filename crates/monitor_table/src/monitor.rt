// One monitor.
ghost use Rattle.std.specs.Prelude.{◌≡◌, ℕ, ◌-◌, ◌<◌, ◌^◌, length, OnOk, OnErr, IfOk};

use std::alloc::Global;
use std::marker::Model;
use vm_model::NoMemory;

/// The monitor of one lock: the thread that owns it, how often that thread entered it, and the threads that wait for a
/// notification, the longest one first (JLS SE 8 §17.2.1). There are fewer than 2^32 of them.
#[derive(Debug, Drop)]
pub struct Monitor {
    owner: Option<u32>,
    count: u32,
    waiters: Vec<u32>,
}

impl Model for Monitor {
    ghost use Rattle.std.specs.Prelude.{◌<◌, ◌^◌, length};
    ghost use Rattle.machine_model.specs.Shared.{Monitor as MonitorState};

    ghost Value = { MonitorState };

    ghost view = { λ m. record { owner = m.owner; count = m.count; waiters = m.waiters.items } };

    ghost invariant = { λ m. length m.waiters.items < 2 ^ 32 };
}

impl Monitor {
    ghost use Rattle.machine_model.specs.Shared.{free_monitor, is_owner, is_free, entered, exited, waited, resumed, one_notified, all_notified};

    /// A monitor that nobody owns and nobody waits for.
    pub fn new(alloc: Global) -> Monitor
        ensures { result ≡ free_monitor }
    {
        Monitor {
            owner: None,
            count: 0,
            waiters: Vec::new(alloc),
        }
    }

    /// The thread that owns it.
    pub fn owner(&self) -> Option<u32>
        ensures { result ≡ self.now.owner }
    {
        self.owner
    }

    /// How often its owner entered it and didn't exit it again; 0 where it is free.
    pub fn count(&self) -> u32
        ensures { result ≡ self.now.count }
    {
        self.count
    }

    /// The threads that wait, the longest one first.
    pub fn waiters(&self) -> &[u32]
        ensures value { result.now ≡ self.now.waiters }
        ensures few { length result.now < 2 ^ 32 }
    {
        self.waiters.as_slice()
    }

    /// Whether nobody owns it.
    pub fn is_free(&self) -> bool
        ensures { result ≡ is_free self.now }
    {
        self.owner.is_none()
    }

    /// Whether this thread owns it.
    pub fn is_owner(&self, thread: u32) -> bool
        ensures { result ≡ is_owner self.now thread }
    {
        match self.owner {
            Some(owner) => owner == thread,
            None => false,
        }
    }

    /// The thread enters it once more.
    pub fn enter(&mut self, thread: u32)
        requires { self.old.count < 2 ^ 32 - 1 }
        ensures { self.new ≡ entered self.old thread }
    {
        self.owner = Some(thread);
        self.count += 1;
    }

    /// Its owner exits it once, and it is free after the last time.
    pub fn exit(&mut self)
        ensures { self.new ≡ exited self.old }
    {
        if self.count <= 1 {
            self.owner = None;
            self.count = 0;
        } else {
            self.count -= 1;
        }
    }

    /// Its owner gives it up, however often it had entered it, and waits after all others. After `NoMemory` nothing is
    /// changed.
    pub fn wait(&mut self, thread: u32) -> Result<(), NoMemory>
        requires { length self.old.waiters < 2 ^ 32 - 1 }
        ensures ok { OnOk result (self.new ≡ waited self.old thread) }
        ensures err { OnErr result (self.new ≡ self.old) }
    {
        self.waiters.push(thread)?;
        self.owner = None;
        self.count = 0;
        Ok(())
    }

    /// The thread owns it again, entered so often.
    pub fn resume(&mut self, thread: u32, count: u32)
        ensures { self.new ≡ resumed self.old thread count }
    {
        self.owner = Some(thread);
        self.count = count;
    }

    /// The longest waiter, if there is one, waits no more.
    pub fn notify(&mut self)
        ensures { self.new ≡ one_notified self.old }
    {
        if !self.waiters.is_empty() {
            self.waiters.remove(0);
        }
    }

    /// Nobody waits any more.
    pub fn notify_all(&mut self)
        ensures { self.new ≡ all_notified self.old }
    {
        self.waiters.clear();
    }

    /// An equal monitor.
    pub fn copy(&self, alloc: Global) -> Result<Monitor, NoMemory>
        ensures { IfOk result (λ copied. copied ≡ self.now) }
    {
        Ok(Monitor {
            owner: self.owner,
            count: self.count,
            waiters: Vec::from_slice(alloc, self.waiters.as_slice())?,
        })
    }
}
