//! Handles that start threads.

use std::marker::PhantomData;
use std::thread::Threads;

/// A handle that starts threads as the one does that it was made of. It has no bytes, so any number of threads can share it.
pub(crate) struct Starter<H> {
    of: PhantomData<H>,
}

impl<H: Threads> Threads for Starter<H> {}

impl<H: Threads> Starter<H> {
    pub(crate) fn of(_rt: &H) -> Starter<H> {
        Starter { of: PhantomData }
    }
}

impl<H> Drop for Starter<H> {
    fn drop(self) {
        let Starter { of: _ } = self;
    }
}
