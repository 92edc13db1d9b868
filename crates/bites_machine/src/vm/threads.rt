//! The threads of a place, in order of preference.

ghost use Rattle.std.specs.Prelude.{◌≡◌, ◌<◌, ◌++◌, [], ◌∷◌, IfOk, length, slice_index_or};
ghost use Rattle.bites_machine.specs.Threads.{with_threads};

use std::alloc::{AllocError, Global};
use std::marker::Model;
use std::mem;

/// A thread that has taken its character: the state that it continues from, its row of slots, and for the longest
/// search the place where it was started.
#[derive(Clone, Copy, Drop)]
pub struct Thread {
    pub state: u32,
    pub row: usize,
    pub start: usize,
}

/// A list of threads with a fixed room.
///
/// For proofs: contracts see the list and its room.
#[derive(Drop)]
pub struct Threads {
    threads: Vec<Thread>,
    len: usize,
}

impl Model for Threads {
    ghost use Rattle.std.specs.Prelude.{◌≤◌, length, take};
    ghost use Rattle.bites_machine.specs.Threads.{Listed};

    ghost Value = { Listed };

    ghost view = { λ a. record {
      threads = take a.len a.threads.items;
      room = length a.threads.items;
    } };

    ghost invariant = { λ a. a.len ≤ length a.threads.items };
}

impl Threads {
    /// Allocates an empty list with room for `room` threads. The error is out of memory.
    pub(super) fn new(alloc: Global, room: usize) -> Result<Threads, AllocError>
        ensures empty { IfOk result (λ t. t.threads ≡ []) }
        ensures room { IfOk result (λ t. t.room ≡ room) }
    {
        let none = Thread {
            state: 0,
            row: 0,
            start: 0,
        };
        Ok(Threads {
            threads: vec![in alloc; none; room]?,
            len: 0,
        })
    }

    #[inline(always)]
    pub(super) fn len(&self) -> usize
        ensures { result ≡ length self.now.threads }
    {
        self.len
    }

    #[inline(always)]
    pub(super) fn at(&self, index: usize) -> Thread
        requires { index < length self.now.threads }
        ensures { result ≡ slice_index_or self.now.threads index result }
    {
        self.threads[index]
    }

    #[inline(always)]
    pub(super) fn push(&mut self, thread: Thread)
        requires { length self.old.threads < self.old.room }
        ensures { self.new ≡ with_threads (self.old.threads ++ thread ∷ []) self.old }
    {
        self.threads[self.len] = thread;
        self.len += 1;
    }

    /// Exchanges these threads with those of another list.
    #[inline(always)]
    pub(super) fn swap(&mut self, other: &mut Threads)
        ensures this { self.new ≡ other.old }
        ensures other { other.new ≡ self.old }
    {
        mem::swap(self, other);
    }

    #[inline(always)]
    pub(super) fn clear(&mut self)
        ensures { self.new ≡ with_threads [] self.old }
    {
        self.len = 0;
    }
}
