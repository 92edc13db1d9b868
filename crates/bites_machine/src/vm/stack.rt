//! The stack of an epsilon closure.

ghost use Rattle.std.specs.Prelude.{◌≡◌, ◌<◌, [], ◌∷◌, IfOk, MatchOption, length};
ghost use Rattle.bites_machine.specs.Stack.{with_frames};

use std::alloc::{AllocError, Global};
use std::marker::Model;

/// A state that is still to be explored, with the number of slots that are pending on the path to it.
#[derive(Clone, Copy, Drop)]
pub struct Frame {
    pub state: u32,
    pub pending_len: usize,
}

/// A stack with a fixed room for frames.
///
/// For proofs: contracts see its frames, the uppermost first, and its room.
#[derive(Drop)]
pub struct Stack {
    frames: Vec<Frame>,
    len: usize,
}

impl Model for Stack {
    ghost use Rattle.std.specs.Prelude.{◌≤◌, length, reverse, take};
    ghost use Rattle.bites_machine.specs.Stack.{Frames};

    ghost Value = { Frames };

    ghost view = { λ a. record {
      frames = reverse (take a.len a.frames.items);
      room = length a.frames.items;
    } };

    ghost invariant = { λ a. a.len ≤ length a.frames.items };
}

impl Stack {
    /// Allocates an empty stack with room for `room` frames. The error is out of memory.
    pub(super) fn new(alloc: Global, room: usize) -> Result<Stack, AllocError>
        ensures empty { IfOk result (λ s. s.frames ≡ []) }
        ensures room { IfOk result (λ s. s.room ≡ room) }
    {
        let none = Frame {
            state: 0,
            pending_len: 0,
        };
        Ok(Stack {
            frames: vec![in alloc; none; room]?,
            len: 0,
        })
    }

    /// Returns how many frames the stack holds at most.
    pub(super) fn room(&self) -> usize
        ensures { result ≡ self.now.room }
    {
        self.frames.len()
    }

    #[inline(always)]
    pub(super) fn push(&mut self, frame: Frame)
        requires { length self.old.frames < self.old.room }
        ensures { self.new ≡ with_frames (frame ∷ self.old.frames) self.old }
    {
        self.frames[self.len] = frame;
        self.len += 1;
    }

    #[inline(always)]
    pub(super) fn pop(&mut self) -> Option<Frame>
        ensures frames { MatchOption result
            ((self.old.frames ≡ []) × (self.new.frames ≡ []))
            (λ f. self.old.frames ≡ f ∷ self.new.frames) }
        ensures room { self.new.room ≡ self.old.room }
    {
        if self.len == 0 {
            return None;
        }
        self.len -= 1;
        Some(self.frames[self.len])
    }

    pub(super) fn clear(&mut self)
        ensures { self.new ≡ with_frames [] self.old }
    {
        self.len = 0;
    }
}
