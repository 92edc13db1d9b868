//! The threads that are still to be walked.

ghost use Rattle.std.specs.Prelude.{◌≡◌, [], ◌∷◌, true, length, IfSome, IfOk, MatchOption};

use crate::thread_list::Frame;
use std::alloc::{AllocError, Global};
use std::marker::Model;

/// A stack of frames that grows.
///
/// For proofs: contracts see the frames, the uppermost first.
#[derive(Drop)]
pub(crate) struct Stack {
    frames: Vec<Frame>,
}

impl Model for Stack {
    ghost use Rattle.std.specs.Prelude.{List, reverse};
    ghost use Rattle.bites_table.specs.declared.thread_list.Frame.{Frame};

    ghost Value = { List Frame };

    ghost view = { λ a. reverse a.frames.items };
}

impl Stack {
    /// Makes a stack without frames that has room for so many. The error is out of memory.
    pub(crate) fn new(alloc: Global, room: usize) -> Result<Stack, AllocError>
        ensures { IfOk result (λ s. s ≡ []) }
    {
        Ok(Stack {
            frames: Vec::with_capacity(alloc, room)?,
        })
    }

    /// Pushes a frame. Returns `None` if memory runs out.
    pub(crate) fn push(&mut self, frame: Frame) -> Option<()>
        ensures { IfSome result (λ _. self.new ≡ frame ∷ self.old) }
    {
        self.frames.push(frame).ok()
    }

    pub(crate) fn pop(&mut self) -> Option<Frame>
        ensures { MatchOption result ((self.old ≡ []) × (self.new ≡ [])) (λ f. self.old ≡ f ∷ self.new) }
    {
        self.frames.pop()
    }

    pub(crate) fn len(&self) -> usize
        ensures { result ≡ length self.now }
    {
        self.frames.len()
    }

    /// Returns whether this is the only frame.
    pub(crate) fn is(&self, frame: Frame) -> bool
        ensures { result ≡ true → self.now ≡ frame ∷ [] }
    {
        self.frames.len() == 1 && self.frames[0] == frame
    }

    pub(crate) fn clear(&mut self)
        ensures { self.new ≡ [] }
    {
        self.frames.clear();
    }
}
