//! The states in the order in which people read them.

use bites_machine::program::{Program, State};
use std::alloc::{AllocError, Global};

/// The states that a run can come to, each once: from the start on, and behind each state those that it leads to, the
/// preferred one first.
pub(crate) struct Order {
    states: Vec<u32>,
    // The index of each state of the program in `states`.
    numbers: Vec<Option<usize>>,
    // The states that are still to be listed, the next one uppermost.
    left: Vec<u32>,
}

// What drops one relies on this function, and on no type below it.
impl Drop for Order {
    fn drop(self) {
        let Order {
            states: _,
            numbers: _,
            left: _,
        } = self;
    }
}

impl Order {
    /// Returns the order of the states of a program. The error is out of memory.
    pub(crate) fn of(alloc: Global, program: &Program) -> Result<Order, AllocError> {
        let numbers = vec![in alloc; None; program.len()]?;
        let mut order = Order {
            states: Vec::new(alloc),
            numbers,
            left: Vec::new(alloc),
        };
        order.list_all(program)?;
        Ok(order)
    }

    // Lists the states that a run can come to. The error is out of memory.
    fn list_all(&mut self, program: &Program) -> Result<(), AllocError> {
        self.left.push(program.start())?;
        for _ in 0..=program.targets() {
            let Some(number) = self.left.pop() else { break };
            if let Some(state) = program.states().get(number as usize)
                && self.list(number)?
            {
                self.push_targets(state)?;
            }
        }
        Ok(())
    }

    // Lists a state, if it is not listed yet. Returns whether it was not. The error is out of memory.
    fn list(&mut self, state: u32) -> Result<bool, AllocError> {
        let number = self.states.len();
        match self.numbers.get_mut(state as usize) {
            Some(listed) if listed.is_none() => {
                *listed = Some(number);
                self.states.push(state)?;
                Ok(true)
            }
            _ => Ok(false),
        }
    }

    // Puts the targets of a state on those that are left, the preferred one uppermost. The error is out of memory.
    fn push_targets(&mut self, state: &State) -> Result<(), AllocError> {
        for number in 0..state.edges() {
            self.left.push(state.target(state.edges() - 1 - number))?;
        }
        Ok(())
    }

    /// Returns the states in this order, by their numbers in the program.
    pub(crate) fn states(&self) -> &[u32] {
        &self.states
    }

    /// Returns the number of a state in this order, if a run can come to it.
    pub(crate) fn number(&self, state: u32) -> Option<usize> {
        *self.numbers.get(state as usize)?
    }
}
