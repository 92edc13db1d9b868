//! The walks of the start alone, which other lists share.

ghost use Rattle.std.specs.Prelude.{IfSome};
ghost use Rattle.bites_spec.specs.Program.{Program};
ghost use Rattle.bites_table.specs.Graph.{Graph};
ghost use Rattle.bites_table.specs.Made.{IsNoted, AreNoted, IsAfter};

use crate::kind::Here;
use crate::visited::Visited;
use std::alloc::Global;
use std::mem;

/// A walk of the start alone that found nothing: between bytes of which kinds, where the transitions of its list begin, what it
/// visited, and its looks.
#[derive(Drop)]
pub(crate) struct Noted {
    pub here: Here,
    pub first: usize,
    pub visited: Visited,
    pub looks: usize,
}

/// The walks of the start alone, as far as they were noted. A list whose own threads visit none of the states of such a walk ends with
/// it.
#[derive(Drop)]
pub(crate) struct Base {
    alloc: Global,
    notes: Vec<Noted>,
}

impl Base {
    /// Makes one without walks.
    pub(crate) fn new(alloc: Global) -> Base
        ensures { (p : Program) (g : Graph) → AreNoted p g result }
    {
        Base {
            alloc,
            notes: Vec::new(alloc),
        }
    }

    /// Takes over what a walk visited. Returns `None` if memory runs out.
    pub(crate) fn note(
        &mut self,
        visited: &mut Visited,
        states: usize,
        here: Here,
        first: usize,
        looks: usize,
    ) -> Option<()>
        ensures { (p : Program) (g : Graph) → AreNoted p g self.old →
            IsNoted p g (record { here = here; first = first; visited = visited.old; looks = looks }) → AreNoted p g self.new }
    {
        let fresh = Visited::new(self.alloc, states).ok()?;
        let visited = mem::replace(visited, fresh);
        self.notes
            .push(Noted {
                here,
                first,
                visited,
                looks,
            })
            .ok()
    }

    /// Returns the walk between bytes of these kinds, if it visits nothing that was visited.
    pub(crate) fn after(&self, visited: &Visited, here: &Here) -> Option<&Noted>
        ensures { IfSome result (λ x. IsAfter self.now visited.now here.now x.now) }
    {
        for noted in &self.notes {
            if noted.here.before == here.before && noted.here.after == here.after {
                if noted.visited.is_apart(visited) {
                    return Some(noted);
                }
                return None;
            }
        }
        None
    }
}
