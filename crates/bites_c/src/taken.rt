//! What a search takes out of two handles.

ghost use Rattle.std.specs.Prelude.{◌≡◌};
ghost use Rattle.bites_spec.specs.Counts.{fit_of};

use crate::held::Held;
use crate::room::Room;
use std::alloc::Global;

/// A regex and room that fits it, while a search runs.
#[derive(Drop)]
pub(crate) struct Search {
    pub(crate) held: Box<Held, Global>,
    pub(crate) room: Box<Room, Global>,
    pub ghost fits: { room.value.fits ≡ fit_of held.value.regex.program },
}
