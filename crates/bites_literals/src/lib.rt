//! What each match of a tree holds, and from where a search for a match has to begin.
//!
//! Each function of this file has an empty body, and its contract is a law about the definitions in `specs/`.
#![tactic(auto)]

ghost use Rattle.bites_literals.specs.Laws.{FindsFromThere, LeastEndFromThere, PlacesGoOn};

mod allowed_bytes;
mod ascii;
mod between;
mod byte_run;
mod choice;
mod class;
mod facts;
pub mod fixed_width;
pub mod prefilter;
mod text;
pub mod tree;

pub fn places_go_on()
    ensures { PlacesGoOn }
{}

pub fn finds_from_there()
    ensures { FindsFromThere }
{}

pub fn least_end_from_there()
    ensures { LeastEndFromThere }
{}
