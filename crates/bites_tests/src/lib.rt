//! Tests of what no row, no contract and no wrong program covers:
//!
//! - what `Debug` and errors print
//! - characters in bytes
//! - patterns of a million characters
//! - programs made by hand
//! - caches that are used more than once, and groups that outlive their regex
//! - groups of a match of the whole haystack that are read into locations
//! - tables of thread lists: their classes, lists and sizes, and how searches come over places by them
//! - from where searches begin by the literals of a pattern
//! - what the program `bites` writes, even if its streams fail
//!
//! The libraries have no tests of their own, so that each is proved once. No expected value comes from this engine.
//!
//! Each `?` and each assertion makes the proof of a test longer. So rows are a slice that one loop goes through, and
//! what many tests do is a function.
#![tactic(auto)]

#[cfg(test)]
mod answers;
#[cfg(test)]
mod caches;
#[cfg(test)]
mod classes;
#[cfg(test)]
mod compiled;
#[cfg(test)]
mod errors;
#[cfg(test)]
mod expect;
#[cfg(test)]
mod faults;
#[cfg(test)]
mod hostile;
#[cfg(test)]
mod literals;
#[cfg(test)]
mod sets;
#[cfg(test)]
mod shown;
#[cfg(test)]
mod states;
#[cfg(test)]
mod tables;
#[cfg(test)]
mod thread_lists;
#[cfg(test)]
mod utf8;
#[cfg(test)]
mod whole;
#[cfg(test)]
mod words;
