//! Where thread lists are found again: a hash table of their numbers.

use crate::thread_list::ThreadList;
use std::alloc::{AllocError, Global};
use std::mem;

const FIRST_SIZE: usize = 16;

// The upper half of a product by this number depends on each bit of the other factor.
const FACTOR: u64 = 0x9e37_79b9_7f4a_7c15;

// No list has this number. It stands at free places.
const NONE: u32 = u32::MAX;

/// The number of a thread list, with its hash.
#[derive(Clone, Copy, Drop)]
pub(crate) struct Place {
    pub hash: u32,
    pub number: u32,
}

const FREE: Place = Place {
    hash: 0,
    number: NONE,
};

/// Numbers of thread lists by their hashes, with open addressing.
///
/// Nothing is promised of what it finds. So who looks a list up compares it, and a wrong number costs time alone.
#[derive(Drop)]
pub(crate) struct Index {
    alloc: Global,
    places: Vec<Place>,
    numbers: usize,
}

impl Index {
    /// Makes an index that has room for so many numbers. The error is out of memory.
    pub(crate) fn new(alloc: Global, numbers: usize) -> Result<Index, AllocError> {
        let size = numbers.saturating_mul(2).max(FIRST_SIZE);
        Ok(Index {
            alloc,
            places: vec![in alloc; FREE; size]?,
            numbers: 0,
        })
    }

    /// Returns the hash of a list.
    pub(crate) fn hash_of(list: &ThreadList<'_>) -> u32 {
        let mut hash = ((list.kind as u64) << 2 ^ list.starts as u64).wrapping_mul(FACTOR);
        for thread in list.threads {
            let own = u64::from(thread.state) | u64::from(thread.register) << 32;
            hash = (hash ^ own).wrapping_mul(FACTOR);
        }
        (hash >> 32) as u32
    }

    /// Returns the number of places.
    pub(crate) fn len(&self) -> usize {
        self.places.len()
    }

    /// Returns the first place of a hash.
    pub(crate) fn first(&self, hash: u32) -> usize {
        (u64::from(hash).wrapping_mul(self.places.len() as u64) >> 32) as usize
    }

    /// Returns the place after this one.
    pub(crate) fn after(&self, place: usize) -> usize {
        let next = place.wrapping_add(1);
        if next < self.places.len() { next } else { 0 }
    }

    /// Returns what stands at a place. If nothing does, no later place has a number of the hash that led here.
    pub(crate) fn at(&self, place: usize) -> Option<Place> {
        let place = *self.places.get(place)?;
        if place.number == NONE {
            None
        } else {
            Some(place)
        }
    }

    /// Inserts the number of a list. Returns `None` if memory runs out.
    #[inline(always)]
    pub(crate) fn insert(&mut self, hash: u32, number: u32) -> Option<()> {
        if self.numbers >= self.places.len() / 2 {
            self.grow()?;
        }
        self.put(Place { hash, number });
        self.numbers = self.numbers.wrapping_add(1);
        Some(())
    }

    #[inline(never)]
    fn grow(&mut self) -> Option<()> {
        let size = self.places.len().checked_mul(2)?;
        let larger = (vec![in self.alloc; FREE; size]).ok()?;
        for place in mem::replace(&mut self.places, larger) {
            if place.number != NONE {
                self.put(place);
            }
        }
        Some(())
    }

    // Puts a number into the first free place of its hash.
    fn put(&mut self, place: Place) {
        let mut at = self.first(place.hash);
        for _ in 0..self.places.len() {
            if self.at(at).is_none() && at < self.places.len() {
                self.places[at] = place;
                return;
            }
            at = self.after(at);
        }
    }
}
