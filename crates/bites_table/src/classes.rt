//! Classes of characters that a program doesn't tell apart.

ghost use Rattle.std.specs.Prelude.{◌≡◌, ◌<◌, ◌≤◌, ℕ, false, None, Some, length, IfSome, slice_get, slice_index_or};
ghost use Rattle.bites_spec.specs.Program.{takes};
ghost use Rattle.bites_machine.specs.States.{state_of, states_of};
ghost use Rattle.bites_table.specs.Kinds.{AreClasses};
ghost use Rattle.bites_table.specs.Blocks.{at, AreIntervals, IsInterval, AreBlocks, IsSplitBy, AreSplit, AreSplitByKinds, HaveMembers};
ghost use Rattle.bites_table.specs.Classes.{classes_of, interval_at};

use crate::alike_kinds::AlikeKinds;
use crate::blocks::{Blocks, interval_of};
use crate::bounds::{CARRIAGE_RETURN, LINE_FEED, WORD, bounds};
use crate::distinctions::Distinctions;
use bites_machine::program::Program;
use bites_machine::state::State;
use std::alloc::Global;
use std::marker::Model;

// The greatest number of intervals.
const MOST_INTERVALS: usize = 4096;

// The greatest number of intervals times states, since each state may move each interval, in a nanosecond or two.
const MOST_MOVES: usize = 1 << 26;

/// Classes of characters, and one for the end of the haystack. No state and no assertion of the program that they were made
/// for tells two characters of a class apart.
///
/// For proofs: contracts see intervals of characters, the class of each, and a member of each class.
#[derive(Drop)]
pub struct Classes {
    /// The class of each byte of ASCII, and the number of classes for each other byte.
    of_byte: [u8; 256],
    /// The first character of each interval of characters, rising.
    begins: Vec<u32>,
    /// The class of each interval.
    of: Vec<u32>,
    /// The interval of the first character past ASCII.
    past: usize,
    /// A member of each class.
    members: Vec<char>,
}

impl Model for Classes {
    ghost use Rattle.bites_table.specs.Classes.{Intervals, AreSound, AreOfBytes, IsPast};

    ghost Value = { Intervals };

    ghost view = { λ a. record { begins = a.begins.items; classes = a.of.items; members = a.members.items } };

    ghost invariant = { λ a. AreSound (record { begins = a.begins.items; classes = a.of.items; members = a.members.items })
        × AreOfBytes (record { begins = a.begins.items; classes = a.of.items; members = a.members.items }) a.of_byte
        × IsPast (record { begins = a.begins.items; classes = a.of.items; members = a.members.items }) a.past };
}

impl Classes {
    /// Makes the classes of a program.
    ///
    /// Returns `None` if there are more than 255 with the end's, if the program's sets of characters begin and end at more
    /// than 4,096 characters, if these times the states are more than 67,108,864, or if memory runs out.
    pub fn new(alloc: Global, program: &Program) -> Option<Classes>
        ensures { IfSome result (λ c. AreClasses program.now.program (classes_of c)) }
    {
        let states = program.states();
        let AlikeKinds { before, after } = AlikeKinds::of(program);
        let kinds = before.or(after);
        let begins = bounds(alloc, states, kinds)?;
        if begins.len() > MOST_INTERVALS || begins.len().saturating_mul(states.len()) > MOST_MOVES {
            return None;
        }
        let blocks = blocks_of(alloc, &begins, states, kinds)?;
        Classes::of_blocks(alloc, begins, blocks.of)
    }

    // Makes the classes of intervals whose blocks are numbered in the order of their first intervals.
    fn of_blocks(alloc: Global, begins: Vec<u32>, of: Vec<u32>) -> Option<Classes>
        requires begins { AreIntervals begins.items }
        requires blocks { length of.items ≡ length begins.items }
        ensures classes { IfSome result (λ c. c
            ≡ record { begins = begins.items; classes = of.items; members = c.members }) }
        ensures members { IfSome result (λ c. HaveMembers begins.items of.items c.members) }
    {
        let members = members_of(alloc, &begins, &of)?;
        let past = interval_of(&begins, 0, 128);
        let of_byte = of_bytes(&begins, &of, past, members.len() as u8 + 1);
        Some(Classes {
            of_byte,
            begins,
            of,
            past,
            members,
        })
    }

    /// Returns the number of classes, that of the end among them.
    #[allow(clippy::len_without_is_empty)]
    pub fn len(&self) -> usize
        ensures len { result ≡ (classes_of self.now).len }
        ensures few { result ≤ 255 }
    {
        self.members.len() + 1
    }

    /// Returns the class of a character, or of the end.
    pub fn of(&self, ch: Option<char>) -> usize
        ensures class { result ≡ (classes_of self.now).class_of ch }
        ensures within { result < (classes_of self.now).len }
    {
        match ch {
            None => self.members.len(),
            Some(ch) if ch.is_ascii() => usize::from(self.of_byte[ch as usize]),
            Some(ch) => {
                let interval = interval_of(&self.begins, self.past, ch as u32);
                self.of[interval] as usize
            }
        }
    }

    /// Returns the class of each character past ASCII, if they stand in one interval.
    #[inline(always)]
    pub fn class_past_ascii(&self) -> Option<usize>
        ensures class { IfSome result (λ k. (c : ℕ) → 128 ≤ c → k ≡ (classes_of self.now).class_of (Some c)) }
        ensures within { IfSome result (λ k. k < (classes_of self.now).len) }
    {
        if self.past + 1 < self.begins.len() {
            return None;
        }
        Some(self.of[self.past] as usize)
    }

    /// Returns the class of a byte of ASCII. Each other byte gives the number of classes, which is no class.
    #[inline(always)]
    pub fn of_byte(&self, byte: u8) -> u8
        ensures ascii { byte < 128 → result ≡ (classes_of self.now).class_of (Some byte) }
        ensures past { 128 ≤ byte → result ≡ (classes_of self.now).len }
        ensures within { result ≤ (classes_of self.now).len }
    {
        let _known = &self.members;
        self.of_byte[byte as usize]
    }

    /// Returns a member of a class. The end has none, nor has a number that is no class.
    pub fn member(&self, class: usize) -> Option<char>
        ensures { result ≡ (classes_of self.now).member class }
    {
        self.members.get(class).copied()
    }

    /// Returns the class whose member is the character, if one has it.
    pub(crate) fn with_member(&self, ch: char) -> Option<usize>
        ensures is { IfSome result (λ k. (classes_of self.now).member k ≡ Some ch) }
        ensures only { (c : ℕ) → (classes_of self.now).member c ≡ Some ch → result ≡ Some c }
    {
        let class = self.of(Some(ch));
        if self.members.get(class) != Some(&ch) {
            return None;
        }
        Some(class)
    }

    /// Returns the class of the end.
    #[inline(always)]
    pub fn end(&self) -> usize
        ensures class { result ≡ (classes_of self.now).class_of None }
        ensures last { (ch : ℕ) → (classes_of self.now).class_of (Some ch) < result }
    {
        self.members.len()
    }

    /// Returns a flag for each byte: whether it is of ASCII, and its class is to be kept.
    pub fn bytes(&self, keeps: &[bool]) -> [bool; 256]
        requires { length keeps.now ≡ (classes_of self.now).len }
        ensures ascii { (b : ℕ) → b < 128 → slice_index_or result b false
            ≡ slice_index_or keeps.now ((classes_of self.now).class_of (Some b)) false }
        ensures past { (b : ℕ) → 128 ≤ b → slice_index_or result b false ≡ false }
    {
        let _known = &self.members;
        let mut bytes = [false; 256];
        for byte in 0..128usize {
            bytes[byte] = keeps[usize::from(self.of_byte[byte])];
        }
        bytes
    }
}

// Splits intervals by the sets of characters that states take, and by the kinds that are told apart.
fn blocks_of(alloc: Global, begins: &[u32], states: &[State], kinds: Distinctions) -> Option<Blocks>
    requires begins { AreIntervals begins.now }
    ensures len { IfSome result (λ b. length b.of.items ≡ length begins.now) }
    ensures states { IfSome result (λ b. AreSplit begins.now b.of.items (states_of states.now)) }
    ensures kinds { IfSome result (λ b. AreSplitByKinds begins.now b.of.items kinds) }
{
    let mut blocks = Blocks::new(alloc, begins.len()).ok()?;
    split_kinds(&mut blocks, begins, kinds)?;
    for state in states {
        split_state(&mut blocks, begins, state)?;
    }
    blocks.renumber()?;
    Some(blocks)
}

fn split_kinds(blocks: &mut Blocks, begins: &[u32], kinds: Distinctions) -> Option<()>
    requires blocks { AreBlocks blocks.old }
    requires len { length blocks.old.of.items ≡ length begins.now }
    requires begins { AreIntervals begins.now }
    ensures blocks { IfSome result (λ _. AreBlocks blocks.new) }
    ensures len { IfSome result (λ _. length blocks.new.of.items ≡ length begins.now) }
    ensures kinds { IfSome result (λ _. AreSplitByKinds begins.now blocks.new.of.items kinds) }
{
    if kinds.line {
        blocks.split(begins, &LINE_FEED)?;
    }
    if kinds.carriage_return {
        blocks.split(begins, &CARRIAGE_RETURN)?;
    }
    if kinds.word {
        blocks.split(begins, &WORD)?;
    }
    Some(())
}

fn split_state(blocks: &mut Blocks, begins: &[u32], state: &State) -> Option<()>
    requires blocks { AreBlocks blocks.old }
    requires len { length blocks.old.of.items ≡ length begins.now }
    requires begins { AreIntervals begins.now }
    ensures { IfSome result (λ _. IsSplitBy begins.now (takes (state_of state.now)) blocks.old blocks.new) }
{
    match state {
        State::Char { ch, .. } => blocks.split(begins, &[(*ch, *ch)]),
        State::Ranges { ranges, .. } => blocks.split(begins, ranges.as_slice()),
        _ => Some(()),
    }
}

// Returns the first character of the first interval of each block. Returns `None` if blocks are not numbered in the order
// of their first intervals, if there are too many, or if memory runs out.
fn members_of(alloc: Global, begins: &[u32], blocks: &[u32]) -> Option<Vec<char>>
    requires { length blocks.now ≡ length begins.now }
    ensures members { IfSome result (λ ms. HaveMembers begins.now blocks.now ms.items) }
    ensures few { IfSome result (λ ms. length ms.items ≤ 254) }
{
    let mut members = Vec::with_capacity(alloc, begins.len()).ok()?;
    for interval in 0..begins.len() {
        let block = blocks[interval] as usize;
        if block > members.len() {
            return None;
        }
        if block == members.len() {
            members.push(char::from_u32(begins[interval])?).ok()?;
        }
    }
    if members.len() > 254 {
        return None;
    }
    Some(members)
}

// Returns the class of each byte of ASCII, whose intervals go up to the last one, and `past` for each other byte.
fn of_bytes(begins: &[u32], of: &[u32], last: usize, past: u8) -> [u8; 256]
    requires begins { AreIntervals begins.now }
    requires few { (i : ℕ) → i < length begins.now → at of.now i < 255 }
    requires last { IsInterval begins.now 128 last }
    requires of { length of.now ≡ length begins.now }
    ensures ascii { (b : ℕ) → b < 128 → at result b ≡ at of.now (interval_at begins.now b) }
    ensures past { (b : ℕ) → 128 ≤ b → b < 256 → at result b ≡ past }
{
    let mut bytes = [past; 256];
    let count = last + 1;
    for interval in 0..count {
        fill_ascii(&mut bytes, begins[interval] as usize, of[interval] as u8);
    }
    bytes
}

// Gives a class to the bytes of ASCII from this one on.
fn fill_ascii(bytes: &mut [u8], from: usize, class: u8)
    requires from { from ≤ 128 }
    requires len { length bytes.old ≡ 256 }
    ensures below { (b : ℕ) → b < from → at bytes.new b ≡ at bytes.old b }
    ensures filled { (b : ℕ) → from ≤ b → b < 128 → at bytes.new b ≡ class }
    ensures past { (b : ℕ) → 128 ≤ b → at bytes.new b ≡ at bytes.old b }
{
    bytes[from..128].fill(class);
}
