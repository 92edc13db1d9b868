//! Programs made by hand, each with state 0 as its start: which states make a program, and what its runs are.

use crate::expect::expect_equal;
use bites_machine::program::{BadProgram, Program, State};
use bites_machine::vm;
use std::alloc::{AllocError, Global};
use std::test::Fail;

/// A state as a row lists it, with the states that it leads to first.
#[derive(Clone, Copy)]
enum Listed {
    Char(u32, char),
    Ranges(u32, &'static [(char, char)]),
    Splits(&'static [u32]),
    Goto(u32),
    Capture(u32, u32),
    Match,
}

// Returns the state that is listed.
fn state_of(alloc: Global, listed: &Listed) -> Result<State, AllocError> {
    Ok(match *listed {
        Listed::Char(target, ch) => State::Char { target, ch },
        Listed::Ranges(target, ranges) => State::Ranges {
            target,
            ranges: Vec::from_slice(alloc, ranges)?.into(),
        },
        Listed::Splits(targets) => State::Splits {
            targets: Vec::from_slice(alloc, targets)?.into(),
            reverse: false,
        },
        Listed::Goto(target) => State::Goto { target, look: None },
        Listed::Capture(target, slot) => State::Capture { target, slot },
        Listed::Match => State::Match,
    })
}

fn states_of(alloc: Global, listed: &[Listed]) -> Result<Vec<State>, AllocError> {
    let mut states = Vec::new(alloc);
    for state in listed {
        states.push(state_of(alloc, state)?)?;
    }
    Ok(states)
}

// Returns the program of these states, with `slots` slots.
fn program_of(alloc: Global, listed: &[Listed], slots: u32) -> Result<Program, BadProgram> {
    match states_of(alloc, listed) {
        Ok(states) => Program::from_states(alloc, states, 0, slots),
        Err(_) => Err(BadProgram::Memory),
    }
}

/// Each row has the states of a program, the number of its slots, and its fault.
#[test]
fn faults(rt: HostRuntime) {
    for (listed, slots, wanted) in FAULTS {
        let fault = program_of(rt.alloc(), listed, *slots).err();
        expect_equal(&rt, &fault, wanted, "the fault of a program");
    }
}

const FAULTS: &[(&[Listed], u32, Option<BadProgram>)] = &[
    (&[], 2, Some(BadProgram::BadStart)),
    (&[Listed::Goto(1)], 2, Some(BadProgram::BadTarget)),
    (&[Listed::Capture(0, 2)], 2, Some(BadProgram::BadSlot)),
    (&[Listed::Match], 0, Some(BadProgram::BadSlot)),
    (&[Listed::Match], 2, None),
    (&[Listed::Match], 3, Some(BadProgram::BadSlot)),
    (
        &[Listed::Ranges(0, &[('b', 'a'), ('c', 'd')])],
        2,
        Some(BadProgram::BadRanges),
    ),
    (
        &[Listed::Ranges(0, &[('a', 'c'), ('c', 'd')])],
        2,
        Some(BadProgram::BadRanges),
    ),
    (&[Listed::Ranges(0, &[('a', 'c'), ('d', 'd')])], 2, None),
];

type Slots = (Option<usize>, Option<usize>);

// Returns the slots of the first run of a program, or of the longest.
fn by_machine(
    program: &Program,
    haystack: &[u8],
    is_longest: bool,
) -> Result<Option<Slots>, AllocError> {
    let mut room = vm::Cache::new(program)?;
    let mut slots = [None; 2];
    let found = if is_longest {
        vm::search_longest(program, &mut room, haystack, 0, &mut slots)
    } else {
        vm::search(program, &mut room, haystack, 0, false, &mut slots)
    };
    let [start, end] = slots;
    Ok(if found { Some((start, end)) } else { None })
}

/// Each row has the states of a program, a haystack, whether the longest run is asked for or the first, and its slots.
#[test]
fn runs(rt: HostRuntime) -> Result<(), Fail> {
    for (listed, haystack, is_longest, wanted) in RUNS {
        let program = program_of(rt.alloc(), listed, 2)?;
        let slots = by_machine(&program, haystack, *is_longest);
        expect_equal(&rt, &slots, &Ok(*wanted), "the slots of a run");
    }
    Ok(())
}

const RUNS: &[(&[Listed], &[u8], bool, Option<Slots>)] = &[
    // A run that goes round.
    (
        &[Listed::Splits(&[0, 1]), Listed::Goto(0)],
        b"aa",
        false,
        None,
    ),
    // A run that ends nowhere.
    (&[Listed::Splits(&[])], b"aa", false, None),
    // A run that writes slots.
    (
        &[
            Listed::Capture(1, 0),
            Listed::Splits(&[1, 2, 3]),
            Listed::Char(1, 'a'),
            Listed::Capture(4, 1),
            Listed::Match,
        ],
        b"aab",
        false,
        Some((Some(0), Some(2))),
    ),
    // The longest run takes the branch that writes no slot.
    (
        &[
            Listed::Splits(&[1, 4]),
            Listed::Char(2, 'a'),
            Listed::Char(3, 'b'),
            Listed::Char(6, 'c'),
            Listed::Char(5, 'b'),
            Listed::Capture(6, 1),
            Listed::Match,
        ],
        b"abc",
        true,
        Some((None, None)),
    ),
];
