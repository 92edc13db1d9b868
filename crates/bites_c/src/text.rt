//! Texts that are written into the caller's memory.

ghost use Rattle.std.specs.Prelude.{◌≡◌, option_map, slice_index_or};
ghost use Rattle.std.specs.declared.option.Option.TheVariants.{None};
ghost use Rattle.bites_spec.specs.Expansion.{has_name, index_in};
ghost use Rattle.bites_bytes.specs.Names.{bytes_of};
ghost use Rattle.bites_c.specs.Put.{ReturnsIndex, PutsName, PutsText, PutsTextAs};
ghost use Rattle.bites_c.specs.Replaced.{PutsEscaped};

use crate::codes::{DONE, NO_MEMORY, NO_NAME, NOT_UTF8, TOO_SMALL};
use bites_bytes::bytes::Regex;
use bites_syntax::tree::escape;
use std::alloc::Global;

/// What a call returns that writes into a slice: its code, and the length of its whole result.
#[repr(C)]
#[derive(Clone, Copy)]
pub struct BitesSize {
    pub code: u32,
    pub size: usize,
}

impl BitesSize {
    /// Returns this code with size 0: nothing was written.
    pub(crate) fn refused(code: u32) -> BitesSize
        ensures { (result.code ≡ code) × (result.size ≡ 0) }
    {
        BitesSize { code, size: 0 }
    }
}

/// Puts the text into the first bytes of `out`, if it fits.
pub(crate) fn put(text: &[u8], out: &mut [u8]) -> BitesSize
    ensures { PutsText text.now result out.old out.new }
{
    put_as(DONE, text, out)
}

/// Like [`put`], but with this code if the text fits.
pub(crate) fn put_as(code: u32, text: &[u8], out: &mut [u8]) -> BitesSize
    ensures { PutsTextAs code text.now result out.old out.new }
{
    let size = text.len();
    if out.len() < size {
        return BitesSize {
            code: TOO_SMALL,
            size,
        };
    }
    let (front, _) = out.split_at_mut(size);
    front.copy_from_slice(text);
    BitesSize { code, size }
}

/// Puts the name of the group of this number into the first bytes of `out`, if it has a name and the name fits.
pub(crate) fn put_name(regex: &Regex, group: usize, out: &mut [u8]) -> BitesSize
    ensures { PutsName (slice_index_or regex.now.names group None) result out.old out.new }
{
    match name_of(regex, group) {
        Some(name) => put(name.as_bytes(), out),
        None => BitesSize::refused(NO_NAME),
    }
}

// Returns the name of the group of this number, if it has one.
fn name_of(regex: &Regex, group: usize) -> Option<&str>
    ensures { option_map (λ t. t.now) result ≡ slice_index_or regex.now.names group None }
{
    match regex.capture_names().nth(group) {
        Some(own) => own,
        None => None,
    }
}

/// Returns the number of the group of this name as the size, or the code of no name.
pub(crate) fn answer_index(regex: &Regex, name: &[u8]) -> BitesSize
    ensures { ReturnsIndex (index_in regex.now.names name.now) result }
{
    match index_of(regex, name) {
        Some(size) => BitesSize { code: DONE, size },
        None => BitesSize::refused(NO_NAME),
    }
}

/// Returns the number of the first group of this name, if there is one.
pub(crate) fn index_of(regex: &Regex, name: &[u8]) -> Option<usize>
    ensures { result ≡ index_in regex.now.names name.now }
{
    let mut names = regex.capture_names();
    let mut number = 0;
    while let Some(own) = names.next() {
        if is_named(own, name) {
            return Some(number);
        }
        number += 1;
    }
    None
}

// Returns whether a group has this name.
fn is_named(own: Option<&str>, name: &[u8]) -> bool
    ensures { result ≡ has_name name.now (bytes_of own.entry) }
{
    match own {
        Some(text) => text.as_bytes() == name,
        None => false,
    }
}

/// Puts the pattern in which each character of the text stands for itself into the first bytes of `out`, if it fits.
pub(crate) fn put_escaped(alloc: Global, text: &[u8], out: &mut [u8]) -> BitesSize
    ensures { PutsEscaped text.now result out.old out.new }
{
    let Ok(text) = str::from_utf8(text) else {
        return BitesSize::refused(NOT_UTF8);
    };
    match escape(alloc, text) {
        Ok(pattern) => put(pattern.as_bytes(), out),
        Err(_) => BitesSize::refused(NO_MEMORY),
    }
}
