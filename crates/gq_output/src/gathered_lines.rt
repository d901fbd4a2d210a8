// Lines of a leaf, gathered before they are written.
ghost use Rattle.std.specs.Prelude.{◌≡◌, ◌↔◌, ◌<◌, ◌≤◌, ◌+◌, ◌++◌, [], true, length, take, decimal};
ghost use Rattle.gq_output.specs.LeafLines.{prefix_of, line_with};

use arrayvec::ArrayVec;
use gq_model::limits::GREATEST_LABEL;
use itoa::write_digits;
use std::marker::Model;
use std::simd::prelude::*;

/// The greatest number of bytes of the line of a leaf: its label, brackets, a space, a text and a line feed.
pub const LEAF_LINE: usize = 164;

/// How many bytes of lines are gathered at most.
pub const GATHERED: usize = 4096;

// The room for what stands before a text.
const PREFIX: usize = 160;

/// Lines of a leaf that says something, one after the other, to be written at once.
#[derive(Drop)]
pub struct Lines {
    label: ArrayVec<u8, GREATEST_LABEL>,
    // What stands before each text: the first so many of these bytes.
    prefix: [u8; PREFIX],
    prefix_length: usize,
    // The lines: the first so many of these bytes.
    bytes: [u8; GATHERED],
    length: usize,
}

impl Model for Lines {
    ghost use Rattle.std.specs.Prelude.{take};
    ghost use Rattle.gq_output.specs.LeafLines.{Lines};
    ghost use Rattle.gq_output.specs.internal.Gathered_lines.{AreGathered};

    ghost Value = { Lines };

    ghost view = { λ l. record { label = l.label.items; bytes = take l.length l.bytes } };

    ghost invariant = { λ l. AreGathered l.label.items l.prefix l.prefix_length l.bytes l.length };
}

impl Lines {
    /// No line, of a leaf without a label.
    pub fn new() -> Lines
        ensures { result ≡ record { label = []; bytes = [] } }
    {
        let mut prefix = [0; PREFIX];
        let prefix_length = put_prefix(&mut prefix, b"");
        Lines {
            label: ArrayVec::new(),
            prefix,
            prefix_length,
            bytes: [0; GATHERED],
            length: 0,
        }
    }

    /// Takes all lines away.
    pub fn clear(&mut self)
        ensures { self.new ≡ record self.old { bytes = [] } }
    {
        self.length = 0;
    }

    /// Whether a line more has room, however long it is.
    pub fn has_room(&self) -> bool
        ensures { (result ≡ true) ↔ (length self.now.bytes + LEAF_LINE ≤ GATHERED) }
    {
        self.length <= GATHERED - LEAF_LINE
    }

    /// A leaf with this label speaks from now on.
    pub fn begin(&mut self, label: &[u8])
        requires { length label.now ≤ GREATEST_LABEL }
        ensures { self.new ≡ record self.old { label = label.now } }
    {
        if self.label.as_slice() == label {
            return;
        }
        self.label.clear();
        match self.label.try_extend_from_slice(label) {
            Ok(()) => (),
            Err(_) => unreachable!(),
        }
        self.prefix_length = put_prefix(&mut self.prefix, label);
    }

    /// Puts the line of this text behind the others.
    pub fn say(&mut self, text: &[u8])
        requires text { length text.now ≤ 64 }
        requires room { length self.old.bytes + LEAF_LINE ≤ GATHERED }
        ensures { self.new ≡ record self.old { bytes = self.old.bytes ++ line_with self.old.label text.now } }
    {
        let at = put_whole(
            &mut self.bytes,
            self.length,
            &self.prefix,
            self.prefix_length,
        );
        let at = put(&mut self.bytes, at, text);
        self.length = put(&mut self.bytes, at, b"\n");
    }

    /// Puts the line of a number, in decimal, behind the others.
    #[inline(always)]
    pub fn say_number(&mut self, number: u32)
        requires { length self.old.bytes + LEAF_LINE ≤ GATHERED }
        ensures { self.new ≡ record self.old { bytes = self.old.bytes ++ line_with self.old.label (decimal number) } }
    {
        let at = put_whole(
            &mut self.bytes,
            self.length,
            &self.prefix,
            self.prefix_length,
        );
        let at = put_number(&mut self.bytes, at, number);
        self.length = put(&mut self.bytes, at, b"\n");
    }

    /// The bytes of the lines.
    pub fn as_bytes(&self) -> &[u8]
        ensures { result.now ≡ self.now.bytes }
    {
        &self.bytes[..self.length]
    }
}

// Puts bytes at a place, and returns where they end.
#[inline(always)]
fn put(page: &mut [u8], at: usize, bytes: &[u8]) -> usize
    requires { at + length bytes.now ≤ length page.old }
    ensures bytes { take result page.new ≡ take at page.old ++ bytes.now }
    ensures end { result ≡ at + length bytes.now }
    ensures length { length page.new ≡ length page.old }
{
    let end = at + bytes.len();
    page[at..end].copy_from_slice(bytes);
    end
}

// Puts the first so many bytes of a prefix at a place, 32 at a time, and returns where they end. What is behind them is of no account.
#[inline(always)]
fn put_whole(page: &mut [u8], at: usize, prefix: &[u8], count: usize) -> usize
    requires count { count ≤ 99 }
    requires prefix { length prefix.now ≡ PREFIX }
    requires room { at + PREFIX ≤ length page.old }
    ensures bytes { take result page.new ≡ take at page.old ++ take count prefix.now }
    ensures end { result ≡ at + count }
    ensures length { length page.new ≡ length page.old }
{
    let mut done = 0;
    while done < count {
        u8x32::from_slice(&prefix[done..]).copy_to_slice(&mut page[at + done..]);
        done += 32;
    }
    at + count
}

// How many digits a number has.
#[inline(always)]
fn digit_count(number: u32) -> usize
    ensures { result ≡ length (decimal number) }
{
    if number < 10_000 {
        return short_count(number);
    }
    if number < 100_000_000 {
        return short_count(number / 10_000) + 4;
    }
    short_count(number / 100_000_000) + 8
}

// How many digits a number of at most four has.
#[inline(always)]
fn short_count(number: u32) -> usize
    requires { number < 10000 }
    ensures { result ≡ length (decimal number) }
{
    if number < 100 {
        if number < 10 { 1 } else { 2 }
    } else {
        if number < 1000 { 3 } else { 4 }
    }
}

// Puts a number in decimal at a place, and returns where it ends.
#[inline(always)]
fn put_number(page: &mut [u8], at: usize, number: u32) -> usize
    requires { at + 10 ≤ length page.old }
    ensures bytes { take result page.new ≡ take at page.old ++ decimal number }
    ensures end { result ≡ at + length (decimal number) }
    ensures short { result ≤ at + 10 }
    ensures length { length page.new ≡ length page.old }
{
    let end = at + digit_count(number);
    write_digits(u64::from(number), page, end);
    end
}

// Puts what stands before the texts of a leaf with this label at the start, and returns where it ends.
fn put_prefix(prefix: &mut [u8; PREFIX], label: &[u8]) -> usize
    requires { length label.now ≤ GREATEST_LABEL }
    ensures bytes { take result prefix.new ≡ prefix_of label.now }
    ensures end { result ≡ length label.now + 3 }
{
    let at = put(prefix, 0, b"[");
    let at = put(prefix, at, label);
    put(prefix, at, b"] ")
}
