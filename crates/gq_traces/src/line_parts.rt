// Words and numbers that are put at the end of a line.
ghost use Rattle.std.specs.Prelude.{◌≡◌, ◌≤◌, ◌+◌, ◌++◌, length, codes, decimal};
ghost use Rattle.gq_model.specs.machine.Sections.{section_word};
ghost use Rattle.gq_scenario.specs.Component_trees.{version_number};
ghost use Rattle.gq_traces.specs.Trace.{amount_text};

use arrayvec::ArrayVec;
use gq_model::section::Section;
use gq_scenario::scenario::Version;
use gq_tariff::Amount;
use itoa::Buffer;

/// The greatest number of bytes of a line, its line feed included.
pub(crate) const GREATEST_LINE: usize = 400;

/// A line of text, with room for the longest.
pub(crate) type TraceLine = ArrayVec<u8, GREATEST_LINE>;

/// Puts bytes at the end of a line.
pub(crate) fn extend(line: &mut TraceLine, bytes: &[u8])
    requires { length line.old.items + length bytes.now ≤ GREATEST_LINE }
    ensures bytes { line.new.items ≡ line.old.items ++ bytes.now }
    ensures long { length line.new.items ≡ length line.old.items + length bytes.now }
{
    match line.try_extend_from_slice(bytes) {
        Ok(()) => (),
        Err(_) => unreachable!(),
    }
}

/// Puts a number in decimal at the end of a line.
pub(crate) fn extend_number(line: &mut TraceLine, number: u64)
    requires { length line.old.items + 20 ≤ GREATEST_LINE }
    ensures bytes { line.new.items ≡ line.old.items ++ decimal number }
    ensures long { length line.new.items ≤ length line.old.items + 20 }
{
    extend(line, Buffer::new().format(number).as_bytes());
}

/// Puts a word and a number behind it at the end of a line.
pub(crate) fn extend_entry(line: &mut TraceLine, word: &[u8], number: u64)
    requires { length line.old.items + length word.now + 21 ≤ GREATEST_LINE }
    ensures bytes { line.new.items ≡ line.old.items ++ word.now ++ codes " " ++ decimal number }
    ensures long { length line.new.items ≤ length line.old.items + length word.now + 21 }
{
    extend(line, word);
    extend(line, b" ");
    extend_number(line, number);
}

/// Puts a word and an amount at the end of a line: bytes, and capabilities where the version counts them.
pub(crate) fn extend_amount(line: &mut TraceLine, version: Version, word: &[u8], amount: Amount)
    requires { length line.old.items + length word.now + 47 ≤ GREATEST_LINE }
    ensures bytes { line.new.items ≡ line.old.items ++ amount_text (version_number version) word.now amount }
    ensures long { length line.new.items ≤ length line.old.items + length word.now + 47 }
{
    extend_entry(line, word, amount.ram);
    if version.counts_caps() {
        extend_entry(line, b" caps", amount.caps);
    }
}

/// Puts the heading of a section at the end of a line.
pub(crate) fn extend_section(line: &mut TraceLine, section: Section)
    requires { length line.old.items + 26 ≤ GREATEST_LINE }
    ensures bytes { line.new.items ≡ line.old.items ++ section_word section }
    ensures long { length line.new.items ≤ length line.old.items + 26 }
{
    let kind = section.kind();
    match kind.levels() {
        None => extend(line, kind.word().as_bytes()),
        Some(_) => extend_entry(line, kind.word().as_bytes(), u64::from(section.level())),
    }
}

/// Puts a section and the number of a statement in it at the end of a line.
pub(crate) fn extend_place(line: &mut TraceLine, section: Section, number: u64)
    requires { length line.old.items + 50 ≤ GREATEST_LINE }
    ensures bytes { line.new.items ≡ line.old.items ++ section_word section ++ codes " at " ++ decimal number }
    ensures long { length line.new.items ≤ length line.old.items + 50 }
{
    extend_section(line, section);
    extend_entry(line, b" at", number);
}
