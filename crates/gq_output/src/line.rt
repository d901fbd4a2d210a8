// Lines of text.
ghost use Rattle.std.specs.Prelude.{◌≡◌, ◌≤◌, ◌+◌, ◌++◌, length, decimal};
ghost use Rattle.gq_model.specs.machine.Accounts.{phase_word, entry};

use arrayvec::ArrayVec;
use gq_model::limits::GREATEST_LABEL;
use gq_model::phase::Phase;
use itoa::Buffer;

/// The greatest number of bytes of a line, its line feed included.
pub const GREATEST_LINE: usize = 320;

/// A line of text, with room for the longest.
pub type Line = ArrayVec<u8, GREATEST_LINE>;

/// Puts bytes at the end of a line.
pub(crate) fn extend(line: &mut Line, bytes: &[u8])
    requires { length line.old.items + length bytes.now ≤ GREATEST_LINE }
    ensures bytes { line.new.items ≡ line.old.items ++ bytes.now }
    ensures long { length line.new.items ≡ length line.old.items + length bytes.now }
{
    match line.try_extend_from_slice(bytes) {
        Ok(()) => (),
        Err(_) => unreachable!(),
    }
}

/// Puts a number in decimal at the end of a line.
pub(crate) fn extend_number(line: &mut Line, number: u64)
    requires { length line.old.items + 20 ≤ GREATEST_LINE }
    ensures bytes { line.new.items ≡ line.old.items ++ decimal number }
    ensures long { length line.new.items ≤ length line.old.items + 20 }
{
    extend(line, Buffer::new().format(number).as_bytes());
}

/// Puts a word and a number at the end of a line.
pub(crate) fn extend_entry(line: &mut Line, word: &[u8], number: u64)
    requires { length line.old.items + length word.now + 22 ≤ GREATEST_LINE }
    ensures bytes { line.new.items ≡ line.old.items ++ entry word.now number }
    ensures long { length line.new.items ≤ length line.old.items + length word.now + 22 }
{
    extend(line, b" ");
    extend(line, word);
    extend(line, b" ");
    extend_number(line, number);
}

/// The word for what a leaf does.
pub(crate) fn phase_word(phase: Phase) -> &'static [u8]
    ensures word { result.now ≡ phase_word phase }
    ensures short { length result.now ≤ 8 }
{
    match phase {
        Phase::Pending => b"pending",
        Phase::Running => b"running",
        Phase::Blocked => b"blocked",
        Phase::Serving => b"serving",
        Phase::Handling => b"handling",
        Phase::Exited => b"exited",
    }
}
