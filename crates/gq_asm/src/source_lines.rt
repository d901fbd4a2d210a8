// The lines of a text.
ghost use Rattle.std.specs.Prelude.{◌≡◌, ℕ, ◌<◌, length, slice_index, option_copied, IfNone, IfSome};
ghost use Rattle.gq_model.specs.texts.Letters.{without_return};
ghost use Rattle.gq_asm.specs.Pieces.{prefix_line, past_feed, line_at};

use memchr::memchr_iter;

/// A line without the carriage return at its end.
fn without_return(line: &[u8]) -> &[u8]
    ensures { result.now ≡ without_return line.now }
{
    if !line.is_empty() && line[line.len() - 1] == b'\r' {
        return &line[..line.len() - 1];
    }
    line
}

/// The place of the first line feed. It is looked for among the next 32 bytes at once, since most lines are short.
#[inline(always)]
fn first_feed(text: &[u8]) -> Option<usize>
    ensures there { IfSome result (λ k. (k < length text.now) × (slice_index text.now k ≡ 10)) }
    ensures first { IfSome result (λ k. (j : ℕ) → j < k → slice_index text.now j ≡ 10 → ⊥) }
    ensures none { IfNone result ((j : ℕ) → j < length text.now → slice_index text.now j ≡ 10 → ⊥) }
{
    memchr_iter(b'\n', text).next()
}

/// A text up to its first line feed, and what follows that.
fn split_line(text: &[u8]) -> (&[u8], Option<&[u8]>)
    ensures line { result.0.now ≡ prefix_line text.now }
    ensures rest { option_copied result.1 ≡ past_feed text.now }
{
    match first_feed(text) {
        Some(place) => (&text[..place], Some(&text[place + 1..])),
        None => (text, None),
    }
}

/// The first line of a text, and the text of the lines after it, if there are any. A carriage return before the line
/// feed is dropped.
pub fn first_line(text: &[u8]) -> (&[u8], Option<&[u8]>)
    ensures line { result.0.now ≡ line_at text.now }
    ensures rest { option_copied result.1 ≡ past_feed text.now }
{
    let (line, rest) = split_line(text);
    match rest {
        Some(_) => (without_return(line), rest),
        None => (line, None),
    }
}
