// Lines of a text, and pieces of a line.
ghost use Rattle.std.specs.Prelude.{◌≡◌, ℕ, ◌==◌, ◌<◌, ◌∷◌, length, slice_index, option_map, IfNone, IfSome};
ghost use Rattle.gq_model.specs.texts.Letters.{pieces, lines, without_return};
ghost use Rattle.gq_scenario.specs.Text_pieces.{pieces_left, lines_left};

use memchr::memchr;

// How many bytes are looked at one by one before a search begins.
const NEAR: usize = 24;

// The place of the first separator, where it is among the first bytes: most pieces are short, and a search costs more than to look at these.
#[inline(always)]
fn near(text: &[u8], separator: u8) -> Option<usize>
    ensures there { IfSome result (λ k. (k < length text.now) × (slice_index text.now k ≡ separator)) }
    ensures first { IfSome result (λ k. (j : ℕ) → j < k → slice_index text.now j ≡ separator → ⊥) }
{
    for place in 0..text.len().min(NEAR) {
        if text[place] == separator {
            return Some(place);
        }
    }
    None
}

// The place of the first separator, if there is one.
#[inline(always)]
fn place_of(text: &[u8], separator: u8) -> Option<usize>
    ensures there { IfSome result (λ k. (k < length text.now) × (slice_index text.now k ≡ separator)) }
    ensures first { IfSome result (λ k. (j : ℕ) → j < k → slice_index text.now j ≡ separator → ⊥) }
    ensures none { IfNone result ((j : ℕ) → j < length text.now → slice_index text.now j ≡ separator → ⊥) }
{
    match near(text, separator) {
        Some(place) => Some(place),
        None => memchr(separator, text),
    }
}

/// What stands before the first separator, and what follows it. With no separator the text is the last piece.
#[inline(always)]
pub fn next_piece(text: &[u8], separator: u8) -> (&[u8], Option<&[u8]>)
    ensures piece { pieces (λ c. c == separator) text.now ≡ result.0.now ∷ pieces_left separator (option_map (λ rest. rest.now) result.1) }
    ensures shorter { IfSome result.1 (λ rest. length rest.now < length text.now) }
{
    match place_of(text, separator) {
        Some(place) => (&text[..place], Some(&text[place + 1..])),
        None => (text, None),
    }
}

// A line without a carriage return at its end.
#[inline(always)]
fn without_return(line: &[u8]) -> &[u8]
    ensures { result.now ≡ without_return line.now }
{
    let length = line.len();
    if length > 0 && line[length - 1] == b'\r' {
        &line[..length - 1]
    } else {
        line
    }
}

/// The first line of a text, and what follows its line feed. What has no line feed at its end is the last line.
#[inline(always)]
pub fn next_line(text: &[u8]) -> (&[u8], Option<&[u8]>)
    ensures line { lines text.now ≡ result.0.now ∷ lines_left (option_map (λ rest. rest.now) result.1) }
    ensures shorter { IfSome result.1 (λ rest. length rest.now < length text.now) }
{
    let (line, rest) = next_piece(text, b'\n');
    if rest.is_some() {
        (without_return(line), rest)
    } else {
        (line, rest)
    }
}
