// The words of a line.
ghost use Rattle.std.specs.Prelude.{◌≡◌, [], MatchOption};
ghost use Rattle.gq_model.specs.machine.Lists.{all_of};
ghost use Rattle.gq_model.specs.texts.Letters.{is_blank, words, unindented, past_word};
ghost use Rattle.gq_asm.specs.Pieces.{prefix_word, NextWord};

/// Whether a byte is a blank: a space or a tab.
pub(crate) fn is_blank(byte: u8) -> bool
    ensures { result ≡ is_blank byte }
{
    byte == b' ' || byte == b'\t'
}

/// Whether these bytes are blanks.
pub(crate) fn is_all_blank(text: &[u8]) -> bool
    ensures { result ≡ all_of is_blank text.now }
{
    for byte in text {
        if !is_blank(*byte) {
            return false;
        }
    }
    true
}

/// A text without the blanks at its start.
pub(crate) fn unindented(text: &[u8]) -> &[u8]
    ensures { result.now ≡ unindented text.now }
{
    for (i, byte) in text.iter().enumerate() {
        if !is_blank(*byte) {
            return &text[i..];
        }
    }
    &[]
}

/// A text up to its first blank, and from there on.
fn split_word(text: &[u8]) -> (&[u8], &[u8])
    ensures word { result.0.now ≡ prefix_word text.now }
    ensures rest { result.1.now ≡ past_word text.now }
{
    for (i, byte) in text.iter().enumerate() {
        if is_blank(*byte) {
            return text.split_at(i);
        }
    }
    text.split_at(text.len())
}

/// The first word of a line and what follows it; `None` where there are only blanks, which are spaces and tabs.
pub fn next_word(text: &[u8]) -> Option<(&[u8], &[u8])>
    ensures { MatchOption result (words text.now ≡ []) (λ p. NextWord text.now p.0.now p.1.now) }
{
    let start = unindented(text);
    if start.is_empty() {
        return None;
    }
    Some(split_word(start))
}
