// When two spellings are one.
ghost use Rattle.std.specs.Prelude.{◌≡◌};
ghost use Rattle.gq_model.specs.machine.Program.{text_eq};

/// Whether two texts have the same bytes. Their last bytes are looked at first, since names often begin alike.
pub fn same_text(text: &[u8], other: &[u8]) -> bool
    ensures { result ≡ text_eq text.now other.now }
{
    if text.len() != other.len()
        || (!text.is_empty() && text[text.len() - 1] != other[other.len() - 1])
    {
        return false;
    }
    text == other
}
