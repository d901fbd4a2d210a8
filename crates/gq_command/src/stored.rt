//! The stored form of a run: a scenario, a line `%%` and turns in one text.
ghost use Rattle.std.specs.Prelude.{◌≡◌, option_map};
ghost use Rattle.gq_command.specs.Stored_run.{IsFirstLine, is_border, parted};

/// Parts a text into a scenario and turns: the lines before the first line that is `%%`, and what
/// follows that line. A carriage return at the end of that line is no part of it, and the line may be
/// the last and lack its line feed. With no such line the whole text is the scenario, and the turns
/// are empty.
pub fn parted(input: &[u8]) -> (&[u8], &[u8])
    ensures scenario { result.0.now ≡ (parted input.now).0 }
    ensures turns { result.1.now ≡ (parted input.now).1 }
{
    let mut rest = input;
    loop {
        let (line, after) = first_line(rest);
        if is_border(line) {
            return (&input[..input.len() - rest.len()], after.unwrap_or(&[]));
        }
        match after {
            Some(after) => rest = after,
            None => return (input, &[]),
        }
    }
}

// The first line without its line feed, and the text after the line feed, where there is one.
fn first_line(text: &[u8]) -> (&[u8], Option<&[u8]>)
    ensures { IsFirstLine text.now result.0.now (option_map (λ rest. rest.now) result.1) }
{
    for (i, byte) in text.iter().enumerate() {
        if *byte == b'\n' {
            return (&text[..i], Some(&text[i + 1..]));
        }
    }
    (text, None)
}

// Whether a line stands between scenario and turns.
fn is_border(line: &[u8]) -> bool
    ensures { result ≡ is_border line.now }
{
    matches!(line, [b'%', b'%'] | [b'%', b'%', b'\r'])
}
