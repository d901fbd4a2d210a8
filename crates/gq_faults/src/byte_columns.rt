// Lines and columns in texts that need not be UTF-8.
// No contract: its results are places alone. Tests show them.
use gq_toml_places::Position;

/// The line and the column of an offset into a text: one more than the line feeds before it, and one more than the bytes since the last of these.
pub(crate) fn position_in(text: &[u8], offset: usize) -> Position {
    let mut position = Position { line: 1, column: 1 };
    for byte in text.iter().take(offset) {
        if *byte == b'\n' {
            position.line = position.line.saturating_add(1);
            position.column = 1;
        } else {
            position.column = position.column.saturating_add(1);
        }
    }
    position
}
