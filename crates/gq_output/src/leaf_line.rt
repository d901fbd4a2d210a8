// The line of a leaf that says something.
ghost use Rattle.std.specs.Prelude.{◌≡◌, ◌≤◌, length};
ghost use Rattle.gq_output.specs.LeafLines.{line_with};

use crate::line::{Line, extend};
use arrayvec::ArrayVec;
use gq_model::limits::GREATEST_LABEL;

/// The line of a leaf with this label that says a text, its line feed included.
pub fn text_line(label: &[u8], text: &[u8]) -> Line
    requires label { length label.now ≤ GREATEST_LABEL }
    requires text { length text.now ≤ 64 }
    ensures { result.items ≡ line_with label.now text.now }
{
    let mut line = ArrayVec::new();
    extend(&mut line, b"[");
    extend(&mut line, label);
    extend(&mut line, b"] ");
    extend(&mut line, text);
    extend(&mut line, b"\n");
    line
}
