// Lines of leaves.
ghost use Rattle.std.specs.Prelude.{◌<◌, ◌≤◌, length};
ghost use Rattle.gq_model.specs.machine.Doing as doing;
ghost use Rattle.gq_model.specs.machine.Scenario.{components};
ghost use Rattle.gq_output.specs.Writer_failures.{Writes};
ghost use Rattle.gq_world.specs.World_between_turns.{line_reported};

use gq_init::NodeTable;
use gq_output::counted::{Counted, WriteFault, put};
use gq_output::leaf_line::text_line;
use gq_scenario::scenario::LeafNo;
use std::io::Write;

/// Writes the line of a leaf that gives this text, with the leaf's label. Where a write fails a prefix of it was written.
pub fn write_line<W: Write>(
    table: &NodeTable,
    leaf: LeafNo,
    text: &[u8],
    out: &mut Counted<W>,
) -> Result<(), WriteFault>
    requires leaf { leaf < length (components table.now) }
    requires text { length text.now ≤ 64 }
    ensures { Writes W.contents out.old out.new (line_reported table.now leaf (doing.Line text.now)) result }
{
    let line = text_line(table.label(table.node(leaf)), text);
    put(out, line.as_slice())
}
