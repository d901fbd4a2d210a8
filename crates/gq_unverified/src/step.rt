// A wrong step.
ghost use Rattle.std.specs.Prelude.{◌≡◌, ◌<◌, length, slice_get, Some, string_bytes};
ghost use Rattle.gq_model.specs.machine.Scenario.{components};
ghost use Rattle.gq_unverified.specs.Tested.{name_at, wrong_code, wrong_text};

use gq_init::NodeTable;
use gq_model::fault::Wrong;
use gq_model::program::Name;
use gq_scenario::component_tree::copied;
use gq_scenario::scenario::LeafNo;
use std::fmt::{self, Display, Formatter, Write};
use std::marker::Model;

/// A wrong step, at which a run with tests ends. It is reported as `wrong srv X5`: the name of the leaf, and the number of what is wrong.
#[derive(Drop)]
pub struct WrongStep {
    leaf: Name,
    wrong: Wrong,
}

impl Model for WrongStep {
    ghost use Rattle.std.specs.Prelude.{ℕ, List};
    ghost use Rattle.gq_model.specs.declared.fault.Wrong.{Wrong};

    ghost Value = { List ℕ × Wrong };

    ghost view = { λ s. (s.leaf, s.wrong) };
}

// The number of what is wrong.
fn code(wrong: Wrong) -> &'static str
    ensures { result.now ≡ wrong_code wrong }
{
    match wrong {
        Wrong::MissingOperand => "X1",
        Wrong::WrongKind => "X2",
        Wrong::UnmappedByte => "X3",
        Wrong::ExceededQuota => "X4",
        Wrong::MissingSection => "X5",
    }
}

impl WrongStep {
    // That of a leaf of a table.
    pub(crate) fn of(table: &NodeTable, leaf: LeafNo, wrong: Wrong) -> WrongStep
        requires { leaf < length (components table.now) }
        ensures { result ≡ (name_at (slice_get (components table.now) leaf), wrong) }
    {
        WrongStep {
            leaf: copied(table.name(leaf)),
            wrong,
        }
    }

    /// The name of the leaf that came to it.
    pub fn leaf(&self) -> &Name
        ensures { result.now ≡ self.now.0 }
    {
        &self.leaf
    }

    /// What is wrong.
    pub fn wrong(&self) -> Wrong
        ensures { result ≡ self.now.1 }
    {
        self.wrong
    }
}

impl Display for WrongStep {
    ghost output = { λ step. Some (wrong_text step) };

    fn fmt<W: Write>(&self, f: &mut Formatter<W>) -> fmt::Result {
        let leaf = self.leaf.as_str();
        let code = code(self.wrong);
        write!(f, "wrong {leaf} {code}")
    }
}
