// The line of an account.
ghost use Rattle.std.specs.Prelude.{◌≡◌, ◌≤◌, ◌+◌, ◌++◌, length, Some, codes};
ghost use Rattle.gq_model.specs.machine.Accounts.{entry, used_entry, leaf_entries, account_line};
ghost use Rattle.gq_scenario.specs.Component_trees.{version_number};
ghost use Rattle.gq_output.specs.Account_values.{with_label};

use crate::account_report::{AccountReport, LeafAccount};
use crate::line::{Line, extend, extend_entry, extend_number, phase_word};
use arrayvec::ArrayVec;
use gq_model::limits::GREATEST_LABEL;
use gq_scenario::scenario::Version;

/// The line of an account with this label, of a scenario of this version.
pub fn account_line(version: Version, label: &[u8], account: &AccountReport) -> Line
    requires { length label.now ≤ GREATEST_LABEL }
    ensures { result.items ≡ account_line (version_number version) (with_label label.now account.now) }
{
    let mut line = start(label, account.quota());
    if let Some(leaf) = account.leaf() {
        extend_entry(&mut line, b"used", leaf.used());
    }
    if version.counts_caps() {
        extend_caps(&mut line, account);
    }
    if let Some(leaf) = account.leaf() {
        extend_progress(&mut line, &leaf);
    }
    extend(&mut line, b"\n");
    line
}

// What each account's line starts with: the label and the quota of the node.
fn start(label: &[u8], quota: u64) -> Line
    requires { length label.now ≤ GREATEST_LABEL }
    ensures bytes { result.items ≡ codes "account " ++ label.now ++ entry (codes "quota") quota }
    ensures short { length result.items ≤ 131 }
{
    let mut line = ArrayVec::new();
    extend(&mut line, b"account ");
    extend(&mut line, label);
    extend_entry(&mut line, b"quota", quota);
    line
}

// Puts the capabilities of a node, and those that a leaf holds, at the end of a line.
fn extend_caps(line: &mut Line, account: &AccountReport)
    requires { length line.old.items ≤ 160 }
    ensures bytes { line.new.items ≡ line.old.items ++ (entry (codes "caps") account.now.quota.caps
        ++ used_entry (codes "taken") (λ u. u.caps) account.now.leaf) }
    ensures long { length line.new.items ≤ length line.old.items + 54 }
{
    extend_entry(line, b"caps", account.caps());
    if let Some(leaf) = account.leaf() {
        extend_entry(line, b"taken", leaf.caps_used());
    }
}

// Puts the steps of a leaf, its step budget and what it does at the end of a line.
fn extend_progress(line: &mut Line, leaf: &LeafAccount)
    requires { length line.old.items ≤ 230 }
    ensures bytes { line.new.items ≡ line.old.items ++ leaf_entries (Some leaf.now) }
    ensures long { length line.new.items ≤ length line.old.items + 57 }
{
    extend_entry(line, b"steps", leaf.steps());
    extend(line, b"/");
    extend_number(line, leaf.budget());
    extend(line, b" ");
    extend(line, phase_word(leaf.phase()));
}
