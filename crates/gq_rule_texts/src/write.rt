// The lines of rules, written out.
ghost use Rattle.gq_output.specs.Writer_failures.{Writes};
ghost use Rattle.gq_rule_texts.specs.Rule_tables.{lines_of, lines_of_all};

use crate::rule_table::RuleText;
use gq_output::counted::{Counted, WriteFault, put};
use std::io::Write;

/// Writes the line of each rule of a table, which `families` gives, up to the first write that fails. Then a prefix of these lines went out.
pub fn write_rules<W: Write>(table: &[&[RuleText]], out: &mut Counted<W>) -> Result<(), WriteFault>
    ensures { Writes W.contents out.old out.new (lines_of_all table.now) result }
{
    for rules in table {
        write_lines(rules, out)?;
    }
    Ok(())
}

// The lines of one family.
fn write_lines<W: Write>(rules: &[RuleText], out: &mut Counted<W>) -> Result<(), WriteFault>
    ensures { Writes W.contents out.old out.new (lines_of rules.now) result }
{
    for rule in rules {
        put(out, rule.line.as_bytes())?;
    }
    Ok(())
}
