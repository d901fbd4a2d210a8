// The rule of a code.
ghost use Rattle.std.specs.Prelude.{◌≡◌, find, option_map, true};
ghost use Rattle.gq_rule_texts.specs.Rule_tables.{is_code, is_table, rule_of};

use crate::limit_rules::{BUDGETS, STEPS, TURNS};
use crate::program_rules::{CODE, TEXT};
use crate::scenario_rules::SCENARIO;
use crate::verifier_rules::VERIFIER;

/// What a code means.
#[derive(Clone, Copy, Debug, Drop)]
pub struct RuleText {
    /// The code, as `V12`.
    pub code: &'static str,
    /// The name that stands after it, as `ShortDonation`.
    pub name: &'static str,
    /// A line of the code, the name and the rule in one sentence, with its line feed.
    pub line: &'static str,
    /// The whole text: the code and the name, the rule, what usually leads to it, what to do about it, and an example of the line that
    /// reports it. Each line has its line feed.
    pub text: &'static str,
}

// An entry of the table: the code, the name, the rule in one sentence, the text and the example.
macro_rules! entry {
    ($code:literal, $name:literal, $rule:literal, $text:literal, $example:literal) => {
        RuleText {
            code: $code,
            name: $name,
            line: concat!($code, " ", $name, ": ", $rule, "\n"),
            text: concat!($code, " ", $name, "\n\n", $text, "\n\nExample: ", $example, "\n"),
        }
    };
}

pub(crate) use entry;

/// Returns the table of the program, family by family: the codes of S, M, C, V, B, U and X, in each of which they rise.
pub fn families() -> [&'static [RuleText]; 7]
    ensures { is_table result ≡ true }
{
    [&SCENARIO, &TEXT, &CODE, &VERIFIER, &BUDGETS, &TURNS, &STEPS]
}

/// The rule of a code in a table, which `families` gives: the first that has it. The code's letter may be small.
pub fn rule_of<'r>(table: &[&'r [RuleText]], code: &str) -> Option<&'r RuleText>
    ensures { option_map (λ rule. rule.now) result ≡ rule_of table.now code.now }
{
    for rules in table {
        if let Some(rule) = first_of(rules, code) {
            return Some(rule);
        }
    }
    None
}

// The first rule of that code.
fn first_of<'r>(rules: &'r [RuleText], code: &str) -> Option<&'r RuleText>
    ensures { option_map (λ rule. rule.now) result ≡ find (is_code code.now) rules.now }
{
    for rule in rules {
        if rule.code.eq_ignore_ascii_case(code) {
            return Some(rule);
        }
    }
    None
}
