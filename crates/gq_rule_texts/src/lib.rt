//! What each code of a fault, a rule or a wrong step means. It has a name, the rule in one or two sentences, what usually leads to it, what to do about it, and
//! an example of its line. Here is the one table of these texts.
//!
//! ```rust
//! use gq_rule_texts::{families, rule_of};
//!
//! let rule = rule_of(&families(), "v12").ok_or("known")?;
//! assert_eq!(rt; rule.name, "ShortDonation");
//! ```
//!
//! Modules: the texts by family (`scenario_rules`, `program_rules`, `verifier_rules`, `limit_rules`), and their table (`rule_table`).
#![tactic(auto)]

mod limit_rules;
mod program_rules;
mod rule_table;
mod scenario_rules;
mod verifier_rules;
mod write;

pub use rule_table::{RuleText, families, rule_of};
pub use write::write_rules;
