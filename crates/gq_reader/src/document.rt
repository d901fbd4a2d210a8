// The top table of a scenario's text.
ghost use Rattle.gq_scenario.specs.Top_table.{document_in};
ghost use Rattle.gq_scenario.specs.Fault_words.{IsDocument};

use gq_model::limits::GREATEST_SCENARIO;
use gq_scenario::scenario_fault::{ScenarioError, ScenarioFault};
use std::alloc::{AllocError, Global};
use toml::Table;

/// The top table of a text, which has to be UTF-8 and TOML of at most 1 MiB.
pub fn read_document(alloc: Global, text: &[u8]) -> Result<Table, ScenarioError>
    ensures { IsDocument result (document_in text.now) }
{
    if text.len() > GREATEST_SCENARIO {
        return Err(ScenarioError::Fault(ScenarioFault::TooMany));
    }
    let Ok(text) = str::from_utf8(text) else {
        return Err(ScenarioError::Fault(ScenarioFault::NotToml));
    };
    match toml::table_from_str(alloc, text) {
        Ok(table) => Ok(table),
        Err(error) if error.is_memory() => Err(ScenarioError::Memory(AllocError)),
        Err(_) => Err(ScenarioError::Fault(ScenarioFault::NotToml)),
    }
}
