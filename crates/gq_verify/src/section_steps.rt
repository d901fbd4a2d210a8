// How many steps sections take at most.
ghost use Rattle.std.specs.Prelude.{◌≡◌};
ghost use Rattle.gq_model.specs.rules.Budgets.{section_cost};
ghost use Rattle.gq_verify.specs.Saturated_numbers.{saturated};

use gq_program::{Body, Section};

/// The greatest number of steps of a section with these statements, with the step that ends it and the one that accepts its request;
/// 2^64 - 1 where there are more.
pub fn section_cost(section: Section, body: &Body) -> u64
    ensures { result ≡ saturated (section_cost section body.now) }
{
    match section {
        Section::Main => body.cost().saturating_add(1),
        _ => body.cost().saturating_add(2),
    }
}
