// Laws of the outcomes that are found.
ghost use Rattle.std.specs.Prelude.{◌≡◌, ℕ, List, Ok};
ghost use Rattle.gq_model.specs.machine.Scenario.{Scenario};
ghost use Rattle.gq_laws.specs.Sound_scenarios.{IsSound};
ghost use Rattle.gq_load.specs.Load.{loaded};
ghost use Rattle.gq_outcomes.specs.Laws.{AllLeadBack, AreAll, AreOutcomes, IsOne};

use gq_load::loaded::loaded_laws;

/// What is promised of the outcomes that the definition finds, of each scenario that is as the readers give it and is accepted.
///
/// - `sound`: a run over the turns of an outcome has no wrong step and comes to rest. The outcome has what each leaf that provides nothing writes in that run,
///   and the account lines at its end. The turns may be more than the 1,000,000 that a list of turns may have.
/// - `complete`: each run over any turns that comes to rest has one of the outcomes, unless more turns were wanted. What is meant are the lines of each leaf
///   that provides nothing and the account lines.
/// - `one`: if `races` writes no `race` line of the scenario, there is just one outcome, unless more turns were wanted. This holds of every scenario.
pub fn outcome_laws()
    ensures sound { (s : Scenario) → IsSound s → AreOutcomes s }
    ensures complete { (s : Scenario) → IsSound s → AreAll s }
    ensures one { (s : Scenario) → IsOne s }
{}

/// States what holds of the text of an outcome's turns, for each scenario that a text is loaded as. It does nothing.
///
/// `leads`: the text is read back as a list of turns. A run over them has no wrong step, comes to rest, and ends as the outcome says. This holds within the two
/// limits of lists of turns, which are 1,000,000 turns and 16 MiB of text. A text of at most 883,011 turns is never longer.
pub fn turn_list_laws()
    ensures leads { (text : List ℕ) (s : Scenario) → loaded text ≡ Ok s → AllLeadBack s }
{
    loaded_laws();
}
