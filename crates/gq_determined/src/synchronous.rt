// Laws of reactions in scenarios without races.
ghost use Rattle.gq_model.specs.machine.Scenario.{Scenario};
ghost use Rattle.gq_model.specs.machine.World.{World};
ghost use Rattle.gq_laws.specs.Reached_worlds.{IsReached};
ghost use Rattle.gq_laws.specs.Sound_scenarios.{IsSound};
ghost use Rattle.gq_races.specs.Races.{IsOrderFree, IsRaceFree};
ghost use Rattle.gq_determined.specs.Determined.{IsLeaf, ProvidesNothing};
ghost use Rattle.gq_determined.specs.Synchronous.{ReactsToSame, ReactsWithSame};

/// What follows settings and signals in a world at rest, and does not depend on the turns: the synchronous hypothesis of Esterel and Lustre.
///
/// The scenario is as the readers give it and is accepted, and `races` writes no `race` line of it. Leaves may read inputs and have signals. Take any world
/// that a run comes to and in which every leaf has exited, or serves with no signal submitted and no request waiting. Give any values to inputs there, and
/// submit any signals. From there on turns alone are taken, until every leaf is at rest again.
///
/// - `accounts`: all such turns end with the same accounts of all nodes: the same quotas, uses, steps, budgets and phases.
/// - `writes`: each leaf that provides nothing writes the same lines with all of them, in the same order.
/// - `all`: if `races` writes no `order` line either, each leaf does.
///
/// In a world at rest no request waits, and a leaf takes its signals before it accepts a request. So a server has taken all its signals, in the order of their
/// numbers, before it does anything for another leaf.
pub fn synchronous_laws()
    ensures accounts { (s : Scenario) (w : World) → IsSound s → IsRaceFree s → IsReached s w → ReactsToSame s w }
    ensures writes { (s : Scenario) (w : World) → IsSound s → IsRaceFree s → IsReached s w → ReactsWithSame s (ProvidesNothing s) w }
    ensures all { (s : Scenario) (w : World) → IsSound s → IsRaceFree s → IsOrderFree s → IsReached s w → ReactsWithSame s (IsLeaf s) w }
{}
