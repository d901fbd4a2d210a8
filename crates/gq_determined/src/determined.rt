// Laws of scenarios without races.
ghost use Rattle.gq_model.specs.machine.Scenario.{Scenario};
ghost use Rattle.gq_laws.specs.Sound_scenarios.{IsSound};
ghost use Rattle.gq_races.specs.Races.{IsInputFree, IsOrderFree, IsRaceFree, IsSignalFree};
ghost use Rattle.gq_determined.specs.Determined.{IsLeaf, LeavesSame, ProvidesNothing, WritesSame};

/// What depends neither on the turns nor on inputs and signals. A run is over turns of leaves, settings of their inputs and signals, in any order.
///
/// The scenario is as the readers give it and is accepted, and `races` writes neither a `race` line of it nor an `input` or `signal` line. So no statement
/// outside `main` of a shared leaf changes an own slot, what is in one or what is behind one. No section of a leaf has an `in`, so nobody reads an input. No
/// section is one that a signal begins, so no leaf has a signal.
///
/// - `writes`: each leaf that provides nothing writes the same lines, in the same order, in all runs that come to rest. Take any two runs, at rest or not:
///   what it wrote in one is a prefix of what it wrote in the other, or the other way round.
/// - `all`: if `races` writes no `order` line either, the same holds of every leaf. No statement outside `main` of a shared leaf writes a line then.
/// - `leaves`: all runs that come to rest end with the same accounts of all nodes: the same quotas, uses, steps and phases.
///
/// A leaf that has an owner may change its own slots, and write lines, wherever it stands: all its sections run for one thread at a time, so its requests come
/// in one order.
pub fn determined_laws()
    ensures writes { (s : Scenario) → IsSound s → IsRaceFree s → IsInputFree s → IsSignalFree s → WritesSame s (ProvidesNothing s) }
    ensures all { (s : Scenario) → IsSound s → IsRaceFree s → IsInputFree s → IsSignalFree s → IsOrderFree s → WritesSame s (IsLeaf s) }
    ensures leaves { (s : Scenario) → IsSound s → IsRaceFree s → IsInputFree s → IsSignalFree s → LeavesSame s }
{}
