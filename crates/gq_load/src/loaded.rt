// Laws of the scenarios that texts are loaded as.
ghost use Rattle.std.specs.Prelude.{◌≡◌, ℕ, List, Ok};
ghost use Rattle.gq_model.specs.machine.Run.{Acts};
ghost use Rattle.gq_model.specs.machine.Scenario.{Scenario};
ghost use Rattle.gq_model.specs.Promises.{Upholds};
ghost use Rattle.gq_laws.specs.Sound_scenarios.{IsSound};
ghost use Rattle.gq_load.specs.Load.{loaded};

/// What holds of every scenario that a text is loaded as (`loaded`, the definition that `check` answers by).
///
/// `sound`: it is as the readers give scenarios, and accepted. No two leaves have the same name; programs are programs; each service
/// counts the resources that the scenario counts, and has at most 3 upgrades. A leaf has at most 3 signals.
///
/// `runs`: so every run of it, over any turns, settings and signals, keeps what is promised. No step is wrong. Every leaf keeps its budgets of steps, RAM and
/// capabilities. The quotas sum to their totals, and each close gives back its whole donation.
pub fn loaded_laws()
    ensures sound { (text : List ℕ) (s : Scenario) → loaded text ≡ Ok s → IsSound s }
    ensures runs { (text : List ℕ) (s : Scenario) (turns : Acts) → loaded text ≡ Ok s → Upholds s turns }
{}
