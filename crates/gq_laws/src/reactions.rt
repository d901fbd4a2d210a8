// Laws of what follows signals, from a world on in which every leaf is at rest.
ghost use Rattle.gq_model.specs.machine.Scenario.{Scenario};
ghost use Rattle.gq_model.specs.machine.World.{World};
ghost use Rattle.gq_laws.specs.Sound_scenarios.{IsSound};
ghost use Rattle.gq_laws.specs.Reached_worlds.{IsReached};
ghost use Rattle.gq_laws.specs.Reactions.{ReactsWithin, OneReacts, ReactionEnds};

/// What holds of each world of a sound scenario in which every leaf has exited, or serves with no signal submitted and no request waiting.
///
/// `within`: over any turns, settings and signals from there on, each leaf takes at most as many steps as its budgets have for the signals that are taken on
/// the way, each as often as it is taken.
///
/// `one`: a single signal that is submitted there takes at most the sum of its budgets of all leaves, in steps of all leaves together, whatever the turns and
/// the settings are.
///
/// `ends`: after as many rounds, each with a turn of every leaf in any order, every leaf is at rest again.
pub fn reaction_laws()
    ensures within { (s : Scenario) (w : World) → IsSound s → IsReached s w → ReactsWithin s w }
    ensures one { (s : Scenario) (w : World) → IsSound s → IsReached s w → OneReacts s w }
    ensures ends { (s : Scenario) (w : World) → IsSound s → IsReached s w → ReactionEnds s w }
{}
