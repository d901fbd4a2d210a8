// Laws of how the work of sound scenarios goes on, and ends.
ghost use Rattle.std.specs.Prelude.{ℕ, List};
ghost use Rattle.gq_model.specs.machine.Scenario.{Scenario, system};
ghost use Rattle.gq_model.specs.machine.World.{World};
ghost use Rattle.gq_laws.specs.Sound_scenarios.{IsSound};
ghost use Rattle.gq_laws.specs.Reached_worlds.{IsReached};
ghost use Rattle.gq_laws.specs.Progress.{GoesOn, RunsThrough, WorkEnds, RoundsSuffice};
ghost use Rattle.gq_model.specs.machine.Run.{Acts};

/// What holds of every world that a scenario comes to which is as the readers give it and is accepted.
///
/// `goes_on`: there is no deadlock. Either every leaf is at rest: it has exited, or it serves and no request waits for it. Or the next turn of some leaf is a
/// step, in which this leaf takes one step more.
///
/// `runs`: a run over turns and settings of inputs ends in the world after all of them, one by one.
///
/// `ends`: all work ends. Over any turns, settings and signals from there on, at most as many are steps as are left of the leaves' budgets of steps, together,
/// in the world after them.
///
/// `rounds`: after as many rounds without a signal as the budgets of steps sum to, each with a turn of every leaf in any order, every leaf is at rest.
pub fn progress_laws()
    ensures goes_on { (s : Scenario) (w : World) → IsSound s → IsReached s w → GoesOn (system s) w }
    ensures runs { (s : Scenario) (acts : Acts) → IsSound s → RunsThrough (system s) acts }
    ensures ends { (s : Scenario) (w : World) → IsSound s → IsReached s w → WorkEnds s w }
    ensures rounds { (s : Scenario) (w : World) → IsSound s → IsReached s w → RoundsSuffice s w }
{}
