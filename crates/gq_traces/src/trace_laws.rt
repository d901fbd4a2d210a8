// Laws of what is reported of the turns of a run.
ghost use Rattle.std.specs.Prelude.{◌≡◌, ℕ, Bool, List, Ok, true};
ghost use Rattle.gq_model.specs.machine.Run.{Acts};
ghost use Rattle.gq_model.specs.machine.Scenario.{Scenario};
ghost use Rattle.gq_load.specs.Load.{loaded};
ghost use Rattle.gq_traces.specs.Lines_of.{PrintsRun, PrintsSteps};
ghost use Rattle.gq_traces.specs.Trace.{trace_text};

use gq_laws::accepted_runs::accepted_laws;
use gq_laws::turn_step_laws::turn_laws;

/// What holds of the trace of every scenario that is loaded, over any turns and settings. It does nothing.
///
/// `run`: the lines of the trace that begin with `[`, with the account lines at its end, are the text of the run.
///
/// `steps`: where all steps are reported, as many lines begin with `turn` as leaves have taken steps.
pub fn trace_laws()
    ensures run { (text : List ℕ) (s : Scenario) (all : Bool) (turns : Acts) → loaded text ≡ Ok s → PrintsRun s turns (trace_text all s turns) }
    ensures steps { (text : List ℕ) (s : Scenario) (turns : Acts) → loaded text ≡ Ok s → PrintsSteps s turns (trace_text true s turns) }
{
    accepted_laws();
    turn_laws();
}
