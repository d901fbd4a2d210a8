// Laws of the places of steps.
ghost use Rattle.std.specs.Prelude.{◌≡◌, ℕ, List, Ok};
ghost use Rattle.gq_model.specs.machine.Run.{Acts, run};
ghost use Rattle.gq_model.specs.machine.Scenario.{Scenario, System, system};
ghost use Rattle.gq_load.specs.Load.{loaded};
ghost use Rattle.gq_traces.specs.Remaining_text.{GoesWith};
ghost use Rattle.gq_traces.specs.Trace.{after_all, start_traced};

use gq_laws::accepted_runs::accepted_laws;
use gq_laws::turn_step_laws::turn_laws;
use gq_load::loaded::loaded_laws;

/// What holds of the places of a trace, after any turns and settings, and so before each step. It does nothing.
///
/// `machine`: what a trace has before each leaf is what that leaf of the abstract machine has left to do, but for the numbers of statements. It is its
/// statements, and the loops that it is in, each with its round. It holds of every scenario, accepted or not.
///
/// `world`: of every scenario that is loaded, the world of the trace is that of the run over the same turns and settings.
pub fn place_laws()
    ensures machine { (system : System) (turns : Acts) → GoesWith (after_all system turns (start_traced system)) }
    ensures world { (text : List ℕ) (s : Scenario) (turns : Acts) → loaded text ≡ Ok s
        → (after_all (system s) turns (start_traced (system s))).world ≡ (run (system s) turns).world }
{
    loaded_laws();
    accepted_laws();
    turn_laws();
}
