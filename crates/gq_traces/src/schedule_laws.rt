// Laws of the texts that are reported.
ghost use Rattle.std.specs.Prelude.{◌≡◌, ◌≤◌, ℕ, List, None, Option, Ok, false, length};
ghost use Rattle.gq_model.specs.machine.Rest.{greatest_turns};
ghost use Rattle.gq_model.specs.machine.Run.{run};
ghost use Rattle.gq_model.specs.machine.Scenario.{Scenario, components, system};
ghost use Rattle.gq_model.specs.texts.Turns.{turned};
ghost use Rattle.gq_load.specs.Load.{loaded};
ghost use Rattle.gq_world.specs.World_between_turns.{AreOf};
ghost use Rattle.gq_traces.specs.Rest_runs.{RestsUnless};
ghost use Rattle.gq_traces.specs.Schedule.{acts_given, all_listed, is_cut, listed_turns, schedule_text, written_lines};

use gq_laws::accepted_runs::accepted_laws;
use gq_laws::progress::progress_laws;
use gq_laws::reached::reached_laws;
use gq_load::loaded::loaded_laws;

/// States what holds of the turns and signals that are written for every scenario that a text is loaded as, in rounds and for each seed, and with all signals
/// for each number of times. It does nothing.
///
/// `leaves`, `few`: the lines are of leaves that are there, and have no more turns than may be.
///
/// `reads`: the text is read as just these turns and signals, and nothing is set; it is never too long, and it has no more turns than may be.
///
/// `right`: a run over them comes to no wrong step.
///
/// `whole`: turns without signals all have room in the text.
///
/// `ends`: where they are not cut, the run ends in the world that was scheduled.
///
/// `rests`: where they are not cut, every leaf is at rest in the world after them: it has exited, or it serves, and no signal of its is submitted and no
/// request for it waits.
pub fn turns_laws()
    ensures leaves { (seed times : Option ℕ) (text : List ℕ) (s : Scenario) → loaded text ≡ Ok s
        → AreOf (length (components s)) (all_listed seed times s).lines }
    ensures few { (seed times : Option ℕ) (text : List ℕ) (s : Scenario) → loaded text ≡ Ok s
        → listed_turns (all_listed seed times s).lines ≤ greatest_turns }
    ensures reads { (seed times : Option ℕ) (text : List ℕ) (s : Scenario) → loaded text ≡ Ok s
        → turned s (schedule_text seed times s) ≡ Ok (acts_given (written_lines seed times s)) }
    ensures right { (seed times : Option ℕ) (text : List ℕ) (s : Scenario) → loaded text ≡ Ok s
        → (run (system s) (acts_given (written_lines seed times s))).wrong ≡ None }
    ensures whole { (seed : Option ℕ) (text : List ℕ) (s : Scenario) → loaded text ≡ Ok s → written_lines seed None s ≡ (all_listed seed None s).lines }
    ensures ends { (seed times : Option ℕ) (text : List ℕ) (s : Scenario) → loaded text ≡ Ok s → is_cut seed times s ≡ false
        → (run (system s) (acts_given (written_lines seed times s))).world ≡ (all_listed seed times s).world }
    ensures rests { (seed times : Option ℕ) (text : List ℕ) (s : Scenario) → loaded text ≡ Ok s
        → RestsUnless (is_cut seed times s) (run (system s) (acts_given (written_lines seed times s))).world }
{
    loaded_laws();
    accepted_laws();
    progress_laws();
    reached_laws();
}
