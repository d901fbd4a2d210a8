// Laws of what accounts are made of.
ghost use Rattle.std.specs.Prelude.{◌≡◌, ℕ, List, Ok, Option};
ghost use Rattle.gq_traces.specs.Made_of.{ShowsSums};
ghost use Rattle.gq_traces.specs.Traces_written.{state_written};

use gq_laws::accepted_runs::accepted_laws;
use gq_laws::reached::reached_laws;
use gq_laws::turn_step_laws::turn_laws;
use gq_load::loaded::loaded_laws;

/// What holds of whatever `state` writes, for any text of a scenario and any text of turns. It does nothing.
///
/// The text is that of an accepted scenario, in the world that a run over these turns and settings comes to, or over the first so many turns. For each
/// resource that is counted, the lines add up.
///
/// - Of a leaf that lives, what it holds adds up to what its account has used. What it is given and receives adds up to its quota and what it lends.
/// - Of an init, its quota and what it hands to its children add up to what it is given.
pub fn state_laws()
    ensures { (first : Option ℕ) (scenario turns text : List ℕ) → state_written first scenario turns ≡ Ok text → ShowsSums first scenario turns text }
{
    loaded_laws();
    accepted_laws();
    reached_laws();
    turn_laws();
}
