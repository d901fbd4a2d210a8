// What holds of all faults of a text, over definitions alone.
ghost use Rattle.std.specs.Prelude.{◌≡◌, ℕ, List};
ghost use Rattle.gq_model.specs.machine.Scenario.{Scenario};
ghost use Rattle.gq_model.specs.texts.Turns.{turned};
ghost use Rattle.gq_load.specs.Load.{loaded};
ghost use Rattle.gq_faults.specs.Found_lists.{first};
ghost use Rattle.gq_faults.specs.First_stage_faults.{faults_of, refusal_of};
ghost use Rattle.gq_faults.specs.Turn_faults.{fault_of_turns, turn_faults};

/// The first fault of a text is the one that it is refused for, and there is none where it is accepted. It does nothing.
pub fn first_fault_laws()
    ensures { (text : List ℕ) → first (faults_of text) ≡ refusal_of (loaded text) }
{}

/// The first fault of a text of turns and settings for a scenario is the one that it is refused for, and there is none where it says turns. It does nothing.
pub fn first_turn_fault_laws()
    ensures { (s : Scenario) (text : List ℕ) → first (turn_faults s text) ≡ fault_of_turns (turned s text) }
{}
