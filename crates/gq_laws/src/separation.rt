// Laws of groups of leaves that are apart from all others.
ghost use Rattle.std.specs.Prelude.{◌≡◌, ℕ, Bool, false, List, Ok};
ghost use Rattle.gq_model.specs.machine.Scenario.{Scenario, system};
ghost use Rattle.gq_model.specs.machine.World.{World};
ghost use Rattle.gq_model.specs.machine.Doing.{Event};
ghost use Rattle.gq_model.specs.machine.Step.{next};
ghost use Rattle.gq_laws.specs.Reached_worlds.{IsReached};
ghost use Rattle.gq_laws.specs.Separation.{IsApart, IsUntouched, SameRequests, SameAccounts, TurnsTouchNothing};
ghost use Rattle.gq_model.specs.machine.Run.{Acts};

/// What leaves outside a group do to the leaves inside, where the group is apart: no route leads from a leaf to a server across the group's edge, whether the
/// service is opened or not, and no leaf starts after one across it. This holds in every world that any scenario comes to, accepted or not.
///
/// `untouched`: a step of a leaf outside leaves each leaf inside as it stands, and each session from or to a leaf inside with all that
/// is in it, at its number.
///
/// `requests`: and the requests for the group's sessions, in their order.
///
/// `accounts`: so the account of each leaf inside (its quota, what it has used and taken, its steps and its phase) is the same.
///
/// `turns`: so it is over any turns of leaves outside and any settings of their inputs, whether a step of theirs is wrong or not.
pub fn separation_laws()
    ensures untouched { (s : Scenario) (group : ℕ → Bool) (w : World) (x : ℕ) (new : World) (event : Event) → IsReached s w → IsApart (system s) group
        → group x ≡ false → next (system s) w x ≡ Ok (new, event) → IsUntouched group w new }
    ensures requests { (s : Scenario) (group : ℕ → Bool) (w : World) (x : ℕ) (new : World) (event : Event) → IsReached s w → IsApart (system s) group
        → group x ≡ false → next (system s) w x ≡ Ok (new, event) → SameRequests group w new }
    ensures accounts { (s : Scenario) (group : ℕ → Bool) (old new : World) → IsUntouched group old new → SameAccounts (system s) group old new }
    ensures turns { (s : Scenario) (group : ℕ → Bool) (turns : Acts) → IsApart (system s) group → TurnsTouchNothing (system s) group turns }
{}
