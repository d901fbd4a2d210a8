// The law of groups of leaves that are apart: each runs as if it were alone.
ghost use Rattle.std.specs.Prelude.{◌≡◌, ℕ, Bool, List, None};
ghost use Rattle.gq_model.specs.machine.Scenario.{Scenario, system};
ghost use Rattle.gq_model.specs.machine.Run.{run, Acts};
ghost use Rattle.gq_laws.specs.Names.{NamesDiffer};
ghost use Rattle.gq_laws.specs.Sound_scenarios.{IsSound};
ghost use Rattle.gq_laws.specs.Separation.{IsApart};
ghost use Rattle.gq_laws.specs.Group_alone.{own_turns, RunsAlone, SeeTheSame};

/// What a group of leaves sees of the others if it is apart: nothing. A group is apart if no route leads from a leaf to a server across the group's edge,
/// whether the service is opened or not, and no leaf starts after one across it.
///
/// `alone`: of a scenario that is as the readers give them and is accepted, take any run, and the run over the turns and settings of the leaves inside alone.
/// Both have the same lines of the leaves inside, in their order. Both have the same account of each of them: its quota, what it has used and taken, its steps
/// and its phase.
///
/// `unseen`: so two runs that agree on what the leaves inside are given agree on what these do: on their lines and their accounts. Whatever others are given,
/// turns or inputs, is not seen inside. In the field's words: a group that is apart is non-interfering with the rest.
///
/// `unless_wrong`: of any scenario, accepted or not, in which no two leaves have the same name, the same holds if the run comes to no wrong step. Then the
/// run of the group alone comes to none.
pub fn apart_laws()
    ensures alone { (s : Scenario) (group : ℕ → Bool) (turns : Acts) → IsSound s → IsApart (system s) group → RunsAlone s group turns }
    ensures unseen { (s : Scenario) (group : ℕ → Bool) (turns others : Acts) → IsSound s → IsApart (system s) group
        → own_turns group turns ≡ own_turns group others → SeeTheSame s group turns others }
    ensures unless_wrong { (s : Scenario) (group : ℕ → Bool) (turns : Acts) → NamesDiffer s → IsApart (system s) group
        → (run (system s) turns).wrong ≡ None → RunsAlone s group turns × ((run (system s) (own_turns group turns)).wrong ≡ None) }
{}
