// Laws of the runs of accepted scenarios.
ghost use Rattle.std.specs.Prelude.{◌≡◌, ℕ, List, Ok};
ghost use Rattle.gq_model.specs.machine.Scenario.{Scenario, system};
ghost use Rattle.gq_model.specs.machine.World.{World, start};
ghost use Rattle.gq_model.specs.machine.Doing.{Event};
ghost use Rattle.gq_model.specs.machine.Step.{next};
ghost use Rattle.gq_model.specs.Promises.{KeepsAccounts, IsUpheld, Upholds};
ghost use Rattle.gq_laws.specs.Reached_worlds.{IsReached};
ghost use Rattle.gq_laws.specs.Sound_scenarios.{IsSound};
ghost use Rattle.gq_laws.specs.Stands.{Stands};
ghost use Rattle.gq_laws.specs.Typing.{IsTyped};
ghost use Rattle.gq_model.specs.machine.Run.{Acts, set_input, submit};

/// What holds of every run of a scenario that is as the readers give them and is accepted, whatever the turns, inputs and signals.
///
/// `first`, `kept`, `set`, `submitted`, `promises`: there is an invariant of worlds, which speaks of no turns. It holds of the start of such a scenario. Each
/// step, each setting of an input and each signal that is submitted keeps it. All that is promised of a world follows from it.
///
/// `accounts`: so in each account of such a world a leaf has used no more than its quota, of bytes and of capabilities. It has taken no more steps than its
/// budget.
///
/// `typed`: in each world that a run comes to, each leaf stands at a state of the verifier's rules. From there what is left of its section leads, by the
/// rules, to the section's end. A leaf that waits for a request has its slots as its `main` left them. Each session is of a service that has an interface
/// with the session's level. If it is not current at its server, its slots are as its last section left them. Each request is for a section that its service
/// has, with an argument in the interface's bound.
///
/// `upheld`: in each such world every leaf can take its turn, so no step is wrong. All is paid for. Each leaf has taken at most the steps of its budget, and
/// that is at most 10^12. Of each resource that is counted, what a leaf holds and has lent is at most its own budget and the needs of the sessions to it.
/// That is at most its quantum and what it has received. The quotas of all nodes sum to what the root was given. A session that ends gives its whole donation
/// back, and its server holds nothing for it any more; the reply to a close ends it.
///
/// `runs`: over any turns, settings and signals no step is wrong, and the last world and each on the way is such a one. The text is whole: all lines, and then
/// the accounts.
pub fn accepted_laws()
    ensures first { (s : Scenario) → IsSound s → Stands s (start (system s)) }
    ensures kept { (s : Scenario) (w : World) (x : ℕ) (new : World) (event : Event) → Stands s w → next (system s) w x ≡ Ok (new, event) → Stands s new }
    ensures set { (s : Scenario) (w : World) (x i n : ℕ) → Stands s w → Stands s (set_input (system s) w x i n) }
    ensures submitted { (s : Scenario) (w : World) (x i : ℕ) → Stands s w → Stands s (submit w x i) }
    ensures promises { (s : Scenario) (w : World) → Stands s w → IsUpheld s w }
    ensures accounts { (s : Scenario) (w : World) → IsUpheld s w → KeepsAccounts s w }
    ensures typed { (s : Scenario) (w : World) → IsSound s → IsReached s w → IsTyped (system s) w }
    ensures upheld { (s : Scenario) (w : World) → IsSound s → IsReached s w → IsUpheld s w }
    ensures runs { (s : Scenario) (turns : Acts) → IsSound s → Upholds s turns }
{}
