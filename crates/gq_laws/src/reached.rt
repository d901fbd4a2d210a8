// Laws of every world that a scenario comes to, accepted or not.
ghost use Rattle.gq_model.specs.machine.Scenario.{Scenario, system};
ghost use Rattle.std.specs.Prelude.{◌≡◌, true};
ghost use Rattle.gq_model.specs.machine.World.{World};
ghost use Rattle.gq_model.specs.machine.Sums.{paid};
ghost use Rattle.gq_model.specs.Promises.{EachOf, SumsToTotal, ClosesWhole, EndsSessions};
ghost use Rattle.gq_laws.specs.Reached_worlds.{IsReached};
ghost use Rattle.gq_laws.specs.Shapes.{IsWholeWorld};
ghost use Rattle.gq_laws.specs.Session_links.{IsLinkedWorld};
ghost use Rattle.gq_laws.specs.Names.{NamesDiffer};
ghost use Rattle.gq_laws.specs.Resolved_scenarios.{IsResolved};

/// What each world has that a run of any scenario comes to.
///
/// `whole`: there is a leaf for each component, with 64 slots, 8 locals and 8 peaks. Sessions have 8 slots each, and their clients and servers are among the
/// leaves.
///
/// `linked`: each session stands in just one slot of its client. The slot is a link if the session is accepted and has no request. It waits if just one
/// request of the session waits or is current. The server is where the client's route leads. A leaf is blocked exactly if a slot of its waits, and then just
/// one does.
///
/// `paid`: if no two leaves have the same name, each leaf is paid for. What it holds and has lent is no more than it was handed and has received, of each
/// resource that is counted.
///
/// `closes`: then a session ends with the reply to its close alone, with empty slots. In that step the client has its whole donation back, of each resource
/// that is counted, and the server has it no more. What the server holds falls by what the session's object cost.
///
/// `ends`: the reply to a close does end the session.
///
/// `sums`: if the scenario is resolved, its quanta fit and so does who starts after whom. Then the quotas of all nodes sum to what the root was given, of
/// each resource that is counted.
pub fn reached_laws()
    ensures whole { (s : Scenario) (w : World) → IsReached s w → IsWholeWorld (system s) w }
    ensures linked { (s : Scenario) (w : World) → IsReached s w → IsLinkedWorld (system s) w }
    ensures paid { (s : Scenario) (w : World) → NamesDiffer s → IsReached s w → paid (system s) w ≡ true }
    ensures closes { (s : Scenario) (w : World) → NamesDiffer s → IsReached s w → ClosesWhole s w }
    ensures ends { (s : Scenario) (w : World) → IsReached s w → EndsSessions s w }
    ensures sums { (s : Scenario) (w : World) → IsResolved s → IsReached s w → EachOf (system s).counted (SumsToTotal s w) }
{}
