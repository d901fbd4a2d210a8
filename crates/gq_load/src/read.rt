// Laws of what is read, accepted or not.
ghost use Rattle.std.specs.Prelude.{◌≡◌, ℕ, List, Ok};
ghost use Rattle.gq_model.specs.machine.Scenario.{Scenario};
ghost use Rattle.gq_scenario.specs.Top_table.{scenario_in};
ghost use Rattle.gq_load.specs.Load.{loaded};
ghost use Rattle.gq_load.specs.Unverified.{unverified};
ghost use Rattle.gq_laws.specs.Names.{NamesDiffer};
ghost use Rattle.gq_laws.specs.Ready.{IsRead, IsReady};

/// What holds of every scenario that a text is read as (`scenario_in`), and of those that are loaded (`loaded`: read, and accepted). It does nothing.
///
/// `read`: in version 1 no node is given capabilities and no service needs any, and a service that a leaf provides has an interface.
///
/// `ready`: a scenario that is loaded is resolved, too: quanta fit, leaves start after fitting siblings, routes lead to leaves without cycle.
///
/// `in_text`: `read` holds of each scenario that a text is read as, accepted or not.
///
/// `differ`: no two leaves of it have the same name.
pub fn read_laws()
    ensures read { (text : List ℕ) (s : Scenario) → loaded text ≡ Ok s → IsRead s }
    ensures ready { (text : List ℕ) (s : Scenario) → loaded text ≡ Ok s → IsReady s }
    ensures in_text { (text : List ℕ) (s : Scenario) → scenario_in text ≡ Ok s → IsRead s }
    ensures differ { (text : List ℕ) (s : Scenario) → scenario_in text ≡ Ok s → NamesDiffer s }
{}

/// What holds of each scenario that a text is read as and that is resolved, but not judged (`unverified`): it can be run, with tests. It does nothing.
pub fn unverified_laws()
    ensures { (text : List ℕ) (s : Scenario) → unverified text ≡ Ok s → IsReady s }
{}
