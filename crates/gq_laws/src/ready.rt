// Laws of scenarios that are ready to run.
ghost use Rattle.std.specs.Prelude.{◌≡◌, ℕ, List, Some, slice_get};
ghost use Rattle.gq_model.specs.machine.Routes.{server_of};
ghost use Rattle.gq_model.specs.machine.Scenario.{Interface, Scenario, Component, components, interface_in, system};
ghost use Rattle.gq_laws.specs.Ready.{IsReady};

/// A service that is routed to a leaf is the one that the leaf provides, and has an interface. It does nothing.
pub fn served()
    ensures leaf { (s : Scenario) (x y : ℕ) (c d : Component) (service : List ℕ) → IsReady s → slice_get (components s) x ≡ Some c
        → server_of (system s) c service ≡ Some y → slice_get (components s) y ≡ Some d → d.node.provides ≡ Some service }
    ensures interface { (s : Scenario) (x y : ℕ) (c : Component) (service : List ℕ) → IsReady s → slice_get (components s) x ≡ Some c
        → server_of (system s) c service ≡ Some y → (i : Interface) × (interface_in service s.interfaces ≡ Some i) }
    ensures there { (s : Scenario) (y : ℕ) (c : Component) (service : List ℕ) → server_of (system s) c service ≡ Some y
        → (d : Component) × (slice_get (components s) y ≡ Some d) }
{}
