// Laws of leaves that end.
ghost use Rattle.std.specs.Prelude.{◌≡◌, ℕ, Some, slice_get};
ghost use Rattle.gq_model.specs.declared.phase.Phase.TheVariants.{Exited};
ghost use Rattle.gq_model.specs.machine.Scenario.{Component, Scenario, components, system};
ghost use Rattle.gq_model.specs.machine.Step.{released};
ghost use Rattle.gq_laws.specs.Ready.{IsReady};
ghost use Rattle.gq_trade.specs.Trades.{IsLive};
ghost use Rattle.gq_slots.specs.Session_calls.{EndsLeaf};
ghost use Rattle.gq_slots.specs.Slots.{Frame, Slots};
ghost use Rattle.gq_statements.specs.Systems.{AreLawful, IsOf};
ghost use Rattle.gq_prepared.specs.Account_nodes.{AreNodesOf};

/// If a leaf of a scenario has ended, the system goes with the slots as before, and these have the scenario's nodes. Each other leaf has to be in the phase
/// that the abstract machine gives it then. It does nothing.
pub fn ended()
    ensures of { (s : Scenario) (f g : Frame) (t u : Slots) (x : ℕ) (c : Component) → IsReady s → AreLawful t → AreLawful u → AreNodesOf s t.trades
        → IsOf (system s) f t → slice_get (components s) x ≡ Some c → IsLive t.trades x → EndsLeaf t u x → (g.leaf x).phase ≡ Exited
        → ((y : ℕ) (e : Component) → (y ≡ x → ⊥) → slice_get (components s) y ≡ Some e
        → (g.leaf y).phase ≡ released c.node.name e.node.after (f.leaf y).phase)
        → IsOf (system s) g u }
    ensures nodes { (s : Scenario) (f g : Frame) (t u : Slots) (x : ℕ) (c : Component) → IsReady s → AreLawful t → AreLawful u → AreNodesOf s t.trades
        → IsOf (system s) f t → slice_get (components s) x ≡ Some c → IsLive t.trades x → EndsLeaf t u x → (g.leaf x).phase ≡ Exited
        → ((y : ℕ) (e : Component) → (y ≡ x → ⊥) → slice_get (components s) y ≡ Some e
        → (g.leaf y).phase ≡ released c.node.name e.node.after (f.leaf y).phase)
        → AreNodesOf s u.trades }
{}
