// Laws of the nodes that accounts have at first.
ghost use Rattle.std.specs.Prelude.{◌≡◌, ℕ, List, Some, slice_get, get_or};
ghost use Rattle.gq_model.specs.machine.Scenario.{Scenario, Component, components};
ghost use Rattle.gq_laws.specs.Ready.{IsReady};
ghost use Rattle.gq_trade.specs.declared.trade_node.NodeState.{NodeState};
ghost use Rattle.gq_trade.specs.Balances.{node_at};
ghost use Rattle.gq_trade.specs.Trades_plan.{IsFirst};
ghost use Rattle.gq_trade.specs.Trades.{Trades};
ghost use Rattle.gq_prepared.specs.Account_nodes.{AreNodesOf, caps_of};
ghost use Rattle.gq_prepared.specs.Scenario_plan.{IsPlanOf, first_stage};

/// Accounts that are made from the plan of a scenario have its nodes, each leaf its quantum, and the leaves are pending that start after another. It does
/// nothing.
pub fn first_nodes()
    ensures nodes { (s : Scenario) (ps : List ℕ) (ns : List NodeState) (xs os : List ℕ) (n : ℕ) (w : Trades) → IsPlanOf s ps ns xs os
        → IsFirst s.total.ram (caps_of s) ps ns xs os n w → AreNodesOf s w }
    ensures quanta { (s : Scenario) (w : Trades) (x : ℕ) (c : Component) → IsReady s → AreNodesOf s w → slice_get (components s) x ≡ Some c
        → (node_at w.nodes (get_or w.trading.leaves x 0)).quantum ≡ c.node.quantum }
    ensures stages { (s : Scenario) (ps : List ℕ) (ns : List NodeState) (xs os : List ℕ) (n : ℕ) (w : Trades) (x : ℕ) (c : Component) → IsPlanOf s ps ns xs os
        → IsFirst s.total.ram (caps_of s) ps ns xs os n w → slice_get (components s) x ≡ Some c
        → (node_at w.nodes (get_or w.trading.leaves x 0)).stage ≡ first_stage c.node.after }
{}
