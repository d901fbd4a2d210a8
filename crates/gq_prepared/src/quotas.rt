// The accounts of the definition are the accounts that are stored.
ghost use Rattle.std.specs.Prelude.{◌≡◌, ℕ, List, Some, slice_get, true};
ghost use Rattle.gq_model.specs.machine.Accounts.{Account, accounts, amount_in};
ghost use Rattle.gq_model.specs.machine.Amounts.{Ram, Caps, counts_caps};
ghost use Rattle.gq_model.specs.machine.Scenario.{Scenario, system};
ghost use Rattle.gq_model.specs.machine.Sums.{held};
ghost use Rattle.gq_model.specs.machine.World as world;
ghost use Rattle.gq_laws.specs.Ready.{IsReady};
ghost use Rattle.gq_ram.specs.Account_tree.{account_of};
ghost use Rattle.gq_trade.specs.Trading.{its_account};
ghost use Rattle.gq_slots.specs.Slots.{Frame, Slots, world_seen};
ghost use Rattle.gq_statements.specs.Systems.{AreLawful, IsOf};
ghost use Rattle.gq_prepared.specs.Account_nodes.{AreNodesOf};

/// What is stored of a node is its account by the definition, in lawful slots of a scenario that is ready. It has the quota that is stored for it, in bytes
/// and, in version 2, capabilities. What a leaf holds of each is what its stored account has in use. It does nothing.
pub fn stored_accounts()
    ensures quotas { (s : Scenario) (f : Frame) (t : Slots) (reported : List ℕ) (n : ℕ) (a : Account) → IsReady s → AreLawful t → IsOf (system s) f t
        → AreNodesOf s t.trades → slice_get (accounts s (world_seen f t) reported) n ≡ Some a
        → a.quota ≡ amount_in s.version (account_of t.trades.trading.tree t.trades.trading.ledger n).quota.ram
        (account_of t.trades.trading.tree t.trades.trading.ledger n).quota.caps }
    ensures used { (s : Scenario) (f : Frame) (t : Slots) (x : ℕ) (leaf : world.Leaf) → IsReady s → AreLawful t → IsOf (system s) f t
        → AreNodesOf s t.trades → slice_get (world_seen f t).leaves x ≡ Some leaf
        → held Ram (world_seen f t) x leaf ≡ (its_account t.trades.trading x).used.ram }
    ensures caps { (s : Scenario) (f : Frame) (t : Slots) (x : ℕ) (leaf : world.Leaf) → IsReady s → AreLawful t → IsOf (system s) f t
        → AreNodesOf s t.trades → slice_get (world_seen f t).leaves x ≡ Some leaf → counts_caps s.version ≡ true
        → held Caps (world_seen f t) x leaf ≡ (its_account t.trades.trading x).used.caps }
{}
