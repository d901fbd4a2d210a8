// Quota that is handed down the tree, from the root to its leaves.
ghost use Rattle.std.specs.Prelude.{◌≡◌, ℕ, ◌+◌, ◌<◌, ◌≤◌, ◌↔◌, length, get_or};
ghost use Rattle.gq_ram.specs.Account_table.{account_at, no_amount, IsOpen};
ghost use Rattle.gq_ram.specs.Ledgers.{with_accounts};
ghost use Rattle.gq_ram.specs.Account_tree.{account_of, number, AreNodes};
ghost use Rattle.gq_ram.specs.Handing.{spent};

use crate::account_tree::AccountTree;
use crate::accounts::Accounts;
use gq_tariff::Amount;

impl AccountTree {
    /// Hands quota of both kinds out: each node, in preorder, gets from the node above it what it is handed. The root node has its amount from the
    /// start. So each has in the end what it was handed, less what it handed on. This is never refused, since no node hands on more than it was
    /// handed. Accounts that are no node's stay as they were, and what any account uses.
    pub fn hand_out(&self, accounts: &mut Accounts, handed: &[Amount])
        requires nodes { AreNodes self.now accounts.old.accounts }
        requires opened { (i : ℕ) → i < length self.now.parents → IsOpen accounts.old.accounts (number self.now i) }
        requires count { length handed.now ≡ length self.now.parents }
        requires some { 1 ≤ length handed.now }
        requires first { (account_of self.now accounts.old 0).quota ≡ get_or handed.now 0 no_amount }
        requires empty { (i : ℕ) → 0 < i → i < length self.now.parents → (account_of self.now accounts.old i).quota ≡ no_amount }
        requires unused { (i : ℕ) → i < length self.now.parents → (account_of self.now accounts.old i).used ≡ no_amount }
        requires fits { (i : ℕ) → i < length self.now.parents → spent (λ a. a.ram) self.now handed.now i ≤ (get_or handed.now i no_amount).ram }
        requires fits_caps { (i : ℕ) → i < length self.now.parents → spent (λ a. a.caps) self.now handed.now i ≤ (get_or handed.now i no_amount).caps }
        requires counted { accounts.old.price ≡ 0 → (i : ℕ) → i < length handed.now → (get_or handed.now i no_amount).caps ≡ 0 }
        ensures balanced { (i : ℕ) → i < length self.now.parents
            → (account_of self.now accounts.new i).quota.ram + spent (λ a. a.ram) self.now handed.now i ≡ (get_or handed.now i no_amount).ram }
        ensures balanced_caps { (i : ℕ) → i < length self.now.parents
            → (account_of self.now accounts.new i).quota.caps + spent (λ a. a.caps) self.now handed.now i ≡ (get_or handed.now i no_amount).caps }
        ensures nodes { AreNodes self.now accounts.new.accounts }
        ensures same { accounts.new ≡ with_accounts accounts.old accounts.new.accounts }
        ensures still { (k : ℕ) → IsOpen accounts.new.accounts k ↔ IsOpen accounts.old.accounts k }
        ensures others { (k : ℕ) → ((i : ℕ) → i < length self.now.parents → k ≡ number self.now i → ⊥)
            → account_at accounts.new.accounts k ≡ account_at accounts.old.accounts k }
        ensures used { (k : ℕ) → (account_at accounts.new.accounts k).used ≡ (account_at accounts.old.accounts k).used }
        ensures references { (k : ℕ) → (account_at accounts.new.accounts k).reference ≡ (account_at accounts.old.accounts k).reference }
    {
        for node in 1..handed.len() {
            let above = self.parent(node);
            self.give(accounts, above, node, handed[node]);
        }
    }
}
