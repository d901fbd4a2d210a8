// Accounts that are opened for the nodes of a tree.
ghost use Rattle.std.specs.Prelude.{◌≡◌, ℕ, ◌<◌, ◌≤◌, length, get_or, IfOk};
ghost use Rattle.gq_ram.specs.Account_table.{IsOpen};
ghost use Rattle.gq_ram.specs.Ledgers.{with_accounts};
ghost use Rattle.gq_ram.specs.Opening.{IsOpened};

use crate::account_tree::AccountTree;
use crate::accounts::Accounts;
use std::alloc::{AllocError, Global};

impl AccountTree {
    /// Opens an account for each node of a tree in preorder, where `parents` has the place of the node above each; that of the root is not looked at.
    /// The root node has the root account, which is the only one that is open before. The account of each other node has that of the node above as its
    /// reference account, and no quota.
    ///
    /// `Err` where the host refuses memory; some of the accounts may then be open.
    pub fn open(
        alloc: Global,
        accounts: &mut Accounts,
        parents: Vec<usize>,
    ) -> Result<AccountTree, AllocError>
        requires some { 1 ≤ length parents.items }
        requires preorder { (i : ℕ) → 0 < i → i < length parents.items → get_or parents.items i 0 < i }
        requires root_alone { (k : ℕ) → IsOpen accounts.old.accounts k → k ≡ 0 }
        ensures parents { IfOk result (λ t. t.parents ≡ parents.items) }
        ensures opened { IfOk result (λ t. IsOpened t accounts.old.accounts accounts.new.accounts) }
        ensures same { accounts.new ≡ with_accounts accounts.old accounts.new.accounts }
    {
        let mut opened = Vec::with_capacity(alloc, parents.len())?;
        opened.push(accounts.root())?;
        for node in 1..parents.len() {
            let above = opened[parents[node]];
            let account = accounts.add(above)?;
            opened.push(account)?;
        }
        Ok(AccountTree::new(opened, parents))
    }
}
