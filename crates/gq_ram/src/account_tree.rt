// The nodes of a scenario in preorder, each with its account.
ghost use Rattle.std.specs.Prelude.{◌≡◌, ℕ, ◌<◌, ◌≤◌, OnOk, OnErr, length, get_or};
ghost use Rattle.gq_ram.specs.Account_table.{available, available_caps};
ghost use Rattle.gq_ram.specs.Giving.{CanGive, IsAfforded};
ghost use Rattle.gq_ram.specs.Account_tree.{account_of, donated, number, parent, IsHop};

use crate::account::{AccountFault, afford};
use crate::accounts::Accounts;
use gq_store::AccountNo;
use gq_tariff::Amount;
use std::marker::Model;

/// The nodes of a scenario in preorder, the root first: the account of each, and the place of the node above it.
#[derive(Drop)]
pub struct AccountTree {
    accounts: Vec<AccountNo>,
    parents: Vec<usize>,
}

impl Model for AccountTree {
    ghost use Rattle.gq_ram.specs.Account_tree.{Tree, IsTree};

    ghost Value = { Tree };

    ghost view = { λ t. record { accounts = t.accounts.items; parents = t.parents.items } };

    ghost invariant = { λ t. IsTree (record { accounts = t.accounts.items; parents = t.parents.items }) };
}

impl AccountTree {
    /// The nodes of these accounts, where the node above each, but for the root, stands before it.
    pub fn new(accounts: Vec<AccountNo>, parents: Vec<usize>) -> AccountTree
        requires count { length accounts.items ≡ length parents.items }
        requires preorder { (i : ℕ) → 0 < i → i < length parents.items → get_or parents.items i 0 < i }
        ensures accounts { result.accounts ≡ accounts.items }
        ensures parents { result.parents ≡ parents.items }
    {
        AccountTree { accounts, parents }
    }

    /// The account of a node.
    pub fn account(&self, node: usize) -> AccountNo
        requires { node < length self.now.parents }
        ensures { result.0 ≡ number self.now node }
    {
        self.accounts[node]
    }

    /// The place of the node above a node, which stands before it.
    pub fn parent(&self, node: usize) -> usize
        requires { node < length self.now.parents }
        ensures place { result ≡ parent self.now node }
        ensures before { 0 < node → result < node }
    {
        self.parents[node]
    }

    /// Moves quota of both kinds from the account of a node to that of another one. It goes hop by hop, through the account of every init on the way,
    /// and none of these keeps any of it; no other account changes.
    ///
    /// Refused as `Exceeded` where the giver has fewer bytes that are not used, else as `CapsExceeded` where it has fewer capabilities; then nothing
    /// moves. Where capabilities are not counted, none can be given.
    pub fn donate(
        &self,
        accounts: &mut Accounts,
        from: usize,
        to: usize,
        amount: Amount,
    ) -> Result<(), AccountFault>
        requires can { CanGive self.now accounts.old.accounts from to }
        requires counted { accounts.old.price ≡ 0 → amount.caps ≡ 0 }
        ensures moved { OnOk result (accounts.new ≡ donated self.now accounts.old from to amount) }
        ensures afforded { IsAfforded result (available (account_of self.now accounts.old from))
            (available_caps (account_of self.now accounts.old from)) amount }
        ensures unchanged { OnErr result (accounts.new ≡ accounts.old) }
    {
        accounts.laws();
        let giver = self.accounts[from];
        afford(accounts.avail(giver), amount)?;
        self.convey(accounts, from, to, amount);
        Ok(())
    }

    /// Moves quota of both kinds, as `donate` does, where the giver is known to have it: this is never refused.
    pub fn give(&self, accounts: &mut Accounts, from: usize, to: usize, amount: Amount)
        requires can { CanGive self.now accounts.old.accounts from to }
        requires counted { accounts.old.price ≡ 0 → amount.caps ≡ 0 }
        requires enough { amount.ram ≤ available (account_of self.now accounts.old from) }
        requires enough_caps { amount.caps ≤ available_caps (account_of self.now accounts.old from) }
        ensures { accounts.new ≡ donated self.now accounts.old from to amount }
    {
        self.convey(accounts, from, to, amount);
    }

    // Moves what the giver has: between two nodes of one init in one step, else hop by hop.
    fn convey(&self, accounts: &mut Accounts, from: usize, to: usize, amount: Amount)
        requires can { CanGive self.now accounts.old.accounts from to }
        requires counted { accounts.old.price ≡ 0 → amount.caps ≡ 0 }
        requires enough { amount.ram ≤ available (account_of self.now accounts.old from) }
        requires enough_caps { amount.caps ≤ available_caps (account_of self.now accounts.old from) }
        ensures { accounts.new ≡ donated self.now accounts.old from to amount }
    {
        if from != 0 && to != 0 && self.parents[from] == self.parents[to] {
            accounts.pass(self.accounts[from], self.accounts[to], amount);
            return;
        }
        self.carry(accounts, from, to, amount);
    }

    // Moves what the giver has, up from whichever of the two stands later in preorder.
    fn carry(&self, accounts: &mut Accounts, from: usize, to: usize, amount: Amount)
        requires can { CanGive self.now accounts.old.accounts from to }
        requires counted { accounts.old.price ≡ 0 → amount.caps ≡ 0 }
        requires enough { amount.ram ≤ available (account_of self.now accounts.old from) }
        requires enough_caps { amount.caps ≤ available_caps (account_of self.now accounts.old from) }
        ensures { accounts.new ≡ donated self.now accounts.old from to amount }
    {
        accounts.laws();
        if from > to {
            let init = self.parents[from];
            self.hop(accounts, from, init, amount);
            if init != to {
                self.carry(accounts, init, to, amount);
            }
        } else {
            let init = self.parents[to];
            if init == from {
                self.hop(accounts, from, to, amount);
                return;
            }
            self.carry(accounts, from, init, amount);
            self.hop(accounts, init, to, amount);
        }
    }

    // Moves what the giver has between a node and its init.
    fn hop(&self, accounts: &mut Accounts, from: usize, to: usize, amount: Amount)
        requires can { CanGive self.now accounts.old.accounts from to }
        requires near { IsHop self.now from to }
        requires counted { accounts.old.price ≡ 0 → amount.caps ≡ 0 }
        requires enough { amount.ram ≤ available (account_of self.now accounts.old from) }
        requires enough_caps { amount.caps ≤ available_caps (account_of self.now accounts.old from) }
        ensures { accounts.new ≡ donated self.now accounts.old from to amount }
    {
        let giver = self.accounts[from];
        let taker = self.accounts[to];
        let Ok(()) = accounts.transfer(giver, taker, amount) else {
            unreachable!();
        };
    }
}
