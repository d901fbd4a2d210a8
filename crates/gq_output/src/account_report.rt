// Accounts, as they are reported.
ghost use Rattle.std.specs.Prelude.{◌≡◌};

use gq_model::phase::Phase;
use gq_tariff::Amount;
use std::marker::Model;

/// What is reported of a leaf beside its quota.
#[derive(Clone, Copy, Debug, PartialEq, Eq)]
pub struct LeafAccount {
    used: Amount,
    steps: u64,
    budget: u64,
    phase: Phase,
}

impl Model for LeafAccount {
    ghost use Rattle.gq_model.specs.machine.Accounts.{LeafAccount};

    ghost Value = { LeafAccount };

    ghost view = { λ a. record { used = a.used; steps = a.steps; budget = a.budget; phase = a.phase } };

    ghost inverse = { λ a. record { used = a.used; steps = a.steps; budget = a.budget; phase = a.phase } };
}

impl LeafAccount {
    /// A leaf that holds so much, has taken so many steps of its budget, and does this.
    pub fn new(used: Amount, steps: u64, budget: u64, phase: Phase) -> LeafAccount
        ensures { result ≡ record { used = used; steps = steps; budget = budget; phase = phase } }
    {
        LeafAccount {
            used,
            steps,
            budget,
            phase,
        }
    }

    /// What it holds of its quota, in bytes.
    pub fn used(&self) -> u64
        ensures { result ≡ self.now.used.ram }
    {
        self.used.ram
    }

    /// What it holds of its capabilities; 0 in version 1.
    pub fn caps_used(&self) -> u64
        ensures { result ≡ self.now.used.caps }
    {
        self.used.caps
    }

    /// The steps that it has taken.
    pub fn steps(&self) -> u64
        ensures { result ≡ self.now.steps }
    {
        self.steps
    }

    /// The steps that it takes at most.
    pub fn budget(&self) -> u64
        ensures { result ≡ self.now.budget }
    {
        self.budget
    }

    /// What it does.
    pub fn phase(&self) -> Phase
        ensures { result ≡ self.now.phase }
    {
        self.phase
    }
}

/// The account of a node.
#[derive(Clone, Copy, Debug, PartialEq, Eq)]
pub struct AccountReport {
    quota: Amount,
    leaf: Option<LeafAccount>,
}

impl Model for AccountReport {
    ghost use Rattle.gq_output.specs.Account_values.{AccountValues};

    ghost Value = { AccountValues };

    ghost view = { λ a. record { quota = a.quota; leaf = a.leaf } };

    ghost inverse = { λ a. record { quota = a.quota; leaf = a.leaf } };
}

impl AccountReport {
    /// An account with this quota, of a leaf or of a node with children.
    pub fn new(quota: Amount, leaf: Option<LeafAccount>) -> AccountReport
        ensures { result ≡ record { quota = quota; leaf = leaf } }
    {
        AccountReport { quota, leaf }
    }

    /// The node's quota, in bytes.
    pub fn quota(&self) -> u64
        ensures { result ≡ self.now.quota.ram }
    {
        self.quota.ram
    }

    /// The node's quota of capabilities; 0 in version 1.
    pub fn caps(&self) -> u64
        ensures { result ≡ self.now.quota.caps }
    {
        self.quota.caps
    }

    /// What is reported of a leaf alone; a node with children has no more than its quota.
    pub fn leaf(&self) -> Option<LeafAccount>
        ensures { result ≡ self.now.leaf }
    {
        self.leaf
    }
}
