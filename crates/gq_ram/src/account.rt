// An account, and why a call is refused.
ghost use Rattle.std.specs.Prelude.{◌≡◌};
ghost use Rattle.gq_ram.specs.Account_table.{IsRefusedFor, counted, shortage};
ghost use Rattle.gq_ram.specs.Giving.{IsAfforded};

use gq_store::AccountNo;
use gq_tariff::Amount;
use thiserror::Error;

/// Why a call on accounts is refused. A refused call leaves everything as it was.
#[derive(Clone, Copy, Debug, PartialEq, Eq, Error)]
pub enum AccountFault {
    /// Neither account is the other's reference account.
    #[error("A1 NotRelated")]
    NotRelated,
    /// The quota of bytes that is not used is less.
    #[error("A2 Exceeded")]
    Exceeded,
    /// A dataspace has at least a byte.
    #[error("A3 ZeroSize")]
    ZeroSize,
    /// The account is the reference account of another one.
    #[error("A4 HasMembers")]
    HasMembers,
    /// The root account is never closed.
    #[error("A5 IsRoot")]
    IsRoot,
    /// The quota of capabilities that is not used is less.
    #[error("A6 CapsExceeded")]
    CapsExceeded,
}

// The quota of an account and what is used of it, in bytes and in capabilities. The root account has no reference account.
#[derive(Clone, Copy)]
pub(crate) struct Account {
    pub(crate) quota: Amount,
    pub(crate) used: Amount,
    pub(crate) reference: Option<AccountNo>,
}

/// Compares what there is with what is asked for: `Exceeded` where there are fewer bytes, else `CapsExceeded` where there are fewer capabilities.
pub fn afford(there: Amount, asked: Amount) -> Result<(), AccountFault>
    ensures refusal { IsRefusedFor result (shortage there asked) }
    ensures afforded { IsAfforded result there.ram there.caps asked }
{
    if there.ram < asked.ram {
        return Err(AccountFault::Exceeded);
    }
    if there.caps < asked.caps {
        return Err(AccountFault::CapsExceeded);
    }
    Ok(())
}

// What counts of an amount: no capabilities where a dataspace costs none.
pub(crate) fn counted(price: u64, amount: Amount) -> Amount
    ensures { result ≡ counted price amount }
{
    Amount {
        ram: amount.ram,
        caps: if price == 0 { 0 } else { amount.caps },
    }
}
