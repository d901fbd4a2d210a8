// Accounts on their happy paths and at each refusal.
ghost use Rattle.std.specs.Prelude.{◌≢◌, ℕ, IfOk};
ghost use Rattle.gq_ram.specs.Account_table.{IsOpen};

use crate::used::used;
use gq_dataspace::DsId;
use gq_ram::{AccountFault, AccountNo, Accounts};
use gq_tariff::Amount;
use std::alloc::AllocError;

// `add`, by which accounts are open.
fn opened(accounts: &mut Accounts, reference: AccountNo) -> Result<AccountNo, AllocError>
    requires { IsOpen accounts.old.accounts reference.0 }
    ensures there { IfOk result (λ a. IsOpen accounts.new.accounts a.0) }
    ensures apart { IfOk result (λ a. (k : ℕ) → IsOpen accounts.old.accounts k → k ≢ a.0) }
    ensures still { (k : ℕ) → IsOpen accounts.old.accounts k → IsOpen accounts.new.accounts k }
{
    accounts.add(reference)
}

// `transfer` of bytes, by which accounts are open.
pub(crate) fn moved(
    accounts: &mut Accounts,
    from: AccountNo,
    to: AccountNo,
    amount: u64,
) -> Result<(), AccountFault>
    requires from_open { IsOpen accounts.old.accounts from.0 }
    requires to_open { IsOpen accounts.old.accounts to.0 }
    ensures { (k : ℕ) → IsOpen accounts.old.accounts k → IsOpen accounts.new.accounts k }
{
    accounts.transfer(
        from,
        to,
        Amount {
            ram: amount,
            caps: 0,
        },
    )
}

// `transfer` of capabilities, by which accounts are open.
pub(crate) fn moved_caps(
    accounts: &mut Accounts,
    from: AccountNo,
    to: AccountNo,
    amount: u64,
) -> Result<(), AccountFault>
    requires from_open { IsOpen accounts.old.accounts from.0 }
    requires to_open { IsOpen accounts.old.accounts to.0 }
    ensures { (k : ℕ) → IsOpen accounts.old.accounts k → IsOpen accounts.new.accounts k }
{
    accounts.transfer(
        from,
        to,
        Amount {
            ram: 0,
            caps: amount,
        },
    )
}

// `alloc`, by which accounts are open.
fn made(accounts: &mut Accounts, account: AccountNo, size: u64) -> Result<DsId, AccountFault>
    requires { IsOpen accounts.old.accounts account.0 }
    ensures { (k : ℕ) → IsOpen accounts.old.accounts k → IsOpen accounts.new.accounts k }
{
    accounts.alloc(account, size)
}

// `close`, by which accounts are open.
fn closed(accounts: &mut Accounts, account: AccountNo) -> Result<(), AccountFault>
    requires { IsOpen accounts.old.accounts account.0 }
    ensures { (k : ℕ) → IsOpen accounts.old.accounts k → k ≢ account.0 → IsOpen accounts.new.accounts k }
{
    accounts.close(account)
}

// Two members of the root.
pub(crate) fn added(accounts: &mut Accounts) -> Result<(AccountNo, AccountNo), AllocError>
    ensures first { IfOk result (λ x. IsOpen accounts.new.accounts x.0.0) }
    ensures second { IfOk result (λ x. IsOpen accounts.new.accounts x.1.0) }
    ensures not_root { IfOk result (λ x. 0 ≢ x.0.0) }
    ensures apart { IfOk result (λ x. x.0.0 ≢ x.1.0) }
{
    let root = accounts.root();
    let a = opened(accounts, root)?;
    let root = accounts.root();
    let b = opened(accounts, root)?;
    Ok((a, b))
}

// What a move or an end is answered.
type Answer = Result<(), AccountFault>;

// What moves of bytes between the root and its members are answered. Why an account makes no dataspace, or none if it does. What it uses and has left then, and
// how many pages are free. What its end is answered, the quota of the root then, and how many pages are free.
fn trade_bytes(
    accounts: &mut Accounts,
) -> Result<
    (
        [Answer; 3],
        [Option<AccountFault>; 3],
        (u64, u64, u32),
        Answer,
        (u64, u32),
    ),
    AllocError,
> {
    let (a, b) = added(accounts)?;
    let root = accounts.root();
    let moves = [
        moved(accounts, root, a, 4096),
        moved(accounts, a, b, 1),
        moved(accounts, a, root, 4097),
    ];
    let refusals = [
        made(accounts, a, 0).err(),
        made(accounts, a, 4097).err(),
        made(accounts, a, 1).err(),
    ];
    let held = (
        accounts.used(a).ram,
        accounts.avail(a).ram,
        accounts.free_pages(),
    );
    let end = closed(accounts, a);
    let root = accounts.root();
    let left = (accounts.quota(root).ram, accounts.free_pages());
    Ok((moves, refusals, held, end, left))
}

// Whether an account is the reference of its member, and what its end is answered; and those of the root.
fn refused_ends(accounts: &mut Accounts) -> Option<(bool, AccountFault, bool, AccountFault)> {
    let (a, _b) = added(accounts).ok()?;
    let c = opened(accounts, a).ok()?;
    let is_reference = accounts.reference(c) == Some(a);
    let Err(of_member) = accounts.close(a) else {
        return None;
    };
    let root = accounts.root();
    let has_none = accounts.reference(root).is_none();
    let Err(of_root) = accounts.close(root) else {
        return None;
    };
    Some((is_reference, of_member, has_none, of_root))
}

// The same of the one capability that the root has: an account that has it makes one dataspace, and no second one.
fn trade_capabilities(
    accounts: &mut Accounts,
) -> Result<([Answer; 4], [Option<AccountFault>; 2], u64, Answer, u64), AllocError> {
    let (a, b) = added(accounts)?;
    let root = accounts.root();
    let moves = [
        moved_caps(accounts, root, a, 1),
        moved_caps(accounts, a, b, 1),
        moved_caps(accounts, root, a, 1),
        moved(accounts, root, a, 8192),
    ];
    let refusals = [made(accounts, a, 1).err(), made(accounts, a, 1).err()];
    let used = accounts.used(a).caps;
    let end = closed(accounts, a);
    let root = accounts.root();
    Ok((moves, refusals, used, end, accounts.quota(root).caps))
}

// Bytes and capabilities move between an account and its members alone, and come back with the end of an account; one that has members does not end.
#[test]
fn trades_quota(rt: HostRuntime) {
    let alloc = rt.alloc();
    assert_eq!(rt;
        (
            used(Accounts::new(alloc, 65536, None), trade_bytes),
            used(Accounts::new(alloc, 65536, Some(1)), trade_capabilities),
            used(Accounts::new(alloc, 65536, None), refused_ends)
        ),
        (
            Ok(Ok((
                [
                    Ok(()),
                    Err(AccountFault::NotRelated),
                    Err(AccountFault::Exceeded)
                ],
                [
                    Some(AccountFault::ZeroSize),
                    Some(AccountFault::Exceeded),
                    None
                ],
                (4096, 0, 15),
                Ok(()),
                (65536, 16)
            ))),
            Ok(Ok((
                [
                    Ok(()),
                    Err(AccountFault::NotRelated),
                    Err(AccountFault::CapsExceeded),
                    Ok(())
                ],
                [None, Some(AccountFault::CapsExceeded)],
                1,
                Ok(()),
                1
            ))),
            Ok(Some((true, AccountFault::HasMembers, true, AccountFault::IsRoot)))
        )
    );
}
