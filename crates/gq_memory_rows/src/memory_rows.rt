// The memory of many accounts: what each has of its own, and refusals in both kinds.
ghost use Rattle.std.specs.Prelude.{◌≡◌, ◌≢◌, IfOk};
ghost use Rattle.gq_ram.specs.Account_table.{IsOpen};
ghost use Rattle.gq_ram.specs.Account_stores.{store_at, SameRest};

use crate::ram_rows::{added, moved, moved_caps};
use gq_ram::{AccountFault, AccountNo, Accounts};
use gq_store::{ByteStore, ChunkNo, GrowFault};
use std::alloc::{AllocError, Global};

// A page of an account whose last byte is `value`.
fn page_with(accounts: &mut Accounts, account: AccountNo, value: u8) -> Result<ChunkNo, GrowFault>
    ensures size { IfOk result (λ chunk. (store_at accounts.new account.0).size chunk ≡ 4096) }
    ensures rest { SameRest account.0 accounts.old accounts.new }
{
    let chunk = ByteStore::grow(accounts, account, 1)?;
    ByteStore::store(accounts, chunk, 4095, value);
    Ok(chunk)
}

// What each of two accounts reads of its page, once both have one.
fn read_both(
    accounts: &mut Accounts,
    first: AccountNo,
    second: AccountNo,
) -> Result<(u8, u8), GrowFault>
    requires { first.0 ≢ second.0 }
{
    let one = page_with(accounts, first, 7)?;
    let two = page_with(accounts, second, 9)?;
    let of_first = ByteStore::load(accounts, one, 4095);
    let of_second = ByteStore::load(accounts, two, 4095);
    Ok((of_first, of_second))
}

// What a page reads: a word at its end, and that word once two of its bytes are cleared. Then the page is given back.
fn read_words(accounts: &mut Accounts, account: AccountNo) -> Result<(u32, u32), GrowFault> {
    let chunk = ByteStore::grow(accounts, account, 1)?;
    ByteStore::store4(accounts, chunk, 4092, 67305985);
    let word = ByteStore::load4(accounts, chunk, 4092);
    ByteStore::clear(accounts, chunk, 4093, 2);
    let cleared = ByteStore::load4(accounts, chunk, 4092);
    ByteStore::shrink(accounts, account, chunk);
    Ok((word, cleared))
}

// What an account is answered for a move to it.
type Answer = Result<(), AccountFault>;

// Two members of the root with a page each, and what the moves of these are answered.
fn two_members(
    accounts: &mut Accounts,
) -> Result<(AccountNo, AccountNo, Answer, Answer), AllocError>
    ensures first { IfOk result (λ x. IsOpen accounts.new.accounts x.0.0) }
    ensures second { IfOk result (λ x. IsOpen accounts.new.accounts x.1.0) }
    ensures apart { IfOk result (λ x. x.0.0 ≢ x.1.0) }
{
    let (a, b) = added(accounts)?;
    let root = accounts.root();
    let first = moved(accounts, root, a, 4096);
    let second = moved(accounts, root, b, 4096);
    Ok((a, b, first, second))
}

// What two accounts read of their pages, what the second one is answered for another page, and how many pages are free.
fn two_pages(
    accounts: &mut Accounts,
    first: AccountNo,
    second: AccountNo,
) -> (Result<(u8, u8), GrowFault>, Option<GrowFault>, u32)
    requires { first.0 ≢ second.0 }
{
    let read = read_both(accounts, first, second);
    let refused = ByteStore::grow(accounts, second, 1).err();
    (read, refused, accounts.free_pages())
}

// The same of two members, with what the moves of a page to each were answered.
fn keep_pages(
    alloc: Global,
) -> Result<
    Option<
        (
            Answer,
            Answer,
            (Result<(u8, u8), GrowFault>, Option<GrowFault>, u32),
        ),
    >,
    AllocError,
> {
    let mut accounts = Accounts::new(alloc, 65536, None)?;
    let seen = match two_members(&mut accounts) {
        Ok((a, b, first, second)) => Some((first, second, two_pages(&mut accounts, a, b))),
        Err(_) => None,
    };
    drop(accounts);
    Ok(seen)
}

#[test]
fn keeps_what_each_account_has(rt: HostRuntime) {
    assert_eq!(rt;
        keep_pages(rt.alloc()),
        Ok(Some((Ok(()), Ok(()), (Ok((7, 9)), Some(GrowFault::Exceeded), 14))))
    );
}

// A member of the root with two pages and one capability, and what the moves of these are answered.
fn one_member(accounts: &mut Accounts) -> Result<(AccountNo, Answer, Answer), AllocError>
    ensures { IfOk result (λ x. IsOpen accounts.new.accounts x.0.0) }
{
    let (a, _b) = added(accounts)?;
    let root = accounts.root();
    let bytes = moved(accounts, root, a, 8192);
    let caps = moved_caps(accounts, root, a, 1);
    Ok((a, bytes, caps))
}

// What three pages are answered, what words read, and what one page, two pages and one page again are answered.
fn grown(
    accounts: &mut Accounts,
    account: AccountNo,
) -> (
    Option<GrowFault>,
    Result<(u32, u32), GrowFault>,
    [Option<GrowFault>; 3],
) {
    let refused = ByteStore::grow(accounts, account, 3).err();
    let read = read_words(accounts, account);
    let grown = [
        ByteStore::grow(accounts, account, 1).err(),
        ByteStore::grow(accounts, account, 2).err(),
        ByteStore::grow(accounts, account, 1).err(),
    ];
    (refused, read, grown)
}

// The same of that member, with what the moves to it were answered.
fn refuse_pages(
    alloc: Global,
) -> Result<
    (
        Answer,
        Answer,
        (
            Option<GrowFault>,
            Result<(u32, u32), GrowFault>,
            [Option<GrowFault>; 3],
        ),
    ),
    AllocError,
> {
    let mut accounts = Accounts::new(alloc, 65536, Some(2))?;
    let seen = match one_member(&mut accounts) {
        Ok((a, bytes, caps)) => Ok((bytes, caps, grown(&mut accounts, a))),
        Err(refused) => Err(refused),
    };
    drop(accounts);
    seen
}

// The bytes 1, 2, 3 and 4 spell 67305985, and 1, 0, 0 and 4 spell 67108865.
#[test]
fn refuses_bytes_before_capabilities(rt: HostRuntime) {
    assert_eq!(rt;
        refuse_pages(rt.alloc()),
        Ok((
            Ok(()),
            Ok(()),
            (
                Some(GrowFault::Exceeded),
                Ok((67305985, 67108865)),
                [
                    None,
                    Some(GrowFault::Exceeded),
                    Some(GrowFault::CapsExceeded)
                ]
            )
        ))
    );
}
