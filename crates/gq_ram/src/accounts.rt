// Accounts over dataspaces: who pays for what.
ghost use Rattle.std.specs.Prelude.{◌≡◌, [], ◌∷◌, ◌+◌, ◌-◌, ◌%◌, ◌<◌, ◌≤◌, ℕ, length, replicate, slice_index, slice_set, get_or};
ghost use Rattle.std.specs.Prelude.{◌↔◌, Some, None, Ok, Err, IfOk, IfSome, OnOk, OnErr, IsTrue};
ghost use Rattle.std.specs.Int.{w32, to_le_bytes};
ghost use Rattle.gq_pages.specs.Frame_bytes.{zeroed, word_at, with_bytes};
ghost use Rattle.gq_dataspace.specs.Dataspaces.{content_of};
ghost use Rattle.gq_ram.specs.Account_table.{account_at, with_use, first_account, relieved, quotas_set, counted, remaining};
ghost use Rattle.gq_ram.specs.Account_table.{are_related, available, available_caps, has_members, is_it, passed, IsOpen};
ghost use Rattle.gq_ram.specs.Account_table.{IsRefusedFor, transfer_refusal, alloc_refusal, close_refusal};
ghost use Rattle.gq_ram.specs.Owning.{IsOf};
ghost use Rattle.gq_ram.specs.Ledgers.{MakesDataspace, ClosesAccount, IsBalanced, IsSameWhole, with_accounts, with_content, first_ledger};

use crate::account::{Account, AccountFault, afford, counted};
use gq_dataspace::{DsId, Spaces};
use gq_pages::Pages;
use gq_store::AccountNo;
use gq_tariff::price::PAGE;
use gq_tariff::{Amount, round_up};
use slab::Slab;
use std::alloc::{AllocError, Global};
use std::marker::Model;

// Of neither kind.
const NOTHING: Amount = Amount { ram: 0, caps: 0 };

/// Accounts, each with a quota of bytes and one of capabilities, and the dataspaces that they pay for. A contract sees the table of accounts, the
/// dataspaces, and which account each is of. The quotas of each kind always sum to their totals, and the bytes of the free frames and all that is
/// used to the total. No call but `new` and `add` allocates host memory.
#[derive(Drop)]
pub struct Accounts {
    // an account's number is its key
    accounts: Slab<Account>,
    pub(crate) spaces: Spaces,
    owners: Vec<Option<AccountNo>>,
    price: u64,
    total: u64,
    total_caps: u64,
}

impl Model for Accounts {
    ghost use Rattle.gq_ram.specs.Ledgers.{Ledger};

    ghost Value = { Ledger };

    ghost use Rattle.gq_ram.specs.internal.Accounts_fields.{ledger_view, IsAccounts};

    ghost view = { ledger_view };

    ghost invariant = { IsAccounts };
}

impl Accounts {
    /// Frames for `total` bytes, and the root account, which has all quota of both kinds. `caps` is how many capabilities there are; where it is
    /// `None` nothing of capabilities is counted or refused. It makes a table of owners with an entry for each frame. `Err` where the host refuses
    /// memory.
    pub fn new(alloc: Global, total: u64, caps: Option<u64>) -> Result<Accounts, AllocError>
        requires total { (4096 ≤ total) × (total ≤ 67108864) }
        requires whole { total % 4096 ≡ 0 }
        requires caps { IfSome caps (λ n. (1 ≤ n) × (n ≤ 65536)) }
        ensures { IfOk result (λ l. l ≡ first_ledger total caps) }
    {
        let frames = (total / PAGE) as u32;
        let pages = Pages::new(alloc, frames)?;
        let spaces = Spaces::new(alloc, pages)?;
        let owners = no_owners(alloc, frames)?;
        let (price, total_caps) = match caps {
            Some(caps) => (1, caps),
            None => (0, 0),
        };
        let root = Account {
            quota: Amount {
                ram: total,
                caps: total_caps,
            },
            used: NOTHING,
            reference: None,
        };
        let accounts = root_alone(alloc, root)?;
        Ok(Accounts {
            accounts,
            spaces,
            owners,
            price,
            total,
            total_caps,
        })
    }

    /// Opens an account with that reference account, and with quota 0 of both kinds. `Err` where the host refuses memory; then all stays as it was.
    pub fn add(&mut self, reference: AccountNo) -> Result<AccountNo, AllocError>
        requires { IsOpen self.old.accounts reference.0 }
        ensures was_closed { IfOk result (λ account. get_or self.old.accounts account.0 None ≡ None) }
        ensures opened { IfOk result (λ account. get_or self.new.accounts account.0 None ≡ Some (first_account reference)) }
        ensures others { IfOk result (λ account. (k : ℕ) → (k ≡ account.0 → ⊥) → get_or self.new.accounts k None ≡ get_or self.old.accounts k None) }
        ensures same { self.new ≡ with_accounts self.old self.new.accounts }
        ensures unchanged { OnErr result (self.new ≡ self.old) }
    {
        let number = self.accounts.insert(Account {
            quota: NOTHING,
            used: NOTHING,
            reference: Some(reference),
        })?;
        Ok(AccountNo(number))
    }

    /// The quota of an account: bytes and capabilities.
    pub fn quota(&self, account: AccountNo) -> Amount
        requires { IsOpen self.now.accounts account.0 }
        ensures { result ≡ (account_at self.now.accounts account.0).quota }
    {
        self.account(account).quota
    }

    /// What its dataspaces cost: their bytes, and one capability for each; no capabilities where these are not counted.
    pub fn used(&self, account: AccountNo) -> Amount
        requires { IsOpen self.now.accounts account.0 }
        ensures { result ≡ (account_at self.now.accounts account.0).used }
    {
        self.account(account).used
    }

    /// The quota of an account, less what is used of it.
    pub fn avail(&self, account: AccountNo) -> Amount
        requires { IsOpen self.now.accounts account.0 }
        ensures { result ≡ remaining (account_at self.now.accounts account.0) }
    {
        let _total = self.total;
        let account = self.account(account);
        Amount {
            ram: account.quota.ram - account.used.ram,
            caps: account.quota.caps - account.used.caps,
        }
    }

    /// The account that its quota comes from; the root account has none.
    pub fn reference(&self, account: AccountNo) -> Option<AccountNo>
        requires { IsOpen self.now.accounts account.0 }
        ensures { result ≡ (account_at self.now.accounts account.0).reference }
    {
        self.account(account).reference
    }

    /// Whether there is an account of that number.
    pub fn is_open(&self, account: AccountNo) -> bool
        ensures { IsTrue result ↔ IsOpen self.now.accounts account.0 }
    {
        self.accounts.contains(account.0)
    }

    /// How many frames are free.
    pub fn free_pages(&self) -> u32
        ensures { result ≡ self.now.spaces.free }
    {
        self.spaces.free_frames()
    }

    /// The byte at `offset` of a dataspace.
    pub fn load(&self, ds: DsId, offset: u32) -> u8
        requires { offset < length (content_of self.now.spaces.spaces ds.0) }
        ensures { result ≡ slice_index (content_of self.now.spaces.spaces ds.0) offset }
    {
        self.spaces.load(ds, offset)
    }

    /// The number in the four bytes from `offset` on, the lowest first.
    pub fn load4(&self, ds: DsId, offset: u32) -> u32
        requires { offset + 4 ≤ length (content_of self.now.spaces.spaces ds.0) }
        ensures { result ≡ word_at (content_of self.now.spaces.spaces ds.0) offset }
    {
        self.spaces.load4(ds, offset)
    }

    /// Writes the byte at `offset` of a dataspace.
    pub fn store(&mut self, ds: DsId, offset: u32, byte: u8)
        requires { offset < length (content_of self.old.spaces.spaces ds.0) }
        ensures written { self.new ≡ with_content self.old ds.0 (slice_set (content_of self.old.spaces.spaces ds.0) offset byte) }
        ensures same_size { length (content_of self.new.spaces.spaces ds.0) ≡ length (content_of self.old.spaces.spaces ds.0) }
    {
        self.spaces.store(ds, offset, byte);
    }

    /// Writes a number to the four bytes from `offset` on, the lowest first.
    pub fn store4(&mut self, ds: DsId, offset: u32, word: u32)
        requires { offset + 4 ≤ length (content_of self.old.spaces.spaces ds.0) }
        ensures written { self.new ≡ with_content self.old ds.0 (with_bytes (content_of self.old.spaces.spaces ds.0) offset (to_le_bytes w32 word)) }
        ensures same_size { length (content_of self.new.spaces.spaces ds.0) ≡ length (content_of self.old.spaces.spaces ds.0) }
    {
        self.spaces.store4(ds, offset, word);
    }

    /// Clears `size` bytes of a dataspace from `offset` on: each becomes 0.
    pub fn clear(&mut self, ds: DsId, offset: u32, size: u32)
        requires some { 1 ≤ size }
        requires inside { offset + size ≤ length (content_of self.old.spaces.spaces ds.0) }
        ensures written { self.new ≡ with_content self.old ds.0 (zeroed (content_of self.old.spaces.spaces ds.0) offset size) }
        ensures same_size { length (content_of self.new.spaces.spaces ds.0) ≡ length (content_of self.old.spaces.spaces ds.0) }
    {
        self.spaces.clear(ds, offset, size);
    }

    /// Moves quota of both kinds from an account to its reference account, or the other way. `NotRelated` where neither is the other's reference account,
    /// then `Exceeded` where `from` has fewer bytes that are not used, then `CapsExceeded` where it has fewer capabilities. Where capabilities are not
    /// counted, none are moved, and none are missing.
    pub fn transfer(
        &mut self,
        from: AccountNo,
        to: AccountNo,
        amount: Amount,
    ) -> Result<(), AccountFault>
        requires from_open { IsOpen self.old.accounts from.0 }
        requires to_open { IsOpen self.old.accounts to.0 }
        ensures moved { OnOk result (self.new ≡ with_accounts self.old (passed self.old.accounts from.0 to.0 (counted self.old.price amount))) }
        ensures unchanged { OnErr result (self.new ≡ self.old) }
        ensures refusal { IsRefusedFor result (transfer_refusal self.old.accounts self.old.price from to amount) }
    {
        if !self.are_related(from, to) {
            return Err(AccountFault::NotRelated);
        }
        let amount = counted(self.price, amount);
        afford(self.avail(from), amount)?;
        self.convey(from, to, amount);
        Ok(())
    }

    // Moves quota of both kinds from an account, which is known to have it, to another one.
    fn convey(&mut self, from: AccountNo, to: AccountNo, amount: Amount)
        requires from_open { IsOpen self.old.accounts from.0 }
        requires to_open { IsOpen self.old.accounts to.0 }
        requires apart { to.0 ≡ from.0 → ⊥ }
        requires enough { amount.ram ≤ available (account_at self.old.accounts from.0) }
        requires enough_caps { amount.caps ≤ available_caps (account_at self.old.accounts from.0) }
        ensures { self.new ≡ with_accounts self.old (passed self.old.accounts from.0 to.0 amount) }
    {
        let _total = self.total;
        let giver = self.account(from);
        let taker = self.account(to);
        let less = Amount {
            ram: giver.quota.ram - amount.ram,
            caps: giver.quota.caps - amount.caps,
        };
        let more = Amount {
            ram: taker.quota.ram + amount.ram,
            caps: taker.quota.caps + amount.caps,
        };
        self.set_quotas(from, less, to, more);
    }

    /// Moves quota of both kinds from an account, which is known to have it, to another one with the same reference account: as transfers to that account
    /// and on from it do, in one step. Where capabilities are not counted, none are moved.
    pub fn pass(&mut self, from: AccountNo, to: AccountNo, amount: Amount)
        requires from_open { IsOpen self.old.accounts from.0 }
        requires to_open { IsOpen self.old.accounts to.0 }
        requires apart { to.0 ≡ from.0 → ⊥ }
        requires siblings { (account_at self.old.accounts from.0).reference ≡ (account_at self.old.accounts to.0).reference }
        requires counted { self.old.price ≡ 0 → amount.caps ≡ 0 }
        requires enough { amount.ram ≤ available (account_at self.old.accounts from.0) }
        requires enough_caps { amount.caps ≤ available_caps (account_at self.old.accounts from.0) }
        ensures { self.new ≡ with_accounts self.old (passed self.old.accounts from.0 to.0 amount) }
    {
        self.convey(from, to, amount);
    }

    /// Makes a dataspace of `size` bytes in whole pages, each byte 0, which the account pays for. `ZeroSize` for 0 bytes, then `Exceeded` where
    /// its pages cost more than the account has that is not used, then `CapsExceeded` where it has no capability left. Frames never run short.
    pub fn alloc(&mut self, account: AccountNo, size: u64) -> Result<DsId, AccountFault>
        requires { IsOpen self.old.accounts account.0 }
        ensures allocated { IfOk result (λ ds. MakesDataspace self.old self.new account size ds) }
        ensures same_whole { IsSameWhole self.new self.old }
        ensures unchanged { OnErr result (self.new ≡ self.old) }
        ensures refusal { IsRefusedFor result (alloc_refusal (account_at self.old.accounts account.0) self.old.price size) }
    {
        if size == 0 {
            return Err(AccountFault::ZeroSize);
        }
        let avail = self.avail(account);
        if size > avail.ram {
            return Err(AccountFault::Exceeded);
        }
        let cost = Amount {
            ram: round_up(size),
            caps: self.price,
        };
        afford(avail, cost)?;
        let Ok(ds) = self.spaces.create(size) else {
            unreachable!();
        };
        self.owners[ds.0 as usize] = Some(account);
        let payer = &mut self.accounts[account.0];
        payer.used.ram += cost.ram;
        payer.used.caps += cost.caps;
        Ok(ds)
    }

    /// Removes a dataspace of the account, which no longer pays for it.
    pub fn free(&mut self, account: AccountNo, ds: DsId)
        requires open { IsOpen self.old.accounts account.0 }
        requires its_own { IsOf self.old.owners ds.0 account }
        ensures paid { self.new.accounts ≡ relieved self.old.accounts account.0 (length (content_of self.old.spaces.spaces ds.0)) self.old.price }
        ensures gone { self.new.spaces.spaces ≡ slice_set self.old.spaces.spaces ds.0 None }
        ensures of_none { self.new.owners ≡ slice_set self.old.owners ds.0 None }
        ensures same_whole { IsSameWhole self.new self.old }
    {
        let size = self.spaces.size(ds);
        self.spaces.destroy(ds);
        self.owners[ds.0 as usize] = None;
        let price = self.price;
        let payer = &mut self.accounts[account.0];
        payer.used.ram -= size;
        payer.used.caps -= price;
    }

    /// Closes an account: its dataspaces are removed, and its quota of both kinds goes to its reference account. Fails with `IsRoot` for the root account,
    /// and with `HasMembers` where it is the reference account of another one; then nothing changes.
    pub fn close(&mut self, account: AccountNo) -> Result<(), AccountFault>
        requires { IsOpen self.old.accounts account.0 }
        ensures closed { OnOk result (ClosesAccount self.old self.new account) }
        ensures same_whole { IsSameWhole self.new self.old }
        ensures unchanged { OnErr result (self.new ≡ self.old) }
        ensures refusal { IsRefusedFor result (close_refusal self.old.accounts account) }
    {
        let closing = self.account(account);
        let Some(reference) = closing.reference else {
            return Err(AccountFault::IsRoot);
        };
        if self.has_members(account) {
            return Err(AccountFault::HasMembers);
        }
        self.free_all(account);
        let heir = self.account(reference);
        self.accounts.remove(account.0);
        self.accounts[reference.0] = Account {
            quota: Amount {
                ram: heir.quota.ram + closing.quota.ram,
                caps: heir.quota.caps + closing.quota.caps,
            },
            ..heir
        };
        Ok(())
    }

    /// The account that has all quota at first. It has no reference account and is never closed.
    pub fn root(&self) -> AccountNo
        ensures first { result.0 ≡ 0 }
        ensures open { IsOpen self.now.accounts result.0 }
        ensures alone { (account_at self.now.accounts result.0).reference ≡ None }
    {
        let _total = self.total;
        AccountNo(0)
    }

    // Removes the dataspaces of the account.
    fn free_all(&mut self, account: AccountNo)
        requires { IsOpen self.old.accounts account.0 }
        ensures paid { self.new.accounts ≡ slice_set self.old.accounts account.0 (Some (with_use (account_at self.old.accounts account.0) 0 0)) }
        ensures gone { (k : ℕ) → IsOf self.old.owners k account → get_or self.new.spaces.spaces k None ≡ None }
        ensures none { (k : ℕ) → IsOf self.new.owners k account → ⊥ }
        ensures others { (k : ℕ) → (IsOf self.old.owners k account → ⊥) → get_or self.new.spaces.spaces k None ≡ get_or self.old.spaces.spaces k None }
        ensures other_owners { (k : ℕ) → (IsOf self.old.owners k account → ⊥) → get_or self.new.owners k None ≡ get_or self.old.owners k None }
        ensures same_whole { IsSameWhole self.new self.old }
    {
        let count = self.owners.len() as u32;
        for k in 0..count {
            if is_it(self.owners[k as usize], account) {
                self.free(account, DsId(k));
            }
        }
        let _total = self.total;
    }

    // Gives two accounts these quotas, of either kind.
    fn set_quotas(&mut self, from: AccountNo, less: Amount, to: AccountNo, more: Amount)
        requires from_open { IsOpen self.old.accounts from.0 }
        requires to_open { IsOpen self.old.accounts to.0 }
        requires balanced { IsBalanced (with_accounts self.old (quotas_set self.old.accounts from.0 less to.0 more)) }
        ensures { self.new ≡ with_accounts self.old (quotas_set self.old.accounts from.0 less to.0 more) }
    {
        let giver = self.account(from);
        let taker = self.account(to);
        self.accounts[from.0] = Account {
            quota: less,
            ..giver
        };
        self.accounts[to.0] = Account {
            quota: more,
            ..taker
        };
    }

    // Whether one of the two is the other's reference account.
    fn are_related(&self, a: AccountNo, b: AccountNo) -> bool
        requires a_open { IsOpen self.now.accounts a.0 }
        requires b_open { IsOpen self.now.accounts b.0 }
        ensures { result ≡ are_related self.now.accounts a b }
    {
        is_it(self.account(a).reference, b) || is_it(self.account(b).reference, a)
    }

    // Whether the account is the reference account of another one.
    fn has_members(&self, account: AccountNo) -> bool
        ensures { result ≡ has_members self.now.accounts account }
    {
        for (_, member) in self.accounts.iter() {
            if is_it(member.reference, account) {
                return true;
            }
        }
        false
    }

    /// What holds in every `Accounts`. It does nothing.
    pub fn laws(&self)
        ensures { IsBalanced self.now }
    {
        let _total = self.total;
    }

    // The account of that number.
    fn account(&self, account: AccountNo) -> Account
        requires { IsOpen self.now.accounts account.0 }
        ensures { result ≡ account_at self.now.accounts account.0 }
    {
        self.accounts[account.0]
    }
}

// No account owns any of so many dataspaces.
fn no_owners(alloc: Global, count: u32) -> Result<Vec<Option<AccountNo>>, AllocError>
    ensures { IfOk result (λ owners. owners.items ≡ replicate count None) }
{
    Vec::from_elem(alloc, None, count as usize)
}

// The root account and no other. What is inserted is reported key by key; as the slab is shrunk, it is known to end with the root's place.
fn root_alone(alloc: Global, root: Account) -> Result<Slab<Account>, AllocError>
    ensures { IfOk result (λ accounts. accounts.slots ≡ Some root ∷ []) }
{
    let mut accounts = Slab::with_capacity(alloc, 1)?;
    accounts.insert_reserved(root);
    accounts.shrink_to_fit();
    Ok(accounts)
}

// Whether there is that account, and it is `account`.
fn is_it(there: Option<AccountNo>, account: AccountNo) -> bool
    ensures { result ≡ is_it there account }
{
    match there {
        Some(there) => there.0 == account.0,
        None => false,
    }
}
