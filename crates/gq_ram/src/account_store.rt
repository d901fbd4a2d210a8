// The accounts as a store: a chunk is a dataspace of the account that pays for it, and has its number.
use crate::account::AccountFault;
use crate::accounts::Accounts;
use gq_dataspace::DsId;
use gq_store::{AccountNo, ByteStore, ChunkNo, GrowFault};
use gq_tariff::price::PAGE;

impl ByteStore for Accounts {
    ghost use Rattle.gq_ram.specs.Account_stores.{store_at, SameRest};

    ghost state = { store_at };

    ghost same_rest = { SameRest };

    fn grow(&mut self, account: AccountNo, pages: u32) -> Result<ChunkNo, GrowFault> {
        self.laws();
        // An account that is not open can pay nothing.
        if !self.is_open(account) {
            return Err(GrowFault::Exceeded);
        }
        match self.alloc(account, PAGE * u64::from(pages)) {
            Ok(ds) => Ok(ChunkNo::new(ds.0)),
            Err(AccountFault::CapsExceeded) => Err(GrowFault::CapsExceeded),
            Err(_) => Err(GrowFault::Exceeded),
        }
    }

    fn shrink(&mut self, account: AccountNo, chunk: ChunkNo) {
        self.laws();
        self.free(account, DsId(chunk.number()));
    }

    fn load(&self, chunk: ChunkNo, offset: u32) -> u8 {
        self.spaces.load(DsId(chunk.number()), offset)
    }

    fn store(&mut self, chunk: ChunkNo, offset: u32, value: u8) {
        self.spaces.store(DsId(chunk.number()), offset, value);
    }

    fn load4(&self, chunk: ChunkNo, offset: u32) -> u32 {
        self.spaces.load4(DsId(chunk.number()), offset)
    }

    fn store4(&mut self, chunk: ChunkNo, offset: u32, value: u32) {
        self.spaces.store4(DsId(chunk.number()), offset, value);
    }

    fn clear(&mut self, chunk: ChunkNo, offset: u32, size: u32) {
        self.spaces.clear(DsId(chunk.number()), offset, size);
    }

    ghost use Rattle.gq_ram.specs.internal.Kept_rest.{rest_refl as refl_of, rest_trans as trans_of};

    ghost rest_refl = { refl_of };

    ghost rest_trans = { trans_of };
}
