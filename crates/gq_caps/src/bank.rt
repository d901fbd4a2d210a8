// Banks of slots.
ghost use Rattle.std.specs.Prelude.{◌≡◌, ◌<◌, ◌≤◌, ◌^◌, replicate, length, slice_get, slice_set, Some, OnSome};
ghost use Rattle.gq_model.specs.machine.Amounts.{Ram, Caps};
ghost use Rattle.gq_model.specs.rules.Kinds.{kinds_cost};
ghost use Rattle.gq_caps.specs.Known.{all_known};
ghost use Rattle.gq_caps.specs.declared.totals.Measure.{Measure};
ghost use Rattle.gq_caps.specs.Measured.{total_of, measured, AreFew};

use crate::kind::Kind;
use crate::totals::Totals;
use gq_tariff::Amount;
use std::marker::Model;

/// So many slots, by their kinds, with the sums of what is measured of them.
#[derive(Clone, Copy)]
pub struct Bank<const N: usize> {
    kinds: [Kind; N],
    totals: Totals,
}

impl<const N: usize> Model for Bank<N> {
    ghost use Rattle.std.specs.Prelude.{List};
    ghost use Rattle.gq_caps.specs.declared.kind.Kind.{Kind};

    ghost Value = { List Kind };

    ghost view = { λ b. b.kinds };

    ghost use Rattle.gq_caps.specs.internal.Totalled.{IsTotalled, totals_of, totals_are};

    ghost invariant = { λ b. IsTotalled b.kinds b.totals };

    ghost inverse = { λ kinds. record { kinds = kinds; totals = totals_of kinds } };

    ghost inverse_ok = { λ b h. λ i. record { kinds = b.kinds; totals = totals_are b.kinds b.totals h i } };
}

impl<const N: usize> Bank<N> {
    /// All slots are empty.
    pub fn new() -> Bank<N>
        requires { N ≤ 64 }
        ensures { result ≡ replicate N Kind.Empty }
    {
        Bank {
            kinds: [Kind::Empty; N],
            totals: Totals::none(),
        }
    }

    /// What these slots hold and have lent. Places of the heap are not among it.
    pub fn cost(&self) -> Amount
        ensures ram { result.ram ≡ kinds_cost Ram (all_known self.now) }
        ensures caps { result.caps ≡ kinds_cost Caps (all_known self.now) }
        ensures small { result.ram ≤ 2 ^ 41 }
        ensures few { result.caps ≤ 2 ^ 41 }
    {
        let totals = self.totals();
        Amount {
            ram: totals.ram,
            caps: totals.caps,
        }
    }

    /// All that is measured of these slots.
    pub fn totals(&self) -> &Totals
        ensures sums { (m : Measure) → total_of result.now m ≡ measured m (all_known self.now) }
        ensures small { AreFew result.now }
    {
        // The proof of what the totals are needs to be reported of the kinds that they are of.
        let _kinds = &self.kinds;
        &self.totals
    }

    /// The kinds of its slots, in their order.
    pub fn kinds(&self) -> &[Kind]
        ensures kinds { result.now ≡ self.now }
        ensures count { length result.now ≡ N }
    {
        &self.kinds
    }

    /// The kind of a slot, where there is one of this number.
    pub fn get(&self, slot: u8) -> Option<Kind>
        ensures kind { result ≡ slice_get self.now slot }
        ensures inside { OnSome result (slot < N) }
    {
        if usize::from(slot) < N {
            Some(self.kinds[usize::from(slot)])
        } else {
            None
        }
    }

    /// The kind of a slot.
    pub fn kind(&self, slot: u8) -> Kind
        requires { slot < N }
        ensures { slice_get self.now slot ≡ Some result }
    {
        self.kinds[usize::from(slot)]
    }

    /// A slot is of this kind from now on, whatever it was before, where there is one of this number.
    pub fn set(&mut self, slot: u8, kind: Kind)
        ensures { self.new ≡ slice_set self.old slot kind }
    {
        let index = usize::from(slot);
        if index < N {
            let old = self.kinds[index];
            self.totals = self.totals.once_changed(&old, &kind);
            self.kinds[index] = kind;
        }
    }

    /// An empty slot gets this kind.
    pub fn put(&mut self, slot: u8, kind: Kind)
        requires inside { slot < N }
        requires empty { slice_get self.old slot ≡ Some Kind.Empty }
        ensures { self.new ≡ slice_set self.old slot kind }
    {
        self.set(slot, kind);
    }

    /// A slot is emptied.
    pub fn clear(&mut self, slot: u8)
        requires { slot < N }
        ensures { self.new ≡ slice_set self.old slot Kind.Empty }
    {
        self.set(slot, Kind::Empty);
    }
}
