// Who asks for the sections of the leaves of a system.
ghost use Rattle.std.specs.Prelude.{◌≡◌, [], IfOk, map, length, suc};
ghost use Rattle.gq_budget.specs.Causes.{cause_of};
ghost use Rattle.gq_budget.specs.internal.Run_rounds.{all_asks, rounds};

use crate::asks::{LeafAsks, all_asks};
use crate::cause::Cause;
use crate::counted_leaves::CountedLeaf;
use crate::number_sums::Numbers;
use crate::rounds::rounds;
use crate::use_levels::{in_order, order_of};
use std::alloc::{AllocError, Global};
use std::marker::Model;

/// Who asks for the sections of leaves, and how many uses a chain has at most, with an order of use where one was found.
#[derive(Drop)]
pub(crate) struct Uses<'a> {
    asks: Vec<LeafAsks<'a>>,
    longest: usize,
    order: Option<Vec<usize>>,
}

impl<'a> Model for Uses<'a> {
    ghost use Rattle.std.specs.Prelude.{IfSome};
    ghost use Rattle.gq_budget.specs.internal.Run_rounds.{Used};
    ghost use Rattle.gq_budget.specs.internal.Asking_order.{IsOrder};

    ghost Value = { Used };

    ghost view = { λ u. record { asks = u.asks.items; longest = u.longest } };

    ghost invariant = { λ u. IfSome u.order (λ levels. IsOrder u.asks.items levels.items u.longest) };
}

impl<'a> Uses<'a> {
    /// Who of these leaves asks for the sections of others, by chains of at most as many uses as there are leaves. `leads` reports for each leaf which leaves'
    /// routes for its service lead to it.
    pub fn new(
        alloc: Global,
        leaves: &'a [CountedLeaf],
        leads: &[Vec<bool>],
    ) -> Result<Uses<'a>, AllocError>
        ensures { IfOk result (λ u. u ≡ record { asks = all_asks leaves.now 0 leaves.now (map (λ v. v.items) leads.now); longest = length leaves.now }) }
    {
        let asks = all_asks(alloc, leaves, leads)?;
        let longest = leaves.len();
        let order = order_of(alloc, &asks, longest)?;
        Ok(Uses {
            asks,
            longest,
            order,
        })
    }

    /// How often each section of each leaf runs for one cause; 2^64 - 1 where it is more often. Where the leaves stand in an order of use, the numbers of each
    /// are made once; else round by round.
    pub fn times(&self, alloc: Global, cause: Cause) -> Result<Vec<Numbers>, AllocError>
        ensures { IfOk result (λ often. often.items ≡ rounds (cause_of cause) (suc self.now.longest) self.now.asks []) }
    {
        let asks = self.asks.as_slice();
        if let Some(levels) = &self.order {
            if let Some(often) = in_order(alloc, cause, asks, levels.as_slice())? {
                return Ok(often);
            }
        }
        rounds(alloc, cause, asks, self.longest)
    }
}
