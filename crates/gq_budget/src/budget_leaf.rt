// Leaves.
ghost use Rattle.std.specs.Prelude.{◌≡◌, IfOk, IsTrue, map, option_copied};
ghost use Rattle.gq_model.specs.machine.Lists.{all_of};
ghost use Rattle.gq_model.specs.machine.Sections.{is_section};
ghost use Rattle.gq_budget.specs.internal.Counted.{AreRequests, costs_of};

use crate::number_sums::Numbers;
use gq_program::{Body, Name, Program, Section};
use gq_verify::{RequestCounts, Verified, section_cost};
use smallvec::SmallVec;
use std::alloc::{AllocError, Global};
use std::marker::Model;

/// A leaf: its program, which breaks no rule, and the service that it provides. Contracts see it as what its program is judged by, with
/// the service.
#[derive(Drop)]
pub struct BudgetLeaf<'a> {
    program: &'a Program,
    verified: &'a Verified<'a>,
    provides: Option<&'a Name>,
}

impl<'a> Model for BudgetLeaf<'a> {
    ghost use Rattle.std.specs.Prelude.{◌≡◌, option_copied};
    ghost use Rattle.gq_model.specs.internal.Stored.{statements_code};
    ghost use Rattle.std.specs.Coded.{codes};
    ghost use Rattle.gq_budget.specs.Leaf_routes.{BudgetLeaf};

    ghost Value = { BudgetLeaf };

    ghost coded = { Prim.hlevel (codes, statements_code (Prim.hlevel codes)) };

    ghost view = { λ l. record { subject = l.verified.now; provides = option_copied l.provides } };

    ghost invariant = { λ l. l.program.now ≡ l.verified.now.program };
}

impl<'a> BudgetLeaf<'a> {
    /// A leaf of this program, which has been judged, that provides this service, or none.
    pub fn new(
        program: &'a Program,
        verified: &'a Verified<'a>,
        provides: Option<&'a Name>,
    ) -> BudgetLeaf<'a>
        requires { program.now ≡ verified.now.program }
        ensures { result ≡ record { subject = verified.now; provides = option_copied provides.entry } }
    {
        BudgetLeaf {
            program,
            verified,
            provides,
        }
    }

    /// The service that it provides.
    pub(crate) fn provides(&self) -> Option<&Name>
        ensures { option_copied result ≡ self.now.provides }
    {
        self.provides
    }

    /// The number of its signals.
    pub(crate) fn signals(&self) -> u8
        ensures { result ≡ self.now.subject.signals }
    {
        let verified = self.verified;
        verified.subject().signals()
    }

    /// The sections of its program, in their order.
    pub(crate) fn sections(&self) -> &[(Section, Body)]
        ensures sections { result.now ≡ self.now.subject.program.sections }
        ensures each { IsTrue (all_of (λ p. is_section p.0) result.now) }
    {
        let program = self.program;
        program.laws();
        program.sections()
    }

    /// Which sections its program has, in their order.
    pub(crate) fn section_names(&self, alloc: Global) -> Result<Vec<Section>, AllocError>
        ensures { IfOk result (λ s. s.items ≡ map (λ p. p.0) self.now.subject.program.sections) }
    {
        let mut names = Vec::new(alloc);
        for (section, _) in self.sections() {
            names.push(*section)?;
        }
        Ok(names)
    }

    /// How often each of its sections asks for the sections of services.
    pub(crate) fn requests(&self, alloc: Global) -> Result<Vec<RequestCounts>, AllocError>
        ensures { IfOk result (λ n. AreRequests self.now.subject self.now.subject.program.sections n.items) }
    {
        let verified = self.verified;
        let mut requests = Vec::new(alloc);
        for (from, _) in self.sections() {
            requests.push(verified.all_requests(alloc, *from)?)?;
        }
        Ok(requests)
    }

    /// The greatest number of steps of each of its sections.
    pub(crate) fn costs(&self, alloc: Global) -> Result<Numbers, AllocError>
        ensures { IfOk result (λ r. r ≡ costs_of self.now.subject.program.sections) }
    {
        let mut costs = SmallVec::new(alloc);
        for (section, body) in self.sections() {
            costs.push(section_cost(*section, body))?;
        }
        Ok(Numbers::new(costs))
    }
}
