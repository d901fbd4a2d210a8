// Leaves whose sections are counted.
ghost use Rattle.std.specs.Prelude.{◌≡◌, ◌++◌, [], IfOk, OnOk, get_or, option_copied};
ghost use Rattle.gq_verify.specs.Saturated_numbers.{saturated};
ghost use Rattle.gq_verify.specs.Requested.{requests_for};
ghost use Rattle.gq_budget.specs.Leaf_section_counts.{IsCountOf, asks};
ghost use Rattle.gq_budget.specs.internal.Run_rounds.{askers_in};

use crate::budget_leaf::BudgetLeaf;
use crate::number_sums::Numbers;
use gq_program::{Name, Section};
use gq_verify::{Asker, RequestCounts, Service};
use std::alloc::{AllocError, Global};
use std::marker::Model;

/// What is kept of a leaf once its sections are gone through. It is which sections there are, the service that it provides, the number of its signals, how
/// often each section asks for the sections of services, and the greatest number of steps of each. The program is not needed any more.
#[derive(Drop)]
pub struct CountedLeaf {
    sections: Vec<Section>,
    provides: Option<Name>,
    signals: u8,
    requests: Vec<RequestCounts>,
    costs: Numbers,
}

impl Model for CountedLeaf {
    ghost use Rattle.gq_budget.specs.Leaf_section_counts.{Counted};

    ghost Value = { Counted };

    ghost view = { λ l. record {
      sections = l.sections.items;
      provides = l.provides;
      signals = l.signals;
      requests = l.requests.items;
      costs = l.costs;
    } };
}

// The same name, or none.
fn copied(name: Option<&Name>) -> Option<Name>
    ensures { result ≡ option_copied name.entry }
{
    match name {
        Some(name) => Some(name.copied()),
        None => None,
    }
}

impl CountedLeaf {
    /// A leaf, its sections gone through for requests and at once for steps, while they are at hand. Refused only if the host refuses memory.
    pub fn new(alloc: Global, leaf: &BudgetLeaf<'_>) -> Result<CountedLeaf, AllocError>
        ensures { IfOk result (λ l. IsCountOf l leaf.now) }
    {
        let sections = leaf.section_names(alloc)?;
        let requests = leaf.requests(alloc)?;
        let costs = leaf.costs(alloc)?;
        Ok(CountedLeaf {
            sections,
            provides: copied(leaf.provides()),
            signals: leaf.signals(),
            requests,
            costs,
        })
    }

    /// The service that it provides.
    pub(crate) fn provides(&self) -> Option<&Name>
        ensures { option_copied result ≡ self.now.provides }
    {
        self.provides.as_ref()
    }

    /// The number of its signals.
    pub(crate) fn signals(&self) -> u8
        ensures { result ≡ self.now.signals }
    {
        self.signals
    }

    /// Whether one of its sections asks for a section of a service.
    pub fn asks_for(&self, service: &Service<'_>) -> bool
        ensures { result ≡ asks service.now self.now }
    {
        for requests in &self.requests {
            if requests.is_asked(service) {
                return true;
            }
        }
        false
    }

    /// The sections of its program, in their order.
    pub fn sections(&self) -> &[Section]
        ensures { result.now ≡ self.now.sections }
    {
        self.sections.as_slice()
    }

    /// The greatest number of steps of each of its sections.
    pub(crate) fn costs(&self) -> &Numbers
        ensures { result.now ≡ self.now.costs }
    {
        &self.costs
    }

    /// How often the section at a place among those of its program asks for a section of a service; 2^64 - 1 where it is more often.
    pub fn requests_for(&self, part: usize, service: &Service<'_>, section: Section) -> u64
        ensures { result ≡ saturated (requests_for (get_or self.now.requests part []) service.now section) }
    {
        match self.requests.get(part) {
            Some(requests) => requests.count_for(service, section),
            None => 0,
        }
    }

    /// The greatest number of steps of the section at a place among those of its program.
    pub fn cost(&self, part: usize) -> u64
        ensures { result ≡ get_or self.now.costs part 0 }
    {
        self.costs.at(part)
    }

    /// Puts the requests of its sections for those of a service at the end of a list, as those of the leaf of a number.
    pub(crate) fn put_askers(
        &self,
        service: &Service<'_>,
        leaf: usize,
        askers: &mut Vec<Asker>,
    ) -> Result<(), AllocError>
        ensures { OnOk result (askers.new.items ≡ askers.old.items ++ askers_in service.now leaf 0 self.now.requests) }
    {
        for (part, requests) in self.requests.iter().enumerate() {
            requests.put_askers(service, leaf, part, askers)?;
        }
        Ok(())
    }
}
