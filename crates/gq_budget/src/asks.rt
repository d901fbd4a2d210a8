// Who asks for the sections of leaves, and how often they run.
ghost use Rattle.std.specs.Prelude.{◌≡◌, ◌∷◌, [], IfOk, map};
ghost use Rattle.gq_model.specs.machine.Sections.{same_section};
ghost use Rattle.gq_verify.specs.Saturated_numbers.{saturated};
ghost use Rattle.gq_budget.specs.Causes.{cause_of};
ghost use Rattle.gq_budget.specs.internal.Run_rounds.{runs, asked_sum, often, leaf_round, askers_by, askers_for, all_asks};

use crate::cause::Cause;
use crate::counted_leaves::CountedLeaf;
use crate::number_sums::Numbers;
use gq_program::Section;
use gq_verify::{Asker, Service};
use smallvec::SmallVec;
use std::alloc::{AllocError, Global};
use std::marker::Model;

/// A leaf's number and its sections, and who asks for them.
#[derive(Drop)]
pub(crate) struct LeafAsks<'a> {
    number: usize,
    sections: &'a [Section],
    askers: Vec<Asker>,
}

impl<'a> Model for LeafAsks<'a> {
    ghost use Rattle.gq_budget.specs.internal.Run_rounds.{Asks};

    ghost Value = { Asks };

    ghost view = { λ a. record { number = a.number; sections = a.sections.now; askers = a.askers.items } };
}

// How often the section that asks runs, where the sections of the leaves run so often.
fn runs(table: &[Numbers], asker: &Asker) -> u64
    ensures { result ≡ runs table.now asker.now }
{
    match table.get(asker.leaf) {
        Some(row) => row.at(asker.part),
        None => 0,
    }
}

// Whether a section is the one that is asked for.
fn is_for(section: Section, asker: &Asker) -> bool
    ensures { result ≡ same_section section asker.now.section }
{
    section == asker.section
}

// How often these ask for a section, where the sections of the leaves run so often; 2^64 - 1 where it is more often.
fn asked(section: Section, askers: &[Asker], table: &[Numbers]) -> u64
    ensures { result ≡ saturated (asked_sum section askers.now table.now) }
{
    let mut sum = 0_u64;
    for asker in askers {
        if is_for(section, asker) {
            sum = sum.saturating_add(asker.count.saturating_mul(runs(table, asker)));
        }
    }
    sum
}

// How often a section of the leaf of a number runs for one cause, which these ask for; 2^64 - 1 where it is more often.
fn often(cause: Cause, leaf: usize, section: Section, askers: &[Asker], table: &[Numbers]) -> u64
    ensures { result ≡ often (cause_of cause) leaf section askers.now table.now }
{
    match section {
        Section::Main => cause.main_runs(),
        Section::Reacting(signal) => u64::from(cause.is_signal(leaf, signal)),
        _ => asked(section, askers, table),
    }
}

impl<'a> LeafAsks<'a> {
    /// Who asks for its sections.
    pub fn askers(&self) -> &[Asker]
        ensures { result.now ≡ self.now.askers }
    {
        self.askers.as_slice()
    }

    /// How often each section of the leaf runs for one cause, where the sections of the leaves run so often.
    pub fn round(
        &self,
        alloc: Global,
        cause: Cause,
        table: &[Numbers],
    ) -> Result<Numbers, AllocError>
        ensures { IfOk result (λ n. n ≡ leaf_round (cause_of cause) self.now.number self.now.sections self.now.askers table.now) }
    {
        let mut numbers = SmallVec::new(alloc);
        for section in self.sections {
            let askers = self.askers.as_slice();
            numbers.push(often(cause, self.number, *section, askers, table))?;
        }
        Ok(Numbers::new(numbers))
    }
}

// Who of these leaves asks for the sections of a service, of those whose routes for it lead there.
fn askers_by(
    alloc: Global,
    leaves: &[CountedLeaf],
    leads: &[bool],
    service: &Service<'_>,
) -> Result<Vec<Asker>, AllocError>
    ensures { IfOk result (λ a. a.items ≡ askers_by service.now 0 leaves.now leads.now) }
{
    let mut askers = Vec::new(alloc);
    for (place, leaf) in leaves.iter().enumerate() {
        match leads.get(place) {
            Some(true) => leaf.put_askers(service, place, &mut askers)?,
            Some(false) => {}
            None => return Ok(askers),
        }
    }
    Ok(askers)
}

// Who asks for the sections of a leaf, to which the routes of these leaves lead for its service.
fn askers_for(
    alloc: Global,
    leaves: &[CountedLeaf],
    leads: &[bool],
    leaf: &CountedLeaf,
) -> Result<Vec<Asker>, AllocError>
    ensures { IfOk result (λ a. a.items ≡ askers_for leaves.now leads.now leaf.now.provides) }
{
    match leaf.provides() {
        Some(service) => askers_by(alloc, leaves, leads, &Service::new(service.as_bytes())),
        None => Ok(Vec::new(alloc)),
    }
}

/// Of each leaf who asks for its sections. `leads` reports for each leaf which leaves' routes for its service lead to it.
pub(crate) fn all_asks<'a>(
    alloc: Global,
    leaves: &'a [CountedLeaf],
    leads: &[Vec<bool>],
) -> Result<Vec<LeafAsks<'a>>, AllocError>
    ensures { IfOk result (λ a. a.items ≡ all_asks leaves.now 0 leaves.now (map (λ v. v.items) leads.now)) }
{
    let mut asks = Vec::new(alloc);
    for (leaf, leads) in leaves.iter().zip(leads) {
        let askers = askers_for(alloc, leaves, leads, leaf)?;
        let number = asks.len();
        asks.push(LeafAsks {
            number,
            sections: leaf.sections(),
            askers,
        })?;
    }
    Ok(asks)
}
