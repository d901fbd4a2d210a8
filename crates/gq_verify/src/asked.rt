// How many requests there are, by the section of a service that they are for.
ghost use Rattle.std.specs.Prelude.{◌≡◌, ◌<◌, ◌≤◌, ◌+◌, ◌*◌, ◌++◌, [], OnOk, length, get_or};
ghost use Rattle.gq_model.specs.machine.Program.{text_eq};
ghost use Rattle.gq_model.specs.rules.Budgets.{is_one};
ghost use Rattle.gq_verify.specs.Saturated_numbers.{saturated};
ghost use Rattle.gq_verify.specs.Requested.{Requested, requests_for, is_for, is_asked};
ghost use Rattle.gq_verify.specs.Askers.{askers_of};
ghost use Rattle.gq_verify.specs.internal.Request_sums.{Adds, Raises, IsAt};
ghost use Rattle.gq_verify.specs.internal.Service_keys.{IsOutside};

use crate::service::Service;
use gq_model::spelling::same_text;
use gq_program::Section;
use gq_program::key_index::KeyIndex;
use smallvec::SmallVec;
use std::alloc::{AllocError, Global};
use std::marker::Model;

/// So many letters of a service's name stand in its entry. A longer one stands apart, and no name is longer.
const GREATEST_NAME: usize = 16;

/// So many requests for a section of a service.
#[derive(Drop)]
struct RequestCount {
    service: SmallVec<u8, GREATEST_NAME>,
    section: Section,
    count: u64,
}

impl Model for RequestCount {
    ghost use Rattle.gq_verify.specs.Requested.{Requested};

    ghost Value = { Requested };

    ghost view = { λ e. record { service = e.service.items; section = e.section; count = e.count } };
}

impl RequestCount {
    /// Whether they are for this service.
    fn is_of(&self, service: &[u8]) -> bool
        ensures { result ≡ text_eq service.now self.now.service }
    {
        same_text(service, self.service.as_slice())
    }

    /// Whether they are for this section of this service.
    fn is_for(&self, service: &[u8], section: Section) -> bool
        ensures { result ≡ is_for service.now section self.now }
    {
        self.is_of(service) && section == self.section
    }

    /// How many there are for this section of this service.
    fn count_for(&self, service: &[u8], section: Section) -> u64
        ensures { result ≡ is_one service.now section self.now.service self.now.section * self.now.count }
    {
        if self.is_for(service, section) {
            self.count
        } else {
            0
        }
    }

    /// So many more; 2^64 - 1 where there are more.
    fn add(&mut self, count: u64)
        ensures { self.new ≡ record self.old { count = saturated (self.old.count + count) } }
    {
        self.count = self.count.saturating_add(count);
    }
}

/// A section of a leaf that asks for a section of a service, so many times.
#[derive(Clone, Copy)]
pub struct Asker {
    /// The number of the leaf.
    pub leaf: usize,
    /// The place of the section that asks, among those of the leaf's program.
    pub part: usize,
    /// The section that is asked for.
    pub section: Section,
    /// How many requests it makes each time that it runs.
    pub count: u64,
}

/// How many requests there are, by the section of a service that they are for. Where those for a service may stand is given by a number that is made of its
/// name.
#[derive(Drop)]
pub struct RequestCounts {
    places: KeyIndex,
    entries: Vec<RequestCount>,
}

impl Model for RequestCounts {
    ghost use Rattle.std.specs.Prelude.{List};
    ghost use Rattle.gq_verify.specs.Requested.{Requested};
    ghost use Rattle.gq_program.specs.Name_keys.{AreWithin};
    ghost use Rattle.gq_verify.specs.internal.Service_keys.{keys_of};

    ghost Value = { List Requested };

    ghost view = { λ r. r.entries.items };

    ghost invariant = { λ r. AreWithin r.places (keys_of r.entries.items) };
}

impl RequestCounts {
    /// None. It takes no memory.
    pub fn new(alloc: Global) -> RequestCounts
        ensures { result ≡ [] }
    {
        RequestCounts {
            places: KeyIndex::new(),
            entries: Vec::new(alloc),
        }
    }

    /// Those at a place.
    fn entry_at(&self, place: usize) -> &RequestCount
        requires { place < length self.now }
        ensures { (e : Requested) → result.now ≡ get_or self.now place e }
    {
        &self.entries[place]
    }

    /// The places among which the requests for the sections of a service stand: from the first up to the second.
    fn range(&self, service: &Service<'_>) -> (usize, usize)
        ensures end { result.1 ≤ length self.now }
        ensures outside { IsOutside service.now self.now result.0 result.1 }
    {
        self.places.range(service.key(), self.entries.len())
    }

    /// Whether those at a place are for a service.
    fn is_of_at(&self, place: usize, service: &Service<'_>) -> bool
        requires { place < length self.now }
        ensures { (e : Requested) → result ≡ text_eq service.now (get_or self.now place e).service }
    {
        self.entry_at(place).is_of(service.name())
    }

    /// Whether those at a place are for a section of a service.
    fn is_for_at(&self, place: usize, service: &Service<'_>, section: Section) -> bool
        requires { place < length self.now }
        ensures { (e : Requested) → result ≡ is_for service.now section (get_or self.now place e) }
    {
        self.entry_at(place).is_for(service.name(), section)
    }

    /// How many of those at a place are for a section of a service.
    fn count_at(&self, place: usize, service: &Service<'_>, section: Section) -> u64
        requires { place < length self.now }
        ensures { (e : Requested) → let a = get_or self.now place e in result ≡ is_one service.now section a.service a.section * a.count }
    {
        self.entry_at(place).count_for(service.name(), section)
    }

    /// How many there are for a section of a service; 2^64 - 1 where there are more.
    pub fn count_for(&self, service: &Service<'_>, section: Section) -> u64
        ensures { result ≡ saturated (requests_for self.now service.now section) }
    {
        let (first, end) = self.range(service);
        let mut sum = 0_u64;
        for place in first..end {
            sum = sum.saturating_add(self.count_at(place, service, section));
        }
        sum
    }

    /// Whether one of them is for a section of a service, be they so many or none.
    pub fn is_asked(&self, service: &Service<'_>) -> bool
        ensures { result ≡ is_asked service.now self.now }
    {
        let (first, end) = self.range(service);
        for place in first..end {
            if self.is_of_at(place, service) {
                return true;
            }
        }
        false
    }

    /// Puts those for the sections of a service at the end of a list, as requests of the section at a place among those of the leaf of a number. Refused only
    /// because the host refuses memory; then some may be in the list.
    pub fn put_askers(
        &self,
        service: &Service<'_>,
        leaf: usize,
        part: usize,
        askers: &mut Vec<Asker>,
    ) -> Result<(), AllocError>
        ensures { OnOk result (askers.new.items ≡ askers.old.items ++ askers_of service.now leaf part self.now) }
    {
        let (first, end) = self.range(service);
        for place in first..end {
            if self.is_of_at(place, service) {
                let entry = self.entry_at(place);
                askers.push(Asker {
                    leaf,
                    part,
                    section: entry.section,
                    count: entry.count,
                })?;
            }
        }
        Ok(())
    }

    /// Where those for a section of a service stand.
    fn place_of(&self, service: &Service<'_>, section: Section) -> Option<usize>
        ensures { IsAt result service.now section self.now }
    {
        let (first, end) = self.range(service);
        for place in first..end {
            if self.is_for_at(place, service, section) {
                return Some(place);
            }
        }
        None
    }

    /// So many more for a section of a service, of which there were none.
    fn push(
        &mut self,
        service: &Service<'_>,
        section: Section,
        count: u64,
    ) -> Result<(), AllocError>
        ensures { OnOk result (Adds self.new self.old (λ v r. is_one v r service.now section * count)) }
    {
        let name = SmallVec::from_slice(*self.entries.allocator(), service.name())?;
        self.entries.reserve(1)?;
        self.places.put(service.key(), self.entries.len());
        self.entries.push_reserved(RequestCount {
            service: name,
            section,
            count,
        });
        Ok(())
    }

    /// So many more for a section of a service.
    pub(crate) fn add(
        &mut self,
        service: &Service<'_>,
        section: Section,
        count: u64,
    ) -> Result<(), AllocError>
        ensures { OnOk result (Adds self.new self.old (λ v r. is_one v r service.now section * count)) }
    {
        match self.place_of(service, section) {
            Some(place) => {
                self.entries[place].add(count);
                Ok(())
            }
            None => self.push(service, section, count),
        }
    }

    /// All of these more, so often.
    pub(crate) fn add_all(&mut self, others: &RequestCounts, times: u64) -> Result<(), AllocError>
        ensures { OnOk result (Adds self.new self.old (λ v r. times * requests_for others.now v r)) }
    {
        for entry in &others.entries {
            let service = Service::new(entry.service.as_slice());
            self.add(&service, entry.section, entry.count.saturating_mul(times))?;
        }
        Ok(())
    }

    /// For each section of a service at least as many as these.
    pub(crate) fn raise(&mut self, others: &RequestCounts) -> Result<(), AllocError>
        ensures { OnOk result (Raises self.new self.old others.now) }
    {
        for entry in &others.entries {
            let service = Service::new(entry.service.as_slice());
            let wanted = others.count_for(&service, entry.section);
            let missing = wanted.saturating_sub(self.count_for(&service, entry.section));
            self.add(&service, entry.section, missing)?;
        }
        Ok(())
    }
}
