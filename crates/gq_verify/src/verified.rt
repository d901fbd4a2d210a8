// What is said of a program before it runs.
ghost use Rattle.std.specs.Prelude.{◌≡◌, ℕ, List, IfOk, IfErr, IsTrue, None, Ok, Err, option_copied};
ghost use Rattle.gq_model.specs.machine.Amounts.{Ram, Caps};
ghost use Rattle.gq_model.specs.declared.section.Section.{Section};
ghost use Rattle.gq_model.specs.machine.Sections.{is_section};
ghost use Rattle.gq_model.specs.rules.Budgets.{own, section_requests};
ghost use Rattle.gq_model.specs.rules.Verdict.{verdict, verified, program_fault};
ghost use Rattle.gq_verify.specs.Saturated_numbers.{saturated};
ghost use Rattle.gq_verify.specs.Requested.{requests_for};
ghost use Rattle.gq_verify.specs.Program_faults.{known_fault};
ghost use Rattle.gq_verify.specs.Named_sections.{AreThere};
ghost use Rattle.gq_verify.specs.Subjects.{subject_of, cost_in};
ghost use Rattle.gq_verify.specs.Visits.{Shows, section_sights};

use crate::asked::RequestCounts;
use crate::own_use::own;
use crate::section_requests::section_counts;
use crate::section_rules::program_fault;
use crate::section_steps::section_cost;
use crate::starts::Starts;
use crate::verify_fault::BrokenRule;
use crate::visits::{Visitor, visit};
use gq_program::{Body, Interfaces, Name, Program, Section};
use gq_rules::{Context, Subject};
use gq_tariff::Amount;
use std::alloc::{AllocError, Global};
use std::marker::Model;

/// A program that breaks no rule, with what it uses at most. Contracts see it as what it was judged by.
#[derive(Drop)]
pub struct Verified<'a> {
    subject: Subject<'a>,
    starts: Starts,
    own: Amount,
}

impl<'a> Model for Verified<'a> {
    ghost use Rattle.gq_model.specs.rules.Kinds.{Subject};
    ghost use Rattle.gq_model.specs.internal.Stored.{statements_code};
    ghost use Rattle.std.specs.Coded.{codes};

    ghost Value = { Subject };

    ghost coded = { Prim.hlevel (codes, statements_code (Prim.hlevel codes)) };

    ghost use Rattle.gq_verify.specs.internal.Kept_numbers.{IsKept};

    ghost view = { λ v. v.subject };

    ghost invariant = { λ v. IsKept v.subject v.starts v.own };
}

impl<'a> Verified<'a> {
    /// What every verified program is: it breaks no rule. It does nothing.
    pub fn laws(&self)
        ensures { program_fault self.now ≡ None }
    {
        let _own = self.own;
    }

    /// The most bytes of its own account that its `main` uses. At a point of it these are the prices of what the own slots hold with what they have lent, and
    /// of the heap. The heap counts by the greatest number of cells of each class, with pools counted as full. Less than 2^42.
    pub fn own(&self) -> u64
        ensures { result ≡ own Ram self.now }
    {
        self.own.ram
    }

    /// The same in capabilities.
    pub fn own_caps(&self) -> u64
        ensures { result ≡ own Caps self.now }
    {
        self.own.caps
    }

    /// The greatest number of steps of a section, at most 10^12; `None` where it is not there. It goes over the statements once.
    pub fn cost(&self, section: Section) -> Option<u64>
        ensures { result ≡ cost_in section self.now.program.sections }
    {
        let subject = &self.subject;
        match subject.body(section) {
            Some(body) => Some(section_cost(section, body)),
            None => None,
        }
    }

    /// What the program is judged by.
    pub fn subject(&self) -> &Subject<'a>
        ensures { result.now ≡ self.now }
    {
        &self.subject
    }

    /// The sections of its program, each of which is found by its name.
    pub fn sections(&self) -> &[(Section, Body)]
        ensures sections { result.now ≡ self.now.program.sections }
        ensures there { AreThere result.now result.now }
    {
        let program = self.subject.program();
        program.laws();
        program.sections()
    }

    /// Shows the points of a section, where it is there. It goes over the statements once, and allocates no host memory.
    pub fn visit<V: Visitor>(&self, section: Section, visitor: &mut V)
        requires { IsTrue (is_section section) }
        ensures { Shows V.leads visitor.old (section_sights self.now section) visitor.new }
    {
        let subject = &self.subject;
        if let Some(body) = subject.body(section) {
            let mut state = self.starts.start_of(subject, section);
            let mut number = 0;
            visitor.point(number, &state);
            visit(
                &Context::new(subject, section),
                &mut state,
                &mut number,
                body,
                visitor,
            );
        }
    }

    /// The greatest numbers of requests of a section, for all sections of all services at once. It goes over the statements once, and not
    /// over loops that make none. Refused only if the host refuses memory, of which it takes some for each section that is asked for.
    pub fn all_requests(&self, alloc: Global, from: Section) -> Result<RequestCounts, AllocError>
        requires { IsTrue (is_section from) }
        ensures { IfOk result (λ n. (v : List ℕ) (r : Section) → saturated (requests_for n v r) ≡ saturated (section_requests self.now from v r)) }
    {
        self.laws();
        section_counts(alloc, &self.subject, &self.starts, from)
    }
}

/// Judges a program by its service, if it provides one, all interfaces, the greatest values of its inputs, and the number of its signals.
/// Returns what the program uses at most, or the rule that it breaks first. A service without an interface counts as none. The call goes
/// over the statements a fixed number of times, and allocates no host memory.
pub fn verify<'a>(
    program: &'a Program,
    provides: Option<&Name>,
    interfaces: &'a Interfaces,
    inputs: &'a [u32],
    signals: u8,
) -> Result<Verified<'a>, BrokenRule>
    ensures subject { IfOk result (λ v. v ≡ subject_of program.now (option_copied provides.entry) interfaces.now inputs.now signals) }
    ensures accepted { IfOk result (λ v. verdict program.now (option_copied provides.entry) interfaces.now inputs.now signals ≡ Ok (verified v)) }
    ensures refused { IfErr result (λ fault. verdict program.now (option_copied provides.entry) interfaces.now inputs.now signals ≡ Err (known_fault fault)) }
{
    let provided = match provides {
        Some(service) => interfaces.named(service.as_bytes()),
        None => None,
    };
    let subject = Subject::new(program, provided, interfaces, inputs, signals);
    let starts = Starts::new(&subject);
    if let Some(fault) = program_fault(&subject, &starts) {
        return Err(fault);
    }
    let own = own(&subject, &starts.peaks);
    Ok(Verified {
        subject,
        starts,
        own,
    })
}
