// The rules for sections and for programs.
ghost use Rattle.std.specs.Prelude.{◌≡◌, ◌≤◌, option_map, option_copied, IsTrue};
ghost use Rattle.gq_model.specs.machine.Program.{size};
ghost use Rattle.gq_model.specs.machine.Sections.{is_section};
ghost use Rattle.gq_model.specs.rules.Flow.{section_flow};
ghost use Rattle.gq_model.specs.rules.Verdict.{is_wanted, first_unwanted, cost_fault, fault_of, first_fault, program_fault};
ghost use Rattle.gq_verify.specs.internal.Starting.{IsStarts};
ghost use Rattle.gq_verify.specs.Program_faults.{known_fault};
ghost use Rattle.gq_verify.specs.internal.Walks.{reached};

use crate::section_end_rules::section_end;
use crate::section_steps::section_cost;
use crate::sizes::count;
use crate::starts::{Starts, walk};
use crate::verify_fault::BrokenRule;
use gq_caps::Totals;
use gq_model::fault::Rule;
use gq_model::limits::GREATEST_STEPS;
use gq_program::{Body, Interface, Section};
use gq_rules::{AbstractState, Broken, Context, Subject, at};

/// Walks through a section from its start to its end. It stands alone, so that only who has a section beside `main` pays for room for a state.
#[inline(never)]
fn section_flow(
    subject: &Subject<'_>,
    starts: &Starts,
    section: Section,
) -> Result<AbstractState, Broken>
    requires starts { IsStarts subject.now starts.now }
    requires section { IsTrue (is_section section) }
    ensures { reached result ≡ section_flow subject.now section }
{
    let mut state = starts.start_of(subject, section);
    at(0, Context::new(subject, section).within_need(&state))?;
    let mut peaks = Totals::none();
    let count = walk(subject, section, &mut state, &mut peaks)?;
    at(count + 1, section_end(subject, starts, section, &mut state))?;
    Ok(state)
}

/// Whether a program with so many signals that provides a service of this interface, or none, has this section.
fn is_wanted(provided: Option<&Interface>, signals: u8, section: Section) -> bool
    ensures { result ≡ is_wanted (option_copied provided.entry) signals section }
{
    match (provided, section) {
        (_, Section::Main) => true,
        (_, Section::Reacting(signal)) => signal < signals,
        (None, _) => false,
        (Some(_), Section::Opening) => true,
        (
            Some(interface),
            Section::Upgrading(level) | Section::Calling(level) | Section::Closing(level),
        ) => usize::from(level) <= interface.upgrades().len(),
    }
}

/// The first of these sections that is missing or too many.
fn first_unwanted(subject: &Subject<'_>, sections: &[Section]) -> Option<Section>
    ensures { result ≡ first_unwanted subject.now sections.now }
{
    for section in sections {
        if subject.has(*section) != is_wanted(subject.provided(), subject.signals(), *section) {
            return Some(*section);
        }
    }
    None
}

/// Whether a section takes too many steps, which is judged at its end.
fn cost_fault(section: Section, body: &Body) -> Option<BrokenRule>
    requires { size body.now ≤ 4096 }
    ensures { option_map known_fault result ≡ cost_fault section body.now }
{
    if section_cost(section, body) <= GREATEST_STEPS {
        None
    } else {
        Some(BrokenRule {
            rule: Rule::BudgetTooLarge,
            section,
            place: count(body) + 1,
        })
    }
}

/// The first fault of `main`, which has been walked through.
fn main_fault(subject: &Subject<'_>, starts: &Starts, body: &Body) -> Option<BrokenRule>
    requires starts { IsStarts subject.now starts.now }
    requires few { size body.now ≤ 4096 }
    ensures { option_map known_fault result ≡ fault_of Section.Main body.now (section_flow subject.now Section.Main) }
{
    match starts.main {
        Ok(()) => cost_fault(Section::Main, body),
        Err(broken) => Some(BrokenRule {
            rule: broken.rule,
            section: Section::Main,
            place: broken.place,
        }),
    }
}

/// A section's first fault.
fn section_fault(
    subject: &Subject<'_>,
    starts: &Starts,
    section: Section,
    body: &Body,
) -> Option<BrokenRule>
    requires starts { IsStarts subject.now starts.now }
    requires section { IsTrue (is_section section) }
    requires few { size body.now ≤ 4096 }
    ensures { option_map known_fault result ≡ fault_of section body.now (section_flow subject.now section) }
{
    if section == Section::Main {
        return main_fault(subject, starts, body);
    }
    match section_flow(subject, starts, section) {
        Ok(_) => cost_fault(section, body),
        Err(Broken { rule, place }) => Some(BrokenRule {
            rule,
            section,
            place,
        }),
    }
}

/// The first fault of the sections.
fn first_fault(subject: &Subject<'_>, starts: &Starts) -> Option<BrokenRule>
    requires { IsStarts subject.now starts.now }
    ensures { option_map known_fault result ≡ first_fault subject.now subject.now.program.sections }
{
    for (section, body) in subject.sections() {
        if let Some(fault) = section_fault(subject, starts, *section, body) {
            return Some(fault);
        }
    }
    None
}

/// The first fault of a program, if it has one. Sections are looked for before any is walked through. It goes over the statements a
/// few times, and allocates no host memory.
pub(crate) fn program_fault(subject: &Subject<'_>, starts: &Starts) -> Option<BrokenRule>
    requires { IsStarts subject.now starts.now }
    ensures { option_map known_fault result ≡ program_fault subject.now }
{
    match first_unwanted(subject, &Section::ALL) {
        Some(section) => Some(BrokenRule {
            rule: Rule::MissingSection,
            section,
            place: 0,
        }),
        None => first_fault(subject, starts),
    }
}
