// How many requests the sections of a program make at most.
ghost use Rattle.std.specs.Prelude.{◌≡◌, None, IsTrue, IfOk, List, ℕ};
ghost use Rattle.gq_model.specs.declared.section.Section.{Section};
ghost use Rattle.gq_model.specs.machine.Sections.{is_section};
ghost use Rattle.gq_model.specs.rules.Verdict.{program_fault};
ghost use Rattle.gq_model.specs.rules.Budgets.{section_requests};
ghost use Rattle.gq_verify.specs.Saturated_numbers.{saturated};
ghost use Rattle.gq_verify.specs.Requested.{requests_for};
ghost use Rattle.gq_verify.specs.internal.Starting.{IsStarts};

use crate::asked::RequestCounts;
use crate::counting::all_requests;
use crate::starts::Starts;
use gq_program::Section;
use gq_rules::{Context, Subject};
use std::alloc::{AllocError, Global};

/// The requests of a section, for all sections of all services at once.
pub(crate) fn section_counts(
    alloc: Global,
    subject: &Subject<'_>,
    starts: &Starts,
    from: Section,
) -> Result<RequestCounts, AllocError>
    requires starts { IsStarts subject.now starts.now }
    requires section { IsTrue (is_section from) }
    requires right { program_fault subject.now ≡ None }
    ensures { IfOk result (λ n. (v : List ℕ) (r : Section) → saturated (requests_for n v r) ≡ saturated (section_requests subject.now from v r)) }
{
    match subject.body(from) {
        Some(body) => {
            let mut state = starts.start_of(subject, from);
            all_requests(alloc, &Context::new(subject, from), &mut state, body)
        }
        None => Ok(RequestCounts::new(alloc)),
    }
}
