// A rule that is broken, with its place.
ghost use Rattle.std.specs.Prelude.{◌≡◌};
ghost use Rattle.gq_model.specs.rules.Kinds.{AbstractState};
ghost use Rattle.gq_model.specs.rules.Flow.{at};
ghost use Rattle.gq_rules.specs.Judging.{after};
ghost use Rattle.gq_rules.specs.Flowing.{flowed};

use gq_model::fault::Rule;

/// A rule that a section breaks, and the number of the statement there, from 1; 0 is the section's start, and the number past the
/// last its end.
#[derive(Clone, Copy, Debug, PartialEq, Eq)]
pub struct Broken {
    pub rule: Rule,
    pub place: u64,
}

/// A rule that is broken is so at this place.
pub fn at(place: u64, judged: Result<(), Rule>) -> Result<(), Broken>
    ensures { (s : AbstractState) → flowed result s ≡ at place (after judged s) }
{
    match judged {
        Ok(()) => Ok(()),
        Err(rule) => Err(Broken { rule, place }),
    }
}
