// What is kept of the programs of a scenario's leaves once they are judged. A program is not needed after that: those of a text that is only
// checked are read one after the other, and let go.
ghost use Rattle.std.specs.Prelude.{◌≡◌, None, Option, IfOk, IfErr, OnOk, map, ◌++◌, ◌∷◌, []};
ghost use Rattle.gq_model.specs.machine.Lists.{or_first};
ghost use Rattle.gq_model.specs.rules.Use.{services};
ghost use Rattle.gq_budget.specs.Leaf_section_counts.{IsCountOf};
ghost use Rattle.gq_load.specs.Load_faults.{PrintsFault};
ghost use Rattle.gq_load.specs.Load.{LoadRefusal, source_fault, sources_fault, refused};
ghost use Rattle.gq_load.specs.internal.Judged_programs.{programs_of, judged_by, leaf_refusal, first_refusal};
ghost use Rattle.gq_load.specs.internal.Surveys.{own_of, leaf_by, AreSurveys};

use crate::leaf_programs::{check_programs, read_program_with};
use crate::load_fault::LoadError;
use crate::program_verdict::judge;
use gq_budget::{BudgetLeaf, CountedLeaf};
use gq_model::program::Name;
use gq_program::Interfaces;
use gq_program::program_tree::Program;
use gq_program::spare::Spare;
use gq_resolve::component::Component;
use gq_resolve::opened_services::opened;
use gq_tariff::Amount;
use gq_verify::Verified;
use std::alloc::{AllocError, Global};

// So many lists of statements are kept of a program for the next one: about as many as 16 KiB of ordinary text have.
const SPARE: usize = 256;

/// Of each leaf: what it uses of its own account, what its steps are counted by, and the services that it opens.
#[derive(Drop)]
pub struct Surveys {
    pub owns: Vec<Amount>,
    pub counted: Vec<CountedLeaf>,
    pub opened: Vec<Vec<Name>>,
}

// The same of one leaf.
#[derive(Drop)]
struct Survey {
    own: Amount,
    counted: CountedLeaf,
    opened: Vec<Name>,
}

impl Surveys {
    // Of no leaf.
    fn new(alloc: Global) -> Surveys
        ensures owns { result.owns.items ≡ [] }
        ensures counted { result.counted.items ≡ [] }
        ensures opened { result.opened.items ≡ [] }
    {
        Surveys {
            owns: Vec::new(alloc),
            counted: Vec::new(alloc),
            opened: Vec::new(alloc),
        }
    }

    // Puts what is kept of one leaf more at the end.
    fn push(&mut self, survey: Survey) -> Result<(), AllocError>
        ensures owns { OnOk result (self.new.owns.items ≡ self.old.owns.items ++ survey.own ∷ []) }
        ensures counted { OnOk result (self.new.counted.items ≡ self.old.counted.items ++ survey.counted ∷ []) }
        ensures opened { OnOk result (self.new.opened.items ≡ self.old.opened.items ++ survey.opened ∷ []) }
    {
        self.owns.push(survey.own)?;
        self.counted.push(survey.counted)?;
        self.opened.push(survey.opened)?;
        Ok(())
    }
}

// What is kept of a leaf whose program is judged.
fn kept(
    alloc: Global,
    component: &Component<'_>,
    program: &Program,
    verified: &Verified<'_>,
) -> Result<Survey, AllocError>
    requires program { program.now ≡ verified.now.program }
    requires own { program.now ≡ component.now.node.program }
    ensures own { IfOk result (λ s. s.own ≡ own_of verified.now) }
    ensures counted { IfOk result (λ s. IsCountOf s.counted (record { subject = verified.now; provides = component.now.node.provides })) }
    ensures opened { IfOk result (λ s. s.opened.items ≡ services component.now) }
{
    let leaf = BudgetLeaf::new(program, verified, component.leaf().provides());
    let counted = CountedLeaf::new(alloc, &leaf)?;
    let opened = opened(alloc, program)?;
    let own = Amount {
        ram: verified.own(),
        caps: verified.own_caps(),
    };
    Ok(Survey {
        own,
        counted,
        opened,
    })
}

// What is kept of a leaf of this program, where that breaks no rule.
fn surveyed(
    alloc: Global,
    component: &Component<'_>,
    program: &Program,
    interfaces: &Interfaces,
) -> Result<Survey, LoadError>
    requires { program.now ≡ component.now.node.program }
    ensures own { IfOk result (λ s. s.own ≡ own_of (judged_by interfaces.now component.now)) }
    ensures counted { IfOk result (λ s. IsCountOf s.counted (leaf_by interfaces.now component.now)) }
    ensures opened { IfOk result (λ s. s.opened.items ≡ services component.now) }
    ensures faultless { IfOk result (λ s. leaf_refusal interfaces.now component.now ≡ None) }
    ensures refused { IfErr result (λ e. PrintsFault e (refused (leaf_refusal interfaces.now component.now))) }
{
    let verified = judge(component, program, interfaces)?;
    let kept = kept(alloc, component, program, &verified)?;
    Ok(kept)
}

// What is kept of these leaves, whose programs are at hand, up to the first that breaks a rule.
pub(crate) fn survey_programs(
    alloc: Global,
    components: &[Component<'_>],
    programs: &[Program],
    interfaces: &Interfaces,
) -> Result<Surveys, LoadError>
    requires { programs.now ≡ programs_of components.now }
    ensures surveys { IfOk result (λ s. AreSurveys interfaces.now components.now s.owns.items s.counted.items (map (λ v. v.items) s.opened.items)) }
    ensures faultless { IfOk result (λ s. first_refusal interfaces.now components.now ≡ None) }
    ensures refused { IfErr result (λ e. PrintsFault e (refused (first_refusal interfaces.now components.now))) }
{
    let mut surveys = Surveys::new(alloc);
    for (place, component) in components.iter().enumerate() {
        surveys.push(surveyed(alloc, component, &programs[place], interfaces)?)?;
    }
    Ok(surveys)
}

// The first error: that of the texts and codes of these leaves, or this one.
fn first_error(alloc: Global, components: &[Component<'_>], error: LoadError) -> LoadError
    ensures { (fault : Option LoadRefusal) → PrintsFault error fault → PrintsFault result (or_first (sources_fault components.now) fault) }
{
    match check_programs(alloc, components) {
        Ok(()) => error,
        Err(first) => first,
    }
}

// Whether one of the sections of a program has a block with statements in it.
fn has_blocks(program: &Program) -> bool {
    for (_section, body) in program.sections() {
        if body.cost() > body.statements().len() as u64 {
            return true;
        }
    }
    false
}

// Lets a program go. The lists of its blocks are kept for the next one; where it has none, it is not gone through for them.
fn let_go(spare: &mut Spare, program: Program) {
    if has_blocks(&program) {
        spare.give_program(program);
    }
}

// What is kept of a leaf, whose program is read for it and let go. Where it breaks a rule, the texts and codes of the leaves after it come first.
fn survey_source(
    alloc: Global,
    spare: &mut Spare,
    component: &Component<'_>,
    after: &[Component<'_>],
    interfaces: &Interfaces,
) -> Result<Survey, LoadError>
    ensures own { IfOk result (λ s. s.own ≡ own_of (judged_by interfaces.now component.now)) }
    ensures counted { IfOk result (λ s. IsCountOf s.counted (leaf_by interfaces.now component.now)) }
    ensures opened { IfOk result (λ s. s.opened.items ≡ services component.now) }
    ensures program { IfOk result (λ s. source_fault component.now.node.name component.now.node.source ≡ None) }
    ensures faultless { IfOk result (λ s. leaf_refusal interfaces.now component.now ≡ None) }
    ensures refused { IfErr result (λ e. PrintsFault e
        (or_first (sources_fault (component.now ∷ after.now)) (refused (leaf_refusal interfaces.now component.now)))) }
{
    let program = read_program_with(alloc, spare, component.leaf())?;
    let surveyed = surveyed(alloc, component, &program, interfaces);
    let_go(spare, program);
    match surveyed {
        Ok(survey) => Ok(survey),
        Err(error) => Err(first_error(alloc, after, error)),
    }
}

/// What is kept of these leaves, of which no two programs are there at a time; or the first fault of their texts and codes; or the first rule
/// that one breaks.
pub fn survey_sources(
    alloc: Global,
    components: &[Component<'_>],
    interfaces: &Interfaces,
) -> Result<Surveys, LoadError>
    ensures surveys { IfOk result (λ s. AreSurveys interfaces.now components.now s.owns.items s.counted.items (map (λ v. v.items) s.opened.items)) }
    ensures programs { IfOk result (λ s. sources_fault components.now ≡ None) }
    ensures faultless { IfOk result (λ s. first_refusal interfaces.now components.now ≡ None) }
    ensures refused { IfErr result (λ e. PrintsFault e (or_first (sources_fault components.now) (refused (first_refusal interfaces.now components.now)))) }
{
    let mut surveys = Surveys::new(alloc);
    let mut spare = Spare::with_room(alloc, SPARE)?;
    for (place, component) in components.iter().enumerate() {
        let after = &components[place + 1..];
        surveys.push(survey_source(alloc, &mut spare, component, after, interfaces)?)?;
    }
    Ok(surveys)
}
