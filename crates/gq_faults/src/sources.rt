// The first fault of each text and code, and the rule that each program breaks first.
ghost use Rattle.std.specs.Prelude.{◌≡◌, ◌∷◌, ◌++◌, [], None, IfOk, OnOk, map, option_map};
ghost use Rattle.gq_model.specs.rules.Verdict.{program_fault};
ghost use Rattle.gq_model.specs.texts.Fault_texts.{refusal_text};
ghost use Rattle.gq_load.specs.Load_faults.{load_fault_text};
ghost use Rattle.gq_load.specs.declared.load_fault.LoadError.TheVariants as load;
ghost use Rattle.gq_load.specs.Load.{fault_text, source_fault, sources_fault};
ghost use Rattle.gq_load.specs.internal.Judged_programs.{judged_by, leaf_refusal};
ghost use Rattle.gq_verify.specs.Program_faults.{known_fault};
ghost use Rattle.gq_faults.specs.Found_lists.{all_found, listed_if};
ghost use Rattle.gq_faults.specs.Scenario_faults.{sources_faults};
ghost use Rattle.gq_faults.specs.Found_lines.{lines_found};

use crate::compared::compared;
use crate::fault_value::{
    Compared, Detail, FaultPart, FoundFault, Mistake, Needed, Pusher, push_fault,
};
use crate::leaf_tables::way_to;
use crate::meant::near_interfaces;
use crate::program_lines::{line_at, line_of, nth_word};
use crate::text_faults::mistake_on;
use gq_load::leaf_programs::read_program;
use gq_load::load_fault::{LoadError, LoadFault};
use gq_model::fault::Rule;
use gq_program::{Interfaces, Program, Section};
use gq_resolve::component::Component;
use gq_rules::Subject;
use gq_scenario::key::Key;
use gq_scenario::scenario::{Leaf, Version};
use gq_scenario::source::Source;
use gq_toml_places::Step;
use gq_verify::{BrokenRule, verify};
use std::alloc::{AllocError, Global};

// The key at which a leaf has its program.
fn source_key(leaf: &Leaf) -> Key {
    match leaf.source() {
        Source::Text(_) => Key::Program,
        Source::Code(_) => Key::Code,
    }
}

// Where a fault of a program's text stands, and what is wrong there; code has no lines.
fn text_fault(
    alloc: Global,
    leaf: &Leaf,
    fault: &LoadFault,
) -> Result<(FaultPart, Detail<'static>), AllocError> {
    match (leaf.source(), fault) {
        (Source::Text(text), LoadFault::Text { fault, line, .. }) => {
            let line = *line as usize;
            let (at, mistake) = mistake_on(alloc, leaf, text.as_slice(), *fault, line)?;
            Ok((FaultPart::Word(line, at), Detail::Text(mistake)))
        }
        _ => Ok((FaultPart::Key, Detail::Text(Mistake::Nothing))),
    }
}

// The number of the word that is wrong in a statement that breaks a rule:
// - of a service without an interface its name
// - of an input that is not there its number
// - else the word of the statement itself
fn word_of(fault: &BrokenRule) -> usize {
    match fault.rule {
        Rule::UnknownService => 2,
        Rule::NoInput => 1,
        _ => 0,
    }
}

// The byte with which a word of a line of a program's text begins.
fn word_at(text: &[u8], line: usize, word: usize) -> usize {
    match line_at(text, line) {
        Some((line, _)) => match nth_word(line, word) {
            Some(word) => word.at,
            None => 0,
        },
        None => 0,
    }
}

// Where a rule is broken.
fn rule_part(leaf: &Leaf, fault: &BrokenRule) -> FaultPart {
    match leaf.source() {
        Source::Text(text) => match line_of(text.as_slice(), fault.section, fault.place) {
            Some(line) => FaultPart::Word(line, word_at(text.as_slice(), line, word_of(fault))),
            None => FaultPart::Key,
        },
        Source::Code(_) => FaultPart::Key,
    }
}

// The fault that an error reports.
fn reported(error: LoadError) -> Result<LoadFault, AllocError>
    ensures { IfOk result (λ fault. error ≡ load.Fault fault) }
{
    match error {
        LoadError::Memory => Err(AllocError),
        LoadError::Fault(fault) => Ok(fault),
    }
}

// The fault of the text or the code of a leaf, if it has one.
fn read_fault(alloc: Global, leaf: &Leaf) -> Result<Option<LoadFault>, AllocError>
    ensures { IfOk result (λ fault. option_map load_fault_text fault ≡ option_map fault_text (source_fault leaf.now.name leaf.now.source)) }
{
    match read_program(alloc, leaf) {
        Ok(program) => {
            drop(program);
            Ok(None)
        }
        Err(error) => Ok(Some(reported(error)?)),
    }
}

// A fault of the text or the code of a leaf at the end of those that were found.
fn push_of_text(
    alloc: Global,
    found: &mut Vec<FoundFault<'_>>,
    leaf: &Leaf,
    fault: &LoadFault,
    way: Vec<Step<'static>>,
) -> Result<(), AllocError>
    ensures { OnOk result (lines_found found.new.items ≡ lines_found found.old.items ++ load_fault_text fault.now ∷ []) }
{
    let (part, detail) = text_fault(alloc, leaf, fault)?;
    push_fault(alloc, found, fault, way, part, detail)
}

// The same at the end of those that were found.
fn push_source(
    alloc: Global,
    found: &mut Vec<FoundFault<'_>>,
    component: &Component<'_>,
    leaves: &[Vec<Step<'static>>],
    place: usize,
) -> Result<(), AllocError>
    ensures { OnOk result (lines_found found.new.items
        ≡ lines_found found.old.items ++ map fault_text (listed_if (source_fault component.now.node.name component.now.node.source))) }
{
    let leaf = component.leaf();
    match read_fault(alloc, leaf)? {
        Some(fault) => {
            let way = way_to(alloc, leaves, place, source_key(leaf))?;
            push_of_text(alloc, found, leaf, &fault, way)
        }
        None => Ok(()),
    }
}

/// The first fault of each text and code.
pub(crate) fn push_sources(
    alloc: Global,
    found: &mut Vec<FoundFault<'_>>,
    components: &[Component<'_>],
    leaves: &[Vec<Step<'static>>],
) -> Result<(), AllocError>
    ensures { OnOk result (lines_found found.new.items ≡ lines_found found.old.items ++ map fault_text (sources_faults components.now)) }
{
    for (place, component) in components.iter().enumerate() {
        push_source(alloc, found, component, leaves, place)?;
    }
    Ok(())
}

// The same statements, each with its line.
fn with_lines(
    alloc: Global,
    leaf: &Leaf,
    section: Section,
    pushers: &[Pusher],
) -> Result<Vec<Pusher>, AllocError> {
    let mut placed = Vec::new(alloc);
    for pusher in pushers {
        placed.push(Pusher {
            number: pusher.number,
            line: match leaf.source() {
                Source::Text(text) => line_of(text.as_slice(), section, pusher.number),
                Source::Code(_) => None,
            },
        })?;
    }
    Ok(placed)
}

// Whether a leaf ends with a link, where one with signals would keep it.
fn is_kept_by_signals(version: Version, fault: &BrokenRule) -> bool {
    version.number() >= 4 && fault.rule == Rule::LinkLeftOpen
}

// What a rule compared, with what the text of the program, the version and the interfaces have to it; none where they have nothing.
fn completed(
    alloc: Global,
    version: Version,
    leaf: &Leaf,
    interfaces: &Interfaces,
    fault: &BrokenRule,
    found: &Compared,
) -> Result<Option<Compared>, AllocError> {
    match found {
        Compared::Left(pushers) => {
            let placed = with_lines(alloc, leaf, fault.section, pushers.as_slice())?;
            Ok(Some(Compared::Left(placed)))
        }
        Compared::Slot(place, kind, _) if is_kept_by_signals(version, fault) => {
            Ok(Some(Compared::Slot(*place, *kind, Needed::EmptyAtEnd)))
        }
        Compared::Unknown(service, _) => {
            let near = near_interfaces(alloc, interfaces, service.as_bytes())?;
            Ok(Some(Compared::Unknown(service.copied(), near)))
        }
        _ => Ok(None),
    }
}

// What a rule compared.
fn detail_of(
    alloc: Global,
    version: Version,
    leaf: &Leaf,
    program: &Program,
    interfaces: &Interfaces,
    fault: &BrokenRule,
) -> Result<Compared, AllocError> {
    let provided = match leaf.provides() {
        Some(service) => interfaces.named(service.as_bytes()),
        None => None,
    };
    let subject = Subject::new(program, provided, interfaces, leaf.inputs(), leaf.signals());
    let found = compared(alloc, &subject, fault)?;
    match completed(alloc, version, leaf, interfaces, fault, &found)? {
        Some(more) => Ok(more),
        None => Ok(found),
    }
}

// The program of a leaf whose text or code is one.
fn read(alloc: Global, leaf: &Leaf) -> Result<Program, AllocError>
    requires { source_fault leaf.now.name leaf.now.source ≡ None }
    ensures { IfOk result (λ p. p ≡ leaf.now.program) }
{
    match read_program(alloc, leaf) {
        Ok(program) => Ok(program),
        Err(error) => {
            let fault = reported(error)?;
            drop(fault);
            unreachable!()
        }
    }
}

// The rule that a program breaks first, if it breaks one.
fn broken(
    component: &Component<'_>,
    program: &Program,
    interfaces: &Interfaces,
) -> Option<BrokenRule>
    requires { program.now ≡ component.now.node.program }
    ensures { option_map known_fault result ≡ program_fault (judged_by interfaces.now component.now) }
{
    let leaf = component.leaf();
    match verify(
        program,
        leaf.provides(),
        interfaces,
        leaf.inputs(),
        leaf.signals(),
    ) {
        Ok(_) => None,
        Err(fault) => Some(fault),
    }
}

// The same at the end of those that were found.
fn push_judged(
    alloc: Global,
    found: &mut Vec<FoundFault<'_>>,
    version: Version,
    component: &Component<'_>,
    program: &Program,
    interfaces: &Interfaces,
    way: Vec<Step<'static>>,
) -> Result<(), AllocError>
    requires { program.now ≡ component.now.node.program }
    ensures { OnOk result (lines_found found.new.items
        ≡ lines_found found.old.items ++ map refusal_text (listed_if (leaf_refusal interfaces.now component.now))) }
{
    let leaf = component.leaf();
    match broken(component, program, interfaces) {
        Some(fault) => {
            let detail = detail_of(alloc, version, leaf, program, interfaces, &fault)?;
            let part = rule_part(leaf, &fault);
            let fault = LoadFault::Rule {
                leaf: leaf.name().copied(),
                rule: fault.rule,
                section: fault.section,
                place: fault.place,
            };
            push_fault(alloc, found, &fault, way, part, Detail::Rule(detail))
        }
        None => Ok(()),
    }
}

// The same of a leaf whose text or code is a program.
fn push_rule(
    alloc: Global,
    found: &mut Vec<FoundFault<'_>>,
    version: Version,
    component: &Component<'_>,
    interfaces: &Interfaces,
    leaves: &[Vec<Step<'static>>],
    place: usize,
) -> Result<(), AllocError>
    requires { source_fault component.now.node.name component.now.node.source ≡ None }
    ensures { OnOk result (lines_found found.new.items
        ≡ lines_found found.old.items ++ map refusal_text (listed_if (leaf_refusal interfaces.now component.now))) }
{
    let leaf = component.leaf();
    let way = way_to(alloc, leaves, place, source_key(leaf))?;
    let program = read(alloc, leaf)?;
    push_judged(alloc, found, version, component, &program, interfaces, way)
}

/// The rule that each program breaks first, where all texts and codes are programs.
pub(crate) fn push_rules(
    alloc: Global,
    found: &mut Vec<FoundFault<'_>>,
    version: Version,
    components: &[Component<'_>],
    interfaces: &Interfaces,
    leaves: &[Vec<Step<'static>>],
) -> Result<(), AllocError>
    requires { sources_fault components.now ≡ None }
    ensures { OnOk result (lines_found found.new.items
        ≡ lines_found found.old.items ++ map refusal_text (all_found (λ c. listed_if (leaf_refusal interfaces.now c)) components.now)) }
{
    for (place, component) in components.iter().enumerate() {
        push_rule(alloc, found, version, component, interfaces, leaves, place)?;
    }
    Ok(())
}
