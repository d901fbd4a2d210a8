// What a leaf's steps are made of.
ghost use Rattle.std.specs.Prelude.{◌≡◌, ◌<◌, ◌*◌, ◌^◌, ◌++◌, ◌∷◌, ◌&&◌, None, Some, IfOk, OnOk, codes, decimal, length, map, slice_get};
ghost use Rattle.gq_model.specs.machine.Lists.{any_of};
ghost use Rattle.gq_model.specs.machine.Program.{text_eq};
ghost use Rattle.gq_model.specs.machine.Routes.{server_of};
ghost use Rattle.gq_model.specs.machine.Scenario as model;
ghost use Rattle.gq_model.specs.machine.Scenario.{system};
ghost use Rattle.gq_model.specs.rules.Accept as accept;
ghost use Rattle.gq_model.specs.rules.Use.{A_signal, is_there, services, steps_for};
ghost use Rattle.gq_resolve.specs.Served.{AreServers};
ghost use Rattle.gq_budget.specs.Causes.{cause_of};
ghost use Rattle.gq_budget.specs.Times.{times_table};
ghost use Rattle.gq_load.specs.Unsized_judgement.{unsized_fault};
ghost use Rattle.gq_load.specs.internal.Surveys.{AreSurveys};
ghost use Rattle.gq_why.specs.Why.{asker_line, askers, askers_from, cause_part, cause_words, is_shown, parts_of_leaves, product, section_lines};
ghost use Rattle.gq_why.specs.Why.{section_part, signal_part, signal_parts, steps_part};
ghost use Rattle.gq_why.specs.internal.Step_parts.{AreRunsOf, IsCauseOf, user_lines};

use gq_budget::{Cause, Times, times_of};
use gq_load::unsized_scenarios::Unsized;
use gq_model::program::Name;
use gq_program::Section;
use gq_resolve::component::Component;
use gq_scenario::scenario::{LeafNo, Scenario};
use gq_verify::Service;
use gq_views::listing::push_heading;
use gq_views::view_words::{end_line, push_number};
use std::alloc::{AllocError, Global};
use std::marker::Model;

/// Puts a product with its factors at the end of a text.
fn push_product(text: &mut Vec<u8>, times: u64, number: u64) -> Result<(), AllocError>
    requires { times * number < 2 ^ 64 }
    ensures { OnOk result (text.new.items ≡ text.old.items ++ product times number) }
{
    text.extend_from_slice(b": ")?;
    push_number(text, times)?;
    text.extend_from_slice(b" x ")?;
    push_number(text, number)?;
    text.extend_from_slice(b" = ")?;
    push_number(text, times * number)?;
    end_line(text)
}

/// Whether a section that runs so often for a cause has a line. For the start it has one unless it is done for a signal; for a signal if it runs.
fn is_shown(cause: Cause, section: Section, times: u64) -> bool
    ensures { result ≡ is_shown (cause_of cause) section times }
{
    match cause {
        Cause::Start => match section {
            Section::Reacting(_) => false,
            _ => true,
        },
        Cause::Signal(_, _) => times > 0,
    }
}

/// Puts the line of a section that makes so many requests, each time that it runs, at the end of a text; none where it makes none.
fn push_asker(
    text: &mut Vec<u8>,
    cause: Cause,
    label: &[u8],
    section: Section,
    times: u64,
    requests: u64,
) -> Result<(), AllocError>
    requires { times * requests < 2 ^ 64 }
    ensures { OnOk result (text.new.items ≡ text.old.items ++ asker_line (cause_of cause) label.now section times requests) }
{
    if requests == 0 || !is_shown(cause, section, times) {
        return Ok(());
    }
    text.extend_from_slice(b"    ")?;
    text.extend_from_slice(label)?;
    text.extend_from_slice(b" ")?;
    push_heading(text, section)?;
    push_product(text, times, requests)
}

/// Puts what stands behind the number of steps for a signal of a leaf with this label at the end of a text.
fn push_signal_words(text: &mut Vec<u8>, signal: u8, label: &[u8]) -> Result<(), AllocError>
    ensures { OnOk result (text.new.items ≡ text.old.items ++ (codes " for signal " ++ decimal signal ++ codes " of " ++ label.now)) }
{
    text.extend_from_slice(b" for signal ")?;
    push_number(text, u64::from(signal))?;
    text.extend_from_slice(b" of ")?;
    text.extend_from_slice(label)
}

/// How often each section of each leaf runs at most for one cause.
#[derive(Drop)]
struct Runs {
    cause: Cause,
    times: Times,
}

impl Model for Runs {
    ghost use Rattle.gq_budget.specs.Causes.{cause_of};
    ghost use Rattle.gq_why.specs.internal.Step_parts.{Runs};

    ghost Value = { Runs };

    ghost view = { λ r. record { cause = cause_of r.cause; table = r.times } };
}

/// What is known of the steps of the leaves of a scenario in which there is no fault but for quantities.
#[derive(Drop)]
struct StepCounts<'a> {
    free: &'a Scenario,
    components: &'a [Component<'a>],
    found: &'a Unsized,
}

impl<'a> Model for StepCounts<'a> {
    ghost use Rattle.std.specs.Coded.{codes};
    ghost use Rattle.gq_model.specs.machine.Scenario.{Scenario};
    ghost use Rattle.gq_model.specs.internal.Stored.{statements_code, nodes_code};
    ghost use Rattle.gq_why.specs.internal.Step_parts.{AreCounts};

    ghost Value = { Scenario };

    ghost coded = { Prim.hlevel (codes, nodes_code (Prim.hlevel (codes, statements_code (Prim.hlevel codes))) (Prim.hlevel codes)) };

    ghost view = { λ c. c.free.now };

    ghost invariant = { λ c. AreCounts c.free.now c.components.now c.found.now.surveys.counted.items c.found.now.routes c.found.now.budgets.items };
}

impl<'a> StepCounts<'a> {
    /// How often each section of each leaf runs at most for a cause.
    fn runs(&self, alloc: Global, cause: Cause) -> Result<Runs, AllocError>
        requires { IsCauseOf (model.components self.now) (cause_of cause) }
        ensures cause { IfOk result (λ r. r.cause ≡ cause_of cause) }
        ensures runs { IfOk result (λ r. AreRunsOf self.now r) }
    {
        let counted = self.found.surveys.counted.as_slice();
        let routes = &self.found.routes;
        let times = times_of(alloc, cause, self.free, self.components, routes, counted)?;
        Ok(Runs { cause, times })
    }

    /// The steps of a component, the leaf of this number, for a cause.
    fn steps(&self, leaf: LeafNo, component: &Component<'_>, cause: Cause) -> u64
        requires there { slice_get (model.components self.now) leaf ≡ Some component.now }
        requires cause { IsCauseOf (model.components self.now) (cause_of cause) }
        ensures { result ≡ steps_for (cause_of cause) (system self.now) leaf component.now }
    {
        let steps = self.found.budgets[leaf.index()].steps();
        match cause {
            Cause::Start => steps.from_start(),
            Cause::Signal(reacting, signal) => steps.for_signal(reacting, signal),
        }
    }

    /// Whether a component, the leaf of the second number, opens a service and its route for it leads to the leaf of the first.
    fn uses(&self, leaf: LeafNo, service: &Name, user: usize, component: &Component<'_>) -> bool
        requires { slice_get (model.components self.now) user ≡ Some component.now }
        ensures { result ≡ any_of (text_eq service.now) (services component.now) && is_there leaf (server_of (system self.now) component.now service.now) }
    {
        self.found.routes.server(LeafNo::new(user as u32), service) == Some(leaf)
    }

    /// Puts lines at the end of a text: those of the sections of a component, the leaf of the second number, that ask for a section of a service. They are put
    /// if its route for that service leads to the leaf of the first number.
    fn push_user(
        &self,
        text: &mut Vec<u8>,
        runs: &Runs,
        leaf: LeafNo,
        service: &Name,
        asked: Section,
        user: usize,
        component: &Component<'_>,
    ) -> Result<(), AllocError>
        requires there { slice_get (model.components self.now) user ≡ Some component.now }
        requires runs { AreRunsOf self.now runs.now }
        ensures { OnOk result (text.new.items ≡ text.old.items
            ++ user_lines runs.now.cause (system self.now) leaf service.now asked user component.now) }
    {
        if !self.uses(leaf, service, user, component) {
            return Ok(());
        }
        let counted = &self.found.surveys.counted[user];
        let named = Service::new(service.as_bytes());
        for (part, section) in counted.sections().iter().enumerate() {
            let times = runs.times.often(user, part);
            let requests = counted.requests_for(part, &named, asked);
            push_asker(
                text,
                runs.cause,
                component.label(),
                *section,
                times,
                requests,
            )?;
        }
        Ok(())
    }

    /// Puts the lines of all sections that ask for a section of the service of a leaf at the end of a text.
    fn push_users(
        &self,
        text: &mut Vec<u8>,
        runs: &Runs,
        leaf: LeafNo,
        service: &Name,
        asked: Section,
    ) -> Result<(), AllocError>
        requires { AreRunsOf self.now runs.now }
        ensures { OnOk result (text.new.items ≡ text.old.items
            ++ askers_from runs.now.cause (system self.now) leaf service.now asked 0 (model.components self.now)) }
    {
        for (user, component) in self.components.iter().enumerate() {
            self.push_user(text, runs, leaf, service, asked, user, component)?;
        }
        Ok(())
    }

    /// Puts the lines of all sections that ask for a section of a leaf at the end of a text.
    fn push_askers(
        &self,
        text: &mut Vec<u8>,
        runs: &Runs,
        leaf: LeafNo,
        component: &Component<'_>,
        asked: Section,
    ) -> Result<(), AllocError>
        requires { AreRunsOf self.now runs.now }
        ensures { OnOk result (text.new.items ≡ text.old.items
            ++ askers runs.now.cause (system self.now) leaf component.now.node.provides asked) }
    {
        let Some(service) = component.leaf().provides() else {
            return Ok(());
        };
        match asked {
            Section::Main | Section::Reacting(_) => Ok(()),
            _ => self.push_users(text, runs, leaf, service, asked),
        }
    }

    /// Puts the lines of a section of a leaf at the end of a text: how often it runs, what it costs, and who asks for it.
    fn push_section(
        &self,
        text: &mut Vec<u8>,
        runs: &Runs,
        leaf: LeafNo,
        component: &Component<'_>,
        section: Section,
        times: u64,
        cost: u64,
    ) -> Result<(), AllocError>
        requires fits { times * cost < 2 ^ 64 }
        requires runs { AreRunsOf self.now runs.now }
        ensures { OnOk result (text.new.items ≡ text.old.items
            ++ section_part runs.now.cause (system self.now) leaf component.now.node.provides section times cost) }
    {
        if !is_shown(runs.cause, section, times) {
            return Ok(());
        }
        text.extend_from_slice(b"  ")?;
        push_heading(text, section)?;
        push_product(text, times, cost)?;
        self.push_askers(text, runs, leaf, component, section)
    }

    /// Puts the lines of the sections of a leaf at the end of a text.
    fn push_sections(
        &self,
        text: &mut Vec<u8>,
        runs: &Runs,
        leaf: LeafNo,
        component: &Component<'_>,
    ) -> Result<(), AllocError>
        requires there { slice_get (model.components self.now) leaf ≡ Some component.now }
        requires runs { AreRunsOf self.now runs.now }
        ensures { OnOk result (text.new.items ≡ text.old.items
            ++ section_lines runs.now.cause (system self.now) leaf component.now component.now.node.program.sections) }
    {
        let place = leaf.index();
        let counted = &self.found.surveys.counted[place];
        for (part, section) in counted.sections().iter().enumerate() {
            let times = runs.times.often(place, part);
            let cost = counted.cost(part);
            self.push_section(text, runs, leaf, component, *section, times, cost)?;
        }
        Ok(())
    }

    /// Puts what stands behind the number of steps for a cause at the end of a text.
    fn push_words(&self, text: &mut Vec<u8>, cause: Cause) -> Result<(), AllocError>
        requires { IsCauseOf (model.components self.now) (cause_of cause) }
        ensures { OnOk result (text.new.items ≡ text.old.items ++ cause_words (model.components self.now) (cause_of cause)) }
    {
        match cause {
            Cause::Start => Ok(()),
            Cause::Signal(reacting, signal) => {
                let other = &self.components[reacting];
                push_signal_words(text, signal, other.label())
            }
        }
    }

    /// Puts the part of the steps of a leaf for a cause, of which there are so many, at the end of a text.
    fn push_part(
        &self,
        alloc: Global,
        text: &mut Vec<u8>,
        leaf: LeafNo,
        component: &Component<'_>,
        cause: Cause,
        steps: u64,
    ) -> Result<(), AllocError>
        requires there { slice_get (model.components self.now) leaf ≡ Some component.now }
        requires cause { IsCauseOf (model.components self.now) (cause_of cause) }
        requires steps { steps ≡ steps_for (cause_of cause) (system self.now) leaf component.now }
        ensures { OnOk result (text.new.items ≡ text.old.items ++ cause_part (cause_of cause) (system self.now) leaf component.now) }
    {
        let runs = self.runs(alloc, cause)?;
        text.extend_from_slice(b"steps ")?;
        push_number(text, steps)?;
        self.push_words(text, cause)?;
        end_line(text)?;
        self.push_sections(text, &runs, leaf, component)
    }

    /// Puts the part of the steps of a leaf for a signal of a leaf at the end of a text; none where it takes none.
    fn push_signal(
        &self,
        alloc: Global,
        text: &mut Vec<u8>,
        leaf: LeafNo,
        component: &Component<'_>,
        reacting: usize,
        signal: u8,
    ) -> Result<(), AllocError>
        requires there { slice_get (model.components self.now) leaf ≡ Some component.now }
        requires cause { IsCauseOf (model.components self.now) (A_signal reacting signal) }
        ensures { OnOk result (text.new.items ≡ text.old.items ++ signal_part (system self.now) leaf component.now reacting signal) }
    {
        let cause = Cause::Signal(reacting, signal);
        let steps = self.steps(leaf, component, cause);
        if steps == 0 {
            return Ok(());
        }
        self.push_part(alloc, text, leaf, component, cause, steps)
    }

    /// Puts the parts of the steps of a leaf for the signals of another component, the leaf of the second number, at the end of a text.
    fn push_signals(
        &self,
        alloc: Global,
        text: &mut Vec<u8>,
        leaf: LeafNo,
        component: &Component<'_>,
        reacting: usize,
        other: &Component<'_>,
    ) -> Result<(), AllocError>
        requires there { slice_get (model.components self.now) leaf ≡ Some component.now }
        requires other { slice_get (model.components self.now) reacting ≡ Some other.now }
        ensures { OnOk result (text.new.items ≡ text.old.items
            ++ signal_parts (system self.now) leaf component.now reacting 0 other.now.node.signals) }
    {
        let signals = other.leaf().signals();
        for signal in 0..signals {
            self.push_signal(alloc, text, leaf, component, reacting, signal)?;
        }
        Ok(())
    }

    /// Puts the parts of the steps of a leaf for all signals at the end of a text.
    fn push_all_signals(
        &self,
        alloc: Global,
        text: &mut Vec<u8>,
        leaf: LeafNo,
        component: &Component<'_>,
    ) -> Result<(), AllocError>
        requires { slice_get (model.components self.now) leaf ≡ Some component.now }
        ensures { OnOk result (text.new.items ≡ text.old.items
            ++ parts_of_leaves (system self.now) leaf component.now 0 (model.components self.now)) }
    {
        for (reacting, other) in self.components.iter().enumerate() {
            self.push_signals(alloc, text, leaf, component, reacting, other)?;
        }
        Ok(())
    }

    /// Puts the parts of the steps of a leaf at the end of a text.
    fn push_parts(
        &self,
        alloc: Global,
        text: &mut Vec<u8>,
        leaf: LeafNo,
        component: &Component<'_>,
    ) -> Result<(), AllocError>
        requires { slice_get (model.components self.now) leaf ≡ Some component.now }
        ensures { OnOk result (text.new.items ≡ text.old.items ++ steps_part (system self.now) leaf component.now) }
    {
        let steps = self.steps(leaf, component, Cause::Start);
        self.push_part(alloc, text, leaf, component, Cause::Start, steps)?;
        self.push_all_signals(alloc, text, leaf, component)
    }
}

/// Puts the part of a leaf's steps at the end of a text.
pub(crate) fn push_steps(
    alloc: Global,
    text: &mut Vec<u8>,
    free: &Scenario,
    components: &[Component<'_>],
    found: &Unsized,
    leaf: LeafNo,
) -> Result<(), AllocError>
    requires components { components.now ≡ model.components free.now }
    requires surveys { AreSurveys free.now.interfaces components.now found.now.surveys.owns.items found.now.surveys.counted.items
        (map (λ v. v.items) found.now.surveys.opened.items) }
    requires servers { AreServers free.now found.now.routes }
    requires budgets { found.now.budgets.items ≡ accept.budgets free.now }
    requires faultless { unsized_fault free.now ≡ None }
    requires there { leaf < length components.now }
    ensures { (c : model.Component) → slice_get components.now leaf ≡ Some c →
        OnOk result (text.new.items ≡ text.old.items ++ steps_part (system free.now) leaf c) }
{
    free.bounds();
    let counts = StepCounts {
        free,
        components,
        found,
    };
    counts.push_parts(alloc, text, leaf, &components[leaf.index()])
}
