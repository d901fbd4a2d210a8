// What is known where sections start.
ghost use Rattle.std.specs.Prelude.{◌≡◌, ◌≤◌, [], ◌∷◌, IfOk, IsTrue};
ghost use Rattle.gq_caps.specs.Measured.{AreFew};
ghost use Rattle.gq_rules.specs.List_maxima.{Peaks};
ghost use Rattle.gq_verify.specs.internal.Mains.{MostWhereRight};
ghost use Rattle.gq_model.specs.machine.Program.{size};
ghost use Rattle.gq_model.specs.machine.Sections.{is_section};
ghost use Rattle.gq_model.specs.rules.Flow.{context, flow, body, first_bounds, own_after, bank_by, bank_at, start_of, points};
ghost use Rattle.gq_caps.specs.Known.{all_known};
ghost use Rattle.gq_rules.specs.Flowing.{flowed};
ghost use Rattle.gq_verify.specs.internal.Mains.{MainAnswers};
ghost use Rattle.gq_verify.specs.internal.Starting.{IsStarts};

use crate::section_end_rules::main_section_end;
use gq_caps::{Bank, Totals};
use gq_model::limits::{OWN_SLOTS, SESSION_SLOTS};
use gq_program::Section;
use gq_rules::flow::flow;
use gq_rules::{AbstractState, Broken, Context, Subject, at};

/// Walks through the statements of a section, and answers how many there are.
pub(crate) fn walk(
    subject: &Subject<'_>,
    section: Section,
    state: &mut AbstractState,
    peaks: &mut Totals,
) -> Result<u64, Broken>
    requires { AreFew peaks.old }
    ensures flowed { flowed result state.new ≡ flow (context subject.now section) state.old (body subject.now section) }
    ensures count { IfOk result (λ n. n ≡ size (body subject.now section)) }
    ensures few { IfOk result (λ n. n ≤ 4096) }
    ensures peaks { IfOk result (λ n. Peaks peaks.new peaks.old (points (context subject.now section) state.old (body subject.now section))) }
    ensures small { AreFew peaks.new }
{
    let context = Context::new(subject, section);
    let mut place = 0;
    match subject.body(section) {
        Some(body) => flow(&context, state, &mut place, peaks, body)?,
        None => peaks.raise(state.own().totals()),
    }
    Ok(place)
}

/// What is known where a section starts with these kinds of the own slots and of the session's: a call has its argument.
fn first(
    subject: &Subject<'_>,
    section: Section,
    own: &Bank<OWN_SLOTS>,
    bank: &Bank<SESSION_SLOTS>,
) -> AbstractState
    ensures { result ≡ record { own = all_known own.now; bank = all_known bank.now; bounds = first_bounds subject.now.provided section } }
{
    match section {
        Section::Calling(_) => AbstractState::with_operand(*own, *bank, subject.arg()),
        _ => AbstractState::new(*own, *bank),
    }
}

/// What a walk through `main` to its end leaves, measures and answers.
#[derive(Drop)]
struct MainWalked {
    own: Bank<OWN_SLOTS>,
    peaks: Totals,
    answer: Result<(), Broken>,
}

/// Walks through `main`. Gives the kinds of the own slots as it leaves them, with the greatest of what is measured at its points.
/// Where it breaks a rule, gives the rule that it breaks first.
fn walk_main(subject: &Subject<'_>) -> MainWalked
    ensures own { all_known result.own ≡ own_after subject.now }
    ensures peaks { MostWhereRight subject.now result.peaks }
    ensures small { AreFew result.peaks }
    ensures answer { MainAnswers subject.now result.answer }
{
    let mut state = AbstractState::new(Bank::new(), Bank::new());
    let mut peaks = Totals::none();
    match walk(subject, Section::Main, &mut state, &mut peaks) {
        Ok(count) => {
            let own = *state.own();
            let answer = at(count + 1, main_section_end(subject, &state));
            MainWalked { own, peaks, answer }
        }
        Err(broken) => {
            let own = Bank::new();
            MainWalked {
                own,
                peaks,
                answer: Err(broken),
            }
        }
    }
}

/// The kinds of the session's slots as a walk through a section leaves them. It stands alone, so that only who has the section pays for room for a state.
#[inline(never)]
fn walk_bank(
    subject: &Subject<'_>,
    section: Section,
    own: &Bank<OWN_SLOTS>,
    bank: &Bank<SESSION_SLOTS>,
) -> Bank<SESSION_SLOTS>
    requires { all_known own.now ≡ own_after subject.now }
    ensures { all_known result ≡ bank_by subject.now section (all_known bank.now) }
{
    let mut state = first(subject, section, own, bank);
    let mut peaks = Totals::none();
    match walk(subject, section, &mut state, &mut peaks) {
        Ok(_) => *state.bank(),
        Err(_) => *bank,
    }
}

/// The kinds of the session's slots as a section leaves them, where it is there.
fn bank_by(
    subject: &Subject<'_>,
    section: Section,
    own: &Bank<OWN_SLOTS>,
    bank: &Bank<SESSION_SLOTS>,
) -> Bank<SESSION_SLOTS>
    requires { all_known own.now ≡ own_after subject.now }
    ensures { all_known result ≡ bank_by subject.now section (all_known bank.now) }
{
    match subject.body(section) {
        Some(_) => walk_bank(subject, section, own, bank),
        None => *bank,
    }
}

/// What sections start with: the own slots as `main` leaves them, and the slots of a session of each level between requests.
#[derive(Drop)]
pub struct Starts {
    pub(crate) own: Bank<OWN_SLOTS>,
    pub(crate) peaks: Totals,
    pub(crate) main: Result<(), Broken>,
    pub(crate) at_0: Bank<SESSION_SLOTS>,
    pub(crate) at_1: Bank<SESSION_SLOTS>,
    pub(crate) at_2: Bank<SESSION_SLOTS>,
    pub(crate) at_3: Bank<SESSION_SLOTS>,
}

impl Starts {
    /// What the sections of a program start with. It walks through `main`, `open` and the upgrades once.
    pub fn new(subject: &Subject<'_>) -> Starts
        ensures { IsStarts subject.now result }
    {
        let MainWalked { own, peaks, answer } = walk_main(subject);
        let at_0 = bank_by(subject, Section::Opening, &own, &Bank::new());
        let at_1 = bank_by(subject, Section::Upgrading(1), &own, &at_0);
        let at_2 = bank_by(subject, Section::Upgrading(2), &own, &at_1);
        let at_3 = bank_by(subject, Section::Upgrading(3), &own, &at_2);
        Starts {
            own,
            peaks,
            main: answer,
            at_0,
            at_1,
            at_2,
            at_3,
        }
    }

    /// The slots of a session of this level between requests.
    pub fn bank_at(&self, subject: &Subject<'_>, level: u8) -> &Bank<SESSION_SLOTS>
        requires starts { IsStarts subject.now self.now }
        requires level { level ≤ 3 }
        ensures { all_known result.now ≡ bank_at subject.now level }
    {
        match level {
            0 => &self.at_0,
            1 => &self.at_1,
            2 => &self.at_2,
            _ => &self.at_3,
        }
    }

    /// What is known where a section starts.
    pub fn start_of(&self, subject: &Subject<'_>, section: Section) -> AbstractState
        requires starts { IsStarts subject.now self.now }
        requires section { IsTrue (is_section section) }
        ensures { result ≡ start_of subject.now section }
    {
        match section {
            Section::Main => AbstractState::new(Bank::new(), Bank::new()),
            Section::Opening | Section::Reacting(_) => AbstractState::new(self.own, Bank::new()),
            Section::Upgrading(level) => AbstractState::new(
                self.own,
                *self.bank_at(subject, level - 1),
            ),
            Section::Calling(level) => {
                AbstractState::with_operand(self.own, *self.bank_at(subject, level), subject.arg())
            }
            Section::Closing(level) => AbstractState::new(self.own, *self.bank_at(subject, level)),
        }
    }
}
