// What is greatest at the points of a walk.
ghost use Rattle.std.specs.Prelude.{◌≡◌, ◌≤◌, ◌<◌, ◌^◌, ℕ, IsTrue, Some, get_or, sum_by};
ghost use Rattle.gq_caps.specs.Known.{all_known, known};
ghost use Rattle.gq_model.specs.declared.section.Section.TheVariants.{Main};
ghost use Rattle.gq_model.specs.machine.Amounts.{Ram, Caps};
ghost use Rattle.gq_model.specs.machine.Lists.{greatest};
ghost use Rattle.gq_model.specs.machine.Program.{Statements, section_in};
ghost use Rattle.gq_model.specs.machine.Scenario as model;
ghost use Rattle.gq_model.specs.rules.Kinds.{kind_places};
ghost use Rattle.gq_model.specs.machine.Sections.{is_section};
ghost use Rattle.gq_tariff.specs.Prices.{classes};
ghost use Rattle.gq_verify.specs.Saturated_numbers.{saturated};
ghost use Rattle.gq_verify.specs.Visits.{most_shown, section_sights};
ghost use Rattle.gq_sizes.specs.Size.{lent_by, section_points, session_cost, slots_cost};
ghost use Rattle.gq_sizes.specs.Point_maxima.{given_in, sum_at};

use gq_caps::{Bank, Kind};
use gq_program::{Instruction, Interface, Interfaces, Section};
use gq_rules::session_rules::session_cost;
use gq_rules::{AbstractState, Context};
use gq_tariff::class::Class;
use gq_verify::{Verified, Visitor};

/// How many levels a session has at most.
pub(crate) const LEVELS: usize = 4;

/// What is given at least for sessions, in capabilities: of each interface the sums up to each level.
#[derive(Drop)]
pub(crate) struct LeastGifts<'a> {
    pub interfaces: &'a Interfaces,
    pub sums: &'a [[u64; LEVELS]],
}

impl<'a> LeastGifts<'a> {
    /// What is given at least for a session of the interface at a place, up to a level; nothing where there is none.
    fn at(&self, place: usize, level: u8) -> u64
        ensures { result ≡ sum_at (Some place) self.now.sums.now level }
    {
        match self.sums.get(place) {
            Some(sums) => match sums.get(usize::from(level).min(LEVELS - 1)) {
                Some(sum) => *sum,
                None => 0,
            },
            None => 0,
        }
    }

    /// What is given at least for a session of a service and a level.
    pub fn of(&self, service: &[u8], level: u8) -> u64
        ensures { result ≡ given_in self.now.interfaces.now self.now.sums.now service.now level }
    {
        match self.interfaces.place(service) {
            Some(place) => self.at(place, level),
            None => 0,
        }
    }

    /// What is given at least for the session of a link; nothing for what is no link.
    fn of_kind(&self, kind: &Kind) -> u64
        ensures { result ≡ lent_by (given_in self.now.interfaces.now self.now.sums.now) Caps (known kind.now) }
    {
        match kind {
            Kind::Link(link) => self.of(link.service(), link.level()),
            _ => 0,
        }
    }

    /// What slots hold in capabilities, with what is given at least for the sessions of their links; 2^64 - 1 where it is more.
    pub fn slots<const N: usize>(&self, bank: &Bank<N>) -> u64
        ensures { result ≡ saturated (slots_cost (given_in self.now.interfaces.now self.now.sums.now) Caps (all_known bank.now)) }
    {
        let mut sum = 0_u64;
        for kind in bank.kinds() {
            let price = kind.price().caps;
            sum = sum.saturating_add(price).saturating_add(self.of_kind(kind));
        }
        sum
    }
}

/// The most that a session costs, in bytes.
#[derive(Drop)]
struct MostRam<'a> {
    interface: &'a Interface,
    most: u64,
}

impl<'a> Visitor for MostRam<'a> {
    ghost use Rattle.std.specs.Prelude.{◌≡◌};
    ghost use Rattle.gq_sizes.specs.Point_maxima.{RaisesRam};

    ghost leads = { λ a e b. (b.interface ≡ a.interface) × RaisesRam a.interface.now a.most e b.most };

    fn statement(
        &mut self,
        _context: &Context<'_>,
        _state: &AbstractState,
        _instruction: &Instruction,
    ) {}

    fn point(&mut self, _number: u64, state: &AbstractState) {
        let cost = session_cost(self.interface, state.bank());
        self.most = self.most.max(cost.ram);
    }
}

/// The most that a session of an interface costs at a point of a section that is there, in bytes.
pub(crate) fn most_ram(verified: &Verified<'_>, section: Section, interface: &Interface) -> u64
    requires { IsTrue (is_section section) }
    ensures { (b : Statements) → section_in section verified.now.program.sections ≡ Some b →
        result ≡ greatest (session_cost (λ _ _. 0) Ram interface.now) (section_points verified.now section) }
{
    let mut visitor = MostRam { interface, most: 0 };
    verified.visit(section, &mut visitor);
    visitor.most
}

/// The most that a session costs in capabilities, with what is given at least for the sessions of its links.
#[derive(Drop)]
struct MostCaps<'a> {
    given: &'a LeastGifts<'a>,
    most: u64,
}

impl<'a> Visitor for MostCaps<'a> {
    ghost use Rattle.std.specs.Prelude.{◌≡◌};
    ghost use Rattle.gq_sizes.specs.Point_maxima.{RaisesCaps, given_in};

    ghost leads = { λ a e b. (b.given ≡ a.given) × RaisesCaps (given_in a.given.now.interfaces.now a.given.now.sums.now) a.most e b.most };

    fn statement(
        &mut self,
        _context: &Context<'_>,
        _state: &AbstractState,
        _instruction: &Instruction,
    ) {}

    fn point(&mut self, _number: u64, state: &AbstractState) {
        let slots = self.given.slots(state.bank());
        self.most = self.most.max(slots.saturating_add(1));
    }
}

/// The most that a session costs at a point of a section that is there, in capabilities, with what is given at least for the sessions of its links; 2^64 - 1
/// where it is more.
pub(crate) fn most_caps(verified: &Verified<'_>, section: Section, given: &LeastGifts<'_>) -> u64
    requires { IsTrue (is_section section) }
    ensures { (b : Statements) (i : model.Interface) → section_in section verified.now.program.sections ≡ Some b →
        result ≡ saturated (greatest (session_cost (given_in given.now.interfaces.now given.now.sums.now) Caps i) (section_points verified.now section)) }
{
    let mut visitor = MostCaps { given, most: 0 };
    verified.visit(section, &mut visitor);
    visitor.most
}

/// What `main` holds at most in capabilities: its slots, with what is given at least for the sessions of their links; and the places of each class of the heap.
#[derive(Drop)]
pub(crate) struct MostOwn<'a> {
    given: &'a LeastGifts<'a>,
    pub slots: u64,
    pub places: [u64; 8],
}

impl<'a> Visitor for MostOwn<'a> {
    ghost use Rattle.std.specs.Prelude.{◌≡◌};
    ghost use Rattle.gq_sizes.specs.Point_maxima.{AreFewMore, RaisesOwn, RaisesPlaces, given_in};

    ghost leads = { λ a e b. (b.given ≡ a.given) × RaisesOwn (given_in a.given.now.interfaces.now a.given.now.sums.now) a.slots e b.slots
        × RaisesPlaces a.places e b.places × AreFewMore a.places b.places };

    fn statement(
        &mut self,
        _context: &Context<'_>,
        _state: &AbstractState,
        _instruction: &Instruction,
    ) {}

    fn point(&mut self, _number: u64, state: &AbstractState) {
        self.slots = self.slots.max(self.given.slots(state.own()));
        let totals = state.own().totals();
        self.places = [
            self.places[0].max(totals.places(Class::Bytes16)),
            self.places[1].max(totals.places(Class::Bytes32)),
            self.places[2].max(totals.places(Class::Bytes64)),
            self.places[3].max(totals.places(Class::Bytes128)),
            self.places[4].max(totals.places(Class::Bytes256)),
            self.places[5].max(totals.places(Class::Bytes512)),
            self.places[6].max(totals.places(Class::Bytes1024)),
            self.places[7].max(totals.places(Class::Bytes2048)),
        ];
    }
}

/// What `main` holds at most in capabilities, by what is given at least for sessions.
pub(crate) fn most_own<'a>(verified: &Verified<'_>, given: &'a LeastGifts<'a>) -> MostOwn<'a>
    ensures slots { result.slots ≡ most_shown (λ s. saturated (slots_cost (given_in given.now.interfaces.now given.now.sums.now) Caps s.own))
        (section_sights verified.now Main) }
    ensures places { (k : ℕ) → k < 8 → get_or result.places k 0
        ≡ most_shown (λ s. sum_by (kind_places (get_or classes k 0)) s.own) (section_sights verified.now Main) }
    ensures few { (k : ℕ) → k < 8 → get_or result.places k 0 ≤ 2 ^ 22 }
{
    let mut visitor = MostOwn {
        given,
        slots: 0,
        places: [0, 0, 0, 0, 0, 0, 0, 0],
    };
    verified.visit(Section::Main, &mut visitor);
    visitor
}
