// The first points at which what a leaf or a session costs is greatest.
ghost use Rattle.std.specs.Prelude.{◌≡◌, ◌≤◌, ◌^◌, ℕ, ◌<◌, IsTrue, None, get_or, if◌then◌else◌, nat_lt, option_map};
ghost use Rattle.gq_tariff.specs.Prices.{classes};
ghost use Rattle.gq_caps.specs.Known.{all_known};
ghost use Rattle.gq_model.specs.declared.section.Section.TheVariants.{Main};
ghost use Rattle.gq_model.specs.machine.Amounts.{Ram, Caps};
ghost use Rattle.gq_model.specs.machine.Sections.{is_section};
ghost use Rattle.gq_verify.specs.Visits.{after_all, section_sights};
ghost use Rattle.gq_why.specs.First_maxima.{IsCounted, or_higher, picked_session, top_in, top_own};
ghost use Rattle.gq_why.specs.Why.{highest, places_at, points_of};

use gq_caps::Bank;
use gq_program::{Instruction, Section};
use gq_rules::{AbstractState, Context};
use gq_tariff::class::Class;
use gq_verify::{Verified, Visitor};

/// The first point at which a sum is greatest: its section, its number, the sum, and what the slots hold there.
#[derive(Clone, Copy)]
pub(crate) struct Highest<const N: usize> {
    pub section: Section,
    pub number: u64,
    pub sum: u64,
    pub bank: Bank<N>,
}

/// The first of these points and a further one at which the sum is greatest.
fn raise<const N: usize>(
    highest: &mut Option<Highest<N>>,
    section: Section,
    number: u64,
    sum: u64,
    bank: &Bank<N>,
)
    ensures { option_map top_in highest.new ≡ or_higher (section, number, sum, all_known bank.now) (option_map top_in highest.old) }
{
    let next = Highest {
        section,
        number,
        sum,
        bank: *bank,
    };
    match &*highest {
        Some(point) => {
            if sum > point.sum {
                *highest = Some(next);
            }
        }
        None => *highest = Some(next),
    }
}

/// The points of sections at which the slots of a session hold and have lent most, in bytes and in capabilities.
#[derive(Drop)]
pub(crate) struct HighestSession {
    section: Section,
    pub ram: Option<Highest<8>>,
    pub caps: Option<Highest<8>>,
}

impl HighestSession {
    /// Of no section.
    pub fn new() -> HighestSession
        ensures ram { option_map top_in result.ram ≡ None }
        ensures caps { option_map top_in result.caps ≡ None }
    {
        HighestSession {
            section: Section::Main,
            ram: None,
            caps: None,
        }
    }

    /// The points of a section more.
    pub fn see(&mut self, verified: &Verified<'_>, section: Section)
        requires { IsTrue (is_section section) }
        ensures ram { option_map top_in self.new.ram
            ≡ after_all (picked_session section Ram) (option_map top_in self.old.ram) (section_sights verified.now section) }
        ensures caps { option_map top_in self.new.caps
            ≡ after_all (picked_session section Caps) (option_map top_in self.old.caps) (section_sights verified.now section) }
    {
        self.section = section;
        verified.visit(section, self);
    }
}

impl Visitor for HighestSession {
    ghost use Rattle.std.specs.Prelude.{◌≡◌, option_map};
    ghost use Rattle.gq_model.specs.machine.Amounts.{Ram, Caps};
    ghost use Rattle.gq_why.specs.First_maxima.{picked_session, top_in};

    ghost leads = { λ a e b. (b.section ≡ a.section)
        × (option_map top_in b.ram ≡ picked_session a.section Ram (option_map top_in a.ram) e)
        × (option_map top_in b.caps ≡ picked_session a.section Caps (option_map top_in a.caps) e) };

    fn statement(
        &mut self,
        _context: &Context<'_>,
        _state: &AbstractState,
        _instruction: &Instruction,
    ) {}

    fn point(&mut self, number: u64, state: &AbstractState) {
        let cost = state.bank().cost();
        raise(&mut self.ram, self.section, number, cost.ram, state.bank());
        raise(
            &mut self.caps,
            self.section,
            number,
            cost.caps,
            state.bank(),
        );
    }
}

/// The greatest number of places so far with the number of the first point that has it, once a further point has so many.
fn counted(first: (u64, u64), count: u64, number: u64) -> (u64, u64)
    ensures { result ≡ (if nat_lt first.0 count then (count, number) else first) }
{
    if count > first.0 {
        (count, number)
    } else {
        first
    }
}

/// The points of `main` at which its slots hold and have lent most, in bytes and in capabilities.
///
/// Of each class of the heap it has the greatest number of places, with the number of the first point that has it.
#[derive(Drop)]
pub(crate) struct HighestOwn {
    pub ram: Option<Highest<64>>,
    pub caps: Option<Highest<64>>,
    pub places: [(u64, u64); 8],
}

impl HighestOwn {
    /// Of the points of a program's `main`.
    pub fn of(verified: &Verified<'_>) -> HighestOwn
        ensures ram { option_map top_in result.ram ≡ top_own Ram (points_of verified.now Main) }
        ensures caps { option_map top_in result.caps ≡ top_own Caps (points_of verified.now Main) }
        ensures places { (k : ℕ) → k < 8 → IsCounted (places_at (get_or classes k 0)) (highest (places_at (get_or classes k 0)) (points_of verified.now Main))
            (get_or result.places k (0, 0)) }
        ensures few { (k : ℕ) → k < 8 → (get_or result.places k (0, 0)).0 ≤ 2 ^ 22 }
    {
        verified.laws();
        let mut highest = HighestOwn {
            ram: None,
            caps: None,
            places: [(0, 0); 8],
        };
        verified.visit(Section::Main, &mut highest);
        highest
    }
}

impl Visitor for HighestOwn {
    ghost use Rattle.std.specs.Prelude.{◌≡◌, ℕ, ◌<◌, get_or, option_map};
    ghost use Rattle.gq_tariff.specs.Prices.{classes};
    ghost use Rattle.gq_model.specs.machine.Amounts.{Ram, Caps};
    ghost use Rattle.gq_why.specs.First_maxima.{AreFewMore, counted_at, picked_own, top_in};
    ghost use Rattle.gq_why.specs.Why.{places_at};

    ghost leads = { λ a e b. (option_map top_in b.ram ≡ picked_own Ram (option_map top_in a.ram) e)
        × (option_map top_in b.caps ≡ picked_own Caps (option_map top_in a.caps) e)
        × ((k : ℕ) → k < 8 → get_or b.places k (0, 0) ≡ counted_at (places_at (get_or classes k 0)) (get_or a.places k (0, 0)) e)
        × AreFewMore a.places b.places };

    fn statement(
        &mut self,
        _context: &Context<'_>,
        _state: &AbstractState,
        _instruction: &Instruction,
    ) {}

    fn point(&mut self, number: u64, state: &AbstractState) {
        let own = state.own();
        let cost = own.cost();
        raise(&mut self.ram, Section::Main, number, cost.ram, own);
        raise(&mut self.caps, Section::Main, number, cost.caps, own);
        let totals = own.totals();
        self.places = [
            counted(self.places[0], totals.places(Class::Bytes16), number),
            counted(self.places[1], totals.places(Class::Bytes32), number),
            counted(self.places[2], totals.places(Class::Bytes64), number),
            counted(self.places[3], totals.places(Class::Bytes128), number),
            counted(self.places[4], totals.places(Class::Bytes256), number),
            counted(self.places[5], totals.places(Class::Bytes512), number),
            counted(self.places[6], totals.places(Class::Bytes1024), number),
            counted(self.places[7], totals.places(Class::Bytes2048), number),
        ];
    }
}
