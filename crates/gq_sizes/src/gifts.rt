// What is given for upgrades at least.
ghost use Rattle.std.specs.Prelude.{◌≡◌, ◌≤◌, ◌+◌, ◌-◌, ◌*◌, ◌^◌, ◌∷◌, [], ℕ, List, IsTrue, IfSome};
ghost use Rattle.gq_model.specs.machine.Sections.{is_section};
ghost use Rattle.gq_verify.specs.Visits.{after_all, section_sights};
ghost use Rattle.gq_sizes.specs.Size.{Gift, gifts_above, gifts_in, least_gift};
ghost use Rattle.gq_sizes.specs.Needing.{given_at, gift_row, gifts_of, least_of, up_to};

use crate::point_maxima::LEVELS;
use gq_model::spelling::same_text;
use gq_program::{Instruction, Name, Section};
use gq_rules::{AbstractState, Context};
use gq_verify::{Verified, Visitor};

/// The least bytes that any statement gives for each level of a service, where one does.
pub(crate) type Gifts = [Option<u32>; LEVELS];

/// What statements give for a level of a service at least, as they are seen.
#[derive(Drop)]
struct Giving<'a> {
    service: &'a Name,
    level: u8,
    least: Option<u32>,
}

impl<'a> Giving<'a> {
    /// So many bytes are given for a level of a service.
    fn give(&mut self, service: &[u8], level: u8, given: u32)
        ensures service { self.new.service ≡ self.old.service }
        ensures level { self.new.level ≡ self.old.level }
        ensures least { self.new.least ≡ least_of self.old.least (least_gift self.old.service.now self.old.level ((service.now, level, given) ∷ [])) }
    {
        if same_text(self.service.as_bytes(), service) && level == self.level {
            self.least = match self.least {
                Some(least) => Some(least.min(given)),
                None => Some(given),
            };
        }
    }
}

impl<'a> Visitor for Giving<'a> {
    ghost use Rattle.std.specs.Prelude.{◌≡◌};
    ghost use Rattle.gq_sizes.specs.Needing.{given_at};

    ghost leads = { λ a e b. (b.service ≡ a.service) × (b.level ≡ a.level) × (b.least ≡ given_at a.service.now a.level a.least e) };

    fn statement(
        &mut self,
        context: &Context<'_>,
        state: &AbstractState,
        instruction: &Instruction,
    ) {
        if let Instruction::Upgrade(place, given) = instruction {
            if let Some(link) = context.link_at(state, *place) {
                self.give(link.service(), link.level() + 1, *given);
            }
        }
    }

    fn point(&mut self, _number: u64, _state: &AbstractState) {}
}

/// The least that is given for a level of a service, also by a section of a leaf.
fn section_gift(
    verified: &Verified<'_>,
    section: Section,
    service: &Name,
    level: u8,
    least: Option<u32>,
) -> Option<u32>
    requires { IsTrue (is_section section) }
    ensures { result ≡ after_all (given_at service.now level) least (section_sights verified.now section) }
{
    let mut visitor = Giving {
        service,
        level,
        least,
    };
    verified.visit(section, &mut visitor);
    visitor.least
}

/// The least that is given for a level of a service, also by a leaf.
fn leaf_gift(
    verified: &Verified<'_>,
    service: &Name,
    level: u8,
    mut least: Option<u32>,
) -> Option<u32>
    ensures { result ≡ least_of least (least_gift service.now level (gifts_in verified.now verified.now.program.sections)) }
{
    for (section, _body) in verified.sections() {
        least = section_gift(verified, *section, service, level, least);
    }
    least
}

/// The least that is given for a level of a service by any leaf.
fn least_gift(leaves: &[Verified<'_>], service: &Name, level: u8) -> Option<u32>
    ensures { result ≡ least_gift service.now level (gifts_of leaves.now) }
{
    let mut least = None;
    for verified in leaves {
        least = leaf_gift(verified, service, level, least);
    }
    least
}

/// The least that is given for a level of a service with so many.
fn gift_up_to(leaves: &[Verified<'_>], service: &Name, upgrades: u8, level: u8) -> Option<u32>
    ensures { result ≡ up_to upgrades (λ l. least_gift service.now l (gifts_of leaves.now)) level }
{
    if level <= upgrades {
        least_gift(leaves, service, level)
    } else {
        None
    }
}

/// The least that is given for each level of a service with so many.
pub(crate) fn least_gifts(leaves: &[Verified<'_>], service: &Name, upgrades: u8) -> Gifts
    ensures { result ≡ gift_row (gifts_of leaves.now) service.now upgrades }
{
    [
        None,
        gift_up_to(leaves, service, upgrades, 1),
        gift_up_to(leaves, service, upgrades, 2),
        gift_up_to(leaves, service, upgrades, 3),
    ]
}

/// The least that is given for so many levels above one, together; none where one of them is never reached.
pub(crate) fn given_above(gifts: &Gifts, level: usize, count: usize) -> Option<u64>
    requires { level + count ≤ 3 }
    ensures given { (given : List Gift) (service : List ℕ) (u : ℕ) → gifts.now ≡ gift_row given service u → count ≤ u - level →
        result ≡ gifts_above given service count level }
    ensures small { IfSome result (λ n. n ≤ count * 2 ^ 32) }
{
    match count {
        0 => Some(0),
        _ => {
            let first = gifts[level + 1]?;
            let others = given_above(gifts, level + 1, count - 1)?;
            Some(u64::from(first) + others)
        }
    }
}
