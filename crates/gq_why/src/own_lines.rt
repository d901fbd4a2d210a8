// What a leaf uses of its own account.
ghost use Rattle.std.specs.Prelude.{◌≡◌, ◌<◌, ◌≤◌, ◌^◌, ◌++◌, ℕ, OnOk, get_or, length, map, option_map};
ghost use Rattle.gq_tariff.specs.Prices.{class_size};
ghost use Rattle.gq_scenario.specs.Component_trees.{version_number};
ghost use Rattle.gq_why.specs.First_maxima.{top_in};
ghost use Rattle.gq_why.specs.Why.{own_parts, places_cost};
ghost use Rattle.gq_why.specs.internal.Visitor_lines.{counted_line, counted_lines, own_lines};

use crate::greatest_points::{Highest, HighestOwn};
use crate::point_lines::{push_of, push_point, push_slots};
use gq_program::Section;
use gq_scenario::scenario::{Quantum, Version};
use gq_tariff::Resource;
use gq_tariff::class::Class;
use gq_tariff::price::{Held, price_caps, price_class};
use gq_verify::Verified;
use gq_views::view_words::{end_line, push_number};
use std::alloc::AllocError;

/// Puts the point at which the own slots cost most at the end of a text, with what each costs; nothing where that is nothing.
fn push_highest(
    text: &mut Vec<u8>,
    resource: Resource,
    highest: &Option<Highest<64>>,
) -> Result<(), AllocError>
    ensures { OnOk result (text.new.items ≡ text.old.items ++ own_lines resource (option_map top_in highest.now)) }
{
    let Some(point) = highest else {
        return Ok(());
    };
    if point.sum == 0 {
        return Ok(());
    }
    push_point(text, Section::Main, point.number)?;
    push_number(text, point.sum)?;
    end_line(text)?;
    push_slots(text, resource, b"o", point.bank.kinds())
}

/// What so many places of a class cost.
fn places_cost(resource: Resource, class: Class, count: u64) -> u64
    requires { count ≤ 2 ^ 22 }
    ensures { result ≡ places_cost resource (class_size class) count }
{
    match resource {
        Resource::Ram => price_class(class, count),
        Resource::Caps => price_caps(Held::Places(class, count)),
    }
}

/// Puts the line of the places of a class at the end of a text, where one is counted.
fn push_class(
    text: &mut Vec<u8>,
    resource: Resource,
    class: Class,
    count: u64,
    number: u64,
) -> Result<(), AllocError>
    requires { count ≤ 2 ^ 22 }
    ensures { OnOk result (text.new.items ≡ text.old.items ++ counted_line resource (class_size class) number count) }
{
    if count == 0 {
        return Ok(());
    }
    push_point(text, Section::Main, number)?;
    push_number(text, places_cost(resource, class, count))?;
    text.extend_from_slice(b" for ")?;
    push_number(text, count)?;
    text.extend_from_slice(b" places of ")?;
    push_number(text, class.size())?;
    end_line(text)
}

/// Puts the lines of the places of these classes at the end of a text.
fn push_classes(
    text: &mut Vec<u8>,
    resource: Resource,
    classes: &[Class],
    places: &[(u64, u64); 8],
) -> Result<(), AllocError>
    requires eight { length classes.now ≤ 8 }
    requires few { (k : ℕ) → k < 8 → (get_or places.now k (0, 0)).0 ≤ 2 ^ 22 }
    ensures { OnOk result (text.new.items ≡ text.old.items ++ counted_lines resource places.now 0 (map class_size classes.now)) }
{
    for (place, class) in classes.iter().enumerate() {
        let (count, number) = places[place];
        push_class(text, resource, *class, count, number)?;
    }
    Ok(())
}

/// Puts the part of a leaf's own account at the end of a text, and that of capabilities where they are counted.
pub(crate) fn push_owns(
    text: &mut Vec<u8>,
    version: Version,
    verified: &Verified<'_>,
    quantum: Quantum,
) -> Result<(), AllocError>
    ensures { OnOk result (text.new.items ≡ text.old.items ++ own_parts (version_number version) verified.now quantum) }
{
    let highest = HighestOwn::of(verified);
    text.extend_from_slice(b"own ")?;
    push_of(text, verified.own(), quantum.ram())?;
    push_highest(text, Resource::Ram, &highest.ram)?;
    push_classes(text, Resource::Ram, &Class::ALL, &highest.places)?;
    if !version.counts_caps() {
        return Ok(());
    }
    text.extend_from_slice(b"own caps ")?;
    push_of(text, verified.own_caps(), u64::from(quantum.caps()))?;
    push_highest(text, Resource::Caps, &highest.caps)?;
    push_classes(text, Resource::Caps, &Class::ALL, &highest.places)
}
