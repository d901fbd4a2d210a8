// Parts of scenarios that are the same in two of them.
ghost use Rattle.std.specs.Prelude.{◌≡◌, IsTrue, option_map};
ghost use Rattle.gq_scenario.specs.Given.{source_of};
ghost use Rattle.gq_scenario.specs.Targets.{target_of};

use gq_model::program::Name;
use gq_model::spelling::same_text;
use gq_program::{Counts, Interface};
use gq_scenario::scenario::{Route, Target, Version};
use gq_scenario::source::Source;

/// Whether two names are one.
pub fn same_name(a: &Name, b: &Name) -> bool
    ensures same { IsTrue result → a.now ≡ b.now }
    ensures only { a.now ≡ b.now → IsTrue result }
{
    same_text(a.as_bytes(), b.as_bytes())
}

/// Whether two names are one, or there is neither.
pub fn same_names(a: Option<&Name>, b: Option<&Name>) -> bool
    ensures same { IsTrue result → option_map (λ n. n.now) a.entry ≡ option_map (λ n. n.now) b.entry }
    ensures only { option_map (λ n. n.now) a.entry ≡ option_map (λ n. n.now) b.entry → IsTrue result }
{
    match (a, b) {
        (Some(a), Some(b)) => same_name(a, b),
        (None, None) => true,
        _ => false,
    }
}

/// Whether two versions are one.
pub fn same_version(a: Version, b: Version) -> bool
    ensures same { IsTrue result → a ≡ b }
    ensures only { a ≡ b → IsTrue result }
{
    match (a, b) {
        (Version::One, Version::One) => true,
        (Version::Two, Version::Two) => true,
        (Version::Three, Version::Three) => true,
        (Version::Four, Version::Four) => true,
        _ => false,
    }
}

/// Whether two routes lead to the same place.
fn same_target(a: &Target, b: &Target) -> bool
    ensures same { IsTrue result → target_of a.now ≡ target_of b.now }
    ensures only { target_of a.now ≡ target_of b.now → IsTrue result }
{
    match (a, b) {
        (Target::Child(a), Target::Child(b)) => same_name(a, b),
        (Target::AnyChild, Target::AnyChild) => true,
        (Target::Parent, Target::Parent) => true,
        _ => false,
    }
}

/// Whether two routes are the same.
fn same_route(a: &Route, b: &Route) -> bool
    ensures same { IsTrue result → a.now ≡ b.now }
    ensures only { a.now ≡ b.now → IsTrue result }
{
    same_names(a.service(), b.service()) && same_target(a.target(), b.target())
}

/// Whether two lists of routes are the same.
fn same_list(a: &[Route], b: &[Route]) -> bool
    ensures same { IsTrue result → a.now ≡ b.now }
    ensures only { a.now ≡ b.now → IsTrue result }
{
    match (a, b) {
        ([], []) => true,
        ([a, more @ ..], [b, others @ ..]) => same_route(a, b) && same_list(more, others),
        _ => false,
    }
}

/// Whether two lists of routes are the same, or there is neither.
pub fn same_routes(a: Option<&[Route]>, b: Option<&[Route]>) -> bool
    ensures same { IsTrue result → option_map (λ r. r.now) a.entry ≡ option_map (λ r. r.now) b.entry }
    ensures only { option_map (λ r. r.now) a.entry ≡ option_map (λ r. r.now) b.entry → IsTrue result }
{
    match (a, b) {
        (Some(a), Some(b)) => same_list(a, b),
        (None, None) => true,
        _ => false,
    }
}

/// Whether two lists of offers are the same.
pub fn same_offers(a: &[(Name, Name)], b: &[(Name, Name)]) -> bool
    ensures same { IsTrue result → a.now ≡ b.now }
    ensures only { a.now ≡ b.now → IsTrue result }
{
    match (a, b) {
        ([], []) => true,
        ([(service, child), more @ ..], [(other, named), others @ ..]) => {
            same_name(service, other) && same_name(child, named) && same_offers(more, others)
        }
        _ => false,
    }
}

/// Whether two lists of numbers are the same.
pub fn same_numbers(a: &[u32], b: &[u32]) -> bool
    ensures same { IsTrue result → a.now ≡ b.now }
    ensures only { a.now ≡ b.now → IsTrue result }
{
    a == b
}

/// Whether two programs are given alike.
pub fn same_source(a: &Source, b: &Source) -> bool
    ensures same { IsTrue result → source_of a.now ≡ source_of b.now }
    ensures only { source_of a.now ≡ source_of b.now → IsTrue result }
{
    match (a, b) {
        (Source::Text(a), Source::Text(b)) => same_text(a.as_slice(), b.as_slice()),
        (Source::Code(a), Source::Code(b)) => same_text(a.as_slice(), b.as_slice()),
        _ => false,
    }
}

/// Whether the sessions of two interfaces may cost no more of the same.
pub fn same_counts(a: &Interface, b: &Interface) -> bool
    ensures same { IsTrue result → a.now.counted ≡ b.now.counted }
    ensures only { a.now.counted ≡ b.now.counted → IsTrue result }
{
    match (a.counts(), b.counts()) {
        (Counts::Nothing, Counts::Nothing) => true,
        (Counts::Bytes, Counts::Bytes) => true,
        (Counts::BytesAndCaps, Counts::BytesAndCaps) => true,
        _ => false,
    }
}
