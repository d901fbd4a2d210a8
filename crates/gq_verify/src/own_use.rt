// What `main` uses at most of its own account.
ghost use Rattle.std.specs.Prelude.{◌≡◌, ◌≤◌, ◌^◌, map, length, sum_by};
ghost use Rattle.gq_verify.specs.internal.Mains.{main_points, IsMost};
ghost use Rattle.gq_tariff.specs.Prices.{class_size};
ghost use Rattle.gq_model.specs.machine.Lists.{greatest};
ghost use Rattle.gq_model.specs.rules.Kinds.{kind_places};
ghost use Rattle.gq_model.specs.machine.Amounts.{Ram, Caps};
ghost use Rattle.gq_model.specs.rules.Budgets.{heap_cost, own};
ghost use Rattle.gq_caps.specs.Measured.{AreFew};

use gq_caps::Totals;
use gq_rules::Subject;
use gq_tariff::Amount;
use gq_tariff::class::Class;
use gq_tariff::price::{Held, price_caps, price_class};

/// The greatest number of places of a class at a point of `main`.
fn most_places(subject: &Subject<'_>, peaks: &Totals, class: Class) -> u64
    requires most { IsMost subject.now peaks.now }
    requires small { AreFew peaks.now }
    ensures most { result ≡ greatest (λ s. sum_by (kind_places (class_size class)) s.own) (main_points subject.now) }
    ensures small { result ≤ 2 ^ 22 }
{
    let _program = subject.program();
    peaks.places(class)
}

/// What the heap costs by the greatest number of places of each of these classes at a point of `main`.
fn heap(subject: &Subject<'_>, peaks: &Totals, classes: &[Class]) -> Amount
    requires most { IsMost subject.now peaks.now }
    requires small { AreFew peaks.now }
    requires few { length classes.now ≤ 8 }
    ensures ram { result.ram ≡ heap_cost Ram (main_points subject.now) (map class_size classes.now) }
    ensures caps { result.caps ≡ heap_cost Caps (main_points subject.now) (map class_size classes.now) }
    ensures small { result.ram ≤ 2 ^ 37 }
    ensures few { result.caps ≤ 2 ^ 37 }
{
    let mut ram = 0;
    let mut caps = 0;
    for class in classes {
        let peak = most_places(subject, peaks, *class);
        ram += price_class(*class, peak);
        caps += price_caps(Held::Places(*class, peak));
    }
    Amount { ram, caps }
}

/// The most that `main` uses of its own account, by the greatest of what is measured at its points: what its own slots hold and have lent,
/// and the heap, each at its greatest.
pub(crate) fn own(subject: &Subject<'_>, peaks: &Totals) -> Amount
    requires most { IsMost subject.now peaks.now }
    requires small { AreFew peaks.now }
    ensures ram { result.ram ≡ own Ram subject.now }
    ensures caps { result.caps ≡ own Caps subject.now }
{
    let heap = heap(subject, peaks, &Class::ALL);
    Amount {
        ram: peaks.ram + heap.ram,
        caps: peaks.caps + heap.caps,
    }
}
