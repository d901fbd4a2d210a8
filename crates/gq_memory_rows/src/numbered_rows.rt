// Values by their numbers: the lowest free number is taken first.
ghost use Rattle.std.specs.Prelude.{◌≡◌, []};

use crate::used::used;
use gq_trade::Numbered;

// The numbers of two values, what the second one's reads once the first is removed, the number of a third value, and what that reads once it is set.
fn numbered(numbers: &mut Numbered<u32>) -> (usize, usize, u32, usize, u32)
    requires empty { numbers.old.values ≡ [] }
    requires room { numbers.old.room ≡ 3 }
{
    let first = numbers.add(7u32);
    let second = numbers.add(9u32);
    numbers.remove(first);
    let kept = numbers.get(second);
    let again = numbers.add(8u32);
    numbers.set(again, 6u32);
    (first, second, kept, again, numbers.get(again))
}

#[test]
fn takes_the_lowest_free_number(rt: HostRuntime) {
    assert_eq!(rt;
        used(Numbered::new(rt.alloc(), 3), numbered),
        Ok((0, 1, 9, 0, 6))
    );
}
