// Which bytes of a page may be other than 0: so that no byte is cleared which is 0.
ghost use Rattle.std.specs.Prelude.{◌≡◌, ℕ, ◌+◌, ◌/◌, ◌%◌, ◌<◌, ◌≤◌, ◌⊎◌, length, get_or};

use gq_tariff::price::PAGE;

// The bytes of a page.
const PAGE_SIZE: usize = PAGE as usize;

// The `count` bytes from `index` on, which are of one page, may be other than 0 from now on.
#[inline(always)]
pub(crate) fn marked(marks: &mut Vec<u16>, index: usize, count: usize)
    requires there { index / 4096 < length marks.old.items }
    requires within { index % 4096 + count ≤ 4096 }
    ensures covered { index % 4096 + count ≤ get_or marks.new.items (index / 4096) 0 }
    ensures more { (k : ℕ) → get_or marks.old.items k 0 ≤ get_or marks.new.items k 0 }
    ensures as_many { length marks.new.items ≡ length marks.old.items }
{
    let page = index / PAGE_SIZE;
    let end = (index % PAGE_SIZE + count) as u16;
    if marks[page] < end {
        marks[page] = end;
    }
}

// How many of the `count` bytes from `start` on, which are of one page, have to be cleared so that all of them are 0. They count as cleared from now on.
pub(crate) fn swept(marks: &mut Vec<u16>, start: usize, count: usize) -> usize
    requires there { start / 4096 < length marks.old.items }
    requires within { start % 4096 + count ≤ 4096 }
    ensures few { result ≤ count }
    ensures rest { (i : ℕ) → start + result ≤ i → i < start + count → get_or marks.old.items (i / 4096) 0 ≤ i % 4096 }
    ensures clean { (i : ℕ) → get_or marks.new.items (i / 4096) 0 ≤ i % 4096
        → (get_or marks.old.items (i / 4096) 0 ≤ i % 4096) ⊎ ((start ≤ i) × (i < start + result)) }
    ensures as_many { length marks.new.items ≡ length marks.old.items }
{
    let page = start / PAGE_SIZE;
    let offset = start % PAGE_SIZE;
    let mark = usize::from(marks[page]);
    if mark <= offset {
        return 0;
    }
    if offset + count < mark {
        return count;
    }
    marks[page] = offset as u16;
    mark - offset
}
