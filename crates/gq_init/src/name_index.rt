// Where leaves may be found by their names.
ghost use Rattle.std.specs.Prelude.{◌≡◌, true, ◌<◌, ◌≤◌, ◌+◌, ◌++◌, drop, length, IfSome, IsTrue, Some};
ghost use Rattle.std.specs.Int.{to_le_bytes, w32};
ghost use Rattle.gq_model.specs.machine.Routes.{numbered};
ghost use Rattle.gq_model.specs.machine.Scenario.{components};
ghost use Rattle.gq_model.specs.texts.Letters.{is_name};
ghost use Rattle.gq_init.specs.internal.Ahead.{IsLeafAhead, four_at};

use gq_model::spelling::same_text;
use gq_resolve::NodeTable;
use gq_scenario::scenario::LeafNo;

// How many ways are tried to spread names over the places of their index.
const SPREADS: u32 = 64;

// How many places names are spread over: many more than there are leaves, so that it seldom takes long until each has one of its own.
const PLACES: usize = 1024;

// What stands at a place that no leaf has.
const NO_LEAF: u8 = 255;

// How many bytes of a text are looked at for a name: the most that a name has.
const AHEAD: usize = 16;

// The same byte eight times: 1, a space, and the upper bit of each.
const ONES: u64 = 0x0101_0101_0101_0101;

const SPACES: u64 = 0x2020_2020_2020_2020;

const UPPER_BITS: u64 = 0x8080_8080_8080_8080;

// Eight bytes of a text as a number. It is inlined once it is one load, and not before.
fn eight(text: &[u8], from: usize) -> u64
    requires { from + 8 ≤ length text.now }
{
    u64::from_le_bytes([
        text[from],
        text[from + 1],
        text[from + 2],
        text[from + 3],
        text[from + 4],
        text[from + 5],
        text[from + 6],
        text[from + 7],
    ])
}

// Four bytes of a text as a number.
fn four(text: &[u8], from: usize) -> u32
    requires { from + 4 ≤ length text.now }
    ensures { to_le_bytes w32 result ≡ four_at text.now from }
{
    u32::from_le_bytes([text[from], text[from + 1], text[from + 2], text[from + 3]])
}

// Whether a text begins with this name. Most names have at most eight bytes: these are compared by their first and their last four, or one by one.
#[inline(always)]
fn is_ahead(name: &[u8], text: &[u8]) -> bool
    requires some { 0 < length name.now }
    requires within { length name.now ≤ length text.now }
    ensures { result ≡ true → text.now ≡ name.now ++ drop (length name.now) text.now }
{
    let end = name.len();
    if end > 8 {
        return same_text(&text[..end], name);
    }
    if end >= 4 {
        return four(text, 0) == four(name, 0) && four(text, end - 4) == four(name, end - 4);
    }
    text[0] == name[0] && text[end - 1] == name[end - 1] && (end < 3 || text[1] == name[1])
}

// Marks spaces among eight bytes: 0 where there is none, else the lowest bit that is set is the upper bit of the first.
#[inline(always)]
fn spaces(bytes: u64) -> u64 {
    let others = bytes ^ SPACES;
    others.wrapping_sub(ONES) & !others & UPPER_BITS
}

// Those of eight bytes that stand before the first space, of which these are the marks; all where there is none.
#[inline(always)]
fn before_space(bytes: u64, spaces: u64) -> u64 {
    let first = spaces & spaces.wrapping_neg();
    bytes & (first >> 7).wrapping_sub(1)
}

// How many of eight bytes stand before the first space, of which these are the marks.
#[inline(always)]
fn first_space(spaces: u64) -> usize
    ensures { result < 4294967296 }
{
    (spaces.trailing_zeros() / 8) as usize
}

/// For each place the number of the leaf whose name is spread to it. It is a hint: whoever asks compares the leaf's name.
#[derive(Drop)]
pub struct NameIndex {
    factor: u64,
    leaves: [u8; PLACES],
}

impl NameIndex {
    // An index without leaves.
    fn new() -> NameIndex {
        NameIndex {
            factor: 0x9e37_79b9_7f4a_7c15,
            leaves: [NO_LEAF; PLACES],
        }
    }

    // Takes all leaves out, and spreads names in another way from now on.
    fn respread(&mut self) {
        self.factor = self.factor.wrapping_mul(0x5851_f42d_4c95_7f2d) | 1;
        self.leaves = [NO_LEAF; PLACES];
    }

    // The place of what stands before the first space of a text, a name, of which eight bytes are looked at at once; and how many bytes stand there. So many
    // are known from the text alone, and the next line is looked for before the name's own length is there.
    #[inline(always)]
    fn place(&self, text: &[u8]) -> (usize, usize)
        requires { AHEAD ≤ length text.now }
        ensures { result.0 < PLACES }
    {
        let prefix = eight(text, 0);
        let marks = spaces(prefix);
        if marks != 0 {
            return (self.spread(before_space(prefix, marks)), first_space(marks));
        }
        let back = eight(text, 8);
        let marks = spaces(back);
        let name = prefix.rotate_left(29) ^ before_space(back, marks);
        (self.spread(name), 8 + first_space(marks))
    }

    // The place to which this number of a name is spread.
    #[inline(always)]
    fn spread(&self, name: u64) -> usize
        ensures { result < PLACES }
    {
        (name.wrapping_mul(self.factor) >> 54) as usize % PLACES
    }

    // The place of a name.
    fn place_of(&self, name: &[u8]) -> usize
        ensures { result < PLACES }
    {
        let mut text = [b' '; AHEAD];
        for place in 0..name.len().min(AHEAD) {
            text[place] = name[place];
        }
        self.place(&text).0
    }

    // Puts the number of a leaf of this name at its place, and returns whether that was free.
    fn put(&mut self, name: &[u8], number: u8) -> bool {
        let place = self.place_of(name);
        let is_free = self.leaves[place] == NO_LEAF;
        self.leaves[place] = number;
        is_free
    }

    // The number of the leaf at the place of this name, or one that no leaf has.
    fn number(&self, name: &[u8]) -> usize {
        usize::from(self.leaves[self.place_of(name)])
    }

    // The same for the name that stands at the start of a text, with a space after it where it has less than 16 bytes; and how many bytes stand before that.
    #[inline(always)]
    fn number_ahead(&self, text: &[u8]) -> (usize, usize)
        requires { AHEAD ≤ length text.now }
    {
        let (place, end) = self.place(text);
        (usize::from(self.leaves[place]), end)
    }

    // Puts all leaves of a table into an index that has none, and returns whether each has a place of its own.
    fn put_all(&mut self, table: &NodeTable) -> bool {
        let mut is_free = true;
        for number in 0..table.leaf_count() {
            let name = table.name(LeafNo::new(number as u32));
            is_free &= self.put(name.as_bytes(), number as u8);
        }
        is_free
    }

    /// The leaves of a table by their names, in the first of many ways to spread them that gives each a place of its own, else in the last. This looks at all
    /// of them, some more than once.
    pub fn of(table: &NodeTable) -> NameIndex {
        let mut index = NameIndex::new();
        for _ in 0..SPREADS {
            if index.put_all(table) {
                return index;
            }
            index.respread();
        }
        index.put_all(table);
        index
    }

    // The leaf of this name, where the index leads to it, which is of a table's names: in the same time whatever the number of leaves. `None` says nothing.
    fn leaf_likely(&self, name: &[u8], table: &NodeTable) -> Option<LeafNo>
        ensures name { IfSome result (λ x. IsTrue (is_name name.now)) }
        ensures number { IfSome result (λ x. numbered 0 name.now (components table.now) ≡ Some x) }
        ensures there { IfSome result (λ x. x < length (components table.now)) }
    {
        table.scenario().laws();
        let number = self.number(name);
        if number >= table.leaf_count() {
            return None;
        }
        let leaf = LeafNo::new(number as u32);
        let own = table.name(leaf);
        if same_text(name, own.as_bytes()) {
            return Some(leaf);
        }
        None
    }

    /// The leaf of this name, where there is one. The one to which the index leads, which is of a table's names, is compared first.
    pub(crate) fn leaf_named(&self, name: &[u8], table: &NodeTable) -> Option<LeafNo>
        ensures number { result ≡ numbered 0 name.now (components table.now) }
        ensures there { IfSome result (λ x. x < length (components table.now)) }
    {
        match self.leaf_likely(name, table) {
            Some(leaf) => Some(leaf),
            None => table.leaf_named(name),
        }
    }

    /// The leaf whose name stands at the start of a text with a space behind it, where the index leads to it, which is of a table's names, and what follows the
    /// space. `None` says nothing.
    #[inline(always)]
    pub(crate) fn leaf_ahead<'a>(
        &self,
        text: &'a [u8],
        table: &NodeTable,
    ) -> Option<(LeafNo, &'a [u8])>
        ensures ahead { IfSome result (λ r. IsLeafAhead (components table.now) text.now r.0 r.1.now) }
        ensures there { IfSome result (λ r. r.0 < length (components table.now)) }
    {
        if text.len() < AHEAD {
            return None;
        }
        table.scenario().laws();
        let (number, end) = self.number_ahead(text);
        if number >= table.leaf_count() {
            return None;
        }
        let leaf = LeafNo::new(number as u32);
        let own = table.name(leaf);
        let name = own.as_bytes();
        if name.len() != end || text.len() <= end || text[end] != b' ' {
            return None;
        }
        if is_ahead(name, text) {
            return Some((leaf, &text[end + 1..]));
        }
        None
    }
}
