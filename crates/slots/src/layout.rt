// Where the columns of each key stand among the kept or the cleared keys.
ghost use Rattle.std.specs.Prelude.{◌≡◌, false, ℕ, ◌<◌, length, get_or};
ghost use Rattle.factor.specs.Limits.{max_variables};
ghost use Rattle.slots.specs.Layouts.{member, dim_of, column_in, layout_of, spot_of, Listed};

use factor::limits::VARIABLES;

// For each key: whether it is cleared, its first column among the cleared or the kept keys, and its size.
#[derive(Clone, Copy)]
pub struct Layout {
    pub cleared: [bool; VARIABLES],
    pub first: [u8; VARIABLES],
    pub size: [u8; VARIABLES],
}

// What a layout has for one key.
#[derive(Clone, Copy)]
pub struct Spot {
    pub key: usize,
    pub cleared: bool,
    pub at: usize,
    pub size: usize,
}

// Whether a list has a key.
pub fn member(list: &[usize], key: usize) -> bool
    ensures { result ≡ member key list.now }
{
    list.contains(&key)
}

// The dimension of a list of keys.
pub fn dim_of(list: &[usize], sizes: [u8; VARIABLES]) -> usize
    requires { Listed list.now sizes }
    ensures { result ≡ dim_of sizes list.now }
{
    let mut sum = 0;
    for &key in list {
        sum += usize::from(sizes[key]);
    }
    sum
}

// The first column of every key in a list of keys, and the list's dimension for a key that it lacks. From the last key on, so that of a key
// that stands twice the first place counts.
fn firsts(list: &[usize], sizes: [u8; VARIABLES]) -> [u8; VARIABLES]
    requires { Listed list.now sizes }
    ensures { (length result ≡ max_variables) × ((key : ℕ) → key < max_variables → get_or result key 0 ≡ column_in sizes list.now key) }
{
    let mut column = dim_of(list, sizes);
    let mut r = [column as u8; VARIABLES];
    for &key in list.iter().rev() {
        column -= usize::from(sizes[key]);
        r[key] = column as u8;
    }
    r
}

// Whether a list has each key.
fn marks(list: &[usize]) -> [bool; VARIABLES]
    requires { (i : ℕ) → i < length list.now → get_or list.now i 0 < max_variables }
    ensures { (length result ≡ max_variables) × ((key : ℕ) → key < max_variables → get_or result key false ≡ member key list.now) }
{
    let mut r = [false; VARIABLES];
    for &key in list {
        r[key] = true;
    }
    r
}

// The layout of the kept and the cleared keys.
pub fn layout_of(kept: &[usize], cleared: &[usize], sizes: [u8; VARIABLES]) -> Layout
    requires listed { Listed kept.now sizes }
    requires listed_2 { Listed cleared.now sizes }
    ensures { result ≡ layout_of kept.now cleared.now sizes }
{
    let gone = marks(cleared);
    let among = firsts(cleared, sizes);
    let mut first = firsts(kept, sizes);
    for key in 0..VARIABLES {
        if gone[key] {
            first[key] = among[key];
        }
    }
    Layout {
        cleared: gone,
        first,
        size: sizes,
    }
}

impl Layout {
    // Where a key stands.
    pub fn find(&self, key: usize) -> Spot
        requires { key < max_variables }
        ensures { result ≡ spot_of self.now key }
    {
        Spot {
            key,
            cleared: self.cleared[key],
            at: usize::from(self.first[key]),
            size: usize::from(self.size[key]),
        }
    }
}
