// A factor of the graph: its record and the layout of its blocks. `weighing` has the numbers that are stored for it, `lists` what it needs of lists.
#![tactic(auto)]

pub mod limits;
pub mod lists;
pub mod weighing;

ghost use Rattle.std.specs.Prelude.{◌≡◌, true, ◌+◌, ◌*◌, ◌<◌, ◌≤◌, length};
ghost use Rattle.factor.specs.Limits.{max_keys, max_variables, most_numbers};
ghost use Rattle.factor.specs.Factor as spec;

use limits::{KEYS, ROWS, VARIABLES};
use lists::{Looked, lookup};

// A prior or an observation: its keys stand in the first places, rising, and unused places are 0. A prior has one key and that key's size as rows.
// It is live until another factor supersedes it.
#[derive(Clone, Copy, PartialEq, Eq)]
pub struct Factor {
    pub prior: bool,
    pub touched: u8,
    pub rows: u8,
    pub keys: [u8; KEYS],
    pub live: bool,
}

// The answer of `find`: the block of the key, by its first column and its size, and how many of the factor's keys were read.
#[derive(Drop)]
pub struct Lookup {
    pub found: Option<(usize, usize)>,
    pub read: usize,
}

// What the size table has for a key, and 0 for a key that it has no place for.
pub fn size_of(sizes: [u8; VARIABLES], key: usize) -> usize
    ensures { (result ≡ spec.size_of sizes key) × (result < 256) }
{
    if key < VARIABLES {
        usize::from(sizes[key])
    } else {
        0
    }
}

// The record of a prior on a key of that size.
pub fn prior_of(key: usize, size: usize) -> Factor
    requires { (key < 256) × (size < 256) }
    ensures { result ≡ spec.prior_of key size }
{
    let mut keys = [0u8; KEYS];
    keys[0] = key as u8;
    Factor {
        prior: true,
        touched: 1,
        rows: size as u8,
        keys: keys,
        live: true,
    }
}

// The record of an observation of some keys.
pub fn observation_of(keys: &[usize], rows: usize) -> Factor
    requires { (length keys.now ≤ max_keys) × (rows < 256) × (spec.known max_variables keys.now ≡ true) }
    ensures { result ≡ spec.observation_of keys.now rows }
{
    let mut packed = [0u8; KEYS];
    for (place, &key) in keys.iter().enumerate() {
        packed[place] = key as u8;
    }
    Factor {
        prior: false,
        touched: keys.len() as u8,
        rows: rows as u8,
        keys: packed,
        live: true,
    }
}

impl Factor {
    // The key at a place is registered and above the one before it, or the place is unused.
    #[tactic(auto, unfolding(crate::specs::Factor::key_fits, crate::specs::Factor::above, crate::specs::Counting::every))]
    fn key_fits(self, variables: usize, place: usize) -> bool
        requires { place < max_keys }
        ensures { result ≡ spec.key_fits variables self place }
    {
        let key = self.keys[place];
        if usize::from(self.touched) <= place {
            return key == 0;
        }
        usize::from(key) < variables && (place == 0 || self.keys[place - 1] < key)
    }

    // A prior has one key, whose size is its rows; an observation has rows within the limit.
    #[tactic(auto, unfolding(crate::specs::Factor::rows_fit, crate::specs::Counting::every))]
    fn rows_fit(self, sizes: [u8; VARIABLES]) -> bool
        ensures { result ≡ spec.rows_fit sizes self }
    {
        let rows = usize::from(self.rows);
        if self.prior {
            self.touched == 1 && rows == size_of(sizes, usize::from(self.keys[0]))
        } else {
            1 <= rows && rows <= ROWS
        }
    }

    // A registering call makes this record where so many variables have these sizes.
    #[tactic(auto, unfolding(crate::specs::Factor::fits, crate::specs::Counting::every))]
    pub fn fits(self, sizes: [u8; VARIABLES], variables: usize) -> bool
        ensures { (result ≡ spec.fits sizes variables self) × (length self.keys ≡ max_keys) }
    {
        usize::from(self.touched) <= KEYS
            && self.rows_fit(sizes)
            && (0..KEYS).all(|place| self.key_fits(variables, place))
    }

    // The record of an unused place.
    #[tactic(auto, unfolding(crate::specs::Factor::is_clear, crate::specs::Counting::every))]
    pub fn is_clear(self) -> bool
        ensures { (result ≡ spec.is_clear self) × (length self.keys ≡ max_keys) }
    {
        !self.prior
            && !self.live
            && self.touched == 0
            && self.rows == 0
            && self.keys.iter().all(|&key| key == 0)
    }

    // The first column of the block at a place: the sizes of the keys before it, added up.
    fn first_column(self, sizes: [u8; VARIABLES], place: usize) -> usize
        requires { place ≤ max_keys }
        ensures { (result ≡ spec.first_column sizes self.keys place) × (result ≤ 255 * max_keys) }
    {
        let mut sum = 0;
        for &key in &self.keys[..place] {
            sum += size_of(sizes, usize::from(key));
        }
        sum
    }

    // The total width.
    pub fn width(self, sizes: [u8; VARIABLES]) -> usize
        requires { self.touched ≤ max_keys }
        ensures { (result ≡ spec.width sizes self) × (result ≤ 255 * max_keys) }
    {
        self.first_column(sizes, usize::from(self.touched))
    }

    // The block of a key, by the lookup among the factor's keys.
    pub fn find(self, sizes: [u8; VARIABLES], key: usize) -> Lookup
        ensures { result ≡ spec.find sizes self key }
    {
        let used = usize::from(self.touched).min(KEYS);
        let Looked { place, read } = lookup(&self.keys[..used], key);
        let Some(at) = place else {
            return Lookup { found: None, read };
        };
        let block = (self.first_column(sizes, at), size_of(sizes, key));
        Lookup {
            found: Some(block),
            read,
        }
    }

    // How many numbers of A are stored: none for a prior.
    #[tactic(auto, unfolding(crate::specs::Factor::a_numbers))]
    pub fn a_numbers(self, sizes: [u8; VARIABLES]) -> usize
        requires { self.touched ≤ max_keys }
        ensures { (result ≡ spec.a_numbers sizes self) × (result ≤ 255 * (255 * max_keys)) }
    {
        if self.prior {
            0
        } else {
            usize::from(self.rows) * self.width(sizes)
        }
    }

    // How many numbers are stored: A, xi and W.
    #[tactic(auto, unfolding(crate::specs::Factor::numbers))]
    pub fn numbers(self, sizes: [u8; VARIABLES]) -> usize
        requires { self.touched ≤ max_keys }
        ensures { (result ≡ spec.numbers sizes self) × (result ≤ most_numbers) }
    {
        let rows = usize::from(self.rows);
        self.a_numbers(sizes) + rows + rows * rows
    }

    // Lengths are those of its A, its mean and its variance.
    #[tactic(auto, unfolding(crate::specs::Factor::lengths_fit, crate::specs::Counting::every))]
    pub fn lengths_fit(self, sizes: [u8; VARIABLES], a: usize, mean: usize, variance: usize) -> bool
        requires { self.touched ≤ max_keys }
        ensures { result ≡ spec.lengths_fit sizes self a mean variance }
    {
        let rows = usize::from(self.rows);
        a == self.a_numbers(sizes) && mean == rows && variance == rows * rows
    }

    // The block column of a key: the part of A that begins at its first column, and no numbers where the factor lacks the key.
    pub fn a_from_key<'a>(self, sizes: [u8; VARIABLES], key: usize, a: &'a [f64]) -> &'a [f64]
        requires { spec.width sizes self * self.rows ≤ length a.now }
        ensures { result.now ≡ spec.columns_at (spec.find sizes self key).found self.rows a.now }
    {
        let Some((first, size)) = self.find(sizes, key).found else {
            return &a[0..0];
        };
        let rows = usize::from(self.rows);
        let start = first * rows;
        &a[start..start + size * rows]
    }
}
