// Tests of what a call is given.
ghost use Rattle.std.specs.Prelude.{◌≡◌};
ghost use Rattle.graph.specs.Record as spec;
ghost use Rattle.graph.specs.Registration as calls;

use factor::limits::{KEYS, ROWS, SIZE};

// A Unicode scalar value.
#[tactic(auto, unfolding(crate::specs::Record::scalar))]
pub fn scalar(letter: u32) -> bool
    ensures { result ≡ spec.scalar letter }
{
    letter < 0xD800 || (0xE000 <= letter && letter < 0x110000)
}

// The size of a variable is at least 1 and within its limit.
#[tactic(auto, unfolding(crate::specs::Record::size_fits, factor::specs::Counting::every))]
pub fn size_fits(size: usize) -> bool
    ensures { result ≡ spec.size_fits size }
{
    1 <= size && size <= SIZE
}

// The counts of an observation's keys and rows are within their limits.
#[tactic(auto, unfolding(crate::specs::Registration::counts_fit, factor::specs::Counting::every))]
pub fn counts_fit(keys: usize, rows: usize) -> bool
    ensures { result ≡ calls.counts_fit keys rows }
{
    keys <= KEYS && 1 <= rows && rows <= ROWS
}
