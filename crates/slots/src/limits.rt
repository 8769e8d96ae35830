// How the tables of an elimination are laid out; `specs/Limits.antt` has the same numbers for the contracts.
use factor::limits::{SIZE, TOTAL};

// How many numbers the table of heads has for a slot.
pub const HEAD: usize = 6;

// How many numbers the product of a block column with its W has at most.
pub const SCRATCH: usize = SIZE * TOTAL;

// How many slots an elimination has at most.
pub const SLOTS: usize = 128;
