// How many bytes a job's records take; `specs/Records.antt` has the same numbers for the contracts.
use factor::limits::{KEYS, ROWS, SQUARE, TOTAL};

// A mark, a variable after its mark, an observation's counts and flag, the number of a factor to be superseded, and a float.
pub const MARK_BYTES: usize = 2;

pub const VARIABLE_BYTES: usize = 9;

pub const HEADER_BYTES: usize = 3;

pub const NUMBER_BYTES: usize = 1;

pub const FLOAT_BYTES: usize = 8;

// A variable's record, and at most a factor's beside its numbers: one that supersedes another has its own mark within.
pub const VARIABLE_RECORD: usize = MARK_BYTES + VARIABLE_BYTES;

pub const FACTOR_FRAME: usize = MARK_BYTES + NUMBER_BYTES + MARK_BYTES + HEADER_BYTES + KEYS;

// The longest record: an observation with all its numbers.
pub const LONGEST: usize = FACTOR_FRAME + FLOAT_BYTES * (ROWS * TOTAL + ROWS + SQUARE);
