// The limits of a graph, each once; `specs/Limits.antt` has the same numbers for the contracts.
pub const VARIABLES: usize = 32;

pub const SIZE: usize = 6;

pub const TOTAL: usize = 32;

pub const FACTORS: usize = 64;

pub const KEYS: usize = 4;

pub const ROWS: usize = 6;

// The numbers of a matrix of as many rows and columns.
pub const SQUARE: usize = ROWS * ROWS;
